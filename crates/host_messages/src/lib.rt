// Messages between peers for a host (02, orders 1, 4 and 6): the topics' names, tested at set-up, the reader of an RPC and its writer. Each
// promises what the function below does, with the answer as one number (specs/Messages.antt, specs/Writing.antt); none asks anything.
// `ids`, `numbers` and `order` are the table of message ids (crate message_ids).
#![tactic(auto)]

ghost use Rattle.std.specs.Prelude.{◌≡◌};
ghost use Rattle.answers.specs.Answers.{packed as packedOf};
ghost use Rattle.host_messages.specs.Messages.{names_number, HostsReadMessage};
ghost use Rattle.host_messages.specs.Writing.{HostsWriteMessage};
ghost use Rattle.rpc.specs.Names.{names_ok};

use answers::packed;
use rpc::{NAMES_BYTES, ReadError};
use rpc_write::WriteError;

// Tests the names of topics, eight rows of a length and 64 bytes: 0, or 2.
pub fn names(names: &[u8; NAMES_BYTES]) -> u64
    ensures { result ≡ packedOf (names_number (names_ok names.now)) 0 }
{
    if rpc::names_ok(names) {
        packed(0, 0)
    } else {
        packed(2, 0)
    }
}

// Reads an RPC into a lent list, three numbers an entry: 0 with the number of entries, 8, 2, or 10 with the place.
pub fn read(
    names: &[u8; NAMES_BYTES],
    ids: &[u8],
    numbers: &[u64],
    order: &[u64],
    message: &[u8],
    entries: &mut [u64],
) -> u64
    ensures { HostsReadMessage names ids numbers order message result entries }
{
    match rpc::read(names, ids, numbers, order, message, entries) {
        Ok(count) => packed(0, count as u64),
        Err(ReadError::ListShort) => packed(8, 0),
        Err(ReadError::NotTable) => packed(2, 0),
        Err(ReadError::Malformed(place)) => packed(10, place as u64),
    }
}

// Writes an RPC of an action list for one peer with a topic or a message's number beside each action, and of joins and leaves: 0 with the
// length, 2, or 13.
pub fn write(
    names: &[u8; NAMES_BYTES],
    ids: &[u8],
    numbers: &[u64],
    order: &[u64],
    actions: &[u32],
    topics: &[u64],
    changes: &[u64],
    buffer: &mut [u8],
) -> u64
    ensures { HostsWriteMessage names ids numbers order actions topics changes result buffer }
{
    match rpc_actions::write(names, ids, numbers, order, actions, topics, changes, buffer) {
        Ok(size) => packed(0, size as u64),
        Err(WriteError::NotList) => packed(2, 0),
        Err(WriteError::Short) => packed(13, 0),
    }
}
