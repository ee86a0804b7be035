// Messages between peers (02, orders 1, 4 and 6): the topics' names, tested at set-up, the reader of an RPC and its writer. `ids`,
// `numbers` and `order` are the table of message ids (crate message_ids).
ghost use Rattle.std.specs.Prelude.{◌≡◌};
ghost use Rattle.answers.specs.Answers.{packed as packedOf};
ghost use Rattle.host_messages.specs.Messages.{names_number, HostsReadMessage};
ghost use Rattle.rpc.specs.Names.{names_ok};
ghost use Rattle.host_messages.specs.Writing.{HostsWriteMessage};

use rpc::NAMES_BYTES;

// Tests the names of topics, eight rows of a length and 64 bytes: 0, or 2.
#[unsafe(no_mangle)]
pub extern "C" fn hivepadlet_names(names: &[u8; NAMES_BYTES]) -> u64
    ensures { result ≡ packedOf (names_number (names_ok names.now)) 0 }
{
    host_messages::names(names)
}

// Reads an RPC into a lent list, three numbers an entry: 0 with the number of entries, 8, 2, or 10 with the place.
#[unsafe(no_mangle)]
pub extern "C" fn hivepadlet_read_message(
    names: &[u8; NAMES_BYTES],
    ids: &[u8],
    numbers: &[u64],
    order: &[u64],
    message: &[u8],
    entries: &mut [u64],
) -> u64
    ensures { HostsReadMessage names ids numbers order message result entries }
{
    host_messages::read(names, ids, numbers, order, message, entries)
}

// Writes an RPC of an action list for one peer with a topic or a message's number beside each action, and of joins and leaves: 0 with the
// length, 2, or 13.
#[unsafe(no_mangle)]
pub extern "C" fn hivepadlet_write_message(
    names: &[u8; NAMES_BYTES],
    ids: &[u8],
    numbers: &[u64],
    order: &[u64],
    actions: &[u32],
    topics: &[u64],
    changes: &[u64],
    buffer: &mut [u8],
) -> u64
    ensures { HostsWriteMessage names ids numbers order actions topics changes result buffer }
{
    host_messages::write(names, ids, numbers, order, actions, topics, changes, buffer)
}
