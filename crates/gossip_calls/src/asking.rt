// An IHAVE, and an IWANT, that came in.
ghost use Rattle.std.specs.Prelude.{◌≡◌, length};
ghost use Rattle.std.proofs.lemmas.List.Edits.{sets};
ghost use Rattle.gossip.specs.Calls.{new, ihave as Calls·ihave, iwant as Calls·iwant};
ghost use Rattle.gossip.specs.Step.{is_served, iwant_reply, is_answered, ihave_reply};
ghost use Rattle.gossip_table.specs.View.{extended_of};
ghost use Rattle.gossip_gate.specs.Promise.{LeavesAll, FollowsAll, Tells};
ghost use Rattle.gossip_gate.specs.Admitted.{SlotAdmitted};
ghost use Rattle.gossip_calls.specs.Asked.{HavingAt, Answering, Wanting};

use crate::NUMBERS;
use effects::slots::is_joined;
use gate::{id_ok, time_ok, topic_ok};
use gossip_gate::{finish, ignore};
use gossip_peers::callers::admit_peer;
use gossip_peers::senders::under_gossip;
use gossip_table::noted::{count_ihave, may_ihave};
use gossip_table::{GOSSIP_CELLS, load_reply_bound, stored};
use layout::CELLS;
use records::ACTION_ROOM;

// Whether an IHAVE of the peer in a slot is answered. A score costs more than the other tests, and comes last.
fn is_answered(table: &[u64], gossip: &[u64], topic: usize, slot: usize) -> bool
    requires { Answering table.now gossip.now topic slot }
    ensures { result ≡ is_answered (extended_of table.now gossip.now) topic slot }
{
    if !(is_joined(table, topic) & may_ihave(gossip, slot)) {
        return false;
    }
    !under_gossip(table, slot)
}

// Which of the given numbers we want; the IHAVE is counted.
fn answer(
    table: &mut [u64],
    gossip: &mut [u64],
    time: u64,
    topic: usize,
    slot: usize,
    given: &[u64],
    numbers: &mut [u64],
) -> u64
    requires { HavingAt table.old gossip.old time topic slot given.now numbers.old }
    ensures { LeavesAll
        (ihave_reply (extended_of table.old gossip.old) time topic given.now slot) result
        table.old table.new gossip.old gossip.new
        × (numbers.new ≡ sets numbers.old 0
        (ihave_reply (extended_of table.old gossip.old) time topic given.now slot).numbers) }
{
    if !is_answered(table, gossip, topic, slot) {
        return ignore(table, time);
    }
    let count = stored::want(gossip, given, numbers);
    count_ihave(gossip, slot);
    finish(table, time, 0, count)
}

// A peer has messages of a topic.
pub fn ihave(
    table: &mut [u64; CELLS],
    gossip: &mut [u64; GOSSIP_CELLS],
    time: u64,
    id: u64,
    topic: u64,
    given: &[u64],
    numbers: &mut [u64],
    actions: &mut [u32],
) -> u64
    ensures { FollowsAll (new (Calls·ihave time id topic given.now (length numbers.old))) result
        table.old table.new gossip.old gossip.new actions.old actions.new
        × Tells (new (Calls·ihave time id topic given.now (length numbers.old)))
        table.old gossip.old actions.old numbers.old numbers.new }
{
    let fine = time_ok(time) & (id_ok(id) & (topic_ok(topic) & (given.len() <= NUMBERS)));
    let fits = (ACTION_ROOM <= actions.len()) & (NUMBERS <= numbers.len());
    match admit_peer(table, gossip, fine, fits, time, id) {
        Ok(slot) => answer(table, gossip, time, topic as usize, slot, given, numbers),
        Err(refusal) => refusal,
    }
}

// Whether an IWANT of the peer in a slot for a stored number is answered. A score costs more than the count, and comes last.
fn is_served(table: &[u64], gossip: &[u64], number: u64, slot: usize) -> bool
    requires { Wanting table.now gossip.now number slot }
    ensures { result ≡ is_served (extended_of table.now gossip.now) number slot }
{
    if load_reply_bound(gossip) <= stored::count(gossip, number, slot) {
        return false;
    }
    !under_gossip(table, slot)
}

// The reply is counted.
fn serve(table: &mut [u64], gossip: &mut [u64], time: u64, number: u64, slot: usize) -> u64
    requires { SlotAdmitted table.old gossip.old time slot }
    ensures { LeavesAll (iwant_reply (extended_of table.old gossip.old) time number slot) result
        table.old table.new gossip.old gossip.new }
{
    let Some(place) = stored::find(gossip, number) else {
        return ignore(table, time);
    };
    if !is_served(table, gossip, number, slot) {
        return ignore(table, time);
    }
    stored::reply(gossip, number, slot, place as u64);
    finish(table, time, 0, 0)
}

// A peer wants a message.
pub fn iwant(
    table: &mut [u64; CELLS],
    gossip: &mut [u64; GOSSIP_CELLS],
    time: u64,
    id: u64,
    number: u64,
    actions: &mut [u32],
) -> u64
    ensures { FollowsAll (new (Calls·iwant time id number)) result table.old table.new
        gossip.old gossip.new actions.old actions.new }
{
    let fine = time_ok(time) & id_ok(id);
    let fits = ACTION_ROOM <= actions.len();
    match admit_peer(table, gossip, fine, fits, time, id) {
        Ok(slot) => serve(table, gossip, time, number, slot),
        Err(refusal) => refusal,
    }
}
