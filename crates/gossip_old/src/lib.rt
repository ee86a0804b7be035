// Connect, disconnect and leave of a router with the array of orders 6 and 7: what 01's call does, and where it is answered 0, what becomes
// of the array besides. Each is handed the table and the array, asks nothing of its caller, and promises the rules' reply (crate gossip).
#![tactic(auto)]

pub mod made;

ghost use Rattle.std.specs.Prelude.{◌≡◌, Bool, ℕ, length};
ghost use Rattle.records.specs.Records.{slot_count};
ghost use Rattle.words.specs.Words.{bits_of};
ghost use Rattle.sets.specs.Sets.{by_slot};
ghost use Rattle.rules.specs.Calls.{connect as Calls·connect, disconnect as Calls·disconnect, leave as Calls·leave};
ghost use Rattle.gossip.specs.Calls.{old};
ghost use Rattle.gossip.specs.Step.{on_found_note};
ghost use Rattle.gossip.specs.Valid.{valid_all};
ghost use Rattle.gossip_table.specs.View.{gossip_cells, gossip_of, extended_of};
ghost use Rattle.gossip_gate.specs.Promise.{FollowsAll};
ghost use Rattle.gossip_old.specs.Made.{of_fresh};
ghost use Rattle.gossip_old.specs.Tested.{FineFound, emptied};

use gossip_gate::NOT_ROUTER;
use gossip_peers::reclaim::reclaimed_slots;
use gossip_table::GOSSIP_CELLS;
use layout::CELLS;
use lookup::FreshError;
use lookup::find::find_connected;
use words::WORDS;
use words::slots::Slots;

// Why no router with an array was made: a set-up number is out of its range, or the first number or rule of the parameters that is broken.
#[derive(Clone, Copy)]
pub enum MakeError {
    OutOfRange,
    Broken(usize),
}

impl From<FreshError> for MakeError {
    ghost from_gives = { λ fresh result. result ≡ of_fresh fresh };

    fn from(fresh: FreshError) -> MakeError {
        match fresh {
            FreshError::Broken(i) => MakeError::Broken(i),
        }
    }
}

// Test 12: the table is a router's, and the array is beside it.
pub fn is_router(table: &[u64; CELLS], gossip: &[u64; GOSSIP_CELLS]) -> bool
    ensures { result ≡ valid_all (extended_of table.now gossip.now) }
{
    if !validity::valid::is_router(table) {
        return false;
    }
    gossip_table::tests::is_gossip(table, gossip)
}

// The records of a set of slots are given up, and their notes with them.
fn clear_slots(gossip: &mut [u64], set: &[u64; WORDS])
    requires { length gossip.old ≡ gossip_cells }
    ensures { (f : ℕ → Bool) → bits_of set.now ≡ by_slot slot_count f →
        gossip_of gossip.new ≡ emptied f (gossip_of gossip.old) }
{
    for slot in Slots::of(*set) {
        gossip_table::noted::clear(gossip, slot);
    }
}

// The connection of a slot ends: its replies, and then its set. The counts of the heartbeat stay with the record.
fn part_found(gossip: &mut [u64], found: Option<usize>)
    requires { FineFound gossip.old found }
    ensures { gossip_of gossip.new ≡ on_found_note found (gossip_of gossip.old) }
{
    let Some(slot) = found else {
        return;
    };
    gossip_table::stored::end(gossip, slot);
    gossip_table::noted::part(gossip, slot);
}

// The three calls keep their frame: each looks up something else before 01's call, and a function over two closures would be no shorter.

// A connection is there, as crate peers has it. A record that is given up takes its note with it.
pub fn connect(
    table: &mut [u64; CELLS],
    gossip: &mut [u64; GOSSIP_CELLS],
    time: u64,
    id: u64,
    groups: &[u64],
    flags: u64,
    name: &[u8],
    actions: &mut [u32],
) -> u64
    ensures { FollowsAll (old (Calls·connect time id groups.now flags name.now)) result
        table.old table.new gossip.old gossip.new
        actions.old actions.new }
{
    if !is_router(table, gossip) {
        return NOT_ROUTER;
    }
    // which records are reclaimed is known before the call only
    let set = reclaimed_slots(table, time);
    let a = peers::connect(table, time, id, groups, flags, name, actions);
    if answers::number_of(a) != 0 {
        return answers::code(a);
    }
    clear_slots(gossip, &set);
    answers::code(a)
}

// A connection is gone, and with it its set and its replies.
pub fn disconnect(
    table: &mut [u64; CELLS],
    gossip: &mut [u64; GOSSIP_CELLS],
    time: u64,
    id: u64,
    actions: &mut [u32],
) -> u64
    ensures { FollowsAll (old (Calls·disconnect time id)) result
        table.old table.new gossip.old gossip.new
        actions.old actions.new }
{
    if !is_router(table, gossip) {
        return NOT_ROUTER;
    }
    let found = find_connected(table, id);
    let a = peers::disconnect(table, time, id, actions);
    if answers::number_of(a) != 0 {
        return answers::code(a);
    }
    part_found(gossip, found);
    answers::code(a)
}

// We leave a topic: its store is emptied, and the replies with what only it had.
pub fn leave(
    table: &mut [u64; CELLS],
    gossip: &mut [u64; GOSSIP_CELLS],
    time: u64,
    topic: u64,
    actions: &mut [u32],
) -> u64
    ensures { FollowsAll (old (Calls·leave time topic)) result
        table.old table.new gossip.old gossip.new
        actions.old actions.new }
{
    if !is_router(table, gossip) {
        return NOT_ROUTER;
    }
    let a = leaving::leave(table, time, topic, actions);
    if answers::number_of(a) != 0 {
        return answers::code(a);
    }
    gossip_table::stored::empty(gossip, topic as usize);
    answers::code(a)
}
