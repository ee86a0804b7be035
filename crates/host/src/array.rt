// A router with the array of IDONTWANT, IHAVE and IWANT (02, orders 6 and 7): made, tested, and its calls. Each call is handed the table
// and the array.
ghost use Rattle.std.specs.Prelude.{◌≡◌, length};
ghost use Rattle.index.specs.Index.{one};
ghost use Rattle.rules.specs.Calls.{connect as Calls·connect, disconnect as Calls·disconnect, leave as Calls·leave};
ghost use Rattle.gossip.specs.Calls.{announce as Calls·announce, ask_all, beat as Calls·beat, idontwant as Calls·idontwant};
ghost use Rattle.gossip.specs.Calls.{ihave as Calls·ihave, iwant as Calls·iwant, new, old, relay as Calls·relay, store as Calls·store};
ghost use Rattle.gossip.specs.Valid.{valid_all};
ghost use Rattle.gossip_gate.specs.Promise.{FollowsAll, Tells};
ghost use Rattle.gossip_table.specs.View.{extended_of, setup_of};
ghost use Rattle.host_gossip.specs.Routers.{HostsLoadAll, HostsMade, ordinary_setup};
ghost use Rattle.params.specs.Editions.{edition_of};

use gossip_table::{GOSSIP_CELLS, SETUP};
use layout::CELLS;
use limits::NUMBERS;

// The ordinary set-up numbers.
#[unsafe(no_mangle)]
pub extern "C" fn hivepadlet_ordinary_setup(setup: &mut [u64; SETUP])
    ensures { setup.new ≡ ordinary_setup }
{
    host_gossip::ordinary_setup(setup);
}

// Makes a fresh router with its array: 0, 2, or 9 with the index or rule.
#[unsafe(no_mangle)]
pub extern "C" fn hivepadlet_gossip_fresh(
    numbers: &[i64; NUMBERS],
    edition: u64,
    setup: &[u64; SETUP],
    table: &mut [u64; CELLS],
    gossip: &mut [u64; GOSSIP_CELLS],
) -> u64
    ensures { HostsMade (setup_of setup.now) (edition_of edition) numbers.now result
        table.old table.new gossip.old gossip.new }
{
    host_gossip::fresh(numbers, edition, setup, table, gossip)
}

// Makes a router of a save, its parameters and the set-up numbers, at a clock: 0, 2, 9 with the index, the rule or the place, or 10 with
// the place.
#[unsafe(no_mangle)]
pub extern "C" fn hivepadlet_gossip_load(
    numbers: &[i64; NUMBERS],
    edition: u64,
    setup: &[u64; SETUP],
    clock: u64,
    bytes: &[u8],
    table: &mut [u64; CELLS],
    gossip: &mut [u64; GOSSIP_CELLS],
) -> u64
    ensures { HostsLoadAll (setup_of setup.now) (edition_of edition) numbers.now clock bytes.now result
        table.old table.new gossip.old gossip.new }
{
    host_gossip::load(numbers, edition, setup, clock, bytes, table, gossip)
}

// Test 12: 1 if the table is a router's and the array is beside it, else 0.
#[unsafe(no_mangle)]
pub extern "C" fn hivepadlet_gossip_is_router(
    table: &[u64; CELLS],
    gossip: &[u64; GOSSIP_CELLS],
) -> u32
    ensures { result ≡ one (valid_all (extended_of table.now gossip.now)) }
{
    host_gossip::is_router(table, gossip)
}

// A peer connects; a record that is given up takes its counts with it.
#[unsafe(no_mangle)]
pub extern "C" fn hivepadlet_gossip_connect(
    table: &mut [u64; CELLS],
    gossip: &mut [u64; GOSSIP_CELLS],
    time: u64,
    id: u64,
    groups: &[u64],
    flags: u64,
    name: &[u8],
    actions: &mut [u32],
) -> u64
    ensures { FollowsAll (old (Calls·connect time id groups.now flags name.now)) result table.old table.new
        gossip.old gossip.new actions.old actions.new }
{
    gossip_old::connect(table, gossip, time, id, groups, flags, name, actions)
}

// A peer disconnects; its set and the counts of what it was sent end with its connection.
#[unsafe(no_mangle)]
pub extern "C" fn hivepadlet_gossip_disconnect(
    table: &mut [u64; CELLS],
    gossip: &mut [u64; GOSSIP_CELLS],
    time: u64,
    id: u64,
    actions: &mut [u32],
) -> u64
    ensures { FollowsAll (old (Calls·disconnect time id)) result table.old table.new
        gossip.old gossip.new actions.old actions.new }
{
    gossip_old::disconnect(table, gossip, time, id, actions)
}

// We leave a topic; its message numbers go.
#[unsafe(no_mangle)]
pub extern "C" fn hivepadlet_gossip_leave(
    table: &mut [u64; CELLS],
    gossip: &mut [u64; GOSSIP_CELLS],
    time: u64,
    topic: u64,
    actions: &mut [u32],
) -> u64
    ensures { FollowsAll (old (Calls·leave time topic)) result table.old table.new
        gossip.old gossip.new actions.old actions.new }
{
    gossip_old::leave(table, gossip, time, topic, actions)
}

// Whom to tell IDONTWANT.
#[unsafe(no_mangle)]
pub extern "C" fn hivepadlet_send_idontwant(
    table: &mut [u64; CELLS],
    gossip: &[u64; GOSSIP_CELLS],
    time: u64,
    topic: u64,
    sender: u64,
    number: u64,
    actions: &mut [u32],
) -> u64
    ensures { FollowsAll (new (ask_all time topic sender number)) result table.old table.new
        gossip.now gossip.now actions.old actions.new }
{
    notice_calls::send_idontwant(table, gossip, time, topic, sender, number, actions)
}

// An IDONTWANT came in.
#[unsafe(no_mangle)]
pub extern "C" fn hivepadlet_idontwant(
    table: &mut [u64; CELLS],
    gossip: &mut [u64; GOSSIP_CELLS],
    time: u64,
    id: u64,
    number: u64,
    actions: &mut [u32],
) -> u64
    ensures { FollowsAll (new (Calls·idontwant time id number)) result table.old table.new
        gossip.old gossip.new actions.old actions.new }
{
    notice_calls::idontwant(table, gossip, time, id, number, actions)
}

// To whom a message is passed on.
#[unsafe(no_mangle)]
pub extern "C" fn hivepadlet_relay(
    table: &mut [u64; CELLS],
    gossip: &[u64; GOSSIP_CELLS],
    time: u64,
    topic: u64,
    sender: u64,
    number: u64,
    actions: &mut [u32],
) -> u64
    ensures { FollowsAll (new (Calls·relay time topic sender number)) result table.old table.new
        gossip.now gossip.now actions.old actions.new }
{
    notice_calls::relay(table, gossip, time, topic, sender, number, actions)
}

// A heartbeat of all topics.
#[unsafe(no_mangle)]
pub extern "C" fn hivepadlet_beat(
    table: &mut [u64; CELLS],
    gossip: &mut [u64; GOSSIP_CELLS],
    time: u64,
    actions: &mut [u32],
) -> u64
    ensures { FollowsAll (new (Calls·beat time)) result table.old table.new
        gossip.old gossip.new actions.old actions.new }
{
    gossip_calls::storing::beat(table, gossip, time, actions)
}

// We have a message of a topic.
#[unsafe(no_mangle)]
pub extern "C" fn hivepadlet_store(
    table: &mut [u64; CELLS],
    gossip: &mut [u64; GOSSIP_CELLS],
    time: u64,
    topic: u64,
    number: u64,
    actions: &mut [u32],
) -> u64
    ensures { FollowsAll (new (Calls·store time topic number)) result table.old table.new
        gossip.old gossip.new actions.old actions.new }
{
    gossip_calls::storing::store(table, gossip, time, topic, number, actions)
}

// What IHAVE tells, and whom.
#[unsafe(no_mangle)]
pub extern "C" fn hivepadlet_announce(
    table: &mut [u64; CELLS],
    gossip: &[u64; GOSSIP_CELLS],
    time: u64,
    topic: u64,
    permutation: &[u64],
    numbers: &mut [u64],
    actions: &mut [u32],
) -> u64
    ensures { FollowsAll (new (Calls·announce time topic permutation.now (length numbers.old))) result table.old
        table.new
        gossip.now gossip.now actions.old actions.new
        × Tells (new (Calls·announce time topic permutation.now (length numbers.old)))
        table.old gossip.now actions.old numbers.old numbers.new }
{
    gossip_calls::announcing::announce(table, gossip, time, topic, permutation, numbers, actions)
}

// An IHAVE came in.
#[unsafe(no_mangle)]
pub extern "C" fn hivepadlet_ihave(
    table: &mut [u64; CELLS],
    gossip: &mut [u64; GOSSIP_CELLS],
    time: u64,
    id: u64,
    topic: u64,
    given: &[u64],
    numbers: &mut [u64],
    actions: &mut [u32],
) -> u64
    ensures { FollowsAll (new (Calls·ihave time id topic given.now (length numbers.old))) result table.old
        table.new
        gossip.old gossip.new actions.old actions.new
        × Tells (new (Calls·ihave time id topic given.now (length numbers.old)))
        table.old gossip.old actions.old numbers.old numbers.new }
{
    gossip_calls::asking::ihave(table, gossip, time, id, topic, given, numbers, actions)
}

// An IWANT came in: 0 is the reply.
#[unsafe(no_mangle)]
pub extern "C" fn hivepadlet_iwant(
    table: &mut [u64; CELLS],
    gossip: &mut [u64; GOSSIP_CELLS],
    time: u64,
    id: u64,
    number: u64,
    actions: &mut [u32],
) -> u64
    ensures { FollowsAll (new (Calls·iwant time id number)) result table.old table.new
        gossip.old gossip.new actions.old actions.new }
{
    gossip_calls::asking::iwant(table, gossip, time, id, number, actions)
}
