// The tests that every call with the array begins with (12, 2, 8, 1), and the ends that move the clock.
#![tactic(auto)]

ghost use Rattle.std.specs.Prelude.{◌≡◌, ◌+◌, ◌*◌, length, set};
ghost use Rattle.records.specs.Records.{set_clock};
ghost use Rattle.layout.specs.View.{cell_count, clock_at, state_of};
ghost use Rattle.gossip.specs.Calls.{sender_ok};
ghost use Rattle.gossip_table.specs.View.{extended_of};
ghost use Rattle.gossip_table.specs.Fine.{Both};
ghost use Rattle.gossip_gate.specs.Promise.{gate_all};
ghost use Rattle.gossip_gate.specs.Admitted.{Ending};

use validity::valid::MAX_ID;

// The answers' numbers.
pub const EARLY: u64 = 1;

pub const OUT_OF_RANGE: u64 = 2;

pub const NOT_CONNECTED: u64 = 3;

pub const NOT_PERMUTATION: u64 = 7;

pub const LIST_SHORT: u64 = 8;

pub const IGNORED: u64 = 11;

pub const NOT_ROUTER: u64 = 12;

pub const NO_ROOM: u64 = 13;

// How far up what comes back tells the actions, and the numbers.
const ACTIONS_AT: u64 = 256;

const NUMBERS_AT: u64 = 16777216;

// Peers have ids from 1 on; 0 is ourselves.
pub fn sender_ok(sender: u64) -> bool
    ensures { result ≡ sender_ok sender }
{
    sender <= MAX_ID
}

// 0 where all tests are passed. `fine` says that each argument is in its range, `fits` that each lent list is long enough.
pub fn admit(table: &[u64], gossip: &[u64], fine: bool, fits: bool, time: u64) -> u64
    requires { Both table.now gossip.now }
    ensures { result ≡ gate_all (extended_of table.now gossip.now) fine fits time }
{
    if !validity::valid::is_router(table) {
        return NOT_ROUTER;
    }
    if !gossip_table::tests::is_gossip(table, gossip) {
        return NOT_ROUTER;
    }
    if !fine {
        return OUT_OF_RANGE;
    }
    if !fits {
        return LIST_SHORT;
    }
    if time < layout::load_clock(table) {
        return EARLY;
    }
    0
}

// 0, with so many actions and numbers.
pub fn finish(table: &mut [u64], time: u64, actions: usize, numbers: usize) -> u64
    requires { Ending table.old actions numbers }
    ensures { (result ≡ 256 * actions + 16777216 * numbers)
        × (state_of table.new ≡ set_clock (state_of table.old) time) }
{
    layout::store_clock(table, time);
    ACTIONS_AT * (actions as u64) + NUMBERS_AT * (numbers as u64)
}

// 11.
pub fn ignore(table: &mut [u64], time: u64) -> u64
    requires { length table.old ≡ cell_count }
    ensures { (result ≡ 11) × (state_of table.new ≡ set_clock (state_of table.old) time)
        × (table.new ≡ set table.old clock_at time) }
{
    layout::store_clock(table, time);
    IGNORED
}
