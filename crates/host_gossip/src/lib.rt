// A router with the array of orders 6 and 7, for a host: made fresh or of a save, and test 12. Each function promises what the one below
// does, with the answer as one number (specs/Routers.antt); none asks anything of its caller.
#![tactic(auto)]

pub mod loads;

ghost use Rattle.std.specs.Prelude.{Some};
ghost use Rattle.std.specs.Prelude.{◌≡◌};
ghost use Rattle.index.specs.Index.{one};
ghost use Rattle.params.specs.Editions.{edition_of};
ghost use Rattle.gossip.specs.Valid.{valid_all};
ghost use Rattle.gossip_table.specs.View.{extended_of, setup_of};
ghost use Rattle.host_gossip.specs.Routers.{HostsMade, ordinary_setup};

pub use crate::loads::load;
use answers::packed;
use gossip_old::MakeError;
use gossip_table::{GOSSIP_CELLS, SETUP};
use layout::CELLS;
use limits::NUMBERS;
use params::{Edition, Params};

// The ordinary set-up numbers: the limit of order 6, D_lazy, the factor in thousandths, and the bounds of IHAVEs and of replies.
pub fn ordinary_setup(setup: &mut [u64; SETUP])
    ensures { setup.new ≡ ordinary_setup }
{
    *setup = [10, 6, 250, 10, 3];
}

// Makes a fresh router of parameters given by value.
fn make(
    all: Params,
    setup: &[u64; SETUP],
    table: &mut [u64; CELLS],
    gossip: &mut [u64; GOSSIP_CELLS],
) -> u64
    ensures { HostsMade (setup_of setup.now) (Some all.edition) all.numbers result
        table.old table.new gossip.old gossip.new }
{
    match gossip_old::made::fresh(all, setup, table, gossip) {
        Ok(()) => packed(0, 0),
        Err(MakeError::OutOfRange) => packed(2, 0),
        Err(MakeError::Broken(i)) => packed(9, i as u64),
    }
}

// Makes a fresh router with its array: 0, 2, or 9 with the index or rule.
pub fn fresh(
    numbers: &[i64; NUMBERS],
    edition: u64,
    setup: &[u64; SETUP],
    table: &mut [u64; CELLS],
    gossip: &mut [u64; GOSSIP_CELLS],
) -> u64
    ensures { HostsMade (setup_of setup.now) (edition_of edition) numbers.now result
        table.old table.new gossip.old gossip.new }
{
    let Ok(e) = Edition::try_from(edition) else {
        return packed(2, 0);
    };
    let all = Params {
        numbers: *numbers,
        edition: e,
    };
    make(all, setup, table, gossip)
}

// Test 12: 1 if the table is a router's and the array is beside it, else 0.
pub fn is_router(table: &[u64; CELLS], gossip: &[u64; GOSSIP_CELLS]) -> u32
    ensures { result ≡ one (valid_all (extended_of table.now gossip.now)) }
{
    u32::from(gossip_old::is_router(table, gossip))
}
