// A router of a save, with the array of orders 6 and 7.
ghost use Rattle.std.specs.Prelude.{Some};
ghost use Rattle.params.specs.Editions.{edition_of};
ghost use Rattle.gossip_table.specs.View.{setup_of};
ghost use Rattle.host_gossip.specs.Routers.{HostsLoadAll};

use answers::packed;
use gossip_table::{GOSSIP_CELLS, SETUP};
use layout::CELLS;
use limits::NUMBERS;
use params::{Edition, Params};
use saves::LoadError;

// Loads with parameters given by value.
fn fill(
    all: Params,
    setup: &[u64; SETUP],
    clock: u64,
    bytes: &[u8],
    table: &mut [u64; CELLS],
    gossip: &mut [u64; GOSSIP_CELLS],
) -> u64
    ensures { HostsLoadAll (setup_of setup.now) (Some all.edition) all.numbers clock bytes.now result
        table.old table.new gossip.old gossip.new }
{
    match gossip_old::made::load(all, setup, clock, bytes, table, gossip) {
        Ok(()) => packed(0, 0),
        Err(LoadError::OutOfRange) => packed(2, 0),
        Err(LoadError::Broken(i)) => packed(9, i as u64),
        Err(LoadError::Malformed(place)) => packed(10, place as u64),
    }
}

// Makes a router of a save, its parameters and the set-up numbers, at a clock: 0, 2, 9 with the index, the rule or the place, or 10 with
// the place.
pub fn load(
    numbers: &[i64; NUMBERS],
    edition: u64,
    setup: &[u64; SETUP],
    clock: u64,
    bytes: &[u8],
    table: &mut [u64; CELLS],
    gossip: &mut [u64; GOSSIP_CELLS],
) -> u64
    ensures { HostsLoadAll (setup_of setup.now) (edition_of edition) numbers.now clock bytes.now result
        table.old table.new gossip.old gossip.new }
{
    let Ok(e) = Edition::try_from(edition) else {
        return packed(2, 0);
    };
    let all = Params {
        numbers: *numbers,
        edition: e,
    };
    fill(all, setup, clock, bytes, table, gossip)
}
