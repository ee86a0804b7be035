// Making a router with an array in which nothing is held: fresh, or of a save. The set-up numbers are tested first; what is not answered 0
// writes nothing.
ghost use Rattle.saves.specs.Load.{load_of};
ghost use Rattle.gossip.specs.Valid.{setup_ok};
ghost use Rattle.gossip_table.specs.View.{setup_of};
ghost use Rattle.gossip_old.specs.Made.{MakesAll, LoadsAll};

use crate::MakeError;
use gossip_table::{GOSSIP_CELLS, SETUP};
use layout::CELLS;
use params::Params;
use saves::LoadError;

// A fresh router with these parameters and set-up numbers.
pub fn fresh(
    all: Params,
    setup: &[u64; SETUP],
    table: &mut [u64; CELLS],
    gossip: &mut [u64; GOSSIP_CELLS],
) -> Result<(), MakeError>
    ensures { MakesAll (setup_of setup.now) all result
        table.old table.new gossip.old gossip.new }
{
    if !gossip_table::tests::setup_ok(setup) {
        return Err(MakeError::OutOfRange);
    }
    lookup::fresh::fresh(all, table)?;
    gossip_table::made::make(gossip, setup);
    Ok(())
}

// A router of a save with parameters and set-up numbers, at a clock.
pub fn load(
    all: Params,
    setup: &[u64; SETUP],
    clock: u64,
    bytes: &[u8],
    table: &mut [u64; CELLS],
    gossip: &mut [u64; GOSSIP_CELLS],
) -> Result<(), LoadError>
    ensures { LoadsAll (load_of (setup_ok (setup_of setup.now)) all clock bytes.now)
        (setup_of setup.now) result
        table.old table.new gossip.old gossip.new }
{
    if !gossip_table::tests::setup_ok(setup) {
        return Err(LoadError::OutOfRange);
    }
    save_load::load(all, clock, bytes, table)?;
    gossip_table::made::make(gossip, setup);
    Ok(())
}
