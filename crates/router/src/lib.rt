// What a host calls. Every call takes the table that the host lends (its type fixes the length), a time, its arguments as wide numbers and
// a lent action list, asks nothing of its caller, and promises the rules' reply (crate rules): answer, table, clock and action list, for
// all input. The calls themselves stand in the crates below.
#![tactic(auto)]

ghost use Rattle.std.specs.Prelude.{◌≡◌};
ghost use Rattle.layout.specs.View.{state_of};
ghost use Rattle.validity.specs.Valid.{valid};
ghost use Rattle.lookup.specs.Fresh.{Makes};

pub use control::{graft, prune};
pub use deliveries::{decay, deliver};
pub use heartbeat::heartbeat;
use layout::CELLS;
pub use leaving::leave;
use lookup::FreshError;
use params::Params;
pub use peers::{connect, disconnect, rate, score};
pub use topics::{join, subscribe, unsubscribe};

// Makes a fresh router: 9 with its place and the table unchanged, or every cell written.
pub fn fresh(all: Params, table: &mut [u64; CELLS]) -> Result<(), FreshError>
    ensures { Makes all result table.old table.new }
{
    lookup::fresh::fresh(all, table)
}

// Test 12: whether the table is a router's.
pub fn is_router(table: &[u64; CELLS]) -> bool
    ensures { result ≡ valid (state_of table.now) }
{
    validity::valid::is_router(table)
}
