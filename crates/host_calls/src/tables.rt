// A fresh router, made of the parameters as an array of 147 numbers and the number of their edition; and test 12.
ghost use Rattle.std.specs.Prelude.{Some};
ghost use Rattle.std.specs.Prelude.{◌≡◌};
ghost use Rattle.layout.specs.View.{state_of};
ghost use Rattle.index.specs.Index.{one};
ghost use Rattle.params.specs.Editions.{edition_of};
ghost use Rattle.validity.specs.Valid.{valid};
ghost use Rattle.host_calls.specs.Host.{HostsFresh};

use answers::packed;
use layout::CELLS;
use limits::NUMBERS;
use lookup::FreshError;
use params::{Edition, Params};

// Makes a fresh router of parameters given by value.
fn make(all: Params, table: &mut [u64; CELLS]) -> u64
    ensures { HostsFresh (Some all.edition) all.numbers result table.old table.new }
{
    match router::fresh(all, table) {
        Ok(()) => packed(0, 0),
        Err(FreshError::Broken(i)) => packed(9, i as u64),
    }
}

// Makes a fresh router: 0, 2, or 9 with the index or rule.
pub fn fresh(numbers: &[i64; NUMBERS], edition: u64, table: &mut [u64; CELLS]) -> u64
    ensures { HostsFresh (edition_of edition) numbers.now result table.old table.new }
{
    let Ok(e) = Edition::try_from(edition) else {
        return packed(2, 0);
    };
    let all = Params {
        numbers: *numbers,
        edition: e,
    };
    make(all, table)
}

// Test 12: 1 if the table is a router's, else 0.
pub fn is_router(table: &[u64; CELLS]) -> u32
    ensures { result ≡ one (valid (state_of table.now)) }
{
    u32::from(router::is_router(table))
}
