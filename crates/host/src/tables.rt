// A fresh router, and test 12.
ghost use Rattle.std.specs.Prelude.{◌≡◌};
ghost use Rattle.layout.specs.View.{state_of};
ghost use Rattle.index.specs.Index.{one};
ghost use Rattle.params.specs.Editions.{edition_of};
ghost use Rattle.validity.specs.Valid.{valid};
ghost use Rattle.host_calls.specs.Host.{HostsFresh};

use layout::CELLS;
use limits::NUMBERS;

// Makes a fresh router: 0, 2, or 9 with the index or rule.
#[unsafe(no_mangle)]
pub extern "C" fn hivepadlet_fresh(
    numbers: &[i64; NUMBERS],
    edition: u64,
    table: &mut [u64; CELLS],
) -> u64
    ensures { HostsFresh (edition_of edition) numbers.now result table.old table.new }
{
    host_calls::fresh(numbers, edition, table)
}

// Test 12: 1 if the table is a router's, else 0.
#[unsafe(no_mangle)]
pub extern "C" fn hivepadlet_is_router(table: &[u64; CELLS]) -> u32
    ensures { result ≡ one (valid (state_of table.now)) }
{
    host_calls::is_router(table)
}
