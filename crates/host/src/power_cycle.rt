// The records kept over a power cycle (02, order 8): saved to a buffer, and loaded into a table.
ghost use Rattle.params.specs.Editions.{edition_of};
ghost use Rattle.host_saves.specs.Saving.{HostsSave, HostsLoad};

use layout::CELLS;
use limits::NUMBERS;

// Saves the records at a time, to the start of a buffer: 0 with the length, 12, 2, 1 or 13.
#[unsafe(no_mangle)]
pub extern "C" fn hivepadlet_save(table: &[u64; CELLS], time: u64, buffer: &mut [u8]) -> u64
    ensures { HostsSave table.now time result buffer.old buffer.new }
{
    host_saves::save(table, time, buffer)
}

// Makes a router of a save and its parameters, at a clock: 0, 2, 9 with the index, the rule or the place, or 10 with the place.
#[unsafe(no_mangle)]
pub extern "C" fn hivepadlet_load(
    numbers: &[i64; NUMBERS],
    edition: u64,
    clock: u64,
    bytes: &[u8],
    table: &mut [u64; CELLS],
) -> u64
    ensures { HostsLoad (edition_of edition) numbers.now clock bytes.now result table.old table.new }
{
    host_saves::load(numbers, edition, clock, bytes, table)
}
