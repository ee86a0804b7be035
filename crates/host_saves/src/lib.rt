// The records kept over a power cycle, for a host (02, order 8): saved to a buffer, and loaded into a table. Each function promises what
// the one below does, with the answer as one number (specs/Saving.antt); none asks anything of its caller.
#![tactic(auto)]

ghost use Rattle.std.specs.Prelude.{Some};
ghost use Rattle.params.specs.Editions.{edition_of};
ghost use Rattle.host_saves.specs.Saving.{HostsSave, HostsLoad};

use answers::packed;
use layout::CELLS;
use limits::NUMBERS;
use params::{Edition, Params};
use saves::{LoadError, SaveError};

// Saves the records at a time, to the start of a buffer: 0 with the length, 12, 2, 1 or 13.
pub fn save(table: &[u64; CELLS], time: u64, buffer: &mut [u8]) -> u64
    ensures { HostsSave table.now time result buffer.old buffer.new }
{
    match save_write::save(table, time, buffer) {
        Ok(n) => packed(0, n as u64),
        Err(SaveError::Early) => packed(1, 0),
        Err(SaveError::OutOfRange) => packed(2, 0),
        Err(SaveError::NotRouter) => packed(12, 0),
        Err(SaveError::Short) => packed(13, 0),
    }
}

// Loads with parameters given by value.
fn fill(all: Params, clock: u64, bytes: &[u8], table: &mut [u64; CELLS]) -> u64
    ensures { HostsLoad (Some all.edition) all.numbers clock bytes.now result table.old table.new }
{
    match save_load::load(all, clock, bytes, table) {
        Ok(()) => packed(0, 0),
        Err(LoadError::OutOfRange) => packed(2, 0),
        Err(LoadError::Broken(i)) => packed(9, i as u64),
        Err(LoadError::Malformed(place)) => packed(10, place as u64),
    }
}

// Makes a router of a save and its parameters, at a clock: 0, 2, 9 with the index, the rule or the place, or 10 with the place.
pub fn load(
    numbers: &[i64; NUMBERS],
    edition: u64,
    clock: u64,
    bytes: &[u8],
    table: &mut [u64; CELLS],
) -> u64
    ensures { HostsLoad (edition_of edition) numbers.now clock bytes.now result table.old table.new }
{
    let Ok(e) = Edition::try_from(edition) else {
        return packed(2, 0);
    };
    let all = Params {
        numbers: *numbers,
        edition: e,
    };
    fill(all, clock, bytes, table)
}
