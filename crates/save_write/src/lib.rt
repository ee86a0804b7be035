// Writing a save (02, order 8). The definitions are crate saves: `saving_of` says what is answered and what stands in the buffer.
#![tactic(auto)]

pub mod bytes;
pub mod keys;
pub mod row;

ghost use Rattle.std.specs.Prelude.{◌≡◌, ◌≤◌, true, length};
ghost use Rattle.records.specs.Records.{slot_count};
ghost use Rattle.layout.specs.View.{state_of, cell_count};
ghost use Rattle.validity.specs.Valid.{max_time, valid};
ghost use Rattle.saves.specs.Save.{save_of, storing, saving_of};
ghost use Rattle.sorting.specs.Sorting.{sorted};
ghost use Rattle.save_write.specs.Keys.{keys_of, Saves};

use effects::slots::load_magnitude;
use effects::values::end_after;
use layout::CELLS;
use records::{SLOTS, param};
use saves::SaveError;
use validity::valid::MAX_TIME;

// The edition that is written.
pub const EDITION: u64 = 2;

// Writes the records of the sorted keys, if the buffer has room for all: the sizes are added first, so that a short buffer is not touched.
fn write_save(
    table: &[u64],
    keys: &[u64],
    time: u64,
    end: u64,
    buf: &mut [u8],
) -> Result<usize, SaveError>
    requires { Saves table.now time end × (keys.now ≡ sorted (keys_of (state_of table.now) time)) }
    ensures { (result ≡ (storing (save_of (state_of table.now) time) buf.old).answer)
        × (buf.new ≡ (storing (save_of (state_of table.now) time) buf.old).bytes) }
{
    let front = [EDITION, keys.len() as u64];
    let size = bytes::row_size(&front) + bytes::rows_size(table, keys, time, end);
    if buf.len() < size {
        return Err(SaveError::Short);
    }
    let at = bytes::put_row(buf, 0, &front);
    bytes::put_rows(table, keys, time, end, buf, at);
    Ok(size)
}

// Collects the keys of the saved records, sorts them, and writes their records; the two lists are lent to do it.
fn save_sorted(
    table: &[u64],
    list: &mut [u64],
    spare: &mut [u64],
    time: u64,
    end: u64,
    buf: &mut [u8],
) -> Result<usize, SaveError>
    requires { Saves table.now time end × ((length list.old ≡ slot_count) × (length spare.old ≡ slot_count)) }
    ensures { (result ≡ (storing (save_of (state_of table.now) time) buf.old).answer)
        × (buf.new ≡ (storing (save_of (state_of table.now) time) buf.old).bytes) }
{
    let n = keys::collect_keys(table, list, time, end);
    sorting::sort(&mut list[..n], spare);
    write_save(table, &list[..n], time, end, buf)
}

fn save_records(table: &[u64], time: u64, buf: &mut [u8]) -> Result<usize, SaveError>
    requires { (length table.now ≡ cell_count)
        × ((valid (state_of table.now) ≡ true) × ((time ≤ max_time) × ((state_of table.now).clock ≤ time))) }
    ensures { (result ≡ (storing (save_of (state_of table.now) time) buf.old).answer)
        × (buf.new ≡ (storing (save_of (state_of table.now) time) buf.old).bytes) }
{
    let end = end_after(time, load_magnitude(table, param::RETAIN));
    let mut list = [0u64; SLOTS];
    let mut spare = [0u64; SLOTS];
    save_sorted(table, &mut list, &mut spare, time, end, buf)
}

// Saves the records at a time: 12, 2, 1, then 13 with the buffer unchanged. The table is read only, so no clock moves.
pub fn save(table: &[u64; CELLS], time: u64, buf: &mut [u8]) -> Result<usize, SaveError>
    ensures { (result ≡ (saving_of (state_of table.now) time buf.old).answer)
        × (buf.new ≡ (saving_of (state_of table.now) time buf.old).bytes) }
{
    if !validity::valid::is_router(table) {
        return Err(SaveError::NotRouter);
    }
    if MAX_TIME < time {
        return Err(SaveError::OutOfRange);
    }
    if time < layout::load_clock(table) {
        return Err(SaveError::Early);
    }
    save_records(table, time, buf)
}
