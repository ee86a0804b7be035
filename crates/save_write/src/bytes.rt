// Numbers as bytes: how many they take, and writing them where there is room.
ghost use Rattle.std.specs.Prelude.{◌≡◌, ◌+◌, ◌≤◌, ◌<◌, length};
ghost use Rattle.varint.specs.Groups.{encode};
ghost use Rattle.records.specs.Records.{slot_count};
ghost use Rattle.layout.specs.View.{state_of};
ghost use Rattle.saves.specs.Save.{row_size, bytes_of};
ghost use Rattle.save_write.specs.Keys.{slot_of, Saves};
ghost use Rattle.save_write.specs.Stands.{rows_of, Stands};

use crate::row::{ROW, fill_row};

// How many bytes a number takes.
fn size_of(n: u64) -> usize
    ensures { (result ≡ length (encode n)) × (result ≤ 10) }
{
    if n < 128 {
        return 1;
    }
    size_of(n / 128) + 1
}

// How many bytes a list of numbers takes.
pub fn row_size(row: &[u64]) -> usize
    requires { length row.now ≤ row_size }
    ensures { (result ≡ length (bytes_of row.now)) × (result ≤ 440) }
{
    let mut sum: usize = 0;
    for n in row {
        sum += size_of(*n);
    }
    sum
}

// The slot of a key.
fn slot_of(key: u64) -> usize
    ensures { (result ≡ slot_of key) × (result < slot_count) }
{
    (key % 256) as usize
}

// How many bytes the records of the keys take.
pub fn rows_size(table: &[u64], keys: &[u64], time: u64, end: u64) -> usize
    requires { Saves table.now time end × (length keys.now ≤ slot_count) }
    ensures { (result ≡ length (bytes_of (rows_of (state_of table.now) time keys.now))) × (result ≤ 112640) }
{
    let mut row = [0u64; ROW];
    let mut sum: usize = 0;
    for key in keys {
        fill_row(table, slot_of(*key), time, end, &mut row);
        sum += row_size(&row);
    }
    sum
}

// Writes numbers from `at` on, where there is room; the place after them. A struct of both would only rename them in `Stands`.
pub fn put_row(buf: &mut [u8], at: usize, row: &[u64]) -> usize
    requires { at + length (bytes_of row.now) ≤ length buf.old }
    ensures { Stands (bytes_of row.now) at buf.old result buf.new }
{
    let mut place = at;
    for n in row {
        let Some(next) = varint::write_u64(buf, place, *n) else {
            return place;
        };
        place = next;
    }
    place
}

// Writes the records of the keys.
pub fn put_rows(
    table: &[u64],
    keys: &[u64],
    time: u64,
    end: u64,
    buf: &mut [u8],
    at: usize,
) -> usize
    requires { Saves table.now time end
        × ((length keys.now ≤ slot_count)
        × (at + length (bytes_of (rows_of (state_of table.now) time keys.now)) ≤ length buf.old)) }
    ensures { Stands (bytes_of (rows_of (state_of table.now) time keys.now)) at buf.old result
        buf.new }
{
    let mut row = [0u64; ROW];
    let mut place = at;
    for key in keys {
        fill_row(table, slot_of(*key), time, end, &mut row);
        place = put_row(buf, place, &row);
    }
    place
}
