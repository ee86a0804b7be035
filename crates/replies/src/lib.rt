// How often IWANTs were answered, in one region of cells: rows by rising message number, each with a count for every slot. The only code
// that knows how the region is laid out (specs/View.antt).
#![tactic(auto)]

ghost use Rattle.std.specs.Prelude.{◌≡◌, Bool, true, [], map, ℕ, ◌+◌, ◌*◌, ◌^◌, ◌<◌, length, get_or};
ghost use Rattle.gossip.specs.Notes.{rows_most, count_in, one_more, replied, ended_row, ended, keep};
ghost use Rattle.gossip.specs.Valid.{row_number};
ghost use Rattle.replies.specs.View.{lane_count, lane_bits, lane_cells, replies_cells, lane_in, row_at, replies_of, LaneSet, RowSet};
ghost use Rattle.replies.specs.View.{Opened, blank};
ghost use Rattle.replies.specs.Asked.{Rows, RowOf, SlotOf, Ordered, Room, Flagged, FlagsSay, InRow, OneMore, Copies, Opens, Inserts};
ghost use Rattle.replies.specs.Asked.{Inserted, Passes, Passed, Searched, Placed, is_row, on_bits, rows_ok, lane_fits, cell_fits};
ghost use Rattle.replies.specs.Asked.{lanes_fit, step_at, Limit, Allows, AllAllow, Under, EvenUnder, RowLimits, RowsLimits};

use gossip::cells::copy_within;
use records::SLOTS;
use words::WORDS;

// How many rows there is room for: as many as numbers can be stored.
pub const ROWS: usize = 2560;

// The lanes of a cell, the bits of a lane, and what a lane's count is below.
const LANES: usize = 10;

const LANE_BITS: usize = 6;

const LANE: u64 = 64;

// Every second lane, and the bit above each.
const EVENS: u64 = 17737253917028415;

const GUARDS: u64 = 18018797629997120;

// A row: its number, its hint, and the cells of its lanes.
const LANE_CELLS: usize = (SLOTS + LANES - 1) / LANES;

const ROW_CELLS: usize = 2 + LANE_CELLS;

// How many cells the region has: the rows in use, and the rows.
pub const REPLIES_CELLS: usize = 1 + ROWS * ROW_CELLS;

// ---- lanes

// One, in lane j.
fn unit(j: usize) -> u64
    requires { j < lane_count }
    ensures { result ≡ 2 ^ (lane_bits * j) }
{
    1 << (LANE_BITS * j)
}

fn lane(x: u64, j: usize) -> u64
    requires { j < lane_count }
    ensures { result ≡ lane_in x j }
{
    (x >> (LANE_BITS * j)) % LANE
}

// One more in lane j.
fn more(x: u64, j: usize) -> u64
    requires { (j < lane_count) × (lane_in x j < 63) }
    ensures { LaneSet x result j (lane_in x j + 1) }
{
    x + unit(j)
}

// None in lane j.
fn none(x: u64, j: usize) -> u64
    requires { j < lane_count }
    ensures { LaneSet x result j 0 }
{
    x - lane(x, j) * unit(j)
}

// ---- one row

// The count of a slot in row r.
fn count_at(cells: &[u64], r: usize, slot: usize) -> u64
    requires { InRow cells.now r slot }
    ensures { result ≡ get_or (row_at cells.now r).counts slot 0 }
{
    lane(cells[1 + r * ROW_CELLS + (2 + slot / LANES)], slot % LANES)
}

fn add_count(cells: &mut [u64], r: usize, slot: usize)
    requires { OneMore cells.old r slot }
    ensures { RowSet cells.old cells.new r (one_more (row_at cells.old r) slot) }
{
    let x = cells[1 + r * ROW_CELLS + (2 + slot / LANES)];
    cells[1 + r * ROW_CELLS + (2 + slot / LANES)] = more(x, slot % LANES);
}

fn end_count(cells: &mut [u64], r: usize, slot: usize)
    requires { InRow cells.old r slot }
    ensures { RowSet cells.old cells.new r (ended_row slot (row_at cells.old r)) }
{
    let x = cells[1 + r * ROW_CELLS + (2 + slot / LANES)];
    cells[1 + r * ROW_CELLS + (2 + slot / LANES)] = none(x, slot % LANES);
}

fn copy_row(cells: &mut [u64], from: usize, to: usize)
    requires { Copies cells.old from to }
    ensures { RowSet cells.old cells.new to (row_at cells.old from) }
{
    copy_within(cells, 1 + from * ROW_CELLS, 1 + to * ROW_CELLS, ROW_CELLS);
}

// Row r is that of n, with no count.
fn blank_row(cells: &mut [u64], r: usize, n: u64, place: u64)
    requires { (length cells.old ≡ replies_cells) × (r < rows_most) }
    ensures { RowSet cells.old cells.new r (blank n) }
{
    let b = 1 + r * ROW_CELLS;
    cells[b..b + ROW_CELLS].fill(0);
    cells[b] = n;
    cells[b + 1] = place;
}

// ---- a new row

// Moves the rows from p on, below u, up by one.
fn open_rows(cells: &mut [u64], p: usize, u: usize)
    requires { Opens cells.old p u }
    ensures { Opened cells.old cells.new p u }
{
    let from = 1 + p * ROW_CELLS;
    copy_within(cells, from, from + ROW_CELLS, (u - p) * ROW_CELLS);
}

// Puts a row of n with no count at place p.
fn insert(cells: &mut [u64], p: usize, n: u64, place: u64)
    requires { Inserts cells.old p }
    ensures { Inserted cells.old cells.new p n }
{
    let u = cells[0];
    open_rows(cells, p, u as usize);
    blank_row(cells, p, n, place);
    cells[0] = u + 1;
}

// The place of the first row whose number is n or more.
fn place_of(cells: &[u64], n: u64) -> usize
    requires { Searched cells.now }
    ensures { Placed (replies_of cells.now) n result }
{
    let rows = cells[1..].as_chunks::<ROW_CELLS>().0;
    rows[..cells[0] as usize].partition_point(|row| row[0] < n)
}

// ---- the calls

// No row at all.
pub fn make(cells: &mut [u64])
    requires { length cells.old ≡ replies_cells }
    ensures { replies_of cells.new ≡ [] }
{
    cells[0] = 0;
}

// The rows in use, as a count that may be damaged.
pub fn rows(cells: &[u64]) -> usize
    requires { length cells.now ≡ replies_cells }
    ensures { result ≡ length (replies_of cells.now) }
{
    cells[0] as usize
}

pub fn row_number(cells: &[u64], r: usize) -> u64
    requires { RowOf cells.now r }
    ensures { result ≡ get_or (map row_number (replies_of cells.now)) r 0 }
{
    cells[1 + r * ROW_CELLS]
}

// Where the number of row r may stand in the stores.
pub fn row_hint(cells: &[u64], r: usize) -> u64
    requires { RowOf cells.now r }
{
    cells[1 + r * ROW_CELLS + 1]
}

// Whether row p is that of n.
fn is_row(cells: &[u64], p: usize, n: u64) -> bool
    requires { Rows cells.now }
    ensures { result ≡ is_row (replies_of cells.now) p n }
{
    if p < rows(cells) {
        cells[1 + p * ROW_CELLS] == n
    } else {
        false
    }
}

// How often the connection in a slot was answered with number n.
pub fn count(cells: &[u64], n: u64, slot: usize) -> u64
    requires { Ordered cells.now slot }
    ensures { result ≡ count_in (replies_of cells.now) n slot }
{
    let p = place_of(cells, n);
    if is_row(cells, p, n) {
        count_at(cells, p, slot)
    } else {
        0
    }
}

// One more reply with number n, which stands at `place` in the stores.
pub fn reply(cells: &mut [u64], n: u64, slot: usize, place: u64)
    requires { Room cells.old n slot }
    ensures { replies_of cells.new ≡ replied n slot (replies_of cells.old) }
{
    let p = place_of(cells, n);
    if is_row(cells, p, n) {
        add_count(cells, p, slot);
        return;
    }
    insert(cells, p, n, place);
    add_count(cells, p, slot);
}

// A connection's counts end with it.
pub fn end(cells: &mut [u64], slot: usize)
    requires { SlotOf cells.old slot }
    ensures { replies_of cells.new ≡ ended slot (replies_of cells.old) }
{
    let u = cells[0] as usize;
    for r in 0..u {
        end_count(cells, r, slot);
    }
}

// Moves row `from` down to place `to` if it is kept: the place of the next one.
fn keep_row(cells: &mut [u64], kept: bool, from: usize, to: usize) -> usize
    requires { Passes cells.old from to }
    ensures { Passed cells.old cells.new kept from to result }
{
    if !kept {
        return to;
    }
    if to < from {
        copy_row(cells, from, to);
    }
    to + 1
}

// Keeps the rows whose flag is set, in order, as a `retain` does, which no lent slice has.
pub fn keep_rows(cells: &mut [u64], flags: &[bool])
    requires { Flagged cells.old flags.now }
    ensures { (f : ℕ → Bool) → FlagsSay f flags.now (replies_of cells.old)
        → replies_of cells.new ≡ keep f (replies_of cells.old) }
{
    let u = cells[0] as usize;
    let mut w: usize = 0;
    for r in 0..u {
        w = keep_row(cells, flags[r], r, w);
    }
    cells[0] = w as u64;
}

// ---- the test

// Whether a slot's count is within its bound; there is no slot past the last one.
fn lane_ok(v: u64, s: usize, connected: &[u64; WORDS], most: u64) -> bool
    ensures { result ≡ lane_fits (on_bits connected.now) most s v }
{
    (SLOTS <= s) | (v == 0) | (words::at(connected, s as u64) & (v <= most))
}

// What no count of a slot may be above, as a lane holds it.
fn limit(s: usize, connected: &[u64; WORDS], most: u64) -> u64
    ensures { Limit (on_bits connected.now) most s result }
{
    if SLOTS <= s {
        return LANE - 1;
    }
    if !words::at(connected, s as u64) {
        return 0;
    }
    if most < LANE {
        return most;
    }
    LANE - 1
}

// The limits of the k-th cell of a row, from its last lane down.
fn limits_of(k: usize, connected: &[u64; WORDS], most: u64) -> u64
    requires { k < lane_cells }
    ensures { Allows (on_bits connected.now) most k result }
{
    let mut w: u64 = 0;
    for j in (0..LANES).rev() {
        w = w * LANE + limit(LANES * k + j, connected, most);
    }
    w
}

// The limits of a whole row.
fn limits(connected: &[u64; WORDS], most: u64) -> [u64; LANE_CELLS]
    ensures { AllAllow (on_bits connected.now) most result }
{
    let mut l = [0; LANE_CELLS];
    for k in 0..LANE_CELLS {
        l[k] = limits_of(k, connected, most);
    }
    l
}

// Whether none of every second lane of x is above that of l: then the bit above it is left. False says nothing.
fn even_under(x: u64, l: u64) -> bool
    ensures { result ≡ true → EvenUnder x l }
{
    ((l & EVENS) + GUARDS - (x & EVENS)) & GUARDS == GUARDS
}

// Whether no lane of x is above that of l. False says nothing.
fn under(x: u64, l: u64) -> bool
    ensures { result ≡ true → Under x l }
{
    even_under(x, l) & even_under(x / LANE, l / LANE)
}

// Whether the lanes of the k-th cell of a row are within their bounds, one by one.
fn lanes_ok(x: u64, k: usize, connected: &[u64; WORDS], most: u64) -> bool
    requires { k < lane_cells }
    ensures { result ≡ cell_fits (on_bits connected.now) most k x }
{
    for j in 0..LANES {
        if !lane_ok(lane(x, j), LANES * k + j, connected, most) {
            return false;
        }
    }
    true
}

// The same, mostly by one look at all lanes; l are their limits.
fn cell_ok(x: u64, k: usize, l: u64, connected: &[u64; WORDS], most: u64) -> bool
    requires { (k < lane_cells) × Allows (on_bits connected.now) most k l }
    ensures { result ≡ cell_fits (on_bits connected.now) most k x }
{
    if x == 0 {
        return true;
    }
    if under(x, l) {
        return true;
    }
    lanes_ok(x, k, connected, most)
}

fn row_ok(
    cells: &[u64],
    r: usize,
    l: &[u64; LANE_CELLS],
    connected: &[u64; WORDS],
    most: u64,
) -> bool
    requires { RowLimits (on_bits connected.now) most cells.now l.now r }
    ensures { result ≡ lanes_fit (on_bits connected.now) most cells.now r }
{
    for k in 0..LANE_CELLS {
        if !cell_ok(cells[1 + r * ROW_CELLS + (2 + k)], k, l[k], connected, most) {
            return false;
        }
    }
    true
}

// Whether the number of row r is above that of the row before it.
fn rises_at(cells: &[u64], r: usize) -> bool
    requires { (length cells.now ≡ replies_cells) × (r < rows_most) }
    ensures { result ≡ step_at cells.now r }
{
    if r == 0 {
        return true;
    }
    cells[1 + (r - 1) * ROW_CELLS] < cells[1 + r * ROW_CELLS]
}

// Whether the rows, which are few enough, rise and are within their bounds; l are the limits of a row.
fn all_ok(cells: &[u64], l: &[u64; LANE_CELLS], connected: &[u64; WORDS], most: u64) -> bool
    requires { RowsLimits (on_bits connected.now) most cells.now l.now }
    ensures { result ≡ rows_ok (on_bits connected.now) most (replies_of cells.now) }
{
    let u = cells[0] as usize;
    for r in 0..u {
        if !rises_at(cells, r) {
            return false;
        }
        if !row_ok(cells, r, l, connected, most) {
            return false;
        }
    }
    true
}

// Whether the rows are few enough, rise, and hold no count above `most`, and none of a slot that is not connected.
pub fn rows_ok(cells: &[u64], connected: &[u64; WORDS], most: u64) -> bool
    requires { length cells.now ≡ replies_cells }
    ensures { result ≡ rows_ok (on_bits connected.now) most (replies_of cells.now) }
{
    if cells[0] == 0 {
        return true;
    }
    if (ROWS as u64) < cells[0] {
        return false;
    }
    let l = limits(connected, most);
    all_ok(cells, &l, connected, most)
}
