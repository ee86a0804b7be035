// How a lent run of numbers holds what the peers' records have besides 01's: each slot's IDONTWANT set and two counts of this heartbeat.
// The only code that computes an offset in it; specs/View.antt says which notes the cells hold, whatever they are.
#![tactic(auto)]

ghost use Rattle.std.specs.Prelude.{◌≡◌, true, ◌&&◌, [], map, ℕ, ◌+◌, ◌*◌, ◌-◌, ◌%◌, ◌^◌, ◌≤◌, ◌<◌, leb, ltb, length, set, replicate};
ghost use Rattle.records.specs.Records.{slot_count};
ghost use Rattle.index.specs.Index.{every};
ghost use Rattle.gossip.specs.Notes.{no_note, set_most, last_age, has, holds};
ghost use Rattle.gossip.specs.Valid.{rises, set_ok};
ghost use Rattle.gossip.specs.Step.{with_put, with_ihave, beaten, parted};
ghost use Rattle.notes.specs.View.{notes_cells, row_cells, row_at, digit, numbers_in, note_from, notes_of, note_at, counts_fit};
ghost use Rattle.notes.specs.Moves.{MovedUp, Placed};
ghost use Rattle.notes.specs.Lent.{AtSlot, SetFits, PutFits, IhaveFits, AllFit, RowFits, AgedRow, PutRow};

use gossip::cells::{are_zero, copy_within};
use records::SLOTS;

// The numbers of a set at most, and the cells of a row: these and their ages.
const SET_MOST: usize = 32;

const ROW: usize = SET_MOST + 1;

// How many numbers the notes of all slots take.
pub const NOTES_CELLS: usize = SLOTS + SLOTS * ROW;

// A cell of the column: the numbers put in this heartbeat, the IHAVE messages above them, the length of the set above both.
const IHAVES: u64 = 64;

const LENGTH: u64 = 4096;

// ---- cells

// Where the row of a slot begins.
fn row_at(slot: usize) -> usize
    requires { slot < slot_count }
    ensures { (result ≡ row_at slot) × (result + row_cells ≤ notes_cells) }
{
    SLOTS + ROW * slot
}

// Moves the cells from `at` to `end` up by w.
pub fn move_up(cells: &mut [u64], at: usize, end: usize, w: usize)
    requires { (at ≤ end) × (end + w ≤ length cells.old) }
    ensures { MovedUp cells.old cells.new at end w }
{
    copy_within(cells, at, at + w, end - at);
}

// Where a number belongs among the n from `at` on. A walk: a `partition_point` says its answer only of a row that rises, which none of the
// functions asks for; and no map, since the router has no heap.
fn place(cells: &[u64], at: usize, n: usize, number: u64) -> usize
    requires { at + n ≤ length cells.now }
    ensures { Placed cells.now at n number result }
{
    for p in 0..n {
        if number < cells[at + p] {
            return p;
        }
    }
    n
}

// ---- ages

// The age of entry k.
fn digit(ages: u64, k: usize) -> u64
    requires { k < 32 }
    ensures { (result ≡ digit ages k) × (result < 4) }
{
    (ages >> (2 * k)) % 4
}

// The ages of the first k entries.
fn low_digits(ages: u64, k: usize) -> u64
    requires { k < 32 }
    ensures { (result ≡ ages % 4 ^ k) × ((result < 4611686018427387904) × (result ≤ ages)) }
{
    ages & ((1 << (2 * k)) - 1)
}

// Those of n entries with a 0 put in at p.
fn with_gap(ages: u64, n: usize, p: usize) -> u64
    requires { (n < 32) × (p ≤ n) }
    ensures { result ≡ 4 * (ages % 4 ^ n) - 3 * (ages % 4 ^ n % 4 ^ p) }
{
    let kept = low_digits(ages, n);
    4 * kept - 3 * low_digits(kept, p)
}

// Those of k entries with that of one more.
fn with_top(ages: u64, k: usize, age: u64) -> u64
    requires { (k < 32) × ((ages < 4 ^ k) × (age < 4)) }
    ensures { (result ≡ ages + age * 4 ^ k) × (result < 4 ^ (k + 1)) }
{
    ages + (age << (2 * k))
}

// ---- a row

// Whether its numbers rise: each is looked at beside the next.
fn rises(cells: &[u64], at: usize, n: usize) -> bool
    requires { at + n ≤ length cells.now }
    ensures { result ≡ rises (numbers_in cells.now at n) }
{
    let mut ok = true;
    for k in 1..n {
        ok &= cells[at + k - 1] < cells[at + k];
    }
    ok
}

fn ages_ok(ages: u64, n: usize) -> bool
    requires { n ≤ set_most }
    ensures { result ≡ every n (λ k. leb (digit ages k) last_age) }
{
    let mut ok = true;
    for k in 0..n {
        ok &= digit(ages, k) <= 2;
    }
    ok
}

// The row need not rise, so it is not halved.
fn has(cells: &[u64], at: usize, n: usize, number: u64) -> bool
    requires { at + n ≤ length cells.now }
    ensures { result ≡ has number (numbers_in cells.now at n) }
{
    cells[at..at + n].contains(&number)
}

// One number more.
fn put_row(cells: &mut [u64], at: usize, n: usize, number: u64)
    requires { (at + row_cells ≤ length cells.old) × (n < set_most) }
    ensures { PutRow cells.old cells.new at n number }
{
    let p = place(cells, at, n, number);
    let ages = cells[at + SET_MOST];
    move_up(cells, at + p, at + n, 1);
    cells[at + p] = number;
    cells[at + SET_MOST] = with_gap(ages, n, p);
}

// A heartbeat: entries that are not yet at the last age move down over those that go, as a `retain` does, which no lent slice has. The
// answer is how many are left.
fn age_row(cells: &mut [u64], at: usize, n: usize) -> usize
    requires { RowFits cells.old at n }
    ensures { AgedRow cells.old cells.new at n result }
{
    let ages = cells[at + SET_MOST];
    let mut left: u64 = 0;
    let mut m: usize = 0;
    for i in 0..n {
        let age = digit(ages, i);
        if age < 2 {
            cells[at + m] = cells[at + i];
            left = with_top(left, m, age + 1);
            m += 1;
        }
    }
    cells[at + SET_MOST] = left;
    m
}

// ---- all notes

// No note: the rows are not read, and stay.
pub fn make(cells: &mut [u64])
    requires { length cells.old ≡ notes_cells }
    ensures { notes_of cells.new ≡ replicate slot_count no_note }
{
    cells[..SLOTS].fill(0);
}

// Whether nothing is held at all: the column is 0.
pub fn is_quiet(cells: &[u64]) -> bool
    requires { length cells.now ≡ notes_cells }
    ensures { result ≡ true → (s : ℕ) → s < slot_count → note_at cells.now s ≡ no_note }
{
    are_zero(&cells[..SLOTS])
}

// A heartbeat: counts to 0, entries older or gone.
pub fn beat(cells: &mut [u64])
    requires { AllFit cells.old }
    ensures { notes_of cells.new ≡ map beaten (notes_of cells.old) }
{
    for s in 0..SLOTS {
        if cells[s] != 0 {
            beat_slot(cells, s);
        }
    }
}

// ---- one note, read

// Whether nothing is held of a slot.
pub fn is_still(cells: &[u64], slot: usize) -> bool
    requires { AtSlot cells.now slot }
    ensures { result ≡ true → note_at cells.now slot ≡ no_note }
{
    cells[slot] == 0
}

fn set_ok(cells: &[u64], slot: usize, connected: bool) -> bool
    requires { AtSlot cells.now slot }
    ensures { result ≡ set_ok connected (note_at cells.now slot).held }
{
    let n = cells[slot] / LENGTH;
    if (SET_MOST as u64) < n {
        return false;
    }
    let at = row_at(slot);
    rises(cells, at, n as usize)
        & ages_ok(cells[at + SET_MOST], n as usize)
        & (connected | (n == 0))
}

fn counts_ok(head: u64, empty: bool, limit: u64, ihaves: u64) -> bool
    ensures { result ≡ counts_fit limit ihaves empty (note_from head []) }
{
    (head % IHAVES <= limit)
        & (head / IHAVES % IHAVES <= ihaves)
        & (!empty | ((head % IHAVES == 0) & (head / IHAVES % IHAVES == 0)))
}

// Test 12 of a slot's note, whatever the cells hold.
pub fn note_ok(
    cells: &[u64],
    slot: usize,
    connected: bool,
    empty: bool,
    limit: u64,
    ihaves: u64,
) -> bool
    requires { AtSlot cells.now slot }
    ensures { result ≡ (set_ok connected (note_at cells.now slot).held
        && counts_fit limit ihaves empty (note_at cells.now slot)) }
{
    set_ok(cells, slot, connected) & counts_ok(cells[slot], empty, limit, ihaves)
}

// Whether a slot's set holds a number.
pub fn holds(cells: &[u64], slot: usize, number: u64) -> bool
    requires { SetFits cells.now slot }
    ensures { result ≡ holds (note_at cells.now slot) number }
{
    let n = cells[slot] / LENGTH;
    has(cells, row_at(slot), n as usize, number)
}

// Whether a slot's set takes one more this heartbeat.
pub fn has_room(cells: &[u64], slot: usize, limit: u64) -> bool
    requires { AtSlot cells.now slot }
    ensures { result ≡ (ltb (note_at cells.now slot).puts limit
        && ltb (length (note_at cells.now slot).held) set_most) }
{
    (cells[slot] % IHAVES < limit) & (cells[slot] / LENGTH < (SET_MOST as u64))
}

pub fn load_ihaves(cells: &[u64], slot: usize) -> u64
    requires { AtSlot cells.now slot }
    ensures { result ≡ (note_at cells.now slot).ihaves }
{
    cells[slot] / IHAVES % IHAVES
}

// ---- one note, changed

// One number more in a slot's set, and in its count.
pub fn put(cells: &mut [u64], slot: usize, number: u64)
    requires { PutFits cells.old slot }
    ensures { notes_of cells.new
        ≡ set (notes_of cells.old) slot (with_put number (note_at cells.old slot)) }
{
    let head = cells[slot];
    put_row(cells, row_at(slot), (head / LENGTH) as usize, number);
    cells[slot] = head + (LENGTH + 1);
}

pub fn count_ihave(cells: &mut [u64], slot: usize)
    requires { IhaveFits cells.old slot }
    ensures { notes_of cells.new
        ≡ set (notes_of cells.old) slot (with_ihave (note_at cells.old slot)) }
{
    cells[slot] += IHAVES;
}

// The set goes, the counts stay.
pub fn part(cells: &mut [u64], slot: usize)
    requires { AtSlot cells.old slot }
    ensures { notes_of cells.new
        ≡ set (notes_of cells.old) slot (parted (note_at cells.old slot)) }
{
    cells[slot] %= LENGTH;
}

pub fn clear(cells: &mut [u64], slot: usize)
    requires { AtSlot cells.old slot }
    ensures { notes_of cells.new ≡ set (notes_of cells.old) slot no_note }
{
    cells[slot] = 0;
}

fn beat_slot(cells: &mut [u64], slot: usize)
    requires { SetFits cells.old slot }
    ensures { notes_of cells.new
        ≡ set (notes_of cells.old) slot (beaten (note_at cells.old slot)) }
{
    let n = cells[slot] / LENGTH;
    let m = age_row(cells, row_at(slot), n as usize);
    cells[slot] = m as u64 * LENGTH;
}
