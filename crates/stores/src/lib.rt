// The message numbers that each topic stores, in a region of cells of their own: the only code that knows where they stand. Of each of the
// last five heartbeats, the running one first, a window: a count, and cells for at most 64 numbers in the order of storing.
#![tactic(auto)]

ghost use Rattle.std.specs.Prelude.{◌≡◌, true, map, ◌+◌, ◌≤◌, ◌<◌, eqb, ltb, length, get_or, set, replicate, position};
ghost use Rattle.std.proofs.lemmas.List.Edits.{sets};
ghost use Rattle.records.specs.Records.{topic_count};
ghost use Rattle.gossip.specs.Notes.{no_store, has, stored_in, moved, added, window_most, numbers_most};
ghost use Rattle.gossip.specs.Step.{running, announced};
ghost use Rattle.stores.specs.View.{all_windows, stores_cells, start_of, count_at, window_at, five_at, stores_of, store_at};
ghost use Rattle.stores.specs.View.{stored_at, Window, Store, Windows, PlaceOf, Changed, Shifted};

use gossip::cells::{are_zero, copy_within};
use records::TOPICS;

pub mod valid;
pub mod wants;

// The windows of a topic, and of all; the numbers that a window has room for.
const WINDOWS: usize = 5;

const ALL_WINDOWS: usize = TOPICS * WINDOWS;

const WINDOW_MOST: usize = 64;

// How many places for numbers there are.
pub const PLACES: usize = ALL_WINDOWS * WINDOW_MOST;

pub const STORES_CELLS: usize = ALL_WINDOWS + PLACES;

// Where the numbers of a window begin.
fn start(p: usize) -> usize
    requires { p < all_windows }
    ensures { result ≡ start_of p }
{
    ALL_WINDOWS + p * WINDOW_MOST
}

// How many it has.
fn size(cells: &[u64], p: usize) -> usize
    requires { Window cells.now p }
    ensures { (result ≡ count_at cells.now p) × (result ≤ window_most) }
{
    cells[p] as usize
}

// Number k of a window.
fn number(cells: &[u64], p: usize, k: usize) -> u64
    requires { Window cells.now p × (k < count_at cells.now p) }
    ensures { result ≡ get_or (window_at cells.now p) k 0 }
{
    cells[start(p) + k]
}

// Whether a list has a number. It goes to the end, so that no look waits for the one before: the library's `contains` stops, and took half
// as long again.
fn is_in(list: &[u64], n: u64) -> bool
    ensures { result ≡ has n list.now }
{
    let mut found = false;
    for &m in list {
        found |= m == n;
    }
    found
}

// Whether a window has it.
fn is_in_window(cells: &[u64], p: usize, n: u64) -> bool
    requires { Window cells.now p }
    ensures { result ≡ has n (window_at cells.now p) }
{
    let at = start(p);
    let end = at + size(cells, p);
    is_in(&cells[at..end], n)
}

// Where a list has a number first.
fn index_in(list: &[u64], n: u64) -> Option<usize>
    ensures { result ≡ position (λ m. eqb m n) list.now }
{
    list.iter().position(|&m| m == n)
}

// The place of a number in a window.
fn place_in(cells: &[u64], p: usize, n: u64) -> Option<usize>
    requires { Window cells.now p }
    ensures { PlaceOf (has n (window_at cells.now p)) result }
{
    let at = start(p);
    let end = at + size(cells, p);
    let k = index_in(&cells[at..end], n)?;
    Some(p * WINDOW_MOST + k)
}

// No number in any topic.
pub fn make(cells: &mut [u64])
    requires { length cells.old ≡ stores_cells }
    ensures { (stores_of cells.new ≡ replicate topic_count no_store) × Windows cells.new }
{
    cells[..ALL_WINDOWS].fill(0);
}

// Whether no topic stores a number: each count is 0.
pub fn is_quiet(cells: &[u64]) -> bool
    requires { length cells.now ≡ stores_cells }
    ensures { result ≡ true → stores_of cells.now ≡ replicate topic_count no_store }
{
    are_zero(&cells[..ALL_WINDOWS])
}

// Whether a topic stores a number.
pub fn is_stored_in(cells: &[u64], t: usize, n: u64) -> bool
    requires { Store cells.now t }
    ensures { result ≡ stored_in (store_at cells.now t) n }
{
    for w in 0..WINDOWS {
        if is_in_window(cells, t * WINDOWS + w, n) {
            return true;
        }
    }
    false
}

// The place of a number that some topic stores. No map finds it, since the router has no heap.
pub fn find(cells: &[u64], n: u64) -> Option<usize>
    requires { Windows cells.now }
    ensures { PlaceOf (stored_at cells.now n) result }
{
    for p in 0..ALL_WINDOWS {
        if is_in_window(cells, p, n) {
            return place_in(cells, p, n);
        }
    }
    None
}

// Whether a number stands at a place that is in use.
fn is_at(cells: &[u64], place: u64, n: u64) -> bool
    requires { Windows cells.now }
    ensures { result ≡ true → stored_at cells.now n ≡ true }
{
    if place >= PLACES as u64 {
        return false;
    }
    let i = place as usize;
    let count = size(cells, i / WINDOW_MOST);
    (i % WINDOW_MOST < count) & (cells[ALL_WINDOWS + i] == n)
}

// Whether the number stands at a place, or where its window has moved since, one on at each heartbeat.
fn is_near(cells: &[u64], place: u64, n: u64) -> bool
    requires { Windows cells.now }
    ensures { result ≡ true → stored_at cells.now n ≡ true }
{
    if place >= PLACES as u64 {
        return false;
    }
    for moved in 0..(WINDOWS as u64) {
        if is_at(cells, place + moved * WINDOW_MOST as u64, n) {
            return true;
        }
    }
    false
}

// Whether some topic stores a number, with a place where it may stand: only where it does not, all places are searched.
pub fn is_stored_at(cells: &[u64], place: u64, n: u64) -> bool
    requires { Windows cells.now }
    ensures { result ≡ stored_at cells.now n }
{
    is_near(cells, place, n) || find(cells, n).is_some()
}

// Whether the running heartbeat's window has room.
pub fn has_room(cells: &[u64], t: usize) -> bool
    requires { (length cells.now ≡ stores_cells) × (t < topic_count) }
    ensures { result ≡ ltb (running (store_at cells.now t)) window_most }
{
    cells[t * WINDOWS] < WINDOW_MOST as u64
}

// A number goes into the running heartbeat's window.
pub fn add(cells: &mut [u64], t: usize, n: u64)
    requires { Windows cells.old × ((t < topic_count) × (running (store_at cells.old t) < window_most)) }
    ensures { (stores_of cells.new ≡ set (stores_of cells.old) t (added n (store_at cells.old t)))
        × Windows cells.new }
{
    let p = t * WINDOWS;
    let count = size(cells, p);
    let at = start(p) + count;
    cells[at] = n;
    cells[p] = count as u64 + 1;
}

// A topic's store is emptied.
pub fn empty(cells: &mut [u64], t: usize)
    requires { Windows cells.old × (t < topic_count) }
    ensures { (stores_of cells.new ≡ set (stores_of cells.old) t no_store) × Windows cells.new }
{
    let p = t * WINDOWS;
    cells[p..p + WINDOWS].fill(0);
}

// A window takes the place of the one behind it.
fn shift(cells: &mut [u64], p: usize)
    requires { Windows cells.old × (p + 1 < all_windows) }
    ensures { Shifted cells.old cells.new p }
{
    let n = size(cells, p);
    let at = start(p);
    copy_within(cells, at, at + WINDOW_MOST, n);
    cells[p + 1] = n as u64;
}

// A new heartbeat of a topic.
fn move_topic(cells: &mut [u64], t: usize)
    requires { Windows cells.old × (t < topic_count) }
    ensures { Changed cells.old cells.new t (moved (five_at cells.old t)) }
{
    let p = t * WINDOWS;
    shift(cells, p + 3);
    shift(cells, p + 2);
    shift(cells, p + 1);
    shift(cells, p);
    cells[p] = 0;
}

// A new heartbeat: the fifth last one's numbers go.
pub fn move_on(cells: &mut [u64])
    requires { Windows cells.old }
    ensures { (stores_of cells.new ≡ map moved (stores_of cells.old)) × Windows cells.new }
{
    for t in 0..TOPICS {
        move_topic(cells, t);
    }
}

// A list's numbers go into another from `at` on. By their places, since the library's copy between two lent slices would need `memmove`,
// where the static library promises to need `memcpy` and `memset` alone.
fn copy_to(list: &mut [u64], at: usize, from: &[u64])
    requires { at + length from.now ≤ length list.old }
    ensures { list.new ≡ sets list.old at from.now }
{
    for k in 0..from.len() {
        list[at + k] = from[k];
    }
}

// So do a window's; where the list ends then.
fn append(cells: &[u64], p: usize, list: &mut [u64], at: usize) -> usize
    requires { Window cells.now p × (at + window_most ≤ length list.old) }
    ensures { (list.new ≡ sets list.old at (window_at cells.now p))
        × ((result ≡ at + length (window_at cells.now p)) × (result ≤ at + window_most)) }
{
    let from = start(p);
    let n = size(cells, p);
    let end = from + n;
    copy_to(list, at, &cells[from..end]);
    at + n
}

// The numbers of the last three heartbeats, oldest first; how many.
pub fn announce(cells: &[u64], t: usize, list: &mut [u64]) -> usize
    requires { Store cells.now t × (numbers_most ≤ length list.old) }
    ensures { (list.new ≡ sets list.old 0 (announced (store_at cells.now t)))
        × (result ≡ length (announced (store_at cells.now t))) }
{
    let p = t * WINDOWS;
    let a = append(cells, p + 2, list, 0);
    let b = append(cells, p + 1, list, a);
    append(cells, p, list, b)
}
