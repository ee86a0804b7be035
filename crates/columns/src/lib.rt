// Passes over the columns of a table: each looks at one number of all slots in use, two or more at a time. A pass gathers the union of the
// cells, and of their sums with what is left of the limit below a free bit; the free bits of the union tell whether every cell is within.
// Only `true` says something: each fact is one of the state, so where a pass says `false` the caller looks record by record.
#![tactic(auto)]

ghost use Rattle.std.specs.Prelude.{◌≡◌, ℕ, ◌+◌, ◌*◌, ◌<◌, ◌≤◌, true, length};
ghost use Rattle.records.specs.Records.{topic_count};
ghost use Rattle.layout.specs.View.{state_of, cell_count};
ghost use Rattle.columns.specs.Gather.{gathered, room, halves_room, lanes_room, Halves, Lanes, RunWithin, counters_gathered};
ghost use Rattle.columns.specs.Within.{InUse, PeersWithin, Named, OneGroup, NoRetain, EndsWithin, CountersWithin};

use layout::{
    COUNTERS_AT, ENDS_AT, GROUPS_AT, HALF, ID_AT, LANE, LANES, P3B_AT, P57_AT, RETAIN_AT, STRIDE,
};
use records::TOPICS;

// The free bit above a whole cell, a lane of 21 bits, one of 32.
const CELL_TOP: u64 = 9223372036854775808;

const LANE_TOP: u64 = 1048576;

const HALF_TOP: u64 = 2147483648;

// Added to a number, it sets the free bits exactly where the number is not 0.
const LESS_ONE: u64 = 18446744073709551615;

// ---- passes

// The union of n cells and of their sums with k.
fn gathered(cells: &[u64], at: usize, n: usize, k: u64) -> u64
    requires { at + n ≤ length cells.now }
    ensures { result ≡ gathered cells.now at k n }
{
    let mut acc: u64 = 0;
    for i in 0..n {
        let x = cells[at + i];
        acc = acc | x | std::num::wrapping_add_u64(x, k);
    }
    acc
}

// Where a column begins, and what is added to each of its cells.
#[derive(Clone, Copy)]
struct Column {
    at: usize,
    room: u64,
}

#[derive(Clone, Copy)]
struct Unions {
    a: u64,
    b: u64,
    e: u64,
}

// The same of three columns in one walk: three calls of `gathered` would take three times its turns.
fn three(cells: &[u64], n: usize, a: Column, b: Column, e: Column) -> Unions
    requires { (a.at + n ≤ length cells.now) × ((b.at + n ≤ length cells.now) × (e.at + n ≤ length cells.now)) }
    ensures { (result.a ≡ gathered cells.now a.at a.room n)
        × ((result.b ≡ gathered cells.now b.at b.room n) × (result.e ≡ gathered cells.now e.at e.room n)) }
{
    let mut u: u64 = 0;
    let mut v: u64 = 0;
    let mut w: u64 = 0;
    for i in 0..n {
        let x = cells[a.at + i];
        let y = cells[b.at + i];
        let z = cells[e.at + i];
        u = u | x | std::num::wrapping_add_u64(x, a.room);
        v = v | y | std::num::wrapping_add_u64(y, b.room);
        w = w | z | std::num::wrapping_add_u64(z, e.room);
    }
    Unions { a: u, b: v, e: w }
}

// ---- limits

fn room(top: u64, limit: u64) -> u64
    requires { 1 ≤ top }
    ensures { (result ≡ room top limit) × (result + 1 ≤ top) }
{
    if limit < top { top - 1 - limit } else { 0 }
}

fn halves_room(low: u64, high: u64) -> u64
    ensures { result ≡ halves_room low high }
{
    room(HALF_TOP, low) + room(HALF_TOP, high) * HALF
}

fn lanes_room(first: u64, second: u64, third: u64) -> u64
    ensures { result ≡ lanes_room first second third }
{
    room(LANE_TOP, first) + room(LANE_TOP, second) * LANE + room(LANE_TOP, third) * LANES
}

// A number that none of 4 n cells is above: their union. Four cells a turn, so that the loads bind it and not the turns.
fn above(cells: &[u64], at: usize, n: usize) -> u64
    requires { (at + 4 * n ≤ length cells.now) × (length cells.now ≡ cell_count) }
    ensures { RunWithin cells.now at (4 * n) result }
{
    let mut acc: u64 = 0;
    for i in 0..n {
        acc = acc
            | (cells[at + i] | cells[at + n + i] | (cells[at + 2 * n + i] | cells[at + 3 * n + i]));
    }
    acc
}

// Whether the rows of n slots are at most a limit. The union alone mostly tells, in half the time.
fn rows_within(cells: &[u64], at: usize, n: usize, limit: u64) -> bool
    requires { (at + 8 * n ≤ length cells.now) × (length cells.now ≡ cell_count) }
    ensures { result ≡ true → RunWithin cells.now at (8 * n) limit }
{
    if above(cells, at, 2 * n) <= limit {
        return true;
    }
    gathered(cells, at, 8 * n, room(CELL_TOP, limit)) < CELL_TOP
}

// Whether a union leaves the free bits of its lanes clear.
fn halves(x: u64) -> bool
    ensures { result ≡ true → Halves x }
{
    (x % HALF < HALF_TOP) & (x / HALF < HALF_TOP)
}

fn lanes(x: u64) -> bool
    ensures { result ≡ true → Lanes x }
{
    (x % LANE < LANE_TOP) & (x / LANE % LANE < LANE_TOP) & (x / LANES < LANE_TOP)
}

// ---- the peers

// Whether id, first group, P5 and P7 of n slots are at most these.
pub fn peers_within(cells: &[u64], n: usize, id: u64, group: u64, p5: u64, p7: u64) -> bool
    requires { InUse cells.now n }
    ensures { result ≡ true → PeersWithin (state_of cells.now) n id group p5 p7 }
{
    let ids = Column {
        at: ID_AT,
        room: room(CELL_TOP, id),
    };
    let groups = Column {
        at: GROUPS_AT,
        room: room(CELL_TOP, group),
    };
    let p57 = Column {
        at: P57_AT,
        room: halves_room(p5, p7),
    };
    let u = three(cells, n, ids, groups, p57);
    (u.a < CELL_TOP) & (u.b < CELL_TOP) & halves(u.e)
}

// Whether each of n slots has an id and a group.
pub fn named(cells: &[u64], n: usize) -> bool
    requires { InUse cells.now n }
    ensures { result ≡ true → Named (state_of cells.now) n }
{
    (gathered(cells, ID_AT, n, LESS_ONE) < CELL_TOP)
        & (gathered(cells, GROUPS_AT, n, LESS_ONE) < CELL_TOP)
}

// Whether none of n slots has a second group.
pub fn one_group(cells: &[u64], n: usize) -> bool
    requires { InUse cells.now n }
    ensures { result ≡ true → OneGroup (state_of cells.now) n }
{
    let second = Column {
        at: GROUPS_AT + STRIDE,
        room: 0,
    };
    let third = Column {
        at: GROUPS_AT + 2 * STRIDE,
        room: 0,
    };
    let fourth = Column {
        at: GROUPS_AT + 3 * STRIDE,
        room: 0,
    };
    let u = three(cells, n, second, third, fourth);
    (u.a == 0) & (u.b == 0) & (u.e == 0)
}

// Whether none of n slots has a retain end.
pub fn no_retain(cells: &[u64], n: usize) -> bool
    requires { InUse cells.now n }
    ensures { result ≡ true → NoRetain (state_of cells.now) n }
{
    gathered(cells, RETAIN_AT, n, 0) == 0
}

// Whether every backoff end of n slots is at most m.
pub fn ends_within(cells: &[u64], n: usize, m: u64) -> bool
    requires { InUse cells.now n }
    ensures { result ≡ true → EndsWithin (state_of cells.now) n m }
{
    rows_within(cells, ENDS_AT, n, m)
}

// ---- what they hold for the topics

// The unions of the counters of n slots, of all topics, each by the caps of its topic.
fn counters(cells: &[u64], n: usize, caps2: &[u64; 8], caps3: &[u64; 8], p4: u64) -> u64
    requires { InUse cells.now n }
    ensures { Lanes result → (t : ℕ) → t < topic_count
        → Lanes (counters_gathered cells.now n caps2.now caps3.now p4 t) }
{
    let mut acc: u64 = 0;
    for t in 0..TOPICS {
        acc = acc
            | gathered(
                cells,
                COUNTERS_AT + t * STRIDE,
                n,
                lanes_room(caps2[t], caps3[t], p4),
            );
    }
    acc
}

// Whether the counters of n slots are at most these.
pub fn counters_within(
    cells: &[u64],
    n: usize,
    caps2: &[u64; 8],
    caps3: &[u64; 8],
    p4: u64,
    p3b: u64,
) -> bool
    requires { InUse cells.now n }
    ensures { result ≡ true
        → CountersWithin (state_of cells.now) n caps2.now caps3.now p4 p3b }
{
    lanes(counters(cells, n, caps2, caps3, p4)) & rows_within(cells, P3B_AT, n, p3b)
}
