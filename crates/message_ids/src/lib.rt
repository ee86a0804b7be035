// The table of message ids that the host lends (02, order 6): whether it is accepted, and the row of an id or of a number. The definitions
// are specs/Ids.antt. Row k is a length and 64 bytes of `ids`, and a number; `order` names the rows so that their numbers rise.
#![tactic(auto)]

ghost use Rattle.std.specs.Prelude.{◌≡◌, true, ◌+◌, ◌*◌, ◌≤◌, ◌<◌, length};
ghost use Rattle.std.specs.Ordering.{nat_cmp, ordering_then};
ghost use Rattle.std.specs.Cmp.Lexicographic.{slice_cmp};
ghost use Rattle.index.specs.Index.{every};
ghost use Rattle.message_ids.specs.Ids.{row_bytes, id_size, id_start, row_of, number_row, id_ok, ids_ok, place_ok, numbers_ok, table_ok};
ghost use Rattle.message_ids.specs.Ids.{Compared};

use std::cmp::Ordering;

pub const ID_BYTES: usize = 64;

pub const ROW_BYTES: usize = 65;

// A table that is accepted.
#[derive(Clone, Copy)]
pub struct Table<'a> {
    pub ids: &'a [u8],
    pub numbers: &'a [u64],
    pub order: &'a [u64],
    ghost accepted: { table_ok ids.now numbers.now order.now ≡ true },
}

// How many bytes of two ids are compared one by one. In a sorted table of random ids neighbours differ in these.
const NEAR: usize = 8;

// Two ids of one length that begin alike. Apart from `compare`, so that what most ids need is compiled where it is asked.
#[inline(never)]
fn compare_alike(a: &[u8], b: &[u8]) -> Ordering
    ensures { result ≡ slice_cmp nat_cmp a.now b.now }
{
    a.cmp(&b)
}

// Two ids: the shorter is before the longer, and of one length the bytes decide. The first few one by one, since most ids differ there, and
// the library's order begins with groups of bytes: without them a table of ids took two thirds as long again to test.
#[inline(always)]
fn compare(a: &[u8], b: &[u8]) -> Ordering
    ensures { result ≡ ordering_then (nat_cmp (length a.now) (length b.now)) (slice_cmp nat_cmp a.now b.now) }
{
    if a.len() < b.len() {
        return Ordering::Less;
    }
    if b.len() < a.len() {
        return Ordering::Greater;
    }
    for k in 0..a.len().min(NEAR) {
        let x = a[k];
        let y = b[k];
        if x < y {
            return Ordering::Less;
        }
        if y < x {
            return Ordering::Greater;
        }
    }
    compare_alike(a, b)
}

// The id of row k, and `size` bytes of s.
#[inline(always)]
fn compare_row(ids: &[u8], rows: usize, k: usize, s: &[u8], start: usize, size: usize) -> Ordering
    requires { (length ids.now ≡ row_bytes * rows) × ((k < rows) × ((id_size ids.now k ≤ 64) × (start + size ≤ length s.now))) }
    ensures { Compared ids.now (id_start k) (id_size ids.now k) s.now start size result }
{
    let row = ROW_BYTES * k;
    let n = usize::from(ids[row]);
    compare(&ids[row + 1..row + 1 + n], &s[start..start + size])
}

// Whether row k is an id after the one before it.
fn id_ok(ids: &[u8], rows: usize, k: usize) -> bool
    requires { (length ids.now ≡ row_bytes * rows) × ((k < rows) × (every k (id_ok ids.now) ≡ true)) }
    ensures { result ≡ id_ok ids.now k }
{
    let at = ROW_BYTES * k;
    let size = usize::from(ids[at]);
    if size == 0 {
        return false;
    }
    if ID_BYTES < size {
        return false;
    }
    if k == 0 {
        return true;
    }
    compare_row(ids, rows, k - 1, ids, at + 1, size).is_lt()
}

fn ids_ok(ids: &[u8], rows: usize) -> bool
    ensures { result ≡ ids_ok ids.now rows }
{
    if ids.len() % ROW_BYTES != 0 {
        return false;
    }
    if ids.len() / ROW_BYTES != rows {
        return false;
    }
    for k in 0..rows {
        if !id_ok(ids, rows, k) {
            return false;
        }
    }
    true
}

// Whether the k-th number by size is one of the table, and after the one before it.
fn place_ok(numbers: &[u64], order: &[u64], k: usize) -> bool
    requires { (length order.now ≡ length numbers.now) × ((k < length numbers.now)
        × (every k (place_ok numbers.now order.now) ≡ true)) }
    ensures { result ≡ place_ok numbers.now order.now k }
{
    let row = order[k] as usize;
    if numbers.len() <= row {
        return false;
    }
    if k == 0 {
        return true;
    }
    let last = order[k - 1] as usize;
    numbers[last] < numbers[row]
}

fn numbers_ok(numbers: &[u64], order: &[u64]) -> bool
    ensures { result ≡ numbers_ok numbers.now order.now }
{
    if order.len() != numbers.len() {
        return false;
    }
    for k in 0..numbers.len() {
        if !place_ok(numbers, order, k) {
            return false;
        }
    }
    true
}

// Whether a table is accepted, else 2.
pub fn table_ok(ids: &[u8], numbers: &[u64], order: &[u64]) -> bool
    ensures { result ≡ table_ok ids.now numbers.now order.now }
{
    if !ids_ok(ids, numbers.len()) {
        return false;
    }
    numbers_ok(numbers, order)
}

// The row whose id stands in s, found by halves. Not by the library's search: its closure may be called at any row, so each step would test
// the row's length again.
pub fn row_of(ids: &[u8], rows: usize, s: &[u8], start: usize, size: usize) -> Option<usize>
    requires { (ids_ok ids.now rows ≡ true) × (start + size ≤ length s.now) }
    ensures { result ≡ row_of ids.now rows s.now start size }
{
    let mut low: usize = 0;
    let mut high = rows;
    while low < high {
        let mid = low + (high - low) / 2;
        match compare_row(ids, rows, mid, s, start, size) {
            Ordering::Equal => {
                return Some(mid);
            }
            Ordering::Less => {
                low = mid + 1;
            }
            Ordering::Greater => {
                high = mid;
            }
        }
    }
    None
}

// The row that has a number, found by halves. Not by the library's search: its closure may be called at any row of `order`, so each step
// would test the row's bound again.
pub fn number_row(numbers: &[u64], order: &[u64], v: u64) -> Option<usize>
    requires { numbers_ok numbers.now order.now ≡ true }
    ensures { result ≡ number_row numbers.now v }
{
    let mut low: usize = 0;
    let mut high = numbers.len();
    while low < high {
        let mid = low + (high - low) / 2;
        let row = order[mid] as usize;
        let number = numbers[row];
        if number == v {
            return Some(row);
        }
        if number < v {
            low = mid + 1;
        } else {
            high = mid;
        }
    }
    None
}
