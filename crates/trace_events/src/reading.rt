// An event's numbers.
ghost use Rattle.std.specs.Prelude.{◌≡◌, ℕ, ◌≤◌, length, get_or, take};
ghost use Rattle.records.specs.Records.{slot_count};
ghost use Rattle.trace_events.specs.Reading.{order_size, connect_size, widened, outcome, numbers_from, cut_short, number_most};
ghost use Rattle.trace_events.specs.Reading.{arity as arityOf};

use crate::{Edition, NumberError};
use records::SLOTS;

// The most numbers that follow a kind, the time counted; and those of each kind, 0 for an unknown one.
pub const NUMBERS: usize = 5;

// A kind stays the number that a trace has: an enum of the kinds would be one more table beside this one and the calls of trace_step.
const ARITY: [usize; 14] = [0, 5, 2, 2, 2, 3, 3, 3, 4, 4, 3, 3, 1, 2];

// How many numbers a connect has before its groups are known: the third edition counts them.
fn connect_size(edition: Edition) -> usize
    ensures { result ≡ connect_size edition }
{
    match edition {
        Edition::First => 5,
        Edition::Second => 5,
        Edition::Third => 3,
    }
}

pub fn arity(edition: Edition, kind: u64) -> usize
    ensures { (result ≡ arityOf edition kind) × (result ≤ number_most) }
{
    if kind == 1 {
        return connect_size(edition);
    }
    if kind < 14 {
        let k = kind as usize;
        return ARITY[k];
    }
    0
}

// How many slots a permutation of the first edition orders.
const OLD_SLOTS: usize = 64;

// How many numbers a permutation has.
pub fn order_size(edition: Edition) -> usize
    ensures { (result ≡ order_size edition) × (result ≤ slot_count) }
{
    match edition {
        Edition::First => OLD_SLOTS,
        Edition::Second => SLOTS,
        Edition::Third => SLOTS,
    }
}

// Puts the first n numbers from a place on into a lent list; the place after them.
pub fn read_numbers(s: &[u8], at: usize, n: usize, values: &mut [u64]) -> Result<usize, NumberError>
    requires { n ≤ length values.old }
    ensures { (outcome n result values.new ≡ numbers_from n s.now at)
        × ((k : ℕ) → n ≤ k → get_or values.new k 0 ≡ get_or values.old k 0) }
{
    let mut place = at;
    for i in 0..n {
        let Some((u, next)) = varint::read_u64(s, place) else {
            return Err(NumberError { place });
        };
        values[i] = u;
        place = next;
    }
    Ok(place)
}

// The slots that a permutation of the first n does not order, behind it by slot.
pub fn widen(order: &mut [u64], n: usize)
    requires { (n ≤ slot_count) × (length order.old ≡ slot_count) }
    ensures { order.new ≡ widened (take n order.old) }
{
    for k in n..SLOTS {
        order[k] = k as u64;
    }
}

// Whether further bytes may complete the number at a place.
pub fn cut_short(s: &[u8], at: usize) -> bool
    ensures { result ≡ cut_short s.now at }
{
    if s.len() <= at {
        return true;
    }
    if 10 <= s.len() - at {
        return false;
    }
    let n = s.len() - at;
    for k in 0..n {
        if s[at + k] < 128 {
            return false;
        }
    }
    true
}
