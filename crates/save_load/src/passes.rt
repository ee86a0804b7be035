// The first two passes of a load over the numbers of the records: do they stand there, and are they in their ranges?
ghost use Rattle.std.specs.Prelude.{◌≡◌, true, cond, eqb};
ghost use Rattle.saves.specs.Load.{parse_from};
ghost use Rattle.save_load.specs.Skim.{skim_of};
ghost use Rattle.save_load.specs.Judge.{is_read, judge_of, outside_now};

use crate::numbers;
use crate::row::ROW;
use saves::LoadError;

// The bytes and a place in them stay apart, as in the definitions of crate saves that these contracts cite.
// The first pass of a load: the place after n numbers from `at` on, unless one is malformed.
pub fn skim_numbers(s: &[u8], at: usize, n: usize) -> Result<usize, LoadError>
    ensures { result ≡ skim_of (parse_from n s.now at) }
{
    let mut place = at;
    for _i in 0..n {
        let Some((_, next)) = numbers::read_number(s, place) else {
            return Err(LoadError::Malformed(place));
        };
        place = next;
    }
    Ok(place)
}

// Whether number v in column j of its record is outside its range; the id has to pass the id before it.
fn is_outside(most: u64, last: u64, j: usize, v: u64) -> bool
    ensures { result ≡ outside_now most last j v }
{
    !((!(j == 0) | (last < v)) & (v <= most))
}

// The id that the next one has to pass.
fn id_after(last: u64, j: usize, v: u64) -> u64
    ensures { result ≡ cond (eqb j 0) v last }
{
    if j == 0 { v } else { last }
}

// The second pass of a load: the place of the first number outside its range.
pub fn first_outside(s: &[u8], at: usize, n: usize, most: &[u64; ROW]) -> Option<usize>
    requires { is_read (parse_from n s.now at) ≡ true }
    ensures { result ≡ judge_of most.now s.now at n (parse_from n s.now at) }
{
    let mut place = at;
    let mut last: u64 = 0;
    for i in 0..n {
        let j = i % ROW;
        let Some((v, next)) = numbers::read_number(s, place) else {
            return None;
        };
        if is_outside(most[j], last, j, v) {
            return Some(place);
        }
        last = id_after(last, j, v);
        place = next;
    }
    None
}
