// The median of a set's scores, found by counting, with no sorting.
ghost use Rattle.std.specs.Prelude.{◌≡◌, ◌<◌, get_or, length, leb};
ghost use Rattle.records.specs.Records.{slot_count};
ghost use Rattle.words.specs.Words.{bits_of};
ghost use Rattle.sets.specs.Sets.{size, except, from, sort, scores_of};

use crate::{at_least, except, size};
use records::SLOTS;
use words::{WORDS, at};

// Whether at most k of the members' scores are below x.
pub fn few_below(x: u64, k: u64, m: [u64; WORDS], scores: &[u64]) -> bool
    requires { length scores.now ≡ slot_count }
    ensures { result ≡ leb (size (except (bits_of m) (from x scores.now))) k }
{
    size(except(m, at_least(x, scores))) <= k
}

// The score at index k of the members' scores sorted upward: the greatest of them that has at most k below it.
pub fn middle(k: u64, m: [u64; WORDS], scores: &[u64]) -> u64
    requires scores_len { length scores.now ≡ slot_count }
    requires k_bound { k < size (bits_of m) }
    ensures { result ≡ get_or (sort (scores_of (bits_of m) scores.now)) k 0 }
{
    let mut r: u64 = 0;
    for i in 0..SLOTS {
        let x = scores[i];
        if at(&m, i as u64) & (r < x) {
            if few_below(x, k, m, scores) {
                r = x;
            }
        }
    }
    r
}
