// Sets of slots as words, and what mesh maintenance makes of them: walks along an order, the test of a permutation, the median of a set's
// scores. Contracts speak of a set's list of flags, `bits_of` its words, so that the definitions over lists stand. Lists of a number for
// each slot are lent.
#![tactic(auto)]

ghost use Rattle.std.specs.Prelude.{◌≡◌, get_or, length};
ghost use Rattle.records.specs.Records.{slot_count};
ghost use Rattle.words.specs.Words.{bits_of};
ghost use Rattle.sets.specs.Sets.{size, both, except, from};

use records::SLOTS;
use words::WORDS;
use words::flags::pack;

pub mod median;
pub mod permutation;
pub mod walks;

// How many slots are in the set.
pub fn size(m: [u64; WORDS]) -> u64
    ensures { result ≡ size (bits_of m) }
{
    words::size(m)
}

// In a and in b. By word, and `except` likewise: one function of both with a closure would be no shorter.
pub fn both(a: [u64; WORDS], b: [u64; WORDS]) -> [u64; WORDS]
    ensures { bits_of result ≡ both (bits_of a) (bits_of b) }
{
    let mut r = [0; WORDS];
    for i in 0..WORDS {
        r[i] = a[i] & b[i];
    }
    r
}

// In a and not in b.
pub fn except(a: [u64; WORDS], b: [u64; WORDS]) -> [u64; WORDS]
    ensures { bits_of result ≡ except (bits_of a) (bits_of b) }
{
    let mut r = [0; WORDS];
    for i in 0..WORDS {
        r[i] = a[i] & !b[i];
    }
    r
}

// The slots whose score is at least x.
pub fn at_least(x: u64, scores: &[u64]) -> [u64; WORDS]
    requires { length scores.now ≡ slot_count }
    ensures { bits_of result ≡ from x scores.now }
{
    let mut r = [false; SLOTS];
    for i in 0..SLOTS {
        r[i] = x <= scores[i];
    }
    pack(r)
}

// The number by slot at s; past the end, 0.
pub fn number_at(numbers: &[u64], s: u64) -> u64
    ensures { result ≡ get_or numbers.now s 0 }
{
    if s < numbers.len() as u64 {
        numbers[s as usize]
    } else {
        0
    }
}
