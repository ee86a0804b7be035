// Sets of slots as 64-bit words, bit by slot: slot s is bit s % 64 of word s / 64. A set's list of flags is `bits_of` its words, and every
// contract speaks of that list, so that a definition over lists of flags says what a function over words does.
#![tactic(auto)]

ghost use Rattle.std.specs.Prelude.{◌≡◌, false, ℕ, ◌*◌, ◌≤◌, ◌<◌, ◌^◌, length, get_or, set, replicate};
ghost use Rattle.records.specs.Records.{slot_count};
ghost use Rattle.index.specs.Index.{count};
ghost use Rattle.words.specs.Words.{word_bits, word_count, bits, bits_of, differs, lowest, Next};

use records::SLOTS;

pub mod flags;
pub mod slots;

// The bits of a word, and the words of a set.
pub const WORD_BITS: usize = 64;

pub const WORDS: usize = SLOTS / WORD_BITS;

// Whether the bit s is set.
pub fn bit(w: u64, s: u64) -> bool
    requires { s < word_bits }
    ensures { result ≡ get_or (bits word_bits w) s false }
{
    (w >> s) % 2 == 1
}

// The bit s alone.
pub fn single(s: u64) -> u64
    requires { s < word_bits }
    ensures { result ≡ 2 ^ s }
{
    1 << s
}

// The word with the bit s set, or clear.
pub fn with_bit(w: u64, s: u64, b: bool) -> u64
    requires { s < word_bits }
    ensures { bits word_bits result ≡ set (bits word_bits w) s b }
{
    if b { w | single(s) } else { w & !single(s) }
}

// No slot at all.
pub fn none() -> [u64; WORDS]
    ensures { bits_of result ≡ replicate slot_count false }
{
    [0; WORDS]
}

// Whether the slot s is in the set; past its end, no.
pub fn at(m: &[u64], s: u64) -> bool
    ensures { result ≡ get_or (bits_of m.now) s false }
{
    let i = (s / WORD_BITS as u64) as usize;
    if i < m.len() {
        bit(m[i], s % WORD_BITS as u64)
    } else {
        false
    }
}

// The set with the slot s in, or out; past its end, unchanged.
pub fn put(m: [u64; WORDS], s: u64, b: bool) -> [u64; WORDS]
    ensures { bits_of result ≡ set (bits_of m) s b }
{
    let mut r = m;
    if s < SLOTS as u64 {
        let i = (s / WORD_BITS as u64) as usize;
        r[i] = with_bit(r[i], s % WORD_BITS as u64, b);
    }
    r
}

// The slots that are in one of the two sets alone. By word and not by a closure, as in sets::both: the loop is as long as its call would be.
pub fn differ(a: [u64; WORDS], b: [u64; WORDS]) -> [u64; WORDS]
    ensures { (s : ℕ) → get_or (bits_of result) s false ≡ differs (get_or (bits_of a) s false) (get_or (bits_of b) s false) }
{
    let mut r = [0; WORDS];
    for i in 0..WORDS {
        r[i] = a[i] ^ b[i];
    }
    r
}

// How many bits of the word are set.
fn ones(w: u64) -> u64
    ensures { result ≡ count word_bits (λ s. get_or (bits word_bits w) s false) }
{
    u64::count_ones(w) as u64
}

// How many slots are in the set.
pub fn size(m: [u64; WORDS]) -> u64
    ensures { result ≡ count slot_count (λ s. get_or (bits_of m) s false) }
{
    let mut n: u64 = 0;
    for w in m {
        n += ones(w);
    }
    n
}

// The lowest slot of the set; SLOTS for none, as the definition `lowest` has it (`Slots` gives an Option).
pub fn lowest(m: [u64; WORDS]) -> u64
    ensures { result ≡ lowest (bits_of m) }
{
    next(&m, 0)
}

// The lowest slot from the i-th word on; SLOTS for none. By index, since the word's place is a part of the answer.
fn lowest_from(m: &[u64], i: usize) -> u64
    requires { (length m.now ≡ word_count) × (i ≤ word_count) }
    ensures { Next (bits_of m.now) (word_bits * i) result }
{
    for k in i..WORDS {
        let w = m[k];
        if w != 0 {
            return (WORD_BITS * k) as u64 + u64::trailing_zeros(w) as u64;
        }
    }
    SLOTS as u64
}

// The lowest slot of the set from s on; SLOTS for none, as `Next` has it. A walk over a set (`Slots`) takes it again and again.
pub fn next(m: &[u64], s: u64) -> u64
    requires { (length m.now ≡ word_count) × (s ≤ slot_count) }
    ensures { Next (bits_of m.now) s result }
{
    if SLOTS as u64 <= s {
        return SLOTS as u64;
    }
    let i = (s / WORD_BITS as u64) as usize;
    let w = m[i] >> (s % WORD_BITS as u64);
    if w != 0 {
        return s + u64::trailing_zeros(w) as u64;
    }
    lowest_from(m, i + 1)
}

// The set without its lowest slot.
pub fn without_lowest(m: [u64; WORDS]) -> [u64; WORDS]
    ensures { bits_of result ≡ set (bits_of m) (lowest (bits_of m)) false }
{
    for i in 0..WORDS {
        let w = m[i];
        if w != 0 {
            let mut r = m;
            r[i] = w & (w - 1);
            return r;
        }
    }
    m
}
