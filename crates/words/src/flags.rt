// A set of slots from a flag for each slot, and back.
ghost use Rattle.std.specs.Prelude.{◌≡◌, ◌<◌, ◌*◌, ◌^◌};
ghost use Rattle.words.specs.Words.{word_bits, word_count, bits_of, unit, PackedFrom};

use crate::{WORD_BITS, WORDS, at, single};
use records::SLOTS;

// The bit s where the flag is set, else none.
fn flag(b: bool, s: u64) -> u64
    requires { s < word_bits }
    ensures { result ≡ unit b * 2 ^ s }
{
    if b { single(s) } else { 0 }
}

// The word of the slots from 64 * i on.
fn packed(flags: &[bool; SLOTS], i: usize) -> u64
    requires { i < word_count }
    ensures { PackedFrom flags.now i result }
{
    let mut w: u64 = 0;
    for j in 0..WORD_BITS {
        w += flag(flags[WORD_BITS * i + j], j as u64);
    }
    w
}

// The words of the flags.
pub fn pack(flags: [bool; SLOTS]) -> [u64; WORDS]
    ensures { bits_of result ≡ flags }
{
    let mut r = [0; WORDS];
    for i in 0..WORDS {
        r[i] = packed(&flags, i);
    }
    r
}

// The flags of the words.
pub fn unpack(m: [u64; WORDS]) -> [bool; SLOTS]
    ensures { result ≡ bits_of m }
{
    let mut r = [false; SLOTS];
    for s in 0..SLOTS {
        r[s] = at(&m, s as u64);
    }
    r
}
