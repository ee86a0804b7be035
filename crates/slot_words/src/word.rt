// Two flags of all slots, compared word by word. Each test is 0 where it passes, so that several can be gathered. The four cells of a word
// are written out: a loop over them would be longer.
ghost use Rattle.std.specs.Prelude.{◌≡◌, ℕ, ◌-◌, ◌/◌, ◌%◌, ◌^◌, ◌<◌, max, length};
ghost use Rattle.records.specs.Records.{slot_count};
ghost use Rattle.layout.specs.View.{bit_at};

use layout::WORDS;

fn outside_word(a: u64, b: u64) -> u64
    ensures { result ≡ 0 → (j : ℕ) → j < 64 → a / 2 ^ j % 2 ≡ 1 → b / 2 ^ j % 2 ≡ 1 }
{
    a & !b
}

fn common_word(a: u64, b: u64) -> u64
    ensures { result ≡ 0 → (j : ℕ) → j < 64 → a / 2 ^ j % 2 ≡ 1 → b / 2 ^ j % 2 ≡ 0 }
{
    a & b
}

// The bits that are not set.
pub fn without(w: u64) -> u64
    ensures { (j : ℕ) → j < 64 → result / 2 ^ j % 2 ≡ 1 - w / 2 ^ j % 2 }
{
    !w
}

// The slots of a that are not in b.
pub fn outside(a: &[u64; WORDS], b: &[u64; WORDS]) -> u64
    ensures { result ≡ 0 → (s : ℕ) → s < slot_count → bit_at a.now 0 s ≡ 1 → bit_at b.now 0 s ≡ 1 }
{
    outside_word(a[0], b[0])
        | outside_word(a[1], b[1])
        | outside_word(a[2], b[2])
        | outside_word(a[3], b[3])
}

// The slots of both.
pub fn common(a: &[u64; WORDS], b: &[u64; WORDS]) -> u64
    ensures { result ≡ 0 → (s : ℕ) → s < slot_count → bit_at a.now 0 s ≡ 1 → bit_at b.now 0 s ≡ 0 }
{
    common_word(a[0], b[0])
        | common_word(a[1], b[1])
        | common_word(a[2], b[2])
        | common_word(a[3], b[3])
}

// The slots of a.
pub fn any(a: &[u64; WORDS]) -> u64
    ensures { result ≡ 0 → (s : ℕ) → s < slot_count → bit_at a.now 0 s ≡ 0 }
{
    a[0] | a[1] | a[2] | a[3]
}

// The slots of one of the two, as words.
pub fn union(a: &[u64; WORDS], b: &[u64; WORDS]) -> [u64; WORDS]
    ensures { (length result ≡ 4)
        × ((s : ℕ) → s < slot_count → bit_at result 0 s ≡ max (bit_at a.now 0 s) (bit_at b.now 0 s)) }
{
    [a[0] | b[0], a[1] | b[1], a[2] | b[2], a[3] | b[3]]
}
