// Buckets of numbers, a bit for each: what keeps numbers apart without comparing every two of them. A number whose bucket is not marked is
// none of those that have marked theirs.
#![tactic(auto)]

ghost use Rattle.std.specs.Prelude.{◌≡◌, ◌<◌, ◌%◌, ◌^◌};
ghost use Rattle.marks.specs.Marks.{word_bits, bucket_count, is_marked, marked};

// How many buckets there are, in words of a bit for each. Any number will do; a power of two is divided by at no cost.
const BUCKETS: u64 = 8192;

const WORD_BITS: u64 = 64;

pub const WORDS: usize = 128;

// The bucket of a number.
pub fn bucket(n: u64) -> u64
    ensures { (result ≡ n % bucket_count) × (result < bucket_count) }
{
    n % BUCKETS
}

// The bit k alone.
fn single(k: u64) -> u64
    requires { k < word_bits }
    ensures { result ≡ 2 ^ k }
{
    1 << k
}

// Whether a bucket is marked.
pub fn is_marked(seen: &[u64; WORDS], b: u64) -> bool
    requires { b < bucket_count }
    ensures { result ≡ is_marked seen.now b }
{
    let w = (b / WORD_BITS) as usize;
    (seen[w] >> (b % WORD_BITS)) % 2 == 1
}

// Marks a bucket.
pub fn mark(seen: &mut [u64; WORDS], b: u64)
    requires { b < bucket_count }
    ensures { seen.new ≡ marked seen.old b }
{
    let w = (b / WORD_BITS) as usize;
    seen[w] = seen[w] | single(b % WORD_BITS);
}
