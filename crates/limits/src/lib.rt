// The limits of the parameters (01, "The sheet": "Each number of the sheet lies between its two limits, kept in one table"), and the tests
// by them: of the parameters' codes, the form in which they stand in a router's tables. A limit that moves changes a row of the table here
// and the same row of specs/Limits.antt.
#![tactic(auto)]

ghost use Rattle.std.specs.Prelude.{◌≡◌, ◌&&◌, map, ◌<◌, length, get_or};
ghost use Rattle.std.specs.Int.Signed.{le_z};
ghost use Rattle.index.specs.Index.{first, every};
ghost use Rattle.varint.specs.Codes.{code_of, number_of};
ghost use Rattle.records.specs.Records.{topic_count, param_count};
ghost use Rattle.limits.specs.Limits.{general_count, of_topic, field_count, to, limits, field_of, limit_at, lies, in_limits, outside};
ghost use Rattle.limits.specs.Limits.{place};

use records::TOPICS;

// How many numbers the parameters are: the general ones, then as many for each topic.
pub const NUMBERS: usize = GENERAL + TOPICS * OF_TOPIC;

pub const GENERAL: usize = 19;

pub const OF_TOPIC: usize = 16;

// How many fields the table of limits has: a topic's numbers have the same in every topic.
pub const FIELDS: usize = GENERAL + OF_TOPIC;

// The least and the greatest value of a field.
#[derive(Clone, Copy)]
pub struct Limit {
    pub low: i64,
    pub high: i64,
}

// The limits by field: 19 general fields, then the 16 that every topic has.
const LIMITS: [Limit; FIELDS] = [
    // D_lo
    Limit { low: 1, high: 48 },
    // D
    Limit { low: 1, high: 48 },
    // D_hi
    Limit { low: 1, high: 48 },
    // D_out
    Limit { low: 0, high: 24 },
    // D_score
    Limit { low: 0, high: 48 },
    // prune backoff
    Limit { low: 1, high: 3600 },
    // unsubscribe backoff
    Limit { low: 1, high: 3600 },
    // retain seconds
    Limit {
        low: 0,
        high: 86400,
    },
    // opportunistic threshold
    Limit {
        low: 0,
        high: 1000000,
    },
    // graylist threshold
    Limit {
        low: -1000000000,
        high: -1,
    },
    // gossip threshold
    Limit {
        low: -1000000000,
        high: -1,
    },
    // publish threshold
    Limit {
        low: -1000000000,
        high: -1,
    },
    // topic cap
    Limit {
        low: 0,
        high: 1000000000,
    },
    // w5
    Limit { low: 1, high: 100 },
    // w6
    Limit {
        low: -100,
        high: -1,
    },
    // P6 threshold
    Limit { low: 1, high: 256 },
    // w7
    Limit {
        low: -100,
        high: -1,
    },
    // P7 decay
    Limit { low: 1, high: 999 },
    // decay-to-zero
    Limit { low: 0, high: 1000 },
    // weight
    Limit { low: 0, high: 1000 },
    // w1
    Limit { low: 0, high: 100 },
    // quantum
    Limit {
        low: 1,
        high: 3600000,
    },
    // P1 cap
    Limit { low: 0, high: 1000 },
    // w2
    Limit { low: 0, high: 100 },
    // P2 decay
    Limit { low: 1, high: 999 },
    // P2 cap
    Limit {
        low: 0,
        high: 1000000,
    },
    // w3
    Limit { low: -100, high: 0 },
    // P3 decay
    Limit { low: 1, high: 999 },
    // P3 cap
    Limit {
        low: 1,
        high: 1000000,
    },
    // P3 threshold
    Limit {
        low: 1,
        high: 1000000,
    },
    // activation
    Limit {
        low: 0,
        high: 3600000,
    },
    // w3b
    Limit { low: -100, high: 0 },
    // P3b decay
    Limit { low: 1, high: 999 },
    // w4
    Limit { low: -100, high: 0 },
    // P4 decay
    Limit { low: 1, high: 999 },
];

// The field of number i.
fn field_of(i: usize) -> usize
    requires { i < param_count }
    ensures { (result ≡ field_of i) × (result < field_count) }
{
    if i < GENERAL {
        i
    } else {
        GENERAL + (i - GENERAL) % OF_TOPIC
    }
}

// The table whole, for those who walk along it: it is built anew at each use, and taken once.
pub fn limits() -> [Limit; FIELDS]
    ensures { result ≡ limits }
{
    LIMITS
}

// The limits of number i.
pub fn limit_of(i: usize) -> Limit
    requires { i < param_count }
    ensures { result ≡ limit_at (field_of i) }
{
    let f = field_of(i);
    LIMITS[f]
}

// The codes of numbers, where they are wanted: an array that is returned is copied more than once on the stack.
pub fn write_codes(numbers: &[i64; NUMBERS], codes: &mut [u64])
    requires numbers_len { length numbers.now ≡ param_count }
    requires codes_len { length codes.old ≡ param_count }
    ensures { codes.new ≡ map code_of numbers.now }
{
    for i in 0..NUMBERS {
        codes[i] = varint::code_of(numbers[i]);
    }
}

// The codes of numbers.
pub fn codes_of(numbers: &[i64; NUMBERS]) -> [u64; NUMBERS]
    requires { length numbers.now ≡ param_count }
    ensures { result ≡ map code_of numbers.now }
{
    let mut codes = [0u64; NUMBERS];
    write_codes(numbers, &mut codes);
    codes
}

// Whether x lies between two limits.
fn between(low: i64, x: i64, high: i64) -> bool
    ensures { result ≡ (le_z low x && le_z x high) }
{
    (low <= x) & (x <= high)
}

// Whether u is the code of a number between two limits.
fn code_lies(u: u64, low: i64, high: i64) -> bool
    ensures { result ≡ (le_z low (number_of u) && le_z (number_of u) high) }
{
    between(low, varint::number_of(u), high)
}

// Whether code i is that of a number between its limits.
fn code_in(codes: &[u64], i: usize) -> bool
    requires { (length codes.now ≡ param_count) × (i < param_count) }
    ensures { result ≡ in_limits (map number_of codes.now) i }
{
    let l = limit_of(i);
    code_lies(codes[i], l.low, l.high)
}

// The first number that is not between its limits.
pub fn first_outside(codes: &[u64]) -> Option<usize>
    requires { length codes.now ≡ param_count }
    ensures { result ≡ first param_count (outside (map number_of codes.now)) }
{
    for i in 0..NUMBERS {
        if !code_in(codes, i) {
            return Some(i);
        }
    }
    None
}

// Whether the codes of the general numbers lie between their limits.
fn general_lie(codes: &[u64]) -> bool
    requires { length codes.now ≡ param_count }
    ensures { result ≡ every general_count (in_limits (map number_of codes.now)) }
{
    let table = limits();
    for i in 0..GENERAL {
        let l = table[i];
        if !code_lies(codes[i], l.low, l.high) {
            return false;
        }
    }
    true
}

// Whether the j-th number of every topic lies between two limits.
fn field_lies(codes: &[u64], j: usize, low: i64, high: i64) -> bool
    requires { (length codes.now ≡ param_count) × (j < of_topic) }
    ensures { result ≡ every topic_count (λ k. lies (number_of (get_or codes.now (place k j) 0)) (to low high)) }
{
    for k in 0..TOPICS {
        if !code_lies(codes[GENERAL + OF_TOPIC * k + j], low, high) {
            return false;
        }
    }
    true
}

// Whether the numbers of the topics do, field by field: so a field's limits are loaded once, which a walk by number with the general ones
// would not do.
fn fields_lie(codes: &[u64]) -> bool
    requires { length codes.now ≡ param_count }
    ensures { result ≡ every of_topic (λ j. every topic_count (λ k. in_limits (map number_of codes.now) (place k j))) }
{
    let table = limits();
    for j in 0..OF_TOPIC {
        let l = table[GENERAL + j];
        if !field_lies(codes, j, l.low, l.high) {
            return false;
        }
    }
    true
}

// Whether all codes are those of numbers between their limits: the same by field, for a router's tables, which every call tests.
pub fn codes_lie(codes: &[u64]) -> bool
    requires { length codes.now ≡ param_count }
    ensures { result ≡ every param_count (in_limits (map number_of codes.now)) }
{
    if !general_lie(codes) {
        return false;
    }
    fields_lie(codes)
}
