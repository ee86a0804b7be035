// The numbers of a save, each as `varint::read_u64` reads it, which asks at every byte how much further a number can go. Most numbers of a
// save are one byte long, and the others short: these are read here, and what is no such number is left to it.
ghost use Rattle.std.specs.Prelude.{◌≡◌, ◌≤◌, ◌<◌, length};
ghost use Rattle.varint.specs.Groups.{read_at};
ghost use Rattle.save_load.specs.Numbers.{Reaches};

// A byte of a number has seven of its bits, and its top bit set on all but the last.
const GROUP: u64 = 128;

// A number of 64 bits has no more bytes than these.
const MOST_BYTES: usize = 10;

// One above this has no room for another byte.
const ROOM: u64 = 144115188075855871;

fn wide(x: u8) -> u64
    ensures { result ≡ x }
{
    x as u64
}

// The last place at which a number at `at` can end, of so many bytes.
fn limit_of(at: usize, size: usize) -> usize
    requires { at < size }
    ensures { (at ≤ result) × (result < size) }
{
    if size - at <= MOST_BYTES {
        return size - 1;
    }
    at + MOST_BYTES - 1
}

// The first place from `at` on whose byte has its top bit clear, or the last at which a number can end.
fn last_of(s: &[u8], at: usize) -> usize
    requires { at < length s.now }
    ensures { Reaches s.now at result }
{
    let limit = limit_of(at, s.len());
    for place in at..limit {
        if wide(s[place]) < GROUP {
            return place;
        }
    }
    limit
}

// The number at `at`, from its last byte to its first.
fn long_number(s: &[u8], at: usize) -> Option<(u64, usize)>
    requires { at < length s.now }
    ensures { result ≡ read_at 18446744073709551615 s.now at }
{
    let last = last_of(s, at);
    let mut value = wide(s[last]);
    if !((0 < value) & (value < GROUP)) {
        return varint::read_u64(s, at);
    }
    for place in (at..last).rev() {
        if ROOM < value {
            return varint::read_u64(s, at);
        }
        value = value * GROUP + (wide(s[place]) - GROUP);
    }
    Some((value, last + 1))
}

// The number at `at`.
pub fn read_number(s: &[u8], at: usize) -> Option<(u64, usize)>
    ensures { result ≡ read_at 18446744073709551615 s.now at }
{
    if s.len() <= at {
        return None;
    }
    let low = wide(s[at]);
    if low < GROUP {
        return Some((low, at + 1));
    }
    long_number(s, at)
}
