// Numbers as bytes: unsigned ones as groups of seven bits, and the codes by which signed ones become unsigned (01, "In bytes").
// The definitions are specs/Groups.antt and specs/Codes.antt. The reader and the writer are recursive, so that one law holds for every
// width; another width is another `top` of `read_up_to`.
#![tactic(auto)]

ghost use Rattle.std.specs.Prelude.{◌≡◌, ◌≤◌, ◌<◌, ◌^◌, nat_abs};
ghost use Rattle.std.specs.Int.Signed.{mag};
ghost use Rattle.varint.specs.Groups.{read_at, after_more, last_group, put_of};
ghost use Rattle.varint.specs.Codes.{code_of, number_of, negative, signed_of, magnitude as magnitudeOf};

fn wide(x: u8) -> u64
    ensures { result ≡ x }
{
    x as u64
}

// The answer at a byte `low` with its top bit clear.
fn last_group(low: u64, next: usize, top: u64) -> Option<(u64, usize)>
    ensures { result ≡ last_group top low next }
{
    if low <= top { Some((low, next)) } else { None }
}

// The answer at a byte `low` with its top bit set, from the answer at the next place.
fn after_more(rest: Option<(u64, usize)>, low: u64, top: u64) -> Option<(u64, usize)>
    requires { (128 ≤ low) × (low < 256) }
    ensures { result ≡ after_more top low rest }
{
    let (v, next) = rest?;
    if v == 0 {
        return None;
    }
    if top / 128 < v {
        return None;
    }
    let high = v * 128;
    if low - 128 <= top - high {
        return Some((high + (low - 128), next));
    }
    None
}

// The number up to `top` that stands at `at`. It ends where no further group can be within `top`, so its depth is that of the width,
// however many bytes follow.
fn read_up_to(s: &[u8], at: usize, top: u64) -> Option<(u64, usize)>
    ensures { result ≡ read_at top s.now at }
{
    if s.len() <= at {
        return None;
    }
    let low = wide(s[at]);
    if low < 128 {
        return last_group(low, at + 1, top);
    }
    if top < 128 {
        return None;
    }
    after_more(read_up_to(s, at + 1, top / 128), low, top)
}

// The number of 64 bits that stands at `at`.
pub fn read_u64(s: &[u8], at: usize) -> Option<(u64, usize)>
    ensures { result ≡ read_at 18446744073709551615 s.now at }
{
    read_up_to(s, at, 18446744073709551615)
}

// Write the groups of `n` from `at` on where they fit, and otherwise leave the buffer. The last group is written first, so that nothing is
// touched before the room is known.
pub fn write_u64(buf: &mut [u8], at: usize, n: u64) -> Option<usize>
    ensures { (result ≡ (put_of buf.old at n).answer) × (buf.new ≡ (put_of buf.old at n).bytes) }
{
    if buf.len() <= at {
        return None;
    }
    if n < 128 {
        buf[at] = n as u8;
        return Some(at + 1);
    }
    let next = write_u64(buf, at + 1, n / 128)?;
    buf[at] = (n % 128 + 128) as u8;
    Some(next)
}

// Whether n is below 0.
pub fn is_negative(n: i64) -> bool
    ensures { result ≡ negative n }
{
    n < 0
}

// Half the code of n: n, or -1 - n of a negative n.
fn half(n: i64) -> u64
    ensures { (result ≡ mag n) × (result < 2 ^ 63) }
{
    if n < 0 { (-1 - n) as u64 } else { n as u64 }
}

// The number whose code has this half: m, or -1 - m.
fn signed(below: bool, m: u64) -> i64
    requires { m < 2 ^ 63 }
    ensures { result ≡ signed_of below m }
{
    let h = m as i64;
    if below { -1 - h } else { h }
}

// The code of n.
pub fn code_of(n: i64) -> u64
    ensures { result ≡ code_of n }
{
    let m = half(n);
    if is_negative(n) { m * 2 + 1 } else { m * 2 }
}

// The number whose code u is.
pub fn number_of(u: u64) -> i64
    ensures { result ≡ number_of u }
{
    signed(u % 2 == 1, u / 2)
}

// The magnitude of n.
pub fn nat_abs(n: i64) -> u64
    ensures { result ≡ nat_abs n }
{
    n.unsigned_abs()
}

// The magnitude of the number whose code u is, without a sum that could wrap (`code_size` of proofs/CodeLaws.antt).
pub fn magnitude(u: u64) -> u64
    ensures { result ≡ magnitudeOf u }
{
    u / 2 + u % 2
}
