// Numbers as ASCII text, stored in a lent buffer from a place on. Each function answers the place after what it stored.
// An inner layer of the programs: the caller shows that there is room. By hand and not by `write!`, since the contracts name each byte of
// the lent buffer and the place after the text. The text itself is fixed in specs/Text.antt. Beside it stands how the
// programs read their input.
#![tactic(auto)]

ghost use Rattle.std.specs.Prelude.{[], ◌∷◌, ◌+◌, ◌≤◌, length};
ghost use Rattle.text.specs.Text.{decimal, signed_text, Stored};

use std::io::Read;

// The byte b.
pub fn put_byte(buf: &mut [u8], at: usize, b: u8) -> usize
    requires { at + 1 ≤ length buf.old }
    ensures { Stored buf.old at (b ∷ []) result buf.new }
{
    buf[at] = b;
    at + 1
}

// The digits of n.
pub fn put_decimal(buf: &mut [u8], at: usize, n: u64) -> usize
    requires { at + length (decimal n) ≤ length buf.old }
    ensures { Stored buf.old at (decimal n) result buf.new }
{
    if n < 10 {
        buf[at] = (48 + n) as u8;
        return at + 1;
    }
    let last = put_decimal(buf, at, n / 10);
    buf[last] = (48 + n % 10) as u8;
    last + 1
}

// The text of n, with its sign.
pub fn put_signed(buf: &mut [u8], at: usize, n: i64) -> usize
    requires { at + length (signed_text n) ≤ length buf.old }
    ensures { Stored buf.old at (signed_text n) result buf.new }
{
    let size = varint::nat_abs(n);
    if varint::is_negative(n) {
        buf[at] = b'-';
        return put_decimal(buf, at + 1, size);
    }
    put_decimal(buf, at, size)
}

// Reads until the buffer is full or the input ends, and answers how many bytes it put at the start. A failed reading ends the input.
// The library has no reader that stops in a lent buffer where the input does: `read_exact` fails there.
pub fn read_full(input: &mut impl Read, buf: &mut [u8]) -> usize
    ensures { result ≤ length buf.new }
{
    let mut done: usize = 0;
    while done < buf.len() {
        let n = input.read(&mut buf[done..]).unwrap_or(0);
        if n == 0 {
            break;
        }
        done += n;
    }
    done
}
