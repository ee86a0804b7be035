// The parameters as text in a lent buffer, from a place on: an answer's number with its value, and the 147 numbers, one to a line. Each
// function answers the place after what it stored; the caller shows that there is room. The text is fixed in specs/Lines.antt.
#![tactic(auto)]

ghost use Rattle.std.specs.Prelude.{◌+◌, ◌≤◌, length};
ghost use Rattle.text.specs.Text.{Stored};
ghost use Rattle.param_text.specs.Lines.{head_text, line_text, numbers_text};

use limits::NUMBERS;

// The first line, at the front.
pub fn put_head(buf: &mut [u8], number: u64, value: usize) -> usize
    requires { 64 ≤ length buf.old }
    ensures { Stored buf.old 0 (head_text number value) result buf.new × (result ≤ 64) }
{
    let space = text::put_decimal(buf, 0, number);
    let second = text::put_byte(buf, space, b' ');
    let end = text::put_decimal(buf, second, value as u64);
    text::put_byte(buf, end, b'\n')
}

// One number's line.
pub fn put_line(buf: &mut [u8], at: usize, n: i64) -> usize
    requires { at + 22 ≤ length buf.old }
    ensures { Stored buf.old at (line_text n) result buf.new × (result ≤ at + 22) }
{
    let last = text::put_signed(buf, at, n);
    text::put_byte(buf, last, b'\n')
}

// The lines of all numbers.
pub fn put_numbers(buf: &mut [u8], at: usize, numbers: [i64; NUMBERS]) -> usize
    requires { at + 3234 ≤ length buf.old }
    ensures { Stored buf.old at (numbers_text numbers) result buf.new × (result ≤ at + 3234) }
{
    let mut next = at;
    for i in 0..NUMBERS {
        next = put_line(buf, next, numbers[i]);
    }
    next
}
