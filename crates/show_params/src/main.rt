// Reads the parameters from standard input and prints the result: `10 PLACE` or `9 INDEX` for a refusal, otherwise `0 LENGTH` and then the
// 147 numbers, one to a line. The text is fixed in specs/Show.antt; the room for it is at most 64 bytes and 22 for each number.
#![tactic(auto)]

ghost use Rattle.std.specs.Prelude.{◌≤◌, length};
ghost use Rattle.params_bytes.specs.Read.{read_of};
ghost use Rattle.text.specs.Text.{Stored};
ghost use Rattle.show_params.specs.Show.{shown_text};

use params_bytes::ReadError;
use std::io;
use std::io::Write;

// What reading `bytes` comes to, at the front.
fn show(buf: &mut [u8], bytes: &[u8]) -> usize
    requires { 3298 ≤ length buf.old }
    ensures { Stored buf.old 0 (shown_text (read_of bytes.now)) result buf.new × (result ≤ 3298) }
{
    match params_bytes::read(bytes) {
        Ok((all, n)) => {
            let at = param_text::put_head(buf, 0, n);
            param_text::put_numbers(buf, at, all.numbers)
        }
        Err(ReadError::Malformed(place)) => param_text::put_head(buf, 10, place),
        Err(ReadError::Broken(i)) => param_text::put_head(buf, 9, i),
    }
}

// The 4,096 bytes that are read are enough of any input (`enough` of param_text/proofs/Enough.antt): a front of two bytes and 147 numbers
// of at most ten do not pass 1,472, so whatever stands beyond is left over, and the place that is printed is that of the first byte left
// over.
fn main(rt: HostRuntime) -> io::Result<()> {
    let mut bytes = [0u8; 4096];
    let n = text::read_full(&mut rt.reader(), &mut bytes);
    let mut out = [0u8; 4096];
    let end = show(&mut out, &bytes[..n]);
    io::writer(&rt).write_all(&out[..end])
}
