// The trace program: parameters and events on standard input, answers on standard output, for a trace of any length. What it takes, prints
// and leaves is crate trace_feed, and that its turns print what the whole input prints, however the input is cut, is `EveryCut` there. Here
// bytes are moved and nothing else: main makes a turn on the window's bytes, writes the first `written` bytes of the page and, where more
// bytes are wanted, reads what is there behind the window's end, until the trace is over. No contract can say which bytes a call of the
// system reads and writes; but that main's turns and readings are those of which `EveryCut` speaks is its loop's invariant.
#![tactic(auto)]

ghost use Rattle.std.specs.Prelude.{◌≤◌, length};
ghost use Rattle.trace_feed.specs.Turns.{Inside, Refills};

use layout::CELLS;
use std::io;
use std::io::Read;
use trace_feed::{Stage, Window};

// The bytes of the window's buffer, and of the page.
const ROOM: usize = 65536;

// Writes the first n bytes.
fn say(rt: &impl Print, page: &[u8], n: usize) -> io::Result<()>
    requires { n ≤ length page.now }
{
    rt.write_all(&page[..n])
}

// Where more bytes are wanted, reads what is there, behind the window's end. Where nothing is, or the reading fails, the input has ended.
fn refill(input: &mut impl Read, buf: &mut [u8], w: Window) -> Window
    requires { Inside w buf.old }
    ensures { Refills w result buf.old buf.new }
{
    if !w.wants {
        return w;
    }
    let end = w.end;
    let part = &mut buf[end..];
    let n = input.read(part).unwrap_or(0);
    w.filled(n)
}

// A proved loop has to end, and nothing says that the input does: the turns are counted up to a number that no run reaches.
fn main(rt: HostRuntime) -> io::Result<()> {
    let mut input = rt.stdin();
    let mut buf = [0u8; ROOM];
    let mut page = [0u8; ROOM];
    let mut table = [0u64; CELLS];
    let mut w = Window::start();
    for _ in 0..u64::MAX {
        w = trace_feed::turn(&mut table, &mut buf, w, &mut page);
        say(&rt, &page, w.written)?;
        let stage = w.stage;
        if let Stage::Over = stage {
            break;
        }
        w = refill(&mut input, &mut buf, w);
    }
    Ok(())
}
