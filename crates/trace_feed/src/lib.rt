// The trace program over slices (01, "The trace program"): what it takes, prints and leaves at each turn, from the bytes of its input that
// are there. That the turns print what the whole input prints, however it is cut, is `EveryCut` (specs/Cuts); program trace moves the
// bytes.
#![tactic(auto)]

ghost use Rattle.std.specs.Prelude.{◌+◌, ◌-◌, ◌≤◌, ◌≡◌, length, take, drop};
ghost use Rattle.std.proofs.lemmas.List.Edits.{sets};
ghost use Rattle.layout.specs.View.{state_of};
ghost use Rattle.trace_events.specs.Lines.{line_room};
ghost use Rattle.trace_feed.specs.Front.{of_third, front_in};
ghost use Rattle.trace_feed.specs.Turns.{params_turn, front_turn, events_turn, turn_of, Feeds, Inside, filled_by, start_window, Turns};

use layout::CELLS;
use params_bytes::ReadError;
use trace_events::Edition;
use trace_events::lines::put_pair;
use trace_events::reading::cut_short;
use trace_step::Replayed;

// Why the front of a trace tells no edition.
#[derive(Clone, Copy)]
enum FrontError {
    // the third byte is no edition's number
    Other,
    // there is no third byte
    Cut,
}

// What is to be read next.
#[derive(Clone, Copy)]
pub enum Stage {
    // the front and the parameters
    Params,
    // events of an edition
    Events(Edition),
    // nothing: the trace has ended
    Over,
}

// What became of the bytes that are there.
#[derive(Clone, Copy)]
pub enum Fed {
    // the first are done with: the edition of the events that follow, how many, and how many bytes were printed
    Took(Edition, usize, usize),
    // the trace is over: how many bytes were printed
    Ended(usize),
    // more bytes are wanted
    Wants,
}

// The bytes of the buffer from `at` to `end` are not done with. `more` is false once the input has ended; `written` bytes were printed by
// the last turn, and `wants` is true where the next one needs more bytes. Both flags go with every stage, so they stand beside it.
#[derive(Clone, Copy)]
pub struct Window {
    pub at: usize,
    pub end: usize,
    pub more: bool,
    pub wants: bool,
    pub stage: Stage,
    pub written: usize,
}

// The edition that a third byte says, and where the parameters begin.
fn of_third(b: u8) -> Result<(Edition, usize), FrontError>
    ensures { result ≡ of_third b }
{
    match b {
        2 => Ok((Edition::Second, 3)),
        3 => Ok((Edition::Third, 3)),
        _ => Err(FrontError::Other),
    }
}

// The edition of the bytes, and where the parameters begin.
fn front_in(s: &[u8]) -> Result<(Edition, usize), FrontError>
    ensures { result ≡ front_in s.now }
{
    if s.len() < 2 {
        return Ok((Edition::First, 0));
    }
    if !((s[0] == 0) & (s[1] == 0)) {
        return Ok((Edition::First, 0));
    }
    if s.len() == 2 {
        return Err(FrontError::Cut);
    }
    of_third(s[2])
}

// The parameters, at a place of the input.
fn feed_params(
    table: &mut [u64; CELLS],
    edition: Edition,
    s: &[u8],
    at: usize,
    last: bool,
    out: &mut [u8],
) -> Fed
    requires { (line_room ≤ length out.old) × (at ≤ length s.now) }
    ensures { Feeds (params_turn edition at last s.now) result table.old table.new out.old
        out.new }
{
    match params_bytes::read_front(s, at) {
        Ok((params, next)) => {
            // the parameters were found good as they were read, so a router is made of them
            let _ = router::fresh(params, table);
            Fed::Took(edition, next, 0)
        }
        Err(ReadError::Malformed(place)) => {
            if !last & cut_short(s, place) {
                return Fed::Wants;
            }
            Fed::Ended(put_pair(out, 0, 10, place as u64))
        }
        Err(ReadError::Broken(i)) => Fed::Ended(put_pair(out, 0, 9, i as u64)),
    }
}

// The front of the trace, and the parameters behind it.
fn feed_front(table: &mut [u64; CELLS], s: &[u8], last: bool, out: &mut [u8]) -> Fed
    requires { line_room ≤ length out.old }
    ensures { Feeds (front_turn last s.now) result table.old table.new out.old out.new }
{
    match front_in(s) {
        Ok((edition, at)) => feed_params(table, edition, s, at, last, out),
        Err(FrontError::Other) => Fed::Ended(put_pair(out, 0, 9, 2)),
        Err(FrontError::Cut) => {
            if last {
                return Fed::Ended(put_pair(out, 0, 10, 2));
            }
            Fed::Wants
        }
    }
}

// One event.
fn feed_events(
    table: &mut [u64; CELLS],
    edition: Edition,
    s: &[u8],
    last: bool,
    out: &mut [u8],
) -> Fed
    requires { line_room ≤ length out.old }
    ensures { Feeds (events_turn edition last (state_of table.old) s.now) result table.old table.new
        out.old out.new }
{
    if last & (s.len() == 0) {
        return Fed::Ended(0);
    }
    let done = trace_step::replay(table, edition, s, 0, out);
    match done {
        Replayed::Called(next, n) => Fed::Took(edition, next, n),
        Replayed::Stopped(n) => Fed::Ended(n),
        Replayed::Short => {
            if last {
                return Fed::Ended(put_pair(out, 0, 10, 0));
            }
            Fed::Wants
        }
        Replayed::Full => Fed::Ended(0),
    }
}

// What the bytes that are there come to, `last` where no others follow.
pub fn feed(table: &mut [u64; CELLS], stage: Stage, s: &[u8], last: bool, out: &mut [u8]) -> Fed
    requires { line_room ≤ length out.old }
    ensures { Feeds (turn_of stage last (state_of table.old) s.now) result table.old table.new
        out.old out.new }
{
    match stage {
        Stage::Params => feed_front(table, s, last, out),
        Stage::Events(edition) => feed_events(table, edition, s, last, out),
        Stage::Over => Fed::Ended(0),
    }
}

impl Window {
    // Before the first byte.
    pub fn start() -> Window
        ensures { result ≡ start_window }
    {
        Window {
            at: 0,
            end: 0,
            more: true,
            wants: false,
            stage: Stage::Params,
            written: 0,
        }
    }

    // After n bytes were read behind its end.
    pub fn filled(self, n: usize) -> Window
        requires { self.end + n ≤ 18446744073709551615 }
        ensures { result ≡ filled_by self n }
    {
        let stage = self.stage;
        Window {
            at: self.at,
            end: self.end + n,
            more: 0 < n,
            wants: false,
            stage,
            written: 0,
        }
    }
}

// The bytes from `at` to `end`, at the buffer's front.
fn shift(buf: &mut [u8], at: usize, end: usize)
    requires { (at ≤ end) × (end ≤ length buf.old) }
    ensures { buf.new ≡ sets buf.old 0 (take (end - at) (drop at buf.old)) }
{
    let n = end - at;
    for k in 0..n {
        buf[k] = buf[at + k];
    }
}

// One turn on the window's bytes; where more are wanted, it makes room for them.
pub fn turn(table: &mut [u64; CELLS], buf: &mut [u8], w: Window, out: &mut [u8]) -> Window
    requires { Inside w buf.old × (line_room ≤ length out.old) }
    ensures { Turns w result table.old table.new buf.old buf.new out.old out.new }
{
    let at = w.at;
    let end = w.end;
    let more = w.more;
    let stage = w.stage;
    let fed = feed(table, stage, &buf[at..end], !more, out);
    match fed {
        Fed::Took(edition, n, written) => Window {
            at: at + n,
            end,
            more,
            wants: false,
            stage: Stage::Events(edition),
            written,
        },
        Fed::Ended(written) => Window {
            at,
            end,
            more,
            wants: false,
            stage: Stage::Over,
            written,
        },
        Fed::Wants => {
            shift(buf, at, end);
            Window {
                at: 0,
                end: end - at,
                more,
                wants: true,
                stage,
                written: 0,
            }
        }
    }
}
