// One event of a trace: read from a window of bytes, called on the lent table, and answered in text in a lent buffer.
#![tactic(auto)]

ghost use Rattle.trace_step.specs.declared.EventError.TheVariants.{CutShort, Malformed};
ghost use Rattle.std.specs.Prelude.{◌≡◌, ◌≢◌, cond, [], length};
ghost use Rattle.layout.specs.View.{state_of};
ghost use Rattle.rules.specs.Promise.{Follows};
ghost use Rattle.trace_events.specs.Reading.{order_size, numbers_from, cut_short, arity as arityOf, call_of, named, alone as one};
ghost use Rattle.trace_events.specs.Reading.{counted as many, connecting as connectingOf, ordered, of_numbers, event_at};
ghost use Rattle.trace_step.specs.Replay.{perform_event, Performs, Replays, replay_of};

use layout::CELLS;
use records::{ACTION_ROOM, SLOTS};
use rules::Answer;
use trace_events::Edition;
use trace_events::lines::{LINE_ROOM, put_pair, put_reply};
use trace_events::reading::{NUMBERS, arity, cut_short, order_size, read_numbers, widen};

// The longest protocol name that is read.
const NAME_MOST: u64 = 64;

// The most groups that a connect may count, and the numbers that then follow the count.
const GROUP_MOST: u64 = 4;

const COUNTED: usize = 6;

// Why an event's call was not made.
#[derive(Clone, Copy)]
pub enum EventError {
    // the kind is not known
    Unknown,
    // no further bytes make it an event
    Malformed,
    // the bytes end inside the event
    CutShort,
}

// What became of one event that is printed.
#[derive(Clone, Copy)]
pub enum Replayed {
    // it was called: the place after it, and how many bytes were printed
    Called(usize, usize),
    // the trace stops here: how many bytes were printed
    Stopped(usize),
    // the bytes end inside the event
    Short,
    // the buffer has no room for what an event may print
    Full,
}

// The calls that come from peers, and decay and score. Each arm passes numbers of its own, so closures would only repeat the arms.
fn call_peer(table: &mut [u64; CELLS], kind: u64, v: &[u64; NUMBERS], actions: &mut [u32]) -> Answer
    requires { (kind ≢ 1) × ((kind ≢ 3) × ((kind ≢ 4) × ((kind ≢ 5) × ((kind ≢ 6) × (kind ≢ 11))))) }
    ensures { Follows (call_of kind v.now []) result table.old table.new actions.old
        actions.new }
{
    let time = v[0];
    let a = v[1];
    let b = v[2];
    let c = v[3];
    match kind {
        2 => router::disconnect(table, time, a, actions),
        7 => router::graft(table, time, a, b, actions),
        8 => router::prune(table, time, a, b, c, actions),
        9 => router::deliver(table, time, a, b, c, actions),
        10 => router::rate(table, time, a, varint::number_of(b), actions),
        12 => router::decay(table, time, actions),
        _ => router::score(table, time, a, actions),
    }
}

// Every call but connect and heartbeat.
fn call(table: &mut [u64; CELLS], kind: u64, v: &[u64; NUMBERS], actions: &mut [u32]) -> Answer
    requires { (kind ≢ 1) × (kind ≢ 11) }
    ensures { Follows (call_of kind v.now []) result table.old table.new actions.old
        actions.new }
{
    let time = v[0];
    let a = v[1];
    let b = v[2];
    match kind {
        3 => router::join(table, time, a, actions),
        4 => router::leave(table, time, a, actions),
        5 => router::subscribe(table, time, a, b, actions),
        6 => router::unsubscribe(table, time, a, b, actions),
        _ => call_peer(table, kind, v, actions),
    }
}

// A number that cannot be read: with more bytes it may be whole, or it is malformed.
fn unread(s: &[u8], at: usize) -> EventError
    ensures { result ≡ cond (cut_short s.now at) CutShort Malformed }
{
    if cut_short(s, at) {
        return EventError::CutShort;
    }
    EventError::Malformed
}

// A connect, whose name of `size` bytes begins at a place.
fn connect(
    table: &mut [u64; CELLS],
    s: &[u8],
    time: u64,
    id: u64,
    groups: &[u64],
    flags: u64,
    size: u64,
    at: usize,
    actions: &mut [u32],
) -> Result<(usize, Answer), EventError>
    ensures { Performs (perform_event (state_of table.old) (length actions.old)
        (named s.now time id groups.now flags size at)) result table.new actions.old
        actions.new }
{
    if NAME_MOST < size {
        return Err(EventError::Malformed);
    }
    let n = size as usize;
    if s.len() < at {
        return Err(EventError::CutShort);
    }
    if s.len() - at < n {
        return Err(EventError::CutShort);
    }
    let next = at + n;
    let a = router::connect(table, time, id, groups, flags, &s[at..next], actions);
    Ok((next, a))
}

// A connect with one group.
fn alone(
    table: &mut [u64; CELLS],
    s: &[u8],
    v: &[u64; NUMBERS],
    at: usize,
    actions: &mut [u32],
) -> Result<(usize, Answer), EventError>
    ensures { Performs (perform_event (state_of table.old) (length actions.old) (one s.now v.now at)) result
        table.new actions.old actions.new }
{
    let groups = [v[2]];
    connect(table, s, v[0], v[1], &groups, v[3], v[4], at, actions)
}

// A connect whose groups are counted: they follow the count, and behind them flags and name-length.
fn counted(
    table: &mut [u64; CELLS],
    s: &[u8],
    v: &[u64; NUMBERS],
    at: usize,
    actions: &mut [u32],
) -> Result<(usize, Answer), EventError>
    ensures { Performs (perform_event (state_of table.old) (length actions.old) (many s.now v.now at)) result
        table.new actions.old actions.new }
{
    let count = v[2];
    if GROUP_MOST < count {
        return Err(EventError::Malformed);
    }
    let n = count as usize;
    let mut w = [0u64; COUNTED];
    let next = match read_numbers(s, at, n + 2, &mut w) {
        Ok(next) => next,
        Err(e) => return Err(unread(s, e.place)),
    };
    let flags = w[n];
    let size = w[n + 1];
    connect(table, s, v[0], v[1], &w[..n], flags, size, next, actions)
}

// A connect of an edition.
fn connecting(
    table: &mut [u64; CELLS],
    edition: Edition,
    s: &[u8],
    v: &[u64; NUMBERS],
    at: usize,
    actions: &mut [u32],
) -> Result<(usize, Answer), EventError>
    ensures { Performs (perform_event (state_of table.old) (length actions.old)
        (connectingOf edition s.now v.now at)) result table.new actions.old actions.new }
{
    match edition {
        Edition::First => alone(table, s, v, at, actions),
        Edition::Second => alone(table, s, v, at, actions),
        Edition::Third => counted(table, s, v, at, actions),
    }
}

// A heartbeat, whose permutation follows its numbers.
fn heartbeat(
    table: &mut [u64; CELLS],
    edition: Edition,
    s: &[u8],
    v: &[u64; NUMBERS],
    at: usize,
    actions: &mut [u32],
) -> Result<(usize, Answer), EventError>
    ensures { Performs (perform_event (state_of table.old) (length actions.old)
        (ordered s.now v.now (numbers_from (order_size edition) s.now at))) result table.new
        actions.old actions.new }
{
    let mut order = [0u64; SLOTS];
    let n = order_size(edition);
    let next = match read_numbers(s, at, n, &mut order) {
        Ok(next) => next,
        Err(e) => return Err(unread(s, e.place)),
    };
    widen(&mut order, n);
    let a = router::heartbeat(table, v[0], v[1], v[2], &order, actions);
    Ok((next, a))
}

// The event of a known kind whose n numbers start at a place.
fn perform_kind(
    table: &mut [u64; CELLS],
    edition: Edition,
    s: &[u8],
    kind: u64,
    at: usize,
    n: usize,
    actions: &mut [u32],
) -> Result<(usize, Answer), EventError>
    requires { n ≡ arityOf edition kind }
    ensures { Performs (perform_event (state_of table.old) (length actions.old)
        (of_numbers edition s.now kind (numbers_from n s.now at))) result table.new actions.old
        actions.new }
{
    let mut v = [0u64; NUMBERS];
    let next = match read_numbers(s, at, n, &mut v) {
        Ok(next) => next,
        Err(e) => return Err(unread(s, e.place)),
    };
    match kind {
        1 => connecting(table, edition, s, &v, next, actions),
        11 => heartbeat(table, edition, s, &v, next, actions),
        _ => Ok((next, call(table, kind, &v, actions))),
    }
}

// The call of the event at a place.
pub fn perform(
    table: &mut [u64; CELLS],
    edition: Edition,
    s: &[u8],
    at: usize,
    actions: &mut [u32],
) -> Result<(usize, Answer), EventError>
    ensures { Performs (perform_event (state_of table.old) (length actions.old) (event_at edition s.now at)) result
        table.new actions.old actions.new }
{
    let Some((kind, next)) = varint::read_u64(s, at) else {
        return Err(unread(s, at));
    };
    let n = arity(edition, kind);
    if n == 0 {
        return Err(EventError::Unknown);
    }
    perform_kind(table, edition, s, kind, next, n, actions)
}

// The event at a place, called and printed.
pub fn replay(
    table: &mut [u64; CELLS],
    edition: Edition,
    s: &[u8],
    at: usize,
    out: &mut [u8],
) -> Replayed
    ensures { Replays (replay_of edition (state_of table.old) s.now at out.old) result table.new
        out.new }
{
    if out.len() < LINE_ROOM {
        return Replayed::Full;
    }
    let mut actions = [0u32; ACTION_ROOM];
    let done = perform(table, edition, s, at, &mut actions);
    match done {
        Ok((next, a)) => Replayed::Called(next, put_reply(out, a, &actions)),
        Err(EventError::Unknown) => Replayed::Stopped(put_pair(out, 0, 2, 0)),
        Err(EventError::Malformed) => Replayed::Stopped(put_pair(out, 0, 10, 0)),
        Err(EventError::CutShort) => Replayed::Short,
    }
}
