// Records by value, with other numbers.
ghost use Rattle.std.specs.Prelude.{◌≡◌, ◌+◌, ◌≤◌, ◌<◌, max};
ghost use Rattle.effects.specs.Effects.{end_after, with_end, with_p5, with_p7, connected_as};
ghost use Rattle.effects.specs.Effects.{retained_to};
ghost use Rattle.effects.specs.Lent.{EndFits};

use records::{Groups, Peer};

pub fn later(a: u64, b: u64) -> u64
    ensures { result ≡ max a b }
{
    a.max(b)
}

// When a time of so many seconds ends.
pub fn end_after(time: u64, seconds: u64) -> u64
    requires { EndFits time seconds }
    ensures { (result ≡ end_after time seconds) × (result ≤ time + 86400000) }
{
    time + seconds * 1000
}

// The backoff end of a topic, at least `end`.
pub fn with_end(p: Peer, topic: usize, end: u64) -> Peer
    requires { topic < 8 }
    ensures { result ≡ with_end p topic end }
{
    let mut q = p;
    q.backoff[topic] = later(p.backoff[topic], end);
    q
}

pub fn with_p5(p: Peer, code: u64) -> Peer
    ensures { result ≡ with_p5 p code }
{
    Peer { p5: code, ..p }
}

pub fn with_p7(p: Peer, count: u64) -> Peer
    ensures { result ≡ with_p7 p count }
{
    Peer { p7: count, ..p }
}

// Flags: 1 outbound + 2 explicit.
pub fn connected_as(p: Peer, id: u64, groups: Groups, flags: u64, version: u64) -> Peer
    ensures { result ≡ connected_as p id groups flags version }
{
    Peer {
        status: 1,
        id,
        groups,
        outbound: flags % 2,
        explicit: flags / 2,
        version,
        retain: 0,
        ..p
    }
}

pub fn retained_to(p: Peer, end: u64) -> Peer
    ensures { result ≡ retained_to p end }
{
    Peer {
        status: 2,
        retain: end,
        ..p
    }
}
