// 01's thirteen calls for a host. Each takes the table, a time, its arguments and a lent action list; what comes back is one number. Each
// promises what the call below does (specs/Host.antt); none asks anything of its caller.
#![tactic(auto)]

pub mod tables;

ghost use Rattle.std.specs.Prelude.{◌≡◌, length};
ghost use Rattle.layout.specs.View.{state_of};
ghost use Rattle.rules.specs.Calls.{connect as Calls·connect, decay as Calls·decay, deliver as Calls·deliver};
ghost use Rattle.rules.specs.Calls.{disconnect as Calls·disconnect, graft as Calls·graft, heartbeat as Calls·heartbeat, join as Calls·join};
ghost use Rattle.rules.specs.Calls.{leave as Calls·leave, prune as Calls·prune, rate as Calls·rate, score as Calls·score};
ghost use Rattle.rules.specs.Calls.{subscribe as Calls·subscribe, unsubscribe as Calls·unsubscribe};
ghost use Rattle.rules.specs.Step.{step};
ghost use Rattle.answers.specs.Answers.{why_or as whyOrOf};
ghost use Rattle.host_calls.specs.Host.{HostsLent};

pub use crate::tables::{fresh, is_router};
use answers::{code, why_or};
use layout::CELLS;

// A peer connects, with one to four address groups, lowest first. Flags: 1 outbound + 2 explicit.
pub fn connect(
    table: &mut [u64; CELLS],
    time: u64,
    id: u64,
    groups: &[u64],
    flags: u64,
    name: &[u8],
    actions: &mut [u32],
) -> u64
    ensures { HostsLent (Calls·connect time id groups.now flags name.now) result table actions }
{
    code(router::connect(table, time, id, groups, flags, name, actions))
}

// A peer disconnects.
pub fn disconnect(table: &mut [u64; CELLS], time: u64, id: u64, actions: &mut [u32]) -> u64
    ensures { HostsLent (Calls·disconnect time id) result table actions }
{
    code(router::disconnect(table, time, id, actions))
}

// We join a topic.
pub fn join(table: &mut [u64; CELLS], time: u64, topic: u64, actions: &mut [u32]) -> u64
    ensures { HostsLent (Calls·join time topic) result table actions }
{
    code(router::join(table, time, topic, actions))
}

// We leave a topic.
pub fn leave(table: &mut [u64; CELLS], time: u64, topic: u64, actions: &mut [u32]) -> u64
    ensures { HostsLent (Calls·leave time topic) result table actions }
{
    code(router::leave(table, time, topic, actions))
}

// A peer subscribes to a topic.
pub fn subscribe(
    table: &mut [u64; CELLS],
    time: u64,
    id: u64,
    topic: u64,
    actions: &mut [u32],
) -> u64
    ensures { HostsLent (Calls·subscribe time id topic) result table actions }
{
    code(router::subscribe(table, time, id, topic, actions))
}

// A peer unsubscribes from a topic.
pub fn unsubscribe(
    table: &mut [u64; CELLS],
    time: u64,
    id: u64,
    topic: u64,
    actions: &mut [u32],
) -> u64
    ensures { HostsLent (Calls·unsubscribe time id topic) result table actions }
{
    code(router::unsubscribe(table, time, id, topic, actions))
}

// A GRAFT came in.
pub fn graft(table: &mut [u64; CELLS], time: u64, id: u64, topic: u64, actions: &mut [u32]) -> u64
    ensures { HostsLent (Calls·graft time id topic) result table actions }
{
    code(router::graft(table, time, id, topic, actions))
}

// A PRUNE came in, with the seconds of its backoff.
pub fn prune(
    table: &mut [u64; CELLS],
    time: u64,
    id: u64,
    topic: u64,
    seconds: u64,
    actions: &mut [u32],
) -> u64
    ensures { HostsLent (Calls·prune time id topic seconds) result table actions }
{
    code(router::prune(table, time, id, topic, seconds, actions))
}

// A delivery: 1 first, 2 near-first, 3 invalid.
pub fn deliver(
    table: &mut [u64; CELLS],
    time: u64,
    id: u64,
    topic: u64,
    kind: u64,
    actions: &mut [u32],
) -> u64
    ensures { HostsLent (Calls·deliver time id topic kind) result table actions }
{
    code(router::deliver(table, time, id, topic, kind, actions))
}

// Sets P5 of a peer.
pub fn rate(table: &mut [u64; CELLS], time: u64, id: u64, p5: i64, actions: &mut [u32]) -> u64
    ensures { HostsLent (Calls·rate time id p5) result table actions }
{
    code(router::rate(table, time, id, p5, actions))
}

// The heartbeat's work for one topic, with a permutation of the slots, and opportunism where `ask` is 1.
pub fn heartbeat(
    table: &mut [u64; CELLS],
    time: u64,
    topic: u64,
    ask: u64,
    permutation: &[u64],
    actions: &mut [u32],
) -> u64
    ensures { HostsLent (Calls·heartbeat time topic ask permutation.now) result table actions }
{
    code(router::heartbeat(table, time, topic, ask, permutation, actions))
}

// The counters decay.
pub fn decay(table: &mut [u64; CELLS], time: u64, actions: &mut [u32]) -> u64
    ensures { HostsLent (Calls·decay time) result table actions }
{
    code(router::decay(table, time, actions))
}

// The score of a peer through six lent numbers, which stand where the call is refused: the topics' total before its cap and after it, the
// parts of P5, P6 and P7, and the score, which the last four of these add up to.
pub fn score(
    table: &mut [u64; CELLS],
    time: u64,
    id: u64,
    why: &mut [i64; 6],
    actions: &mut [u32],
) -> u64
    ensures { HostsLent (Calls·score time id) result table actions
        × (why.new
        ≡ whyOrOf (step (state_of table.old) (Calls·score time id) (length actions.old)).answer
        why.old) }
{
    let a = router::score(table, time, id, actions);
    let stood = *why;
    *why = why_or(a, stood);
    code(a)
}
