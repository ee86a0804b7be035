// 01's thirteen calls. Each takes the table, a time, its arguments and a lent action list; what comes back is one number.
ghost use Rattle.std.specs.Prelude.{◌≡◌, length};
ghost use Rattle.layout.specs.View.{state_of};
ghost use Rattle.rules.specs.Calls.{connect as Calls·connect, decay as Calls·decay, deliver as Calls·deliver};
ghost use Rattle.rules.specs.Calls.{disconnect as Calls·disconnect, graft as Calls·graft, heartbeat as Calls·heartbeat, join as Calls·join};
ghost use Rattle.rules.specs.Calls.{leave as Calls·leave, prune as Calls·prune, rate as Calls·rate, score as Calls·score};
ghost use Rattle.rules.specs.Calls.{subscribe as Calls·subscribe, unsubscribe as Calls·unsubscribe};
ghost use Rattle.rules.specs.Step.{step};
ghost use Rattle.answers.specs.Answers.{why_or as whyOrOf};
ghost use Rattle.host_calls.specs.Host.{HostsLent};

use layout::CELLS;

// A peer connects, with one to four address groups, lowest first. Flags: 1 outbound + 2 explicit.
#[unsafe(no_mangle)]
pub extern "C" fn hivepadlet_connect(
    table: &mut [u64; CELLS],
    time: u64,
    id: u64,
    groups: &[u64],
    flags: u64,
    name: &[u8],
    actions: &mut [u32],
) -> u64
    ensures { HostsLent (Calls·connect time id groups.now flags name.now) result table actions }
{
    host_calls::connect(table, time, id, groups, flags, name, actions)
}

// A peer disconnects.
#[unsafe(no_mangle)]
pub extern "C" fn hivepadlet_disconnect(
    table: &mut [u64; CELLS],
    time: u64,
    id: u64,
    actions: &mut [u32],
) -> u64
    ensures { HostsLent (Calls·disconnect time id) result table actions }
{
    host_calls::disconnect(table, time, id, actions)
}

// We join a topic.
#[unsafe(no_mangle)]
pub extern "C" fn hivepadlet_join(
    table: &mut [u64; CELLS],
    time: u64,
    topic: u64,
    actions: &mut [u32],
) -> u64
    ensures { HostsLent (Calls·join time topic) result table actions }
{
    host_calls::join(table, time, topic, actions)
}

// We leave a topic.
#[unsafe(no_mangle)]
pub extern "C" fn hivepadlet_leave(
    table: &mut [u64; CELLS],
    time: u64,
    topic: u64,
    actions: &mut [u32],
) -> u64
    ensures { HostsLent (Calls·leave time topic) result table actions }
{
    host_calls::leave(table, time, topic, actions)
}

// A peer subscribes to a topic.
#[unsafe(no_mangle)]
pub extern "C" fn hivepadlet_subscribe(
    table: &mut [u64; CELLS],
    time: u64,
    id: u64,
    topic: u64,
    actions: &mut [u32],
) -> u64
    ensures { HostsLent (Calls·subscribe time id topic) result table actions }
{
    host_calls::subscribe(table, time, id, topic, actions)
}

// A peer unsubscribes from a topic.
#[unsafe(no_mangle)]
pub extern "C" fn hivepadlet_unsubscribe(
    table: &mut [u64; CELLS],
    time: u64,
    id: u64,
    topic: u64,
    actions: &mut [u32],
) -> u64
    ensures { HostsLent (Calls·unsubscribe time id topic) result table actions }
{
    host_calls::unsubscribe(table, time, id, topic, actions)
}

// A GRAFT came in.
#[unsafe(no_mangle)]
pub extern "C" fn hivepadlet_graft(
    table: &mut [u64; CELLS],
    time: u64,
    id: u64,
    topic: u64,
    actions: &mut [u32],
) -> u64
    ensures { HostsLent (Calls·graft time id topic) result table actions }
{
    host_calls::graft(table, time, id, topic, actions)
}

// A PRUNE came in, with the seconds of its backoff.
#[unsafe(no_mangle)]
pub extern "C" fn hivepadlet_prune(
    table: &mut [u64; CELLS],
    time: u64,
    id: u64,
    topic: u64,
    seconds: u64,
    actions: &mut [u32],
) -> u64
    ensures { HostsLent (Calls·prune time id topic seconds) result table actions }
{
    host_calls::prune(table, time, id, topic, seconds, actions)
}

// A delivery: 1 first, 2 near-first, 3 invalid.
#[unsafe(no_mangle)]
pub extern "C" fn hivepadlet_deliver(
    table: &mut [u64; CELLS],
    time: u64,
    id: u64,
    topic: u64,
    kind: u64,
    actions: &mut [u32],
) -> u64
    ensures { HostsLent (Calls·deliver time id topic kind) result table actions }
{
    host_calls::deliver(table, time, id, topic, kind, actions)
}

// Sets P5 of a peer.
#[unsafe(no_mangle)]
pub extern "C" fn hivepadlet_rate(
    table: &mut [u64; CELLS],
    time: u64,
    id: u64,
    p5: i64,
    actions: &mut [u32],
) -> u64
    ensures { HostsLent (Calls·rate time id p5) result table actions }
{
    host_calls::rate(table, time, id, p5, actions)
}

// The heartbeat's work for one topic, with a permutation of the slots, and opportunism where `ask` is 1.
#[unsafe(no_mangle)]
pub extern "C" fn hivepadlet_heartbeat(
    table: &mut [u64; CELLS],
    time: u64,
    topic: u64,
    ask: u64,
    permutation: &[u64],
    actions: &mut [u32],
) -> u64
    ensures { HostsLent (Calls·heartbeat time topic ask permutation.now) result table actions }
{
    host_calls::heartbeat(table, time, topic, ask, permutation, actions)
}

// The counters decay.
#[unsafe(no_mangle)]
pub extern "C" fn hivepadlet_decay(table: &mut [u64; CELLS], time: u64, actions: &mut [u32]) -> u64
    ensures { HostsLent (Calls·decay time) result table actions }
{
    host_calls::decay(table, time, actions)
}

// The score of a peer through six lent numbers, which stand where the call is refused: the topics' total before its cap and after it, the
// parts of P5, P6 and P7, and the score, which the last four of these add up to.
#[unsafe(no_mangle)]
pub extern "C" fn hivepadlet_score(
    table: &mut [u64; CELLS],
    time: u64,
    id: u64,
    why: &mut [i64; 6],
    actions: &mut [u32],
) -> u64
    ensures { HostsLent (Calls·score time id) result table actions
        × (why.new
        ≡ whyOrOf (step (state_of table.old) (Calls·score time id) (length actions.old)).answer
        why.old) }
{
    host_calls::score(table, time, id, why, actions)
}
