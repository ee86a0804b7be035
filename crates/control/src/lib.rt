// GRAFT and PRUNE that come in: two of 01's calls. Each sees its peer once, decides by what it saw, and writes.
#![tactic(auto)]

ghost use Rattle.std.specs.Prelude.{◌≡◌, ◌<◌, ◌≤◌};
ghost use Rattle.records.specs.Records.{topic_count};
ghost use Rattle.layout.specs.View.{state_of};
ghost use Rattle.effects.specs.Lent.{AtTopic};
ghost use Rattle.rules.specs.Calls.{graft as Calls·graft, prune as Calls·prune};
ghost use Rattle.rules.specs.Step.{raised_p7, is_crowded, graft_case, graft_refused, graft_reply, seconds_of, prune_reply};
ghost use Rattle.rules.specs.Promise.{Leaves, Gives, Follows};
ghost use Rattle.peer_score.specs.Standing.{Standing};
ghost use Rattle.gate.specs.Ready.{PlaceReady, PlaceLent};
ghost use Rattle.control.specs.Refusable.{Refusable};

use effects::actions::put_prune;
use effects::slots::{graft_slot, load_magnitude, mesh_size, prune_slot};
use effects::values::{end_after, with_end, with_p7};
use gate::{admit_peer, finish, id_ok, ignore, is_heard, see, time_ok, topic_ok};
use layout::CELLS;
use records::{Peer, param};
use rules::{Answer, GraftCase, Seen};

// Which of 01's nine cases a GRAFT is, from what was seen.
fn graft_case(v: Seen, crowded: bool, time: u64, topic: usize) -> GraftCase
    requires { topic < topic_count }
    ensures { result ≡ graft_case v crowded time topic }
{
    let sender = v.sender;
    let p = sender.peer;
    let r = v.topic;
    if !v.joined {
        return GraftCase::NotJoined;
    }
    if sender.graylisted {
        return GraftCase::Graylisted;
    }
    if r.member == 1 {
        return GraftCase::AlreadyMember;
    }
    if p.explicit == 1 {
        return GraftCase::Explicit;
    }
    if time < p.backoff[topic] {
        return GraftCase::InBackoff;
    }
    if sender.negative {
        return GraftCase::Negative;
    }
    if r.subscribed != 1 {
        return GraftCase::NotSubscribed;
    }
    if crowded & (p.outbound == 0) {
        return GraftCase::Full;
    }
    GraftCase::Enters
}

// The mesh of a topic has D_hi members or more.
fn is_crowded(table: &[u64], topic: usize) -> bool
    requires { AtTopic table.now topic }
    ensures { result ≡ is_crowded (state_of table.now) topic }
{
    load_magnitude(table, param::D_HI) <= mesh_size(table, topic) as u64
}

// P7 grows by 1000, to 10^6.
fn raised_p7(p: Peer) -> Peer
    ensures { result ≡ raised_p7 p }
{
    with_p7(p, score::counters::raised(p.p7, 1000000))
}

// A PRUNE answers the GRAFT; p is the peer's record, which gets the end of the backoff.
fn graft_refused(
    table: &mut [u64],
    time: u64,
    topic: usize,
    slot: usize,
    p: Peer,
    actions: &mut [u32],
) -> Answer
    requires { Refusable table.old actions.old time topic slot p }
    ensures { Gives (graft_refused (state_of table.old) time topic slot p) result
        table.old table.new actions.old actions.new }
{
    let seconds = load_magnitude(table, param::PRUNE_BACKOFF);
    put_prune(actions, 0, p, seconds);
    layout::store_peer(table, slot, with_end(p, topic, end_after(time, seconds)));
    layout::store_clock(table, time);
    Answer::Done(1)
}

fn graft_reply(
    table: &mut [u64],
    time: u64,
    topic: usize,
    slot: usize,
    actions: &mut [u32],
) -> Answer
    requires { PlaceLent table.old actions.old time topic slot }
    ensures { Gives (graft_reply (state_of table.old) time topic slot) result
        table.old table.new actions.old actions.new }
{
    let v = see(table, topic, slot);
    let sender = v.sender;
    let p = sender.peer;
    match graft_case(v, is_crowded(table, topic), time, topic) {
        GraftCase::NotJoined | GraftCase::Graylisted => ignore(table, time),
        GraftCase::AlreadyMember => finish(table, time),
        GraftCase::InBackoff => graft_refused(table, time, topic, slot, raised_p7(p), actions),
        GraftCase::Explicit | GraftCase::Negative | GraftCase::NotSubscribed | GraftCase::Full =>
            graft_refused(table, time, topic, slot, p, actions),
        GraftCase::Enters => {
            graft_slot(table, topic, slot, time);
            finish(table, time)
        }
    }
}

// A GRAFT comes in.
pub fn graft(
    table: &mut [u64; CELLS],
    time: u64,
    id: u64,
    topic: u64,
    actions: &mut [u32],
) -> Answer
    ensures { Follows (Calls·graft time id topic) result
        table.old table.new actions.old actions.new }
{
    let fine = time_ok(time) & (id_ok(id) & topic_ok(topic));
    match admit_peer(table, fine, actions.len(), time, id) {
        Err(refusal) => refusal,
        Ok(slot) => graft_reply(table, time, topic as usize, slot, actions),
    }
}

// 0 means the prune backoff; above 3600 counts as 3600.
fn seconds_of(table: &[u64], seconds: u64) -> u64
    requires { Standing table.now }
    ensures { (result ≡ seconds_of (state_of table.now) seconds) × (result ≤ 3600) }
{
    if seconds == 0 {
        return load_magnitude(table, param::PRUNE_BACKOFF);
    }
    seconds.min(3600)
}

fn prune_reply(table: &mut [u64], time: u64, topic: usize, slot: usize, seconds: u64) -> Answer
    requires { PlaceReady table.old time topic slot }
    ensures { Leaves (prune_reply (state_of table.old) time topic seconds slot) result
        table.old table.new }
{
    let v = see(table, topic, slot);
    if is_heard(v) {
        let end = end_after(time, seconds_of(table, seconds));
        prune_slot(table, topic, slot, end);
        return finish(table, time);
    }
    ignore(table, time)
}

// A PRUNE comes in.
pub fn prune(
    table: &mut [u64; CELLS],
    time: u64,
    id: u64,
    topic: u64,
    seconds: u64,
    actions: &mut [u32],
) -> Answer
    ensures { Follows (Calls·prune time id topic seconds) result
        table.old table.new actions.old actions.new }
{
    let fine = time_ok(time) & (id_ok(id) & topic_ok(topic));
    match admit_peer(table, fine, actions.len(), time, id) {
        Err(refusal) => refusal,
        Ok(slot) => prune_reply(table, time, topic as usize, slot, seconds),
    }
}
