// Deliveries and decay: two of 01's calls. Each takes the lent table, a time, its arguments as wide numbers and a lent action list, asks
// nothing of its caller, and promises the rules' reply (crate rules).
#![tactic(auto)]

ghost use Rattle.std.specs.Prelude.{◌≡◌, ◌≤◌};
ghost use Rattle.index.specs.Index.{iter};
ghost use Rattle.records.specs.Records.{topic_count};
ghost use Rattle.layout.specs.View.{state_of};
ghost use Rattle.effects.specs.Lent.{AtSlot};
ghost use Rattle.rules.specs.Calls.{deliver as Calls·deliver, decay as Calls·decay};
ghost use Rattle.rules.specs.Step.{deliver_reply, decay_topic, decay_p7, decay_slot, decay_reply};
ghost use Rattle.rules.specs.Promise.{Leaves, Follows};
ghost use Rattle.gate.specs.Ready.{Ready, PlaceReady};
ghost use Rattle.deliveries.specs.Decays.{DecaysIn, DecaysAt, IdleBelow, NextTopic};

use credits::credited;
use effects::slots::load_magnitude;
use effects::values::with_p7;
use gate::{admit, admit_peer, finish, id_ok, ignore, is_heard, see, time_ok, topic_ok};
use layout::CELLS;
use peer_score::is_idle;
use records::{SLOTS, TOPICS, param};
use rules::Answer;
use words::with_bit;

// The counters of the peer's record in the topic grow, if it is heard. Kinds: 1 first, 2 near-first, 3 invalid.
// The kind stays the host's number: the rules' delivered_of is over it, and an enum would be turned back into it for credits.
fn deliver_reply(table: &mut [u64], time: u64, topic: usize, slot: usize, kind: u64) -> Answer
    requires { PlaceReady table.old time topic slot }
    ensures { Leaves (deliver_reply (state_of table.old) time topic kind slot) result
        table.old table.new }
{
    let v = see(table, topic, slot);
    if is_heard(v) {
        let t = peer_score::load_params(table, topic);
        layout::store_topic(table, slot * 8 + topic, credited(v.topic, t, kind));
        return finish(table, time);
    }
    ignore(table, time)
}

// A peer delivers a message.
pub fn deliver(
    table: &mut [u64; CELLS],
    time: u64,
    id: u64,
    topic: u64,
    kind: u64,
    actions: &mut [u32],
) -> Answer
    ensures { Follows (Calls·deliver time id topic kind) result
        table.old table.new actions.old actions.new }
{
    let fine = time_ok(time) & ((id_ok(id) & topic_ok(topic)) & ((1 <= kind) & (kind <= 3)));
    match admit_peer(table, fine, actions.len(), time, id) {
        Err(refusal) => refusal,
        Ok(slot) => deliver_reply(table, time, topic as usize, slot, kind),
    }
}

// The counters of one topic record, and a member's mesh time.
fn decay_topic(table: &mut [u64], time: u64, topic: usize, slot: usize)
    requires { DecaysAt table.old topic slot }
    ensures { state_of table.new ≡ decay_topic time slot topic (state_of table.old) }
{
    let r = layout::load_topic(table, slot * 8 + topic);
    let t = peer_score::load_params(table, topic);
    layout::store_topic(
        table,
        slot * 8 + topic,
        score::counters::decayed(t, load_magnitude(table, param::DECAY_TO_ZERO), time, r),
    );
}

// Bit by topic: set where something has happened in the record of the peer in a slot.
fn busy(table: &[u64], slot: usize) -> u64
    requires { AtSlot table.now slot }
    ensures { IdleBelow (state_of table.now) slot topic_count result }
{
    let mut w: u64 = 0;
    for topic in 0..TOPICS {
        let r = layout::load_topic(table, slot * 8 + topic);
        w = with_bit(w, topic as u64, !is_idle(r));
    }
    w
}

// The lowest topic of the word from t on; TOPICS for none, at which the walk below ends.
fn next_busy(w: u64, t: usize) -> usize
    requires { t ≤ topic_count }
    ensures { NextTopic w t result }
{
    let n = t + u64::trailing_zeros(w >> t) as usize;
    if n < TOPICS { n } else { TOPICS }
}

// All topics. A decay leaves an idle record as it is, and most are: those that are not are found first, and walked by their bits, since
// which they are cannot be guessed. So a `while` from bit to bit, and no `for` with a test in each turn.
fn decay_topics(table: &mut [u64], time: u64, slot: usize)
    requires { DecaysIn table.old slot }
    ensures { state_of table.new ≡ iter 8 (decay_topic time slot) (state_of table.old) }
{
    let left = busy(table, slot);
    let mut topic = next_busy(left, 0);
    while topic < TOPICS {
        decay_topic(table, time, topic, slot);
        topic = next_busy(left, topic + 1);
    }
}

// P7's counter, which is 0 in most records: nothing is stored then.
fn decay_p7(table: &mut [u64], slot: usize)
    requires { DecaysIn table.old slot }
    ensures { state_of table.new ≡ decay_p7 slot (state_of table.old) }
{
    let p = layout::load_peer(table, slot);
    if p.p7 == 0 {
        return;
    }
    layout::store_peer(
        table,
        slot,
        with_p7(
            p,
            score::counters::faded(
                load_magnitude(table, param::DECAY_TO_ZERO),
                load_magnitude(table, param::P7_DECAY),
                p.p7,
            ),
        ),
    );
}

// Connected peers only.
fn decay_slot(table: &mut [u64], time: u64, slot: usize)
    requires { DecaysIn table.old slot }
    ensures { state_of table.new ≡ decay_slot time slot (state_of table.old) }
{
    if layout::load_status(table, slot) == 1 {
        decay_topics(table, time, slot);
        decay_p7(table, slot);
    }
}

fn decay_from(table: &mut [u64], time: u64) -> Answer
    requires { Ready table.old time }
    ensures { Leaves (decay_reply (state_of table.old) time) result table.old table.new }
{
    for slot in 0..SLOTS {
        decay_slot(table, time, slot);
    }
    finish(table, time)
}

// The counters fade, and the members' mesh times are brought up to date.
pub fn decay(table: &mut [u64; CELLS], time: u64, actions: &mut [u32]) -> Answer
    ensures { Follows (Calls·decay time) result
        table.old table.new actions.old actions.new }
{
    let fine = time_ok(time);
    match admit(table, fine, actions.len(), time) {
        Err(refusal) => refusal,
        Ok(()) => decay_from(table, time),
    }
}
