// Leave, one of 01's calls: every member of the topic is pruned, by slot.
#![tactic(auto)]

ghost use Rattle.records.specs.Records.{slot_count, topic_count};
ghost use Rattle.std.specs.Prelude.{◌≡◌, false, ℕ, ◌<◌, get_or};
ghost use Rattle.layout.specs.View.{state_of};
ghost use Rattle.rules.specs.Calls.{leave as Calls·leave};
ghost use Rattle.rules.specs.Step.{leave_reply};
ghost use Rattle.rules.specs.Promise.{Gives, Follows};
ghost use Rattle.peer_score.specs.Standing.{TopicStanding};
ghost use Rattle.peer_score.specs.Buckets.{Among};
ghost use Rattle.gate.specs.Ready.{TopicLent};
ghost use Rattle.leaving.specs.Slots.{is_negative_member, grown_if, Turn, LeaveTurn, Turned, Walk, Walked};

use effects::actions::put_prune;
use effects::slots::{is_joined, is_member, load_magnitude, prune_slot};
use effects::values::end_after;
use gate::{admit, ignore, time_ok, topic_ok};
use layout::CELLS;
use peer_score::buckets::{BUCKETS, Buckets, count_groups, score_among};
use peer_score::weights::{TopicWeights, topic_weights};
use records::{SLOTS, param};
use rules::Answer;
use score::sums::is_negative;

// Whether a slot is a member that scores below zero: nobody else's score is taken.
fn is_negative_member(
    table: &[u64],
    buckets: &Buckets,
    weights: &TopicWeights,
    topic: usize,
    slot: usize,
) -> bool
    requires { (topic < topic_count) × Among table.now buckets.now weights.now slot }
    ensures { result ≡ is_negative_member (state_of table.now) topic slot }
{
    if !is_member(table, topic, slot) {
        return false;
    }
    is_negative(score_among(table, buckets, weights, slot))
}

// Which members score below zero; taken before anything changes, since the rule speaks of the call's start. The connected peers are
// counted by group and the weights multiplied out once, for all members.
fn negatives(table: &[u64], topic: usize) -> [bool; SLOTS]
    requires { TopicStanding table.now topic }
    ensures { (s : ℕ) → s < slot_count → get_or result s false ≡ is_negative_member (state_of table.now) topic s }
{
    let mut buckets = Buckets {
        heads: [0; BUCKETS],
        same: [0; BUCKETS],
        others: [0; BUCKETS],
    };
    count_groups(table, &mut buckets);
    let weights = topic_weights(table);
    let mut flags = [false; SLOTS];
    for slot in 0..SLOTS {
        flags[slot] = is_negative_member(table, &buckets, &weights, topic, slot);
    }
    flags
}

// A member that we PRUNE: its P3b grows where its score was negative at the start.
pub fn punish(table: &mut [u64], topic: usize, slot: usize, negative: bool)
    requires { Turn table.old topic slot }
    ensures { state_of table.new ≡ grown_if negative topic slot (state_of table.old) }
{
    if negative {
        let r = layout::load_topic(table, slot * 8 + topic);
        let t = peer_score::load_params(table, topic);
        layout::store_topic(table, slot * 8 + topic, score::counters::grown(t, r));
    }
}

// PRUNEs a slot if it is a member, and writes its action at `at`; the place after it.
fn leave_slot(
    table: &mut [u64],
    actions: &mut [u32],
    at: usize,
    topic: usize,
    slot: usize,
    end: u64,
    seconds: u64,
    negative: bool,
) -> usize
    requires { LeaveTurn table.old actions.old topic slot at seconds }
    ensures { Turned (state_of table.old) negative topic end seconds slot
        table.new actions.old actions.new at result }
{
    if !is_member(table, topic, slot) {
        return at;
    }
    punish(table, topic, slot, negative);
    let p = layout::load_peer(table, slot);
    prune_slot(table, topic, slot, end);
    put_prune(actions, at, p, seconds)
}

// PRUNEs every member by slot; how many numbers were written.
fn leave_slots(
    table: &mut [u64],
    actions: &mut [u32],
    topic: usize,
    end: u64,
    seconds: u64,
    negative: [bool; SLOTS],
) -> usize
    requires { Walk table.old topic seconds negative actions.old }
    ensures { Walked (state_of table.old) topic end
        table.new actions.old actions.new result }
{
    let mut at: usize = 0;
    for slot in 0..SLOTS {
        let flag = negative[slot];
        at = leave_slot(table, actions, at, topic, slot, end, seconds, flag);
    }
    at
}

fn leave_from(table: &mut [u64], time: u64, topic: usize, actions: &mut [u32]) -> Answer
    requires { TopicLent table.old actions.old time topic }
    ensures { Gives (leave_reply (state_of table.old) time topic) result
        table.old table.new actions.old actions.new }
{
    if !is_joined(table, topic) {
        return ignore(table, time);
    }
    let negative = negatives(table, topic);
    let seconds = load_magnitude(table, param::UNSUBSCRIBE_BACKOFF);
    let n = leave_slots(
        table,
        actions,
        topic,
        end_after(time, seconds),
        seconds,
        negative,
    );
    layout::store_joined(table, topic, 0);
    layout::store_clock(table, time);
    Answer::Done(n / 3)
}

// We leave a topic.
pub fn leave(table: &mut [u64; CELLS], time: u64, topic: u64, actions: &mut [u32]) -> Answer
    ensures { Follows (Calls·leave time topic) result
        table.old table.new actions.old actions.new }
{
    let fine = time_ok(time) & topic_ok(topic);
    match admit(table, fine, actions.len(), time) {
        Err(a) => a,
        Ok(()) => leave_from(table, time, topic as usize, actions),
    }
}
