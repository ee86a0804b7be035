// The scores of a set of slots, as at the call's start. The connected peers are counted by group once, in buckets, so that no two peers
// need be compared; the topics' weights are multiplied out once; empty slots share one score.
ghost use Rattle.std.specs.Prelude.{◌≡◌, ℕ, ◌<◌};
ghost use Rattle.records.specs.Records.{slot_count, peer_in};
ghost use Rattle.layout.specs.View.{state_of};
ghost use Rattle.words.specs.Words.{bits_of};
ghost use Rattle.sets.specs.Sets.{by_slot};
ghost use Rattle.rules.specs.Step.{height_in};
ghost use Rattle.peer_score.specs.Standing.{Standing};
ghost use Rattle.peer_score.specs.Buckets.{Among};
ghost use Rattle.heartbeat.specs.Heights.{Taken, Taking, Partial};

use crate::seen::members;
use peer_score::buckets::{Buckets, empty_score, score_among};
use peer_score::weights::{TopicWeights, topic_weights};
use score::sums::offset;
use sets::except;
use words::WORDS;
use words::slots::Slots;

// The score of the peer in a slot, moved up so that none is negative.
pub fn height(table: &[u64], buckets: &Buckets, weights: &TopicWeights, slot: usize) -> u64
    requires { Among table.now buckets.now weights.now slot }
    ensures { result ≡ height_in (state_of table.now) slot }
{
    offset(score_among(table, buckets, weights, slot))
}

// The same of an empty slot.
pub fn empty_height(table: &[u64]) -> u64
    requires { Standing table.now }
    ensures { (s : ℕ) → s < slot_count → (peer_in (state_of table.now) s).status ≡ 0 →
        result ≡ height_in (state_of table.now) s }
{
    offset(empty_score(table))
}

// Takes the scores of a set's slots; the others' stand.
pub fn score_slots(table: &[u64], buckets: &Buckets, set: [u64; WORDS], heights: &mut [u64])
    requires { Taking table.now buckets.now heights.old }
    ensures { Taken (state_of table.now) (bits_of set) heights.old heights.new }
{
    let weights = topic_weights(table);
    for slot in Slots::of(set) {
        heights[slot] = height(table, buckets, &weights, slot);
    }
}

// Takes the scores of all others than a topic's members.
pub fn score_others(table: &[u64], buckets: &Buckets, topic: usize, heights: &mut [u64])
    requires { Partial table.now buckets.now topic heights.old }
    ensures { heights.new ≡ by_slot slot_count (height_in (state_of table.now)) }
{
    let connected = except(layout::load_connected(table), members(table, topic));
    score_slots(table, buckets, connected, heights);
    let retained = layout::load_retained(table);
    score_slots(table, buckets, retained, heights);
}
