// The sum over the topics of the peer in a slot. Outside the mesh, where most peers are, a topic's share is three products, with weights
// that are multiplied out once for all slots: no parameter is read there.
ghost use Rattle.std.specs.Prelude.{◌≡◌, ◌*◌, ◌≤◌};
ghost use Rattle.layout.specs.View.{state_of};
ghost use Rattle.records.specs.Records.{topic_count};
ghost use Rattle.score.specs.Ranges.{ShareIn, TopicsIn};
ghost use Rattle.score.specs.Sums.{sum_of};
ghost use Rattle.score.specs.Score.{share_at};
ghost use Rattle.peer_score.specs.Standing.{Standing};
ghost use Rattle.peer_score.specs.Weights.{Weighed, Weights, Weighing, outside_of, OutsideIn, PlaceWeighed, SlotWeighed};

use crate::{load_param, load_params};
use records::{TOPICS, TopicRecord, param};
use score::{Balance, sums, topic};

// Each topic's weight times its weights of P2, P3b and P4.
#[derive(Clone, Copy)]
pub struct TopicWeights {
    pub w2: [u64; TOPICS],
    pub w3b: [u64; TOPICS],
    pub w4: [u64; TOPICS],
}

// A topic's weight times a weight of its own.
fn times(weight: u64, w: u64) -> u64
    requires { (weight ≤ 1000) × (w ≤ 100) }
    ensures { result ≡ weight * w }
{
    weight * w
}

// Each topic's weight times its j-th parameter.
pub fn weights(table: &[u64], j: usize) -> [u64; TOPICS]
    requires { Weighing table.now j }
    ensures { Weighed (state_of table.now) j result }
{
    let mut r = [0u64; TOPICS];
    for t in 0..TOPICS {
        r[t] = times(load_param(table, t, param::WEIGHT), load_param(table, t, j));
    }
    r
}

// All that a sum over the topics takes.
pub fn topic_weights(table: &[u64]) -> TopicWeights
    requires { Standing table.now }
    ensures { Weights (state_of table.now) result }
{
    TopicWeights {
        w2: weights(table, param::W2),
        w3b: weights(table, param::W3B),
        w4: weights(table, param::W4),
    }
}

fn product(w: u64, p: u64) -> u64
    requires { (w ≤ 100000) × (p ≤ 1000000000000) }
    ensures { (result ≡ w * p) × (result ≤ 100000000000000000) }
{
    w * p
}

// The share of a record outside the mesh.
fn outside(w2: u64, w3b: u64, w4: u64, r: TopicRecord) -> Balance
    requires { OutsideIn w2 w3b w4 r }
    ensures { (result ≡ outside_of w2 w3b w4 r) × ShareIn result }
{
    let gain = product(w2, r.p2 * 1000);
    let loss = product(w3b, r.p3b) + product(w4, topic::squared(r.p4));
    Balance {
        gain: gain,
        loss: loss,
    }
}

// One topic's share of the score of the peer in a slot.
fn share_at(table: &[u64], weights: &TopicWeights, t: usize, slot: usize) -> Balance
    requires { PlaceWeighed table.now weights.now t slot }
    ensures { (result ≡ share_at (state_of table.now) slot t) × ShareIn result }
{
    let r = layout::load_topic(table, slot * 8 + t);
    if r.member == 1 {
        return topic::share(load_params(table, t), r);
    }
    outside(weights.w2[t], weights.w3b[t], weights.w4[t], r)
}

// The shares of all topics, added.
pub fn topics_at(table: &[u64], weights: &TopicWeights, slot: usize) -> Balance
    requires { SlotWeighed table.now weights.now slot }
    ensures { (result ≡ sum_of topic_count (share_at (state_of table.now) slot)) × TopicsIn result }
{
    let mut sum = Balance { gain: 0, loss: 0 };
    if layout::is_bare(table, slot) {
        return sum;
    }
    for t in 0..TOPICS {
        sum = sums::add(sum, share_at(table, weights, t, slot));
    }
    sum
}
