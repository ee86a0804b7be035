// A peer's score from the lent table: the parameters as magnitudes, the sum over the topics, the peers that share its groups, and the
// whole.
// What a score depends on is specs/Score.antt.
#![tactic(auto)]

pub mod buckets;
pub mod weights;

ghost use Rattle.std.specs.Prelude.{◌≡◌, ◌≤◌, length};
ghost use Rattle.index.specs.Index.{one};
ghost use Rattle.layout.specs.View.{cell_count, state_of};
ghost use Rattle.records.specs.Records.{holds_group};
ghost use Rattle.effects.specs.Lent.{AtTopic, AtSlot};
ghost use Rattle.limits.specs.Limits.{place as topicPlace};
ghost use Rattle.score.specs.Ranges.{PartsIn};
ghost use Rattle.score.specs.Score.{magnitude_in, topic_params_in, score_params_in, shares_group, sharing, sharing_at, sharers_of};
ghost use Rattle.score.specs.Score.{parts_at, why_in, Scores};
ghost use Rattle.peer_score.specs.Standing.{PeerStanding, AtTopicParam};
ghost use Rattle.peer_score.specs.Idle.{is_idle};

use crate::weights::{topic_weights, topics_at};
use effects::slots::load_magnitude;
use records::{Groups, Peer, TopicRecord, param};
use score::{Balance, Parts, ScoreParams, Sharers, TopicParams, Why, sums};

// Topic t's j-th parameter.
fn load_param(table: &[u64], t: usize, j: usize) -> u64
    requires { AtTopicParam table.now t j }
    ensures { result ≡ magnitude_in (state_of table.now) (topicPlace t j) }
{
    load_magnitude(table, 19 + 16 * t + j)
}

// Topic t's parameters.
pub fn load_params(table: &[u64], t: usize) -> TopicParams
    requires { AtTopic table.now t }
    ensures { result ≡ topic_params_in (state_of table.now) t }
{
    TopicParams {
        weight: load_param(table, t, param::WEIGHT),
        w1: load_param(table, t, param::W1),
        quantum: load_param(table, t, param::P1_QUANTUM),
        cap1: load_param(table, t, param::P1_CAP),
        w2: load_param(table, t, param::W2),
        decay2: load_param(table, t, param::P2_DECAY),
        cap2: load_param(table, t, param::P2_CAP),
        w3: load_param(table, t, param::W3),
        decay3: load_param(table, t, param::P3_DECAY),
        cap3: load_param(table, t, param::P3_CAP),
        threshold: load_param(table, t, param::P3_THRESHOLD),
        activation: load_param(table, t, param::P3_ACTIVATION),
        w3b: load_param(table, t, param::W3B),
        decay3b: load_param(table, t, param::P3B_DECAY),
        w4: load_param(table, t, param::W4),
        decay4: load_param(table, t, param::P4_DECAY),
    }
}

// The general parameters that a score takes.
pub fn load_general(table: &[u64]) -> ScoreParams
    requires { length table.now ≡ cell_count }
    ensures { result ≡ score_params_in (state_of table.now) }
{
    ScoreParams {
        cap: load_magnitude(table, param::TOPIC_CAP),
        w5: load_magnitude(table, param::W5),
        w6: load_magnitude(table, param::W6),
        threshold: load_magnitude(table, param::P6_THRESHOLD),
        w7: load_magnitude(table, param::W7),
    }
}

// Whether a group is one of a record's.
pub fn holds_group(g: Groups, group: u64) -> bool
    ensures { result ≡ holds_group g group }
{
    (g.first == group) | (g.second == group) | (g.third == group) | (g.fourth == group)
}

// Whether the peer in a slot is connected and holds the group: 1 or 0. All is asked of every slot: which groups are the same cannot be
// guessed, and a branch that is guessed wrong costs more than the other tests.
fn shares(table: &[u64], group: u64, slot: usize) -> u64
    requires { AtSlot table.now slot }
    ensures { (result ≡ one (shares_group (state_of table.now) group slot)) × (result ≤ 1) }
{
    let status = layout::load_status(table, slot);
    let holds = holds_group(layout::load_groups(table, slot), group);
    // not u64::from: the proof goes by the two cases
    if (status == 1) & holds { 1 } else { 0 }
}

// How many connected peers hold the group. No slot from where the records end on has one.
fn sharing_of(table: &[u64], group: u64) -> u64
    requires { length table.now ≡ cell_count }
    ensures { result ≡ sharing (state_of table.now) group }
{
    let end = layout::records_end(table);
    let mut n: u64 = 0;
    for slot in 0..end {
        n += shares(table, group, slot);
    }
    n
}

// The same of a group of a record, where 0 is none.
fn sharing_at(table: &[u64], group: u64) -> u64
    requires { length table.now ≡ cell_count }
    ensures { result ≡ sharing_at (state_of table.now) group }
{
    if group == 0 {
        return 0;
    }
    sharing_of(table, group)
}

// How many connected peers hold each of a record's groups.
pub fn sharers_of(table: &[u64], g: Groups) -> Sharers
    requires { length table.now ≡ cell_count }
    ensures { result ≡ sharers_of (state_of table.now) g }
{
    Sharers {
        first: sharing_at(table, g.first),
        second: sharing_at(table, g.second),
        third: sharing_at(table, g.third),
        fourth: sharing_at(table, g.fourth),
    }
}

// Whether nothing has happened in a record: no counter, and no member's.
pub fn is_idle(r: TopicRecord) -> bool
    ensures { result ≡ is_idle r }
{
    (r.p2 == 0) & ((r.p3 == 0) & ((r.p4 == 0) & ((r.p3b == 0) & !(r.member == 1))))
}

// The parts of the score of the peer in a slot, whose record is p.
pub fn score_parts(table: &[u64], slot: usize, p: Peer) -> Parts
    requires { PeerStanding table.now slot p }
    ensures { (result ≡ parts_at (state_of table.now) slot) × PartsIn result }
{
    let weights = topic_weights(table);
    let sharers = sharers_of(table, p.groups);
    let topics = topics_at(table, &weights, slot);
    sums::parts(load_general(table), topics, p.p5, sharers, p.p7)
}

// The score of the peer in a slot and its parts, as the host gets them.
pub fn why_of(table: &[u64], slot: usize, p: Peer) -> Why
    requires { PeerStanding table.now slot p }
    ensures { result ≡ why_in (state_of table.now) slot }
{
    sums::why(score_parts(table, slot, p))
}

// The score of the peer in a slot.
pub fn score_of(table: &[u64], slot: usize, p: Peer) -> Balance
    requires { PeerStanding table.now slot p }
    ensures { Scores (state_of table.now) slot result }
{
    sums::total(score_parts(table, slot, p))
}
