// The meshes of the five steps. Most heartbeats change nothing after the first, and that one asks for the members' scores alone: they are
// taken first. Grafts ask for those of the peers that are drawn until there are enough, and step 3 alone for those of all slots.
ghost use Rattle.std.specs.Prelude.{◌≡◌};
ghost use Rattle.records.specs.Records.{slot_count};
ghost use Rattle.layout.specs.View.{state_of};
ghost use Rattle.words.specs.Words.{bits_of};
ghost use Rattle.sets.specs.Sets.{by_slot};
ghost use Rattle.mesh.specs.Words.{meshes_of};
ghost use Rattle.effects.specs.Effects.{is_member};
ghost use Rattle.rules.specs.Step.{meshes_in};
ghost use Rattle.heartbeat.specs.Heights.{HeightsOn, Partial, Unscored};
ghost use Rattle.heartbeat.specs.Grafts.{Grafting, Kept, Begun, Halfway};

use crate::grafts::{fifth, fourth, second};
use crate::scores::{score_others, score_slots};
use crate::seen::{degrees, members, outbound, view};
use mesh::steps::meshes;
use mesh::still::{is_still, still};
use mesh::{Stages, ZERO_SCORE};
use peer_score::buckets::{BUCKETS, Buckets, count_groups};
use peer_score::weights::{TopicWeights, topic_weights};
use sets::{at_least, both, size};
use words::WORDS;

// From the scores of all slots.
fn all_stages(
    table: &[u64],
    buckets: &Buckets,
    time: u64,
    topic: usize,
    ask: u64,
    order: &[u64],
    heights: &mut [u64],
) -> Stages
    requires { Partial table.now buckets.now topic heights.old }
    ensures { (meshes_of result ≡ meshes_in (state_of table.now) time topic ask order.now)
        × HeightsOn (state_of table.now) (by_slot slot_count (is_member (state_of table.now) topic))
        heights.new }
{
    score_others(table, buckets, topic, heights);
    let v = view(table, time, topic, ask, heights);
    meshes(degrees(table), v, heights, order)
}

// The last three steps, where the third leaves the mesh of the second.
fn last_stages(
    table: &[u64],
    buckets: &Buckets,
    weights: &TopicWeights,
    time: u64,
    topic: usize,
    ask: u64,
    order: &[u64],
    first: [u64; WORDS],
    second: [u64; WORDS],
    heights: &mut [u64],
) -> Stages
    requires grafting { Grafting table.now buckets.now weights.now topic heights.old }
    requires halfway { Halfway (state_of table.now) time topic ask order.now (bits_of first) (bits_of second) heights.old }
    ensures { (meshes_of result ≡ meshes_in (state_of table.now) time topic ask order.now)
        × Kept (state_of table.now) heights.old heights.new }
{
    let m4 = fourth(table, buckets, weights, time, topic, order, second, heights);
    let m5 = fifth(
        table, buckets, weights, time, topic, ask, order, m4, heights,
    );
    Stages {
        first: first,
        second: second,
        third: second,
        fourth: m4,
        fifth: m5,
    }
}

// From the scores that the grafts ask for; where step 3 has to choose, from those of all slots.
fn few_stages(
    table: &[u64],
    buckets: &Buckets,
    time: u64,
    topic: usize,
    ask: u64,
    order: &[u64],
    first: [u64; WORDS],
    heights: &mut [u64],
) -> Stages
    requires { Begun table.now buckets.now topic heights.old time ask order.now (bits_of first) }
    ensures { (meshes_of result ≡ meshes_in (state_of table.now) time topic ask order.now)
        × HeightsOn (state_of table.now) (by_slot slot_count (is_member (state_of table.now) topic))
        heights.new }
{
    let weights = topic_weights(table);
    let m2 = second(table, buckets, &weights, time, topic, order, first, heights);
    let t = degrees(table);
    if t.hi < size(m2) {
        return all_stages(table, buckets, time, topic, ask, order, heights);
    }
    last_stages(
        table, buckets, &weights, time, topic, ask, order, first, m2, heights,
    )
}

// The members' scores are left in `heights`, whichever they are made from.
pub fn stages(
    table: &[u64],
    time: u64,
    topic: usize,
    ask: u64,
    order: &[u64],
    heights: &mut [u64],
) -> Stages
    requires { Unscored table.now topic heights.old }
    ensures { (meshes_of result ≡ meshes_in (state_of table.now) time topic ask order.now)
        × HeightsOn (state_of table.now) (by_slot slot_count (is_member (state_of table.now) topic))
        heights.new }
{
    let mut buckets = Buckets {
        heads: [0; BUCKETS],
        same: [0; BUCKETS],
        others: [0; BUCKETS],
    };
    count_groups(table, &mut buckets);
    let all = members(table, topic);
    score_slots(table, &buckets, all, heights);
    let first = both(all, at_least(ZERO_SCORE, heights));
    if is_still(degrees(table), outbound(table), ask == 1, heights, first) {
        return still(first);
    }
    few_stages(table, &buckets, time, topic, ask, order, first, heights)
}
