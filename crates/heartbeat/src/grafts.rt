// Steps 2, 4 and 5: grafts in the order of the permutation. Few of the drawn peers are looked at before there are enough, so that a score
// is taken where it is asked for.
ghost use Rattle.std.specs.Prelude.{◌≡◌, ℕ, length};
ghost use Rattle.layout.specs.View.{state_of};
ghost use Rattle.words.specs.Words.{word_count, bits_of};
ghost use Rattle.sets.specs.Sets.{takes};
ghost use Rattle.mesh.specs.Maintenance.{mesh2, mesh4, mesh5};
ghost use Rattle.rules.specs.Step.{degrees_in, view_in};
ghost use Rattle.heartbeat.specs.Heights.{HeightsOn};
ghost use Rattle.heartbeat.specs.Grafts.{Grafting, Asked, Grafted, Scored};

use crate::scores::height;
use crate::seen::{degrees, eligible, is_free, outbound};
use peer_score::buckets::Buckets;
use peer_score::weights::TopicWeights;
use sets::median::middle;
use sets::walks::takes;
use sets::{both, size};
use words::{WORDS, put};

// Whether the slot s is put in: there is room, it is in p and not yet in m, and the peer is a candidate with at least this score. Its score
// is left in `heights`.
fn is_grafted(
    table: &[u64],
    buckets: &Buckets,
    weights: &TopicWeights,
    time: u64,
    topic: usize,
    p: &[u64],
    least: u64,
    room: u64,
    m: &[u64],
    s: u64,
    heights: &mut [u64],
) -> bool
    requires grafting { Grafting table.now buckets.now weights.now topic heights.old }
    requires p_len { length p.now ≡ word_count }
    ensures { Asked (state_of table.now) time topic least s
        (takes (bits_of p.now) room (bits_of m.now) s) result heights.old heights.new }
{
    if !takes(p, room, m, s) {
        return false;
    }
    let score = height(table, buckets, weights, s as usize);
    heights[s as usize] = score;
    is_free(table, time, topic, s as usize, score) & (least <= score)
}

// Puts in, in the order, the first k eligible peers of p that are candidates with at least this score and not in m.
fn graft(
    table: &[u64],
    buckets: &Buckets,
    weights: &TopicWeights,
    time: u64,
    topic: usize,
    p: [u64; WORDS],
    least: u64,
    k: u64,
    order: &[u64],
    m: [u64; WORDS],
    heights: &mut [u64],
) -> [u64; WORDS]
    requires { Grafting table.now buckets.now weights.now topic heights.old }
    ensures { Grafted (state_of table.now) time topic least (bits_of p) k order.now (bits_of m) (bits_of result)
        heights.old heights.new }
{
    let mut r = m;
    let mut room = k;
    for s in order {
        if room == 0 {
            return r;
        }
        if is_grafted(
            table, buckets, weights, time, topic, &p, least, room, &r, *s, heights,
        ) {
            r = put(r, *s, true);
            room -= 1;
        }
    }
    r
}

// 2. Under lo: candidates up to d.
pub fn second(
    table: &[u64],
    buckets: &Buckets,
    weights: &TopicWeights,
    time: u64,
    topic: usize,
    order: &[u64],
    m: [u64; WORDS],
    heights: &mut [u64],
) -> [u64; WORDS]
    requires { Grafting table.now buckets.now weights.now topic heights.old }
    ensures { Scored (state_of table.now) (bits_of m) (bits_of result) heights.old heights.new
        × ((ask : ℕ) → bits_of result ≡ mesh2 (degrees_in (state_of table.now))
        (view_in (state_of table.now) time topic ask order.now) (bits_of m)) }
{
    let t = degrees(table);
    let n = size(m);
    if t.lo <= n {
        return m;
    }
    let p = eligible(table, topic);
    let k = t.d.saturating_sub(n);
    graft(
        table, buckets, weights, time, topic, p, 0, k, order, m, heights,
    )
}

// 4. Under out outbound: outbound candidates.
pub fn fourth(
    table: &[u64],
    buckets: &Buckets,
    weights: &TopicWeights,
    time: u64,
    topic: usize,
    order: &[u64],
    m: [u64; WORDS],
    heights: &mut [u64],
) -> [u64; WORDS]
    requires { Grafting table.now buckets.now weights.now topic heights.old }
    ensures { Scored (state_of table.now) (bits_of m) (bits_of result) heights.old heights.new
        × ((ask : ℕ) → bits_of result ≡ mesh4 (degrees_in (state_of table.now))
        (view_in (state_of table.now) time topic ask order.now) (bits_of m)) }
{
    let t = degrees(table);
    let outs = outbound(table);
    let k = t.out.saturating_sub(size(both(m, outs)));
    let p = both(eligible(table, topic), outs);
    graft(
        table, buckets, weights, time, topic, p, 0, k, order, m, heights,
    )
}

// 5. If asked, and the median is under the threshold: up to two candidates above the median.
pub fn fifth(
    table: &[u64],
    buckets: &Buckets,
    weights: &TopicWeights,
    time: u64,
    topic: usize,
    ask: u64,
    order: &[u64],
    m: [u64; WORDS],
    heights: &mut [u64],
) -> [u64; WORDS]
    requires grafting { Grafting table.now buckets.now weights.now topic heights.old }
    requires heights_on { HeightsOn (state_of table.now) (bits_of m) heights.old }
    ensures { Scored (state_of table.now) (bits_of m) (bits_of result) heights.old heights.new
        × (bits_of result ≡ mesh5 (degrees_in (state_of table.now))
        (view_in (state_of table.now) time topic ask order.now) (bits_of m)) }
{
    let asked = ask == 1;
    if !asked {
        return m;
    }
    let n = size(m);
    if n < 2 {
        return m;
    }
    let median = middle(n / 2, m, heights);
    let t = degrees(table);
    if t.threshold <= median {
        return m;
    }
    let p = eligible(table, topic);
    graft(
        table,
        buckets,
        weights,
        time,
        topic,
        p,
        median + 1,
        2,
        order,
        m,
        heights,
    )
}
