// Who is announced to: the targets of a topic's IHAVEs.
ghost use Rattle.std.specs.Prelude.{◌≡◌, not, ◌&&◌};
ghost use Rattle.records.specs.Records.{slot_count};
ghost use Rattle.layout.specs.View.{state_of};
ghost use Rattle.words.specs.Words.{bits_of};
ghost use Rattle.sets.specs.Sets.{at, by_slot};
ghost use Rattle.peer_score.specs.Standing.{TopicStanding};
ghost use Rattle.peer_score.specs.Buckets.{Among};
ghost use Rattle.gossip.specs.Step.{is_target};
ghost use Rattle.gossip_peers.specs.Peers.{is_low, Grouped};

use crate::sift::sift;
use effects::slots::load_magnitude;
use heartbeat::seen::eligible;
use peer_score::buckets::{BUCKETS, Buckets, count_groups, score_among};
use peer_score::weights::{TopicWeights, topic_weights};
use records::param;
use score::sums::is_below;
use sets::size;
use words::WORDS;

// Whether the score of the peer in a slot is below the gossip threshold.
fn is_low(table: &[u64], buckets: &Buckets, weights: &TopicWeights, slot: usize) -> bool
    requires { Among table.now buckets.now weights.now slot }
    ensures { result ≡ is_low (state_of table.now) slot }
{
    let b = score_among(table, buckets, weights, slot);
    is_below(b, load_magnitude(table, param::GOSSIP_THRESHOLD))
}

// The set without the slots that score below the gossip threshold. The weights are multiplied out once, for all of them.
fn without_low(table: &[u64], buckets: &Buckets, all: [u64; WORDS]) -> [u64; WORDS]
    requires { Grouped table.now buckets.now }
    ensures { bits_of result ≡ by_slot slot_count (λ s. at (bits_of all) s && not (is_low (state_of table.now) s)) }
{
    let weights = topic_weights(table);
    sift(all, |slot| !is_low(table, buckets, &weights, slot))
}

// The targets of a topic: those that the heartbeat might graft, each asked for its score. The connected peers are counted by group once,
// and where nobody is eligible not at all.
pub fn targets(table: &[u64], topic: usize) -> [u64; WORDS]
    requires { TopicStanding table.now topic }
    ensures { bits_of result ≡ by_slot slot_count (is_target (state_of table.now) topic) }
{
    let all = eligible(table, topic);
    if size(all) == 0 {
        return all;
    }
    let mut buckets = Buckets {
        heads: [0; BUCKETS],
        same: [0; BUCKETS],
        others: [0; BUCKETS],
    };
    count_groups(table, &mut buckets);
    without_low(table, &buckets, all)
}
