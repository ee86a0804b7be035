// The joint rules (01, "Joint rules, in order") of both editions, of codes of numbers between their limits. Two codes of one sign stand to
// each other as the magnitudes do, so nothing is decoded. A rule that changes is changed here and in specs/Joint.antt.
ghost use Rattle.std.specs.Prelude.{◌≡◌, map, ◌<◌};
ghost use Rattle.index.specs.Index.{first, every};
ghost use Rattle.varint.specs.Codes.{number_of};
ghost use Rattle.records.specs.Records.{topic_count};
ghost use Rattle.params.specs.Joint.{rule_count, cap_rule, score_rule, joint, WithinLimits};
ghost use Rattle.params.specs.Check.{broken};

use crate::Edition;
use limits::{GENERAL, OF_TOPIC};
use records::TOPICS;
use records::param::{
    D, D_HI, D_LO, D_OUT, D_SCORE, GOSSIP_THRESHOLD, GRAYLIST_THRESHOLD, P3_CAP, P3_THRESHOLD,
    PUBLISH_THRESHOLD,
};

// How many joint rules there are.
const RULES: usize = 8;

// Whether in topic k P3 cap is at least P3 threshold.
fn cap_keeps(codes: &[u64], k: usize) -> bool
    requires { WithinLimits codes.now × (k < topic_count) }
    ensures { result ≡ cap_rule (map number_of codes.now) k }
{
    let at = GENERAL + OF_TOPIC * k;
    codes[at + P3_THRESHOLD] <= codes[at + P3_CAP]
}

// Whether it is in every topic.
fn caps(codes: &[u64]) -> bool
    requires { WithinLimits codes.now }
    ensures { result ≡ every topic_count (cap_rule (map number_of codes.now)) }
{
    for k in 0..TOPICS {
        if !cap_keeps(codes, k) {
            return false;
        }
    }
    true
}

// The rule on D_score.
fn score_keeps(edition: Edition, codes: &[u64]) -> bool
    requires { WithinLimits codes.now }
    ensures { result ≡ score_rule (map number_of codes.now) edition }
{
    match edition {
        // D_score + D_out ≤ D
        Edition::First => codes[D_SCORE] + codes[D_OUT] <= codes[D],
        // D_score ≤ D
        Edition::Second => codes[D_SCORE] <= codes[D],
    }
}

// Which joint rules hold, in order.
fn rules(edition: Edition, codes: &[u64]) -> [bool; RULES]
    requires { WithinLimits codes.now }
    ensures { result ≡ joint (map number_of codes.now) edition }
{
    [
        // D_lo ≤ D
        codes[D_LO] <= codes[D],
        // D ≤ D_hi
        codes[D] <= codes[D_HI],
        // D_out < D_lo
        codes[D_OUT] < codes[D_LO],
        // 2·D_out ≤ D
        2 * codes[D_OUT] <= codes[D],
        // D_score + D_out ≤ D, or D_score ≤ D
        score_keeps(edition, codes),
        // publish ≤ gossip
        codes[GOSSIP_THRESHOLD] <= codes[PUBLISH_THRESHOLD],
        // graylist < publish
        codes[PUBLISH_THRESHOLD] < codes[GRAYLIST_THRESHOLD],
        // P3 cap ≥ P3 threshold
        caps(codes),
    ]
}

// The first joint rule that is broken.
pub fn first_rule(edition: Edition, codes: &[u64]) -> Option<usize>
    requires { WithinLimits codes.now }
    ensures { result ≡ first rule_count (broken (map number_of codes.now) edition) }
{
    for (k, holds) in rules(edition, codes).iter().enumerate() {
        if !*holds {
            return Some(k);
        }
    }
    None
}
