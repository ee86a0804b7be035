// One topic's share of a score: the parts in millionths, and their weighted sum. The parts' rules are specs/Parts.antt.
// Every product is in a function of its own that promises its bound, so that the other proofs are linear arithmetic.
ghost use Rattle.std.specs.Prelude.{◌≡◌, ◌*◌, ◌≤◌};
ghost use Rattle.score.specs.Ranges.{TopicParamsIn, CountersIn, ShareIn};
ghost use Rattle.score.specs.Parts.{square, part1_of, part3_of};
ghost use Rattle.score.specs.Sums.{share_of};

use crate::{Balance, TopicParams};
use records::TopicRecord;

// A product of a weight of at most 100 and a part of at most 10^12.
pub fn term(w: u64, p: u64) -> u64
    requires { (w ≤ 100) × (p ≤ 1000000000000) }
    ensures { (result ≡ w * p) × (result ≤ 100000000000000) }
{
    w * p
}

fn weighted(weight: u64, sum: u64) -> u64
    requires { (weight ≤ 1000) × (sum ≤ 300000000000000) }
    ensures { (result ≡ weight * sum) × (result ≤ 300000000000000000) }
{
    weight * sum
}

pub fn squared(x: u64) -> u64
    requires { x ≤ 1000000 }
    ensures { (result ≡ square x) × (result ≤ 1000000000000) }
{
    x * x
}

fn part1(t: TopicParams, r: TopicRecord) -> u64
    requires { (1 ≤ t.quantum) × (t.cap1 ≤ 1000) }
    ensures { (result ≡ part1_of t r) × (result ≤ 1000000000) }
{
    if r.member == 1 {
        (r.mesh / t.quantum).min(t.cap1) * 1000000
    } else {
        0
    }
}

pub fn part3(t: TopicParams, r: TopicRecord) -> u64
    requires { t.threshold ≤ 1000000 }
    ensures { (result ≡ part3_of t r) × (result ≤ 1000000000000) }
{
    if (r.member == 1) & ((t.activation < r.mesh) & (r.p3 < t.threshold)) {
        squared(t.threshold.saturating_sub(r.p3))
    } else {
        0
    }
}

// Of a member, weight × (w1·P1 + w2·P2) is gained, and weight × (w3·P3 + w3b·P3b + w4·P4) lost.
fn member_share(t: TopicParams, r: TopicRecord) -> Balance
    requires { TopicParamsIn t × CountersIn r }
    ensures { (result ≡ share_of t r) × ShareIn result }
{
    let gain = term(t.w1, part1(t, r)) + term(t.w2, r.p2 * 1000);
    let loss = term(t.w3, part3(t, r)) + term(t.w3b, r.p3b) + term(t.w4, squared(r.p4));
    Balance {
        gain: weighted(t.weight, gain),
        loss: weighted(t.weight, loss),
    }
}

// Of another peer, P1 and P3 are 0.
fn other_share(t: TopicParams, r: TopicRecord) -> Balance
    requires { TopicParamsIn t × (CountersIn r × (r.member ≡ 1 → ⊥)) }
    ensures { (result ≡ share_of t r) × ShareIn result }
{
    let gain = term(t.w2, r.p2 * 1000);
    let loss = term(t.w3b, r.p3b) + term(t.w4, squared(r.p4));
    Balance {
        gain: weighted(t.weight, gain),
        loss: weighted(t.weight, loss),
    }
}

// One topic's share. Most peers are members of few meshes, so that the shorter sum is the usual one.
pub fn share(t: TopicParams, r: TopicRecord) -> Balance
    requires { TopicParamsIn t × CountersIn r }
    ensures { (result ≡ share_of t r) × ShareIn result }
{
    if r.member == 1 {
        member_share(t, r)
    } else {
        other_share(t, r)
    }
}
