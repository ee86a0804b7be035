// Balances: sums, the topic cap, the parts of P5, P6 and P7, the whole score, and how a score is compared and returned.
ghost use Rattle.std.specs.Prelude.{◌≡◌, ◌*◌, ◌≤◌};
ghost use Rattle.std.proofs.Math.IntN.{sub_ℕ};
ghost use Rattle.varint.specs.Codes.{code_of};
ghost use Rattle.score.specs.Ranges.{ScoreParamsIn, TopicsIn, PartsIn, BalanceIn, SharersIn, crowd_most, p6_most};
ghost use Rattle.score.specs.Parts.{square, surplus_of, crowd_of};
ghost use Rattle.score.specs.Sums.{worth, add_of, capped_of, p5_of, p6_of, p7_of, parts_of, total_of, offset_of, negative_of, below_of, told_of};
ghost use Rattle.records.specs.Records.{slot_count};

use crate::topic::{squared, term};
use crate::{Balance, Parts, ScoreParams, Sharers, Why};

pub fn add(a: Balance, b: Balance) -> Balance
    requires { BalanceIn a × BalanceIn b }
    ensures { result ≡ add_of a b }
{
    Balance {
        gain: a.gain + b.gain,
        loss: a.loss + b.loss,
    }
}

// Bounded from above alone, by a cap in thousandths of a point; 0 is none.
pub fn capped(cap: u64, b: Balance) -> Balance
    requires { (cap ≤ 1000000000) × TopicsIn b }
    ensures { (result ≡ capped_of cap b) × TopicsIn result }
{
    if cap == 0 {
        b
    } else {
        Balance {
            gain: b.gain.min(cap * 1000000 + b.loss),
            loss: b.loss,
        }
    }
}

// w5 × P5 × 1000, of P5's code.
pub fn p5_part(w5: u64, code: u64) -> Balance
    requires { (w5 ≤ 100) × (code ≤ 2000000000) }
    ensures { (result ≡ p5_of w5 code) × ((result.gain ≤ 100000000000000) × (result.loss ≤ 100000000000000)) }
{
    let n = term(w5, varint::magnitude(code) * 1000);
    if code % 2 == 1 {
        Balance { gain: 0, loss: n }
    } else {
        Balance { gain: n, loss: 0 }
    }
}

// The squared surplus of one group that `sharing` connected peers hold.
fn surplus_squared(threshold: u64, sharing: u64) -> u64
    requires { (1 ≤ threshold) × (sharing ≤ slot_count) }
    ensures { (result ≡ square (surplus_of threshold sharing)) × (result ≤ 65025) }
{
    let n = sharing.saturating_sub(threshold);
    n * n
}

// The squared surpluses of a peer's groups, added.
fn crowd(threshold: u64, sharers: Sharers) -> u64
    requires { (1 ≤ threshold) × SharersIn sharers }
    ensures { (result ≡ crowd_of threshold sharers) × (result ≤ crowd_most) }
{
    surplus_squared(threshold, sharers.first)
        + surplus_squared(threshold, sharers.second)
        + surplus_squared(threshold, sharers.third)
        + surplus_squared(threshold, sharers.fourth)
}

fn crowd_part(w6: u64, crowd: u64) -> u64
    requires { (w6 ≤ 100) × (crowd ≤ crowd_most) }
    ensures { (result ≡ w6 * crowd * 1000000000) × (result ≤ p6_most) }
{
    w6 * crowd * 1000000000
}

// What P6 takes away of a peer whose groups so many connected peers hold.
pub fn p6_part(w6: u64, threshold: u64, sharers: Sharers) -> u64
    requires { (w6 ≤ 100) × ((1 ≤ threshold) × SharersIn sharers) }
    ensures { (result ≡ p6_of w6 threshold sharers) × (result ≤ p6_most) }
{
    crowd_part(w6, crowd(threshold, sharers))
}

// What P7 takes away.
pub fn p7_part(w7: u64, p7: u64) -> u64
    requires { (w7 ≤ 100) × (p7 ≤ 1000000) }
    ensures { (result ≡ p7_of w7 p7) × (result ≤ 100000000000000000) }
{
    term(w7, squared(p7)) * 1000
}

// The parts of a score, from the topics' total, P5's code, how many connected peers hold each of the groups, and P7's counter.
pub fn parts(g: ScoreParams, topics: Balance, code: u64, sharers: Sharers, p7: u64) -> Parts
    requires { ScoreParamsIn g × (TopicsIn topics × ((code ≤ 2000000000) × (SharersIn sharers × (p7 ≤ 1000000)))) }
    ensures { (result ≡ parts_of g topics code sharers p7) × PartsIn result }
{
    Parts {
        topics: topics,
        capped: capped(g.cap, topics),
        p5: p5_part(g.w5, code),
        p6: p6_part(g.w6, g.threshold, sharers),
        p7: p7_part(g.w7, p7),
    }
}

// The score: the total after the cap, P5, P6 and P7 together.
pub fn total(p: Parts) -> Balance
    requires { PartsIn p }
    ensures { (result ≡ total_of p) × BalanceIn result }
{
    Balance {
        gain: p.capped.gain + p.p5.gain,
        loss: p.capped.loss + p.p5.loss + p.p6 + p.p7,
    }
}

// The score moved up, so that two are compared as unsigned numbers.
pub fn offset(b: Balance) -> u64
    requires { BalanceIn b }
    ensures { result ≡ offset_of b }
{
    2600000000000000000 + b.gain - b.loss
}

pub fn is_negative(b: Balance) -> bool
    ensures { result ≡ negative_of b }
{
    b.gain < b.loss
}

// Whether the score is below a threshold of -thousandths of a point.
pub fn is_below(b: Balance, thousandths: u64) -> bool
    requires { BalanceIn b × (thousandths ≤ 1000000000) }
    ensures { result ≡ below_of b thousandths }
{
    b.gain + thousandths * 1000000 < b.loss
}

// A balance as the host gets it.
pub fn signed(b: Balance) -> i64
    requires { BalanceIn b }
    ensures { result ≡ worth b }
{
    varint::number_of(code(b))
}

// What is taken away, as the host gets it.
fn lost(n: u64) -> i64
    requires { n ≤ 100000000000000000 }
    ensures { result ≡ sub_ℕ 0 n }
{
    signed(Balance { gain: 0, loss: n })
}

// The parts and the score as the host gets them.
pub fn why(p: Parts) -> Why
    requires { PartsIn p }
    ensures { result ≡ told_of p }
{
    Why {
        topics: signed(p.topics),
        capped: signed(p.capped),
        p5: signed(p.p5),
        p6: lost(p.p6),
        p7: lost(p.p7),
        score: signed(total(p)),
    }
}

// A balance's code: 2n, or -2n - 1.
fn code(b: Balance) -> u64
    requires { BalanceIn b }
    ensures { result ≡ code_of (worth b) }
{
    if b.gain < b.loss {
        (b.loss - b.gain) * 2 - 1
    } else {
        (b.gain - b.loss) * 2
    }
}
