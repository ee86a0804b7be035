// A delivery's credit: what it adds to the counters of one topic record, and the one function that adds it in place (01: "A delivery
// alters the counters of one record and no other record"). The amounts are specs/Credits.antt.
#![tactic(auto)]

ghost use Rattle.std.specs.Prelude.{◌≡◌, ◌+◌, ◌<◌, ◌^◌};
ghost use Rattle.credits.specs.Credits.{amount_of, amount3_of, amounts_of, credited_of, Room};

use records::TopicRecord;
use score::TopicParams;

// What a delivery adds to the counters of P2, P3 and P4.
#[derive(Clone, Copy)]
pub struct Addition {
    pub p2: u64,
    pub p3: u64,
    pub p4: u64,
}

// 1000 thousandths, or what is left to the most.
fn amount(x: u64, most: u64) -> u64
    ensures { (result ≡ amount_of x most) × (x + result < 2 ^ 64) }
{
    most.saturating_sub(x).min(1000)
}

// Of P3, for a member alone.
fn amount3(r: TopicRecord, t: TopicParams) -> u64
    ensures { (result ≡ amount3_of t r) × (r.p3 + result < 2 ^ 64) }
{
    if r.member == 1 {
        amount(r.p3, t.cap3)
    } else {
        0
    }
}

// The covered core. Kinds: 1 first, 2 near-first, 3 invalid: the numbers of the C interface's call, which the definition cites.
fn amounts(r: TopicRecord, t: TopicParams, kind: u64) -> Addition
    ensures { (result ≡ amounts_of kind t r) × Room r result }
{
    if kind == 1 {
        return Addition {
            p2: amount(r.p2, t.cap2),
            p3: amount3(r, t),
            p4: 0,
        };
    }
    if kind == 2 {
        return Addition {
            p2: 0,
            p3: amount3(r, t),
            p4: 0,
        };
    }
    Addition {
        p2: 0,
        p3: 0,
        p4: amount(r.p4, 1000000),
    }
}

// In place: a delivery adds to three counters of one record.
pub fn credit(r: &mut TopicRecord, t: TopicParams, kind: u64)
    ensures { r.new ≡ credited_of kind t r.old }
{
    let a = amounts(*r, t, kind);
    r.p2 += a.p2;
    r.p3 += a.p3;
    r.p4 += a.p4;
}

// The same from value to value, for callers that hold a record by value.
pub fn credited(mut r: TopicRecord, t: TopicParams, kind: u64) -> TopicRecord
    ensures { result ≡ credited_of kind t r }
{
    credit(&mut r, t, kind);
    r
}
