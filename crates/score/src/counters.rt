// Growth and decay of counters, on one record by value (specs/Counters.antt). What a delivery adds is crate credits.
ghost use Rattle.std.specs.Prelude.{◌≡◌, ◌+◌, ◌*◌, ◌≤◌, ◌/◌, min};
ghost use Rattle.score.specs.Ranges.{TopicParamsIn, CountersIn};
ghost use Rattle.score.specs.Counters.{raised_of, grown_of, faded_of, mesh_of, decayed_of};

use crate::TopicParams;
use crate::topic::part3;
use records::TopicRecord;

// x + step, to the most.
fn sum_to(most: u64, x: u64, step: u64) -> u64
    ensures { result ≡ min (x + step) most }
{
    x.saturating_add(step).min(most)
}

// A counter after 1000 thousandths more. P7's most is 10^6.
pub fn raised(x: u64, most: u64) -> u64
    ensures { result ≡ raised_of x most }
{
    sum_to(most, x, 1000)
}

// A PRUNE of a member with a negative score: P3b grows by P3 as it stands.
pub fn grown(t: TopicParams, r: TopicRecord) -> TopicRecord
    requires { t.threshold ≤ 1000000 }
    ensures { result ≡ grown_of t r }
{
    let mut q = r;
    q.p3b = sum_to(1000000000000, r.p3b, part3(t, r));
    q
}

// A counter after one decay, of P7 too. Most are 0, and are not multiplied.
pub fn faded(floor: u64, factor: u64, x: u64) -> u64
    requires { (factor ≤ 1000) × (x ≤ 1000000000000) }
    ensures { result ≡ faded_of floor factor x }
{
    if x == 0 {
        return 0;
    }
    let y = scaled(factor, x);
    if y < floor { 0 } else { y }
}

fn scaled(factor: u64, x: u64) -> u64
    requires { (factor ≤ 1000) × (x ≤ 1000000000000) }
    ensures { result ≡ x * factor / 1000 }
{
    x * factor / 1000
}

// A record after one decay: its four counters, and a member's mesh time.
pub fn decayed(t: TopicParams, floor: u64, time: u64, r: TopicRecord) -> TopicRecord
    requires { TopicParamsIn t × (CountersIn r × (floor ≤ 1000)) }
    ensures { result ≡ decayed_of t floor time r }
{
    let mut q = r;
    q.p2 = faded(floor, t.decay2, r.p2);
    q.p3 = faded(floor, t.decay3, r.p3);
    q.p4 = faded(floor, t.decay4, r.p4);
    q.p3b = faded(floor * 1000, t.decay3b, r.p3b);
    q.mesh = mesh_time(time, r);
    q
}

fn mesh_time(time: u64, r: TopicRecord) -> u64
    ensures { result ≡ mesh_of time r }
{
    if r.member == 1 {
        time.saturating_sub(r.graft)
    } else {
        r.mesh
    }
}
