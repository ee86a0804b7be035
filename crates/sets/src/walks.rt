// Walks along an order of slots: putting slots in, the first, the last and the best of a set, the swaps of step 3. SLOTS is no slot, and not
// None: the clauses cite definitions (specs/Sets.antt) whose walk begins with the number of the slots.
ghost use Rattle.std.specs.Prelude.{◌≡◌, ◌&&◌, false, replicate};
ghost use Rattle.records.specs.Records.{slot_count};
ghost use Rattle.words.specs.Words.{bits_of};
ghost use Rattle.sets.specs.Sets.{at, except, takes, fill, top, bests, worse, bottom, goer, first_of, last_of, swap_to};

use crate::{both, except, number_at, size};
use records::SLOTS;
use words::{WORDS, at, none, put};

// Whether the slot s is put in: there is room, it is in p and not yet in m.
pub fn takes(p: &[u64], room: u64, m: &[u64], s: u64) -> bool
    ensures { result ≡ takes (bits_of p.now) room (bits_of m.now) s }
{
    (0 < room) & (at(p, s) & !at(m, s))
}

// Puts in, in the order, the first k slots of p that are not in m.
pub fn fill(p: [u64; WORDS], k: u64, order: &[u64], m: [u64; WORDS]) -> [u64; WORDS]
    ensures { bits_of result ≡ fill (bits_of p) k order.now (bits_of m) }
{
    let mut r = m;
    let mut room = k;
    for s in order {
        if room == 0 {
            return r;
        }
        if takes(&p, room, &r, *s) {
            r = put(r, *s, true);
            room -= 1;
        }
    }
    r
}

// The first slot of p in the order; SLOTS for none.
pub fn first_of(p: [u64; WORDS], order: &[u64]) -> u64
    ensures { result ≡ first_of (bits_of p) order.now slot_count }
{
    for s in order {
        if at(&p, *s) {
            return *s;
        }
    }
    SLOTS as u64
}

// The last slot of p in the order; SLOTS for none.
pub fn last_of(p: [u64; WORDS], order: &[u64]) -> u64
    ensures { result ≡ last_of (bits_of p) order.now slot_count }
{
    let mut last = SLOTS as u64;
    for next in order {
        if at(&p, *next) {
            last = *next;
        }
    }
    last
}

// The best of p, the first in the order of the highest score; SLOTS for none. The best one's score is kept beside it.
pub fn top(scores: &[u64], p: &[u64], order: &[u64]) -> u64
    ensures { result ≡ top slot_count scores.now (bits_of p.now) order.now slot_count }
{
    let mut best = SLOTS as u64;
    let mut high = number_at(scores, best);
    for s in order {
        let score = number_at(scores, *s);
        if at(p, *s) & ((SLOTS as u64 <= best) | (high < score)) {
            best = *s;
            high = score;
        }
    }
    best
}

// The best of m that is not in b; SLOTS for none.
fn next_best(scores: &[u64], m: [u64; WORDS], b: [u64; WORDS], order: &[u64]) -> u64
    ensures { result
        ≡ top slot_count scores.now (except (bits_of m) (bits_of b)) order.now slot_count }
{
    let rest = except(m, b);
    top(scores, &rest, order)
}

// The k best of m.
pub fn bests(k: u64, scores: &[u64], m: [u64; WORDS], order: &[u64]) -> [u64; WORDS]
    ensures { bits_of result
        ≡ bests slot_count scores.now (bits_of m) order.now k (replicate slot_count false) }
{
    let mut b = none();
    for pick in 0..k {
        let more = put(b, next_best(scores, m, b, order), true);
        b = more;
    }
    b
}

// Whether s comes after low among the slots of p: its score is no higher.
pub fn sinks(scores: &[u64], p: &[u64], low: u64, s: u64) -> bool
    ensures { result ≡ (at (bits_of p.now) s && worse slot_count scores.now low s) }
{
    at(p, s) & ((SLOTS as u64 <= low) | (number_at(scores, s) <= number_at(scores, low)))
}

// The lowest of p, the last in the order of the lowest score; SLOTS for none.
pub fn bottom(scores: &[u64], p: [u64; WORDS], order: &[u64]) -> u64
    ensures { result ≡ bottom slot_count scores.now (bits_of p) order.now slot_count }
{
    let mut low = SLOTS as u64;
    for s in order {
        if sinks(scores, &p, low, *s) {
            low = *s;
        }
    }
    low
}

// Who goes in a swap, of the inbound keepers p whose best are b: the last drawn of the others; if there is none, the lowest.
pub fn goer(scores: &[u64], order: &[u64], b: [u64; WORDS], p: [u64; WORDS]) -> u64
    ensures { result ≡ goer slot_count scores.now order.now (bits_of b) (bits_of p) }
{
    let others = except(p, b);
    if size(others) == 0 {
        return bottom(scores, p, order);
    }
    last_of(others, order)
}

// Step 3's swaps of the keepers k of the mesh m, whose best are b, until out of them are outbound or none is left.
pub fn swap_to(
    out: u64,
    scores: &[u64],
    outbound: [u64; WORDS],
    order: &[u64],
    m: [u64; WORDS],
    b: [u64; WORDS],
    k: [u64; WORDS],
) -> [u64; WORDS]
    ensures { bits_of result
        ≡ swap_to slot_count out scores.now (bits_of outbound) order.now (bits_of m) (bits_of b) out (bits_of k) }
{
    let mut r = k;
    for swap in 0..out {
        let comers = except(both(m, outbound), r);
        if out <= size(both(r, outbound)) {
            return r;
        }
        if size(comers) == 0 {
            return r;
        }
        let inbound = except(r, outbound);
        if size(inbound) == 0 {
            return r;
        }
        r = put(
            put(r, goer(scores, order, b, inbound), false),
            first_of(comers, order),
            true,
        );
    }
    r
}
