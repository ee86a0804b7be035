// The choice of the best by comparing every pair (02, order 2): what picking the best remaining one is proved to give
// (proofs/PairLaws.antt). The router picks; this is here so that the two can be timed against each other.
#![tactic(auto)]

ghost use Rattle.std.specs.Prelude.{◌≡◌};
ghost use Rattle.records.specs.Records.{slot_count};
ghost use Rattle.sets.specs.Sets.{by_slot};
ghost use Rattle.pairs.specs.Pairs.{place as place_in, rank_by, by_pairs};

use records::SLOTS;

// The place of each slot in the order; SLOTS for one that does not stand there. Filled from the back, so that the first place counts.
pub fn places(order: [u64; SLOTS]) -> [u64; SLOTS]
    ensures { result ≡ by_slot slot_count (place_in order) }
{
    let mut r = [SLOTS as u64; SLOTS];
    for i in (0..SLOTS).rev() {
        let s = order[i];
        if s < SLOTS as u64 {
            r[s as usize] = i as u64;
        }
    }
    r
}

// How many slots of m come before one with this score at this place.
pub fn rank_by(
    scores: &[u64; SLOTS],
    m: &[bool; SLOTS],
    places: &[u64; SLOTS],
    score: u64,
    place: u64,
) -> u64
    ensures { result ≡ rank_by slot_count scores.now m.now places.now score place }
{
    let mut n: u64 = 0;
    for a in 0..SLOTS {
        if m[a] & ((score < scores[a]) | ((scores[a] == score) & (places[a] < place))) {
            n += 1;
        }
    }
    n
}

// The slots of m before which fewer than k others come.
pub fn best_by_pairs(
    k: u64,
    scores: &[u64; SLOTS],
    m: &[bool; SLOTS],
    order: [u64; SLOTS],
) -> [bool; SLOTS]
    ensures { result ≡ by_pairs slot_count scores.now m.now order k }
{
    let standing = places(order);
    let mut r = [false; SLOTS];
    for s in 0..SLOTS {
        let score = scores[s];
        let place = standing[s];
        r[s] = m[s] & (rank_by(scores, m, &standing, score, place) < k);
    }
    r
}
