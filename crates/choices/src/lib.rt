// The two choices of the best, as a static library for the benchmark alone (02, order 2): by picks, as mesh maintenance chooses, and by
// comparing every pair. Each writes who is kept. The router's library has none of this.
#![tactic(auto)]

ghost use Rattle.std.specs.Prelude.{◌≡◌, false, replicate};
ghost use Rattle.records.specs.Records.{slot_count};
ghost use Rattle.sets.specs.Sets.{bests};
ghost use Rattle.pairs.specs.Pairs.{by_pairs};

use pairs::best_by_pairs;
use records::SLOTS;
use sets::walks::bests;
use words::flags::{pack, unpack};

// The k best by picks: the router's own function, from flags to flags.
fn picked(
    k: u64,
    scores: [u64; SLOTS],
    members: [bool; SLOTS],
    order: [u64; SLOTS],
) -> [bool; SLOTS]
    ensures { result ≡ bests slot_count scores members order k (replicate slot_count false) }
{
    unpack(bests(k, &scores, pack(members), &order))
}

// The k best, the best remaining one picked k times.
#[unsafe(no_mangle)]
pub extern "C" fn choices_by_picks(
    k: u64,
    scores: &[u64; SLOTS],
    members: &[bool; SLOTS],
    order: &[u64; SLOTS],
    kept: &mut [bool; SLOTS],
)
    ensures { kept.new
        ≡ bests slot_count scores.now members.now order.now k (replicate slot_count false) }
{
    *kept = picked(k, *scores, *members, *order);
}

// The k best by comparing every pair.
#[unsafe(no_mangle)]
pub extern "C" fn choices_by_pairs(
    k: u64,
    scores: &[u64; SLOTS],
    members: &[bool; SLOTS],
    order: &[u64; SLOTS],
    kept: &mut [bool; SLOTS],
)
    ensures { kept.new ≡ by_pairs slot_count scores.now members.now order.now k }
{
    *kept = best_by_pairs(k, scores, members, *order);
}
