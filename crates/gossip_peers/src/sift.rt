// A set of slots, sifted by a test of each.
ghost use Rattle.std.specs.Prelude.{◌≡◌, Bool, ◌&&◌, ℕ, ◌<◌};
ghost use Rattle.records.specs.Records.{slot_count};
ghost use Rattle.words.specs.Words.{bits_of};
ghost use Rattle.sets.specs.Sets.{at, by_slot};
ghost use Rattle.gossip_peers.specs.Peers.{Tests};

use words::slots::Slots;
use words::{WORDS, put};

// The slots of a set that pass a test. No other slot is tested.
pub fn sift<F: Fn(usize) -> bool>(all: [u64; WORDS], passes: F) -> [u64; WORDS]
    requires { (s : ℕ) → s < slot_count → F.pre passes s }
    ensures { (f : ℕ → Bool) → Tests (F.post passes) f →
        bits_of result ≡ by_slot slot_count (λ s. at (bits_of all) s && f s) }
{
    let mut r = all;
    for slot in Slots::of(all) {
        let more = put(r, slot as u64, passes(slot));
        r = more;
    }
    r
}
