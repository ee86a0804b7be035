// The permutation that a maintenance is given: the test.
ghost use Rattle.std.specs.Prelude.{◌≡◌};
ghost use Rattle.records.specs.Records.{slot_count};
ghost use Rattle.sets.specs.Sets.{size, is_permutation};

use records::SLOTS;

// How many slots are marked.
fn marks(m: [bool; SLOTS]) -> u64
    ensures { result ≡ size m }
{
    let mut n: u64 = 0;
    for mark in m {
        if mark {
            n += 1;
        }
    }
    n
}

// Whether p is each slot once: as long as there are slots, and after marking each slot that it names none is unmarked. A flag for each slot
// and not its bit, so that no mark waits for the one before.
pub fn is_permutation(p: &[u64]) -> bool
    ensures { result ≡ is_permutation slot_count p.now }
{
    if p.len() != SLOTS {
        return false;
    }
    let mut seen = [false; SLOTS];
    for s in p {
        if *s < SLOTS as u64 {
            seen[*s as usize] = true;
        }
    }
    marks(seen) == SLOTS as u64
}
