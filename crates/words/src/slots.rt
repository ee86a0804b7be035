// The slots of a set, one after another.
ghost use Rattle.std.specs.Prelude.{◌≡◌, ◌≤◌, ◌-◌};
ghost use Rattle.std.specs.Iterator.{at_most};
ghost use Rattle.records.specs.Records.{slot_count};

use crate::{WORDS, next};
use records::SLOTS;

// What is left of a walk over the slots of a set, in ascending order: those from `from` on.
#[derive(Clone, Copy)]
pub struct Slots {
    set: [u64; WORDS],
    from: u64,
    ghost from_most: { from ≤ slot_count },
}

impl Slots {
    // All slots of a set.
    pub fn of(set: [u64; WORDS]) -> Slots
        ensures set_is { result.set ≡ set }
        ensures from_is { result.from ≡ 0 }
    {
        Slots { set, from: 0 }
    }
}

impl Iterator for Slots {
    ghost use Rattle.words.specs.Walk.{GivesSlot};

    type Item = usize;

    ghost next_gives = { GivesSlot };

    ghost remaining = { λ walk. at_most (slot_count - walk.from) };

    fn next(&mut self) -> Option<usize> {
        let slot = next(&self.set, self.from);
        if SLOTS as u64 <= slot {
            return None;
        }
        self.from = slot + 1;
        Some(slot as usize)
    }
}
