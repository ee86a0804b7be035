// The records that a connect empties.
ghost use Rattle.std.specs.Prelude.{◌≡◌, length};
ghost use Rattle.records.specs.Records.{slot_count, peer_in};
ghost use Rattle.layout.specs.View.{cell_count, state_of};
ghost use Rattle.words.specs.Words.{bits_of};
ghost use Rattle.sets.specs.Sets.{by_slot};
ghost use Rattle.effects.specs.Effects.{reclaimable as reclaimableOf};

use crate::sift::sift;
use effects::connections::reclaimable;
use words::WORDS;

// The slots whose record is reclaimable: of the retained ones, those whose retain period and backoffs are over.
pub fn reclaimed_slots(table: &[u64], time: u64) -> [u64; WORDS]
    requires { length table.now ≡ cell_count }
    ensures { bits_of result ≡ by_slot slot_count (λ s. reclaimableOf (peer_in (state_of table.now) s) time) }
{
    let retained = layout::load_retained(table);
    sift(
        retained,
        |slot| reclaimable(layout::load_peer(table, slot), time),
    )
}
