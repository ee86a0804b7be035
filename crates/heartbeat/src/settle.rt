// The mesh that maintenance leaves, written back: who was PRUNEd goes out with a backoff, who was grafted comes in.
ghost use Rattle.std.specs.Prelude.{◌≡◌};
ghost use Rattle.index.specs.Index.{iter};
ghost use Rattle.records.specs.Records.{slot_count};
ghost use Rattle.layout.specs.View.{state_of};
ghost use Rattle.words.specs.Words.{bits_of};
ghost use Rattle.rules.specs.Step.{settle_slot};
ghost use Rattle.leaving.specs.Slots.{Turn};
ghost use Rattle.heartbeat.specs.Settle.{settled_if, Settle};

use effects::slots::{graft_slot, prune_slot};
use leaving::punish;
use mesh::ZERO_SCORE;
use sets::number_at;
use words::slots::Slots;
use words::{WORDS, at, differ};

// One slot: whether it was a member, whether it is one now, and whether its score was negative at the start.
fn settle_slot(
    table: &mut [u64],
    topic: usize,
    slot: usize,
    time: u64,
    end: u64,
    was: bool,
    stays: bool,
    negative: bool,
)
    requires { Turn table.old topic slot }
    ensures { state_of table.new ≡ settled_if was stays negative topic time end slot (state_of table.old) }
{
    if was {
        if !stays {
            punish(table, topic, slot, negative);
            prune_slot(table, topic, slot, end);
        }
    } else {
        if stays {
            graft_slot(table, topic, slot, time);
        }
    }
}

// Every slot: a turn for those that changed, since the others stay as they are.
pub fn settle(
    table: &mut [u64],
    topic: usize,
    time: u64,
    end: u64,
    members: [u64; WORDS],
    mesh: [u64; WORDS],
    scores: &[u64],
)
    requires { Settle table.old topic time end (bits_of members) scores.now }
    ensures { state_of table.new
        ≡ iter slot_count (settle_slot (state_of table.old) time topic (bits_of mesh)) (state_of table.old) }
{
    let changed = differ(members, mesh);
    for slot in Slots::of(changed) {
        let s = slot as u64;
        let negative = number_at(scores, s) < ZERO_SCORE;
        let was = at(&members, s);
        let stays = at(&mesh, s);
        settle_slot(table, topic, slot, time, end, was, stays, negative);
    }
}
