// Actions without seconds, written into a lent list from its start on: by slot, or in the order of a permutation.
ghost use Rattle.std.specs.Prelude.{◌≡◌, Bool, ◌∷◌, [], map, ℕ, ◌+◌, ◌*◌, ◌≤◌, ◌/◌, max, length, take};
ghost use Rattle.std.proofs.lemmas.List.Edits.{sets};
ghost use Rattle.records.specs.Records.{slot_count};
ghost use Rattle.layout.specs.View.{state_of};
ghost use Rattle.words.specs.Words.{bits_of};
ghost use Rattle.sets.specs.Sets.{by_slot, in_order};
ghost use Rattle.effects.specs.Actions.{numbers_of};
ghost use Rattle.peer_score.specs.Standing.{SlotStanding};
ghost use Rattle.gossip.specs.Notes.{Setup};
ghost use Rattle.gossip.specs.Step.{tell_one, tell_by_slot, chosen};
ghost use Rattle.gossip_peers.specs.Peers.{Tells, Lent, Picking};

use records::SLOTS;
use sets::size;
use words::slots::Slots;
use words::{WORDS, at, next};

// Kinds of actions, as the list that C reads has them; what `tell` promises, it promises of any number.
pub const ASK: u32 = 3;

pub const SEND: u32 = 4;

pub const IHAVE: u32 = 5;

// Writes, after n others, an action on the peer in a slot.
fn tell_slot(table: &[u64], actions: &mut [u32], n: usize, kind: u32, slot: usize)
    requires slot_standing { SlotStanding table.now slot }
    requires n_in_bounds { 3 * n + 3 ≤ length actions.old }
    ensures { actions.new
        ≡ sets actions.old (3 * n) (numbers_of (tell_one (state_of table.now) kind slot ∷ [])) }
{
    mesh::actions::put(actions, n, kind, layout::load_id(table, slot), 0);
}

// An action of the kind for each slot of a set, by slot; and how many they are.
pub fn tell(table: &[u64], kind: u32, set: &[u64; WORDS], actions: &mut [u32]) -> usize
    requires { Lent table.now actions.old }
    ensures { (f : ℕ → Bool) → bits_of set.now ≡ by_slot slot_count f →
        Tells (tell_by_slot (state_of table.now) kind f) actions.old actions.new result }
{
    let mut n: usize = 0;
    for slot in Slots::of(*set) {
        tell_slot(table, actions, n, kind, slot);
        n += 1;
    }
    n
}

// How many of so many targets are told: the larger of D_lazy and a part of them, in thousandths.
fn share(count: u64, lazy: u64, factor: u64) -> u64
    requires { (count ≤ slot_count) × (factor ≤ 1000) }
    ensures { result ≡ max lazy (count * factor / 1000) }
{
    lazy.max(count * factor / 1000)
}

// An action for each of the first `most` slots of a set in an order, or all if they are fewer.
fn tell_first(
    table: &[u64],
    order: &[u64],
    set: &[u64; WORDS],
    most: u64,
    actions: &mut [u32],
) -> usize
    requires { Lent table.now actions.old × (length order.now ≡ slot_count) }
    ensures { Tells
        (map (tell_one (state_of table.now) 5) (take most (in_order (bits_of set.now) order.now)))
        actions.old actions.new result }
{
    let mut n: usize = 0;
    for &s in order {
        if most <= n as u64 {
            return n;
        }
        if at(set, s) {
            tell_slot(table, actions, n, IHAVE, s as usize);
            n += 1;
        }
    }
    n
}

// The IHAVEs of a heartbeat: to as many of the targets as D_lazy and the factor say, in draw order. Without a target no walk is taken.
pub fn tell_targets(
    table: &[u64],
    order: &[u64],
    set: &[u64; WORDS],
    lazy: u64,
    factor: u64,
    actions: &mut [u32],
) -> usize
    requires { Picking table.now actions.old order.now lazy factor }
    ensures { (p : Setup) → p.lazy ≡ lazy → p.factor ≡ factor →
        Tells (map (tell_one (state_of table.now) 5) (chosen p (in_order (bits_of set.now) order.now)))
        actions.old actions.new result }
{
    if next(set, 0) == SLOTS as u64 {
        return 0;
    }
    let most = share(size(*set), lazy, factor);
    tell_first(table, order, set, most, actions)
}
