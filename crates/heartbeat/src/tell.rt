// The actions that tell the peers, written into a lent list of numbers, three each. A peer's id, and the seconds that it is told, are
// looked up in the table when its action is written. PRUNEs stand by slot, by a walk over the slots of the set alone; GRAFTs in the
// permutation's order.
ghost use Rattle.std.specs.Prelude.{◌≡◌, ◌∷◌, [], ◌+◌, ◌*◌, ◌<◌, length, get_or};
ghost use Rattle.std.proofs.lemmas.List.Edits.{sets};
ghost use Rattle.records.specs.Records.{slot_count};
ghost use Rattle.layout.specs.View.{cell_count, state_of};
ghost use Rattle.words.specs.Words.{bits_of};
ghost use Rattle.sets.specs.Sets.{ascending};
ghost use Rattle.mesh.specs.Maintenance.{actions_on, actions_of, seconds_of, Written};
ghost use Rattle.mesh.specs.Words.{changes_in};
ghost use Rattle.heartbeat.specs.Tell.{ids_in, told_by, Tells};

use mesh::Moves;
use mesh::actions::{GRAFT, PRUNE, put};
use sets::size;
use words::slots::Slots;
use words::{WORDS, at};

// An action's seconds: what the peer in a slot is told of a backoff for a PRUNE, 0 for a GRAFT.
fn seconds_of(table: &[u64], kind: u32, slot: usize, seconds: u64) -> u64
    requires { (length table.now ≡ cell_count) × (slot < slot_count) }
    ensures { result ≡ seconds_of kind (told_by (state_of table.now) seconds) slot }
{
    if kind != PRUNE {
        return 0;
    }
    let p = layout::load_peer(table, slot);
    if p.version == 0 { 0 } else { seconds }
}

// Writes, after n others, an action on the peer in a slot.
fn tell(table: &[u64], actions: &mut [u32], n: usize, kind: u32, slot: u64, seconds: u64)
    requires tells { Tells table.now actions.old seconds (n + 1) }
    requires slot_lt_slot_count { slot < slot_count }
    ensures { actions.new
        ≡ sets actions.old (3 * n)
        (kind
        ∷ get_or (ids_in (state_of table.now)) slot 0
        ∷ seconds_of kind (told_by (state_of table.now) seconds) slot
        ∷ []) }
{
    let id = layout::load_id(table, slot as usize);
    let told = seconds_of(table, kind, slot as usize, seconds);
    put(actions, n, kind, id, told);
}

// Writes, after n others, an action of the kind for each slot of p, by slot; and counts them all.
fn tell_by_slot(
    table: &[u64],
    actions: &mut [u32],
    n: usize,
    kind: u32,
    p: [u64; WORDS],
    seconds: u64,
) -> usize
    requires { Tells table.now actions.old seconds (n + length (actions_on kind (bits_of p) (ascending 0 slot_count))) }
    ensures { Written (ids_in (state_of table.now)) (told_by (state_of table.now) seconds)
        (actions_on kind (bits_of p) (ascending 0 slot_count)) actions.old n actions.new result }
{
    let mut k = n;
    for slot in Slots::of(p) {
        tell(table, actions, k, kind, slot as u64, seconds);
        k += 1;
    }
    k
}

// The same, in an order.
fn tell_walk(
    table: &[u64],
    actions: &mut [u32],
    n: usize,
    kind: u32,
    p: [u64; WORDS],
    order: &[u64],
    seconds: u64,
) -> usize
    requires { Tells table.now actions.old seconds (n + length (actions_on kind (bits_of p) order.now)) }
    ensures { Written (ids_in (state_of table.now)) (told_by (state_of table.now) seconds)
        (actions_on kind (bits_of p) order.now) actions.old n actions.new result }
{
    let mut k = n;
    for s in order {
        if at(&p, *s) {
            tell(table, actions, k, kind, *s, seconds);
            k += 1;
        }
    }
    k
}

// The same; a step that changes nothing, as most do, takes no walk.
fn tell_in_order(
    table: &[u64],
    actions: &mut [u32],
    n: usize,
    kind: u32,
    p: [u64; WORDS],
    order: &[u64],
    seconds: u64,
) -> usize
    requires { Tells table.now actions.old seconds (n + length (actions_on kind (bits_of p) order.now)) }
    ensures { Written (ids_in (state_of table.now)) (told_by (state_of table.now) seconds)
        (actions_on kind (bits_of p) order.now) actions.old n actions.new result }
{
    if size(p) == 0 {
        return n;
    }
    tell_walk(table, actions, n, kind, p, order, seconds)
}

// Writes the actions of a maintenance, by step, and counts them. The numbers past them stand.
pub fn tell_all(
    table: &[u64],
    actions: &mut [u32],
    c: Moves,
    permutation: &[u64],
    seconds: u64,
) -> usize
    requires { Tells table.now actions.old seconds (length (actions_of slot_count permutation.now (changes_in c))) }
    ensures { Written (ids_in (state_of table.now)) (told_by (state_of table.now) seconds)
        (actions_of slot_count permutation.now (changes_in c)) actions.old 0 actions.new result }
{
    let first = c.first;
    let second = c.second;
    let third = c.third;
    let fourth = c.fourth;
    let fifth = c.fifth;
    let n1 = tell_by_slot(table, actions, 0, PRUNE, first, seconds);
    let n2 = tell_in_order(table, actions, n1, GRAFT, second, permutation, seconds);
    let n3 = tell_by_slot(table, actions, n2, PRUNE, third, seconds);
    let n4 = tell_in_order(table, actions, n3, GRAFT, fourth, permutation, seconds);
    tell_in_order(table, actions, n4, GRAFT, fifth, permutation, seconds)
}
