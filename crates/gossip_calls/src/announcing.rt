// IHAVE to peers outside the mesh.
ghost use Rattle.std.specs.Prelude.{◌≡◌, List, map, ℕ, length};
ghost use Rattle.std.proofs.lemmas.List.Edits.{sets};
ghost use Rattle.layout.specs.View.{state_of};
ghost use Rattle.gossip.specs.Calls.{new, announce as Calls·announce};
ghost use Rattle.gossip.specs.Step.{tell_one, chosen, eligible, if_any, announce_reply};
ghost use Rattle.gossip_table.specs.View.{gossip_of, extended_of};
ghost use Rattle.gossip_gate.specs.Promise.{GivesAll, FollowsAll, Tells};
ghost use Rattle.gossip_peers.specs.Peers.{Tells as Told};
ghost use Rattle.gossip_calls.specs.Asked.{Announcing, Telling};

use crate::NUMBERS;
use effects::slots::is_joined;
use gate::{time_ok, topic_ok};
use gossip_gate::{NOT_PERMUTATION, admit, finish, ignore};
use gossip_peers::targets::targets;
use gossip_peers::tell::tell_targets;
use gossip_table::{GOSSIP_CELLS, load_factor, load_lazy, stored};
use layout::CELLS;
use records::ACTION_ROOM;
use sets::permutation::is_permutation;

// Who is told: nobody where there is no number.
fn tell_any(
    table: &[u64],
    gossip: &[u64],
    topic: usize,
    order: &[u64],
    count: usize,
    actions: &mut [u32],
) -> usize
    requires { Telling table.now gossip.now topic order.now actions.old }
    ensures { (l : List ℕ) → count ≡ length l →
        Told (if_any l (map (tell_one (state_of table.now) 5)
        (chosen (gossip_of gossip.now).setup (eligible (state_of table.now) topic order.now))))
        actions.old actions.new result }
{
    if count == 0 {
        return 0;
    }
    let set = targets(table, topic);
    tell_targets(
        table,
        order,
        &set,
        load_lazy(gossip),
        load_factor(gossip),
        actions,
    )
}

fn announce_from(
    table: &mut [u64],
    gossip: &[u64],
    time: u64,
    topic: usize,
    order: &[u64],
    numbers: &mut [u64],
    actions: &mut [u32],
) -> u64
    requires { Announcing table.old gossip.now time topic actions.old numbers.old }
    ensures { GivesAll (announce_reply (extended_of table.old gossip.now) time topic order.now) result
        table.old table.new gossip.now gossip.now actions.old actions.new
        × (numbers.new ≡ sets numbers.old 0
        (announce_reply (extended_of table.old gossip.now) time topic order.now).numbers) }
{
    if !is_permutation(order) {
        return NOT_PERMUTATION;
    }
    if !is_joined(table, topic) {
        return ignore(table, time);
    }
    let count = stored::announce(gossip, topic, numbers);
    let told = tell_any(table, gossip, topic, order, count, actions);
    finish(table, time, told, count)
}

// To whom, and with which numbers, IHAVEs of a topic go.
pub fn announce(
    table: &mut [u64; CELLS],
    gossip: &[u64; GOSSIP_CELLS],
    time: u64,
    topic: u64,
    permutation: &[u64],
    numbers: &mut [u64],
    actions: &mut [u32],
) -> u64
    ensures { FollowsAll (new (Calls·announce time topic permutation.now (length numbers.old))) result
        table.old table.new gossip.now gossip.now actions.old actions.new
        × Tells (new (Calls·announce time topic permutation.now (length numbers.old)))
        table.old gossip.now actions.old numbers.old numbers.new }
{
    let fine = time_ok(time) & topic_ok(topic);
    let fits = (ACTION_ROOM <= actions.len()) & (NUMBERS <= numbers.len());
    let gate = admit(table, gossip, fine, fits, time);
    if gate != 0 {
        return gate;
    }
    announce_from(
        table,
        gossip,
        time,
        topic as usize,
        permutation,
        numbers,
        actions,
    )
}
