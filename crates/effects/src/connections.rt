// Connecting, disconnecting, and the emptying of records whose time is over.
ghost use Rattle.std.specs.Prelude.{◌≡◌, false, not, length};
ghost use Rattle.index.specs.Index.{every, iter};
ghost use Rattle.records.specs.Records.{no_peer, no_topic, place, peer_in, set_topic};
ghost use Rattle.layout.specs.View.{cell_count, state_of};
ghost use Rattle.effects.specs.Effects.{backoff_runs, on_peer, connected_as, retained_to, left_topic};
ghost use Rattle.effects.specs.Effects.{reclaimable as reclaimableOf, emptied, reclaim_slot, reclaimed, NoneReclaimable};
ghost use Rattle.effects.specs.Lent.{AtSlot, ConnectFits};

use crate::slots::unsubscribe_slot;
use crate::values::{connected_as, retained_to};
use records::{Groups, Peer, SLOTS, TOPICS, TopicRecord};

// A connected record in a slot.
pub fn connect_slot(
    table: &mut [u64],
    slot: usize,
    id: u64,
    groups: Groups,
    flags: u64,
    version: u64,
)
    requires { AtSlot table.old slot × ConnectFits flags version }
    ensures { state_of table.new
        ≡ on_peer (state_of table.old) slot (λ p. connected_as p id groups flags version) }
{
    let p = layout::load_peer(table, slot);
    layout::store_peer(table, slot, connected_as(p, id, groups, flags, version));
}

// Out of every mesh, with no subscription.
fn leave_topics(table: &mut [u64], slot: usize)
    requires { AtSlot table.old slot }
    ensures { state_of table.new ≡ iter 8 (λ t u. left_topic u slot t) (state_of table.old) }
{
    for t in 0..TOPICS {
        unsubscribe_slot(table, t, slot);
    }
}

// The record is retained to `end`.
pub fn retain_slot(table: &mut [u64], slot: usize, end: u64)
    requires { AtSlot table.old slot }
    ensures { state_of table.new
        ≡ on_peer (iter 8 (λ t u. left_topic u slot t) (state_of table.old)) slot (λ p. retained_to p end) }
{
    leave_topics(table, slot);
    let p = layout::load_peer(table, slot);
    layout::store_peer(table, slot, retained_to(p, end));
}

// Whether all eight backoffs are over.
fn backoffs_over(p: Peer, time: u64) -> bool
    ensures { result ≡ every 8 (λ t. not (backoff_runs p t time)) }
{
    p.backoff.iter().all(|end| *end <= time)
}

// Whether a record is retained, its retain period over, and all its backoffs too.
pub fn reclaimable(p: Peer, time: u64) -> bool
    ensures { result ≡ reclaimableOf p time }
{
    ((p.status == 2) & (p.retain <= time)) & backoffs_over(p, time)
}

pub fn empty_peer() -> Peer
    ensures { result ≡ no_peer }
{
    Peer {
        status: 0,
        id: 0,
        groups: Groups {
            first: 0,
            second: 0,
            third: 0,
            fourth: 0,
        },
        outbound: 0,
        explicit: 0,
        version: 0,
        p5: 0,
        p7: 0,
        retain: 0,
        backoff: [0; 8],
    }
}

pub fn empty_topic() -> TopicRecord
    ensures { result ≡ no_topic }
{
    TopicRecord {
        p2: 0,
        p3: 0,
        p4: 0,
        p3b: 0,
        subscribed: 0,
        member: 0,
        graft: 0,
        mesh: 0,
    }
}

// No record for any topic.
fn empty_topics(table: &mut [u64], slot: usize)
    requires { AtSlot table.old slot }
    ensures { state_of table.new
        ≡ iter 8 (λ t u. set_topic u (place slot t) no_topic) (state_of table.old) }
{
    for t in 0..TOPICS {
        layout::store_topic(table, slot * 8 + t, empty_topic());
    }
}

// Empties a slot.
fn empty_slot(table: &mut [u64], slot: usize)
    requires { AtSlot table.old slot }
    ensures { state_of table.new ≡ emptied (state_of table.old) slot }
{
    empty_topics(table, slot);
    layout::store_peer(table, slot, empty_peer());
}

// Empties a slot if its record is reclaimable.
fn reclaim_slot(table: &mut [u64], slot: usize, time: u64)
    requires { AtSlot table.old slot }
    ensures { (state_of table.new ≡ reclaim_slot time slot (state_of table.old))
        × (reclaimableOf (peer_in (state_of table.old) slot) time ≡ false → table.new ≡ table.old) }
{
    let p = layout::load_peer(table, slot);
    if reclaimable(p, time) {
        empty_slot(table, slot);
    }
}

// Empties every reclaimable record; where there is none, no cell changes.
pub fn reclaim(table: &mut [u64], time: u64)
    requires { length table.old ≡ cell_count }
    ensures { (state_of table.new ≡ reclaimed (state_of table.old) time)
        × (NoneReclaimable (state_of table.old) time → table.new ≡ table.old) }
{
    for slot in 0..SLOTS {
        reclaim_slot(table, slot, time);
    }
}
