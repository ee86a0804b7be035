// One slot of the table, in one topic.
ghost use Rattle.std.specs.Prelude.{◌≡◌, ◌≤◌, ◌<◌};
ghost use Rattle.records.specs.Records.{code_in, slot_count};
ghost use Rattle.layout.specs.View.{state_of};
ghost use Rattle.varint.specs.Codes.{magnitude as magnitudeOf};
ghost use Rattle.effects.specs.Effects.{with_end, with_p5, out_of_mesh, into_mesh, with_subscribed};
ghost use Rattle.effects.specs.Effects.{on_peer, on_topic, is_joined, is_member, mesh_size, pruned};
ghost use Rattle.effects.specs.Lent.{AtParam, AtTopic, AtSlot, AtPlace};

use crate::values::{with_end, with_p5};
use records::SLOTS;

// A number of the parameters without its sign.
pub fn load_magnitude(table: &[u64], i: usize) -> u64
    requires { AtParam table.now i }
    ensures { result ≡ magnitudeOf (code_in (state_of table.now) i) }
{
    layout::load_magnitude(table, i)
}

pub fn is_joined(table: &[u64], topic: usize) -> bool
    requires { AtTopic table.now topic }
    ensures { result ≡ is_joined (state_of table.now) topic }
{
    layout::load_joined(table, topic) == 1
}

pub fn is_member(table: &[u64], topic: usize, slot: usize) -> bool
    requires { AtPlace table.now topic slot }
    ensures { result ≡ is_member (state_of table.now) topic slot }
{
    layout::load_member(table, slot * 8 + topic) == 1
}

// How many members the mesh of a topic has.
pub fn mesh_size(table: &[u64], topic: usize) -> usize
    requires { AtTopic table.now topic }
    ensures { (result ≡ mesh_size (state_of table.now) topic) × (result ≤ slot_count) }
{
    let mut n: usize = 0;
    for slot in 0..SLOTS {
        n += usize::from(is_member(table, topic, slot));
    }
    n
}

// Out of the mesh.
pub fn take_out(table: &mut [u64], topic: usize, slot: usize)
    requires { AtPlace table.old topic slot }
    ensures { state_of table.new ≡ on_topic (state_of table.old) slot topic out_of_mesh }
{
    layout::leave_mesh(table, slot * 8 + topic);
}

// The backoff end at least `end`.
pub fn delay(table: &mut [u64], topic: usize, slot: usize, end: u64)
    requires { AtPlace table.old topic slot }
    ensures { state_of table.new ≡ on_peer (state_of table.old) slot (λ p. with_end p topic end) }
{
    let p = with_end(layout::load_peer(table, slot), topic, end);
    layout::store_end(table, slot, topic, p.backoff[topic]);
}

// Out of the mesh, with a backoff.
pub fn prune_slot(table: &mut [u64], topic: usize, slot: usize, end: u64)
    requires { AtPlace table.old topic slot }
    ensures { state_of table.new ≡ pruned (state_of table.old) slot topic end }
{
    take_out(table, topic, slot);
    delay(table, topic, slot, end);
}

// Into the mesh.
pub fn graft_slot(table: &mut [u64], topic: usize, slot: usize, time: u64)
    requires { AtPlace table.old topic slot }
    ensures { state_of table.new ≡ on_topic (state_of table.old) slot topic (λ r. into_mesh r time) }
{
    layout::enter_mesh(table, slot * 8 + topic, time);
}

pub fn subscribe_slot(table: &mut [u64], topic: usize, slot: usize)
    requires { AtPlace table.old topic slot }
    ensures { state_of table.new ≡ on_topic (state_of table.old) slot topic (λ r. with_subscribed r 1) }
{
    layout::store_subscribed(table, slot * 8 + topic, 1);
}

// Out of the mesh, and not subscribed.
pub fn unsubscribe_slot(table: &mut [u64], topic: usize, slot: usize)
    requires { AtPlace table.old topic slot }
    ensures { state_of table.new
        ≡ on_topic (state_of table.old) slot topic (λ r. with_subscribed (out_of_mesh r) 0) }
{
    layout::leave_mesh(table, slot * 8 + topic);
    layout::store_subscribed(table, slot * 8 + topic, 0);
}

pub fn rate_slot(table: &mut [u64], slot: usize, code: u64)
    requires { AtSlot table.old slot × (code < 4294967296) }
    ensures { state_of table.new ≡ on_peer (state_of table.old) slot (λ p. with_p5 p code) }
{
    let p = layout::load_peer(table, slot);
    layout::store_peer(table, slot, with_p5(p, code));
}
