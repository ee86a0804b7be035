// Who is asked for an IDONTWANT, and who is sent a message.
ghost use Rattle.std.specs.Prelude.{◌≡◌, not, ◌&&◌, ◌||◌, ℕ, eqb, length};
ghost use Rattle.records.specs.Records.{slot_count, peer_in};
ghost use Rattle.layout.specs.View.{cell_count, state_of};
ghost use Rattle.words.specs.Words.{bits_of};
ghost use Rattle.sets.specs.Sets.{at, by_slot};
ghost use Rattle.peer_score.specs.Standing.{TopicStanding};
ghost use Rattle.gossip.specs.Step.{is_asked};
ghost use Rattle.gossip_peers.specs.Peers.{is_noticed, is_listener, is_reached};

use crate::sift::sift;
use sets::{both, except};
use words::{WORDS, differ};

// In a or in b.
fn either(a: [u64; WORDS], b: [u64; WORDS]) -> [u64; WORDS]
    ensures { (s : ℕ) → at (bits_of result) s ≡ (at (bits_of a) s || at (bits_of b) s) }
{
    differ(a, except(b, a))
}

// The set without the slots whose peer holds the id.
fn without(table: &[u64], all: [u64; WORDS], id: u64) -> [u64; WORDS]
    requires { length table.now ≡ cell_count }
    ensures { bits_of result
        ≡ by_slot slot_count (λ s. at (bits_of all) s && not (eqb (peer_in (state_of table.now) s).id id)) }
{
    sift(all, |slot| layout::load_id(table, slot) != id)
}

// The 1.2.0 members of a topic. Of the two bits of a version the high one alone is set.
fn noticed(table: &[u64], topic: usize) -> [u64; WORDS]
    requires { TopicStanding table.now topic }
    ensures { bits_of result ≡ by_slot slot_count (is_noticed (state_of table.now) topic) }
{
    let members = layout::load_members(table, topic);
    let high = layout::load_version_high(table);
    let low = layout::load_version(table);
    except(both(members, high), low)
}

// The members of a topic and the explicit peers that are connected and subscribed.
fn listeners(table: &[u64], topic: usize) -> [u64; WORDS]
    requires { TopicStanding table.now topic }
    ensures { bits_of result ≡ by_slot slot_count (is_listener (state_of table.now) topic) }
{
    let members = layout::load_members(table, topic);
    let connected = layout::load_connected(table);
    let subscribed = layout::load_subscribed(table, topic);
    let explicit = layout::load_explicit(table);
    either(members, both(connected, both(subscribed, explicit)))
}

// Whom a host with a large message from a sender asks for.
pub fn asked(table: &[u64], topic: usize, sender: u64) -> [u64; WORDS]
    requires { TopicStanding table.now topic }
    ensures { bits_of result ≡ by_slot slot_count (is_asked (state_of table.now) topic sender) }
{
    let all = noticed(table, topic);
    without(table, all, sender)
}

// Who is sent a sender's message, but for those whose set holds its number.
pub fn relayed(table: &[u64], topic: usize, sender: u64) -> [u64; WORDS]
    requires { TopicStanding table.now topic }
    ensures { bits_of result ≡ by_slot slot_count (is_reached (state_of table.now) topic sender) }
{
    let all = listeners(table, topic);
    without(table, all, sender)
}
