// Version 1.2 notices (02, order 6): whom we tell IDONTWANT, an IDONTWANT that came in, and to whom a message is passed on.
#![tactic(auto)]

ghost use Rattle.std.specs.Prelude.{◌≡◌, not, ◌&&◌};
ghost use Rattle.records.specs.Records.{slot_count};
ghost use Rattle.sets.specs.Sets.{at, by_slot};
ghost use Rattle.words.specs.Words.{bits_of};
ghost use Rattle.gossip.specs.Notes.{note_in, holds as holds_of};
ghost use Rattle.gossip.specs.Calls.{new, ask_all, idontwant as Calls·idontwant, relay as Calls·relay};
ghost use Rattle.gossip.specs.Step.{ask_reply, idontwant_reply, relay_reply};
ghost use Rattle.gossip_table.specs.View.{gossip_of, extended_of};
ghost use Rattle.gossip_table.specs.Fine.{Fine};
ghost use Rattle.gossip_gate.specs.Promise.{LeavesAll, GivesAll, FollowsAll};
ghost use Rattle.gossip_gate.specs.Admitted.{SlotAdmitted, TopicLent};

use effects::slots::is_joined;
use gate::{id_ok, time_ok, topic_ok};
use gossip_gate::{NOT_CONNECTED, admit, finish, ignore, sender_ok};
use gossip_peers::callers::admit_peer;
use gossip_peers::relays::{asked, relayed};
use gossip_peers::senders::{is_heeded, sender_known};
use gossip_peers::sift::sift;
use gossip_peers::tell::{ASK, SEND, tell};
use gossip_table::GOSSIP_CELLS;
use gossip_table::noted::{has_room, holds, put};
use layout::CELLS;
use records::ACTION_ROOM;
use words::WORDS;

// 3 for an unknown sender, 11 outside a joined topic, or the notices. Whom they go to is asked only behind these tests.
fn ask_from(
    table: &mut [u64],
    gossip: &[u64],
    time: u64,
    topic: usize,
    sender: u64,
    actions: &mut [u32],
) -> u64
    requires { TopicLent table.old gossip.now time topic actions.old }
    ensures { GivesAll (ask_reply (extended_of table.old gossip.now) time topic sender) result table.old
        table.new gossip.now gossip.now actions.old actions.new }
{
    if !sender_known(table, sender) {
        return NOT_CONNECTED;
    }
    if !is_joined(table, topic) {
        return ignore(table, time);
    }
    let set = asked(table, topic, sender);
    let n = tell(table, ASK, &set, actions);
    finish(table, time, n, 0)
}

// We have a large message: all 1.2.0 members of its topic but the sender (0: ourselves) are told.
pub fn send_idontwant(
    table: &mut [u64; CELLS],
    gossip: &[u64; GOSSIP_CELLS],
    time: u64,
    topic: u64,
    sender: u64,
    number: u64,
    actions: &mut [u32],
) -> u64
    ensures { FollowsAll (new (ask_all time topic sender number)) result table.old table.new
        gossip.now gossip.now actions.old actions.new }
{
    let fine = time_ok(time) & (topic_ok(topic) & sender_ok(sender));
    let gate = admit(table, gossip, fine, ACTION_ROOM <= actions.len(), time);
    if gate != 0 {
        return gate;
    }
    ask_from(table, gossip, time, topic as usize, sender, actions)
}

// The number goes into the peer's set, unless it is there already.
fn put_from(table: &mut [u64], gossip: &mut [u64], time: u64, number: u64, slot: usize) -> u64
    requires { SlotAdmitted table.old gossip.old time slot }
    ensures { LeavesAll (idontwant_reply (extended_of table.old gossip.old) time number slot) result
        table.old table.new gossip.old gossip.new }
{
    if !is_heeded(table, slot) {
        return ignore(table, time);
    }
    if holds(gossip, slot, number) {
        return finish(table, time, 0, 0);
    }
    if !has_room(gossip, slot) {
        return ignore(table, time);
    }
    put(gossip, slot, number);
    finish(table, time, 0, 0)
}

// A peer does not want a message.
pub fn idontwant(
    table: &mut [u64; CELLS],
    gossip: &mut [u64; GOSSIP_CELLS],
    time: u64,
    id: u64,
    number: u64,
    actions: &mut [u32],
) -> u64
    ensures { FollowsAll (new (Calls·idontwant time id number)) result table.old table.new
        gossip.old gossip.new actions.old actions.new }
{
    let fine = time_ok(time) & id_ok(id);
    let fits = ACTION_ROOM <= actions.len();
    match admit_peer(table, gossip, fine, fits, time, id) {
        Ok(slot) => put_from(table, gossip, time, number, slot),
        Err(refusal) => refusal,
    }
}

// Those of a set whose own set does not hold the number.
fn without_holders(gossip: &[u64], all: [u64; WORDS], number: u64) -> [u64; WORDS]
    requires { Fine gossip.now }
    ensures { bits_of result
        ≡ by_slot slot_count (λ s. at (bits_of all) s && not (holds_of (note_in (gossip_of gossip.now) s) number)) }
{
    sift(all, |slot| !holds(gossip, slot, number))
}

// The same tests, and the message to whom it is passed on.
fn relay_from(
    table: &mut [u64],
    gossip: &[u64],
    time: u64,
    topic: usize,
    sender: u64,
    number: u64,
    actions: &mut [u32],
) -> u64
    requires { TopicLent table.old gossip.now time topic actions.old }
    ensures { GivesAll (relay_reply (extended_of table.old gossip.now) time topic sender number) result
        table.old table.new gossip.now gossip.now actions.old actions.new }
{
    if !sender_known(table, sender) {
        return NOT_CONNECTED;
    }
    if !is_joined(table, topic) {
        return ignore(table, time);
    }
    let all = relayed(table, topic, sender);
    let set = without_holders(gossip, all, number);
    let n = tell(table, SEND, &set, actions);
    finish(table, time, n, 0)
}

// To whom a message from a sender (0: ourselves) is passed on.
pub fn relay(
    table: &mut [u64; CELLS],
    gossip: &[u64; GOSSIP_CELLS],
    time: u64,
    topic: u64,
    sender: u64,
    number: u64,
    actions: &mut [u32],
) -> u64
    ensures { FollowsAll (new (Calls·relay time topic sender number)) result table.old table.new
        gossip.now gossip.now actions.old actions.new }
{
    let fine = time_ok(time) & (topic_ok(topic) & sender_ok(sender));
    let gate = admit(table, gossip, fine, ACTION_ROOM <= actions.len(), time);
    if gate != 0 {
        return gate;
    }
    relay_from(table, gossip, time, topic as usize, sender, number, actions)
}
