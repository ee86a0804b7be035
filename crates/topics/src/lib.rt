// Join, subscribe and unsubscribe: three of 01's calls. The last two see their peer once, and differ in what they write.
#![tactic(auto)]

ghost use Rattle.std.specs.Prelude.{◌≡◌};
ghost use Rattle.layout.specs.View.{state_of};
ghost use Rattle.effects.specs.Effects.{on_topic};
ghost use Rattle.effects.specs.Lent.{AtPlace};
ghost use Rattle.rules.specs.Calls.{join as Calls·join, subscribe as Calls·subscribe, unsubscribe as Calls·unsubscribe};
ghost use Rattle.rules.specs.Step.{join_reply};
ghost use Rattle.rules.specs.Promise.{Leaves, Follows};
ghost use Rattle.gate.specs.Ready.{TopicReady, PlaceReady};
ghost use Rattle.topics.specs.Change.{change as Calls·change, changed, change_reply};

use effects::slots::{is_joined, subscribe_slot, unsubscribe_slot};
use gate::{admit, admit_peer, finish, id_ok, ignore, see_sender, time_ok, topic_ok};
use layout::CELLS;
use rules::Answer;

fn join_from(table: &mut [u64], time: u64, topic: usize) -> Answer
    requires { TopicReady table.old time topic }
    ensures { Leaves (join_reply (state_of table.old) time topic) result table.old table.new }
{
    if is_joined(table, topic) {
        return ignore(table, time);
    }
    layout::store_joined(table, topic, 1);
    finish(table, time)
}

// We join a topic.
pub fn join(table: &mut [u64; CELLS], time: u64, topic: u64, actions: &mut [u32]) -> Answer
    ensures { Follows (Calls·join time topic) result
        table.old table.new actions.old actions.new }
{
    let fine = time_ok(time) & topic_ok(topic);
    match admit(table, fine, actions.len(), time) {
        Err(refusal) => refusal,
        Ok(()) => join_from(table, time, topic as usize),
    }
}

// `on` is a subscription; else the peer leaves the mesh too.
fn change_slot(table: &mut [u64], topic: usize, slot: usize, on: bool)
    requires { AtPlace table.old topic slot }
    ensures { state_of table.new ≡ on_topic (state_of table.old) slot topic (changed on) }
{
    if on {
        subscribe_slot(table, topic, slot);
    } else {
        unsubscribe_slot(table, topic, slot);
    }
}

fn change_reply(table: &mut [u64], time: u64, topic: usize, slot: usize, on: bool) -> Answer
    requires { PlaceReady table.old time topic slot }
    ensures { Leaves (change_reply on (state_of table.old) time topic slot) result
        table.old table.new }
{
    let sender = see_sender(table, slot);
    if sender.graylisted {
        return ignore(table, time);
    }
    change_slot(table, topic, slot, on);
    finish(table, time)
}

fn change(
    table: &mut [u64; CELLS],
    time: u64,
    id: u64,
    topic: u64,
    on: bool,
    actions: &mut [u32],
) -> Answer
    ensures { Follows (Calls·change on time id topic) result
        table.old table.new actions.old actions.new }
{
    let fine = time_ok(time) & (id_ok(id) & topic_ok(topic));
    match admit_peer(table, fine, actions.len(), time, id) {
        Err(refusal) => refusal,
        Ok(slot) => change_reply(table, time, topic as usize, slot, on),
    }
}

// A peer subscribes.
pub fn subscribe(
    table: &mut [u64; CELLS],
    time: u64,
    id: u64,
    topic: u64,
    actions: &mut [u32],
) -> Answer
    ensures { Follows (Calls·subscribe time id topic) result
        table.old table.new actions.old actions.new }
{
    change(table, time, id, topic, true, actions)
}

// A peer unsubscribes.
pub fn unsubscribe(
    table: &mut [u64; CELLS],
    time: u64,
    id: u64,
    topic: u64,
    actions: &mut [u32],
) -> Answer
    ensures { Follows (Calls·unsubscribe time id topic) result
        table.old table.new actions.old actions.new }
{
    change(table, time, id, topic, false, actions)
}
