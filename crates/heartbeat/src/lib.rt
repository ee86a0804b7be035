// The heartbeat's work for one topic (01's tidy), one of 01's calls: what maintenance sees is taken from the table once, into scores by
// slot and sets of slots, and no more of it than the five steps ask for; crate mesh makes of it the meshes that they leave; the last of
// them and the actions are written back once.
#![tactic(auto)]

pub mod grafts;
pub mod scores;
pub mod seen;
pub mod settle;
pub mod stages;
pub mod tell;

ghost use Rattle.std.specs.Prelude.{◌≡◌, leb};
ghost use Rattle.layout.specs.View.{state_of};
ghost use Rattle.rules.specs.Calls.{heartbeat as Calls·heartbeat};
ghost use Rattle.rules.specs.Step.{heartbeat_reply, maintained_reply};
ghost use Rattle.rules.specs.Promise.{Gives, Follows};
ghost use Rattle.gate.specs.Ready.{TopicLent};
ghost use Rattle.heartbeat.specs.Ready.{Maintains};

use crate::scores::empty_height;
use crate::seen::members;
use crate::settle::settle;
use crate::stages::stages;
use crate::tell::tell_all;
use effects::slots::{is_joined, load_magnitude};
use effects::values::end_after;
use gate::{admit, ignore, time_ok, topic_ok};
use layout::CELLS;
use mesh::steps::changes;
use records::{SLOTS, param};
use rules::Answer;
use sets::permutation::is_permutation;

// A joined topic's mesh, maintained.
fn maintain_topic(
    table: &mut [u64],
    time: u64,
    topic: usize,
    ask: u64,
    order: &[u64],
    actions: &mut [u32],
) -> Answer
    requires { Maintains table.old actions.old order.now time topic }
    ensures { Gives (maintained_reply (state_of table.old) time topic ask order.now) result
        table.old table.new actions.old actions.new }
{
    let mut heights = [empty_height(table); SLOTS];
    let m = stages(table, time, topic, ask, order, &mut heights);
    let members = members(table, topic);
    let mesh = m.fifth;
    let seconds = load_magnitude(table, param::PRUNE_BACKOFF);
    let n = tell_all(table, actions, changes(members, m), order, seconds);
    let end = end_after(time, seconds);
    settle(table, topic, time, end, members, mesh, &heights);
    layout::store_clock(table, time);
    Answer::Done(n)
}

fn heartbeat_from(
    table: &mut [u64],
    time: u64,
    topic: usize,
    ask: u64,
    permutation: &[u64],
    actions: &mut [u32],
) -> Answer
    requires { TopicLent table.old actions.old time topic }
    ensures { Gives (heartbeat_reply (state_of table.old) time topic ask permutation.now) result
        table.old table.new actions.old actions.new }
{
    if !is_permutation(permutation) {
        return Answer::NotPermutation;
    }
    if !is_joined(table, topic) {
        return ignore(table, time);
    }
    maintain_topic(table, time, topic, ask, permutation, actions)
}

// Whether opportunism is asked for: 0 or 1, a number and no bool, since a C host may give any.
fn ask_ok(ask: u64) -> bool
    ensures { result ≡ leb ask 1 }
{
    ask <= 1
}

// The mesh of a topic is maintained, with a permutation of the slots, and opportunistic grafts where `ask` is 1.
pub fn heartbeat(
    table: &mut [u64; CELLS],
    time: u64,
    topic: u64,
    ask: u64,
    permutation: &[u64],
    actions: &mut [u32],
) -> Answer
    ensures { Follows (Calls·heartbeat time topic ask permutation.now) result
        table.old table.new actions.old actions.new }
{
    let fine = time_ok(time) & (topic_ok(topic) & ask_ok(ask));
    match admit(table, fine, actions.len(), time) {
        Err(a) => a,
        Ok(()) => heartbeat_from(table, time, topic as usize, ask, permutation, actions),
    }
}
