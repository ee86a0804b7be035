// A message is stored, and a heartbeat moves all stores and sets on.
ghost use Rattle.std.specs.Prelude.{◌≡◌, []};
ghost use Rattle.gossip.specs.Calls.{new, beat as Calls·beat, store as Calls·store};
ghost use Rattle.gossip.specs.Step.{done_all, beat_of, store_reply};
ghost use Rattle.gossip_table.specs.View.{gossip_of, extended_of};
ghost use Rattle.gossip_table.specs.Fine.{Fine};
ghost use Rattle.gossip_gate.specs.Promise.{LeavesAll, FollowsAll};
ghost use Rattle.gossip_gate.specs.Admitted.{Admitted, TopicAdmitted};

use effects::slots::is_joined;
use gate::{time_ok, topic_ok};
use gossip_gate::{NO_ROOM, admit, finish, ignore};
use gossip_table::{GOSSIP_CELLS, stored};
use layout::CELLS;
use records::ACTION_ROOM;

fn store_from(table: &mut [u64], gossip: &mut [u64], time: u64, topic: usize, number: u64) -> u64
    requires { TopicAdmitted table.old gossip.old time topic }
    ensures { LeavesAll (store_reply (extended_of table.old gossip.old) time topic number) result
        table.old table.new gossip.old gossip.new }
{
    if !is_joined(table, topic) {
        return ignore(table, time);
    }
    if stored::is_stored_in(gossip, topic, number) {
        return finish(table, time, 0, 0);
    }
    if !stored::has_room(gossip, topic) {
        return NO_ROOM;
    }
    stored::add(gossip, topic, number);
    finish(table, time, 0, 0)
}

// We have a message of a topic.
pub fn store(
    table: &mut [u64; CELLS],
    gossip: &mut [u64; GOSSIP_CELLS],
    time: u64,
    topic: u64,
    number: u64,
    actions: &mut [u32],
) -> u64
    ensures { FollowsAll (new (Calls·store time topic number)) result table.old table.new
        gossip.old gossip.new actions.old actions.new }
{
    let fine = time_ok(time) & topic_ok(topic);
    let gate = admit(table, gossip, fine, ACTION_ROOM <= actions.len(), time);
    if gate != 0 {
        return gate;
    }
    store_from(table, gossip, time, topic as usize, number)
}

// All notes and all stores.
fn beat_all(gossip: &mut [u64])
    requires { Fine gossip.old }
    ensures { gossip_of gossip.new ≡ beat_of (gossip_of gossip.old) }
{
    gossip_table::noted::beat(gossip);
    stored::move_on(gossip);
    stored::forget(gossip);
}

fn beat_from(table: &mut [u64], gossip: &mut [u64], time: u64) -> u64
    requires { Admitted table.old gossip.old time }
    ensures { LeavesAll (done_all (extended_of table.old gossip.old) time
        (beat_of (gossip_of gossip.old)) [] []) result
        table.old table.new gossip.old gossip.new }
{
    beat_all(gossip);
    finish(table, time, 0, 0)
}

// A heartbeat of all topics.
pub fn beat(
    table: &mut [u64; CELLS],
    gossip: &mut [u64; GOSSIP_CELLS],
    time: u64,
    actions: &mut [u32],
) -> u64
    ensures { FollowsAll (new (Calls·beat time)) result table.old table.new
        gossip.old gossip.new actions.old actions.new }
{
    let gate = admit(
        table,
        gossip,
        time_ok(time),
        ACTION_ROOM <= actions.len(),
        time,
    );
    if gate != 0 {
        return gate;
    }
    beat_from(table, gossip, time)
}
