// The tests that every call begins with (12, 2, 8, 1), the two ends that move the clock, and what a peer's score says of it.
// Table, time, topic and slot go side by side and in no struct: a host hands them apart, and one would be made only to be taken apart.
#![tactic(auto)]

ghost use Rattle.std.specs.Prelude.{◌≡◌, length, set};
ghost use Rattle.records.specs.Records.{set_clock};
ghost use Rattle.layout.specs.View.{clock_at, cell_count, state_of};
ghost use Rattle.rules.specs.Calls.{id_ok, topic_ok, time_ok};
ghost use Rattle.rules.specs.Step.{gate_of, sender_in, seen_in, heard};
ghost use Rattle.peer_score.specs.Standing.{SlotStanding, PlaceStanding};
ghost use Rattle.gate.specs.PeerGate.{peer_gate};

use effects::slots::{is_joined, load_magnitude};
use lookup::find::find_connected;
use records::{ACTION_ROOM, param};
use rules::{Answer, Seen, Sender};
use score::sums::is_below;
use validity::valid::{MAX_ID, MAX_TIME};

pub fn time_ok(time: u64) -> bool
    ensures { result ≡ time_ok time }
{
    time <= MAX_TIME
}

pub fn id_ok(id: u64) -> bool
    ensures { result ≡ id_ok id }
{
    (1 <= id) & (id <= MAX_ID)
}

pub fn topic_ok(topic: u64) -> bool
    ensures { result ≡ topic_ok topic }
{
    topic <= 7
}

// `fine` says that each argument is in its range, and `room` how long the action list is.
pub fn admit(table: &[u64], fine: bool, room: usize, time: u64) -> Result<(), Answer>
    requires { length table.now ≡ cell_count }
    ensures { result ≡ gate_of (state_of table.now) fine room time }
{
    if !validity::valid::is_router(table) {
        return Err(Answer::NotRouter);
    }
    if !fine {
        return Err(Answer::OutOfRange);
    }
    if room < ACTION_ROOM {
        return Err(Answer::ListShort);
    }
    if time < layout::load_clock(table) {
        return Err(Answer::Early);
    }
    Ok(())
}

// The same tests, and then 3: the slot of the connected record that holds the id. A call matches on what comes back: one that took what
// follows as a closure would need a contract at each closure, of the table before and after it, where the match needs none.
pub fn admit_peer(
    table: &[u64],
    fine: bool,
    room: usize,
    time: u64,
    id: u64,
) -> Result<usize, Answer>
    requires { length table.now ≡ cell_count }
    ensures { result ≡ peer_gate (state_of table.now) fine room time id }
{
    admit(table, fine, room, time)?;
    find_connected(table, id).ok_or(Answer::NotConnected)
}

// 0 with no action.
pub fn finish(table: &mut [u64], time: u64) -> Answer
    requires { length table.old ≡ cell_count }
    ensures { (result ≡ Answer.Done 0) × (state_of table.new ≡ set_clock (state_of table.old) time) }
{
    layout::store_clock(table, time);
    Answer::Done(0)
}

// 11.
pub fn ignore(table: &mut [u64], time: u64) -> Answer
    requires { length table.old ≡ cell_count }
    ensures { (result ≡ Answer.Ignored) × (state_of table.new ≡ set_clock (state_of table.old) time)
        × (table.new ≡ set table.old clock_at time) }
{
    layout::store_clock(table, time);
    Answer::Ignored
}

// What a call sees of the peer that sent it. The score is computed once, and held to both limits.
pub fn see_sender(table: &[u64], slot: usize) -> Sender
    requires { SlotStanding table.now slot }
    ensures { result ≡ sender_in (state_of table.now) slot }
{
    let p = layout::load_peer(table, slot);
    let b = peer_score::score_of(table, slot, p);
    Sender {
        peer: p,
        graylisted: (p.explicit == 0)
            & is_below(b, load_magnitude(table, param::GRAYLIST_THRESHOLD)),
        negative: score::sums::is_negative(b),
    }
}

// And of its topic.
pub fn see(table: &[u64], topic: usize, slot: usize) -> Seen
    requires { PlaceStanding table.now topic slot }
    ensures { result ≡ seen_in (state_of table.now) topic slot }
{
    Seen {
        sender: see_sender(table, slot),
        joined: is_joined(table, topic),
        topic: layout::load_topic(table, slot * 8 + topic),
    }
}

// The topic is joined, and the peer not graylisted.
pub fn is_heard(v: Seen) -> bool
    ensures { result ≡ heard v }
{
    let sender = v.sender;
    v.joined & !sender.graylisted
}
