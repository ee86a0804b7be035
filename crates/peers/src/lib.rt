// Connect, disconnect, setting P5, and the score: four of 01's calls. Each takes the lent table, a time, its arguments as wide numbers and
// a lent action list, asks nothing of its caller, and promises the rules' reply (crate rules).
#![tactic(auto)]

ghost use Rattle.std.specs.Prelude.{◌≡◌, true, ◌≤◌, ◌<◌, leb, length, nat_abs};
ghost use Rattle.index.specs.Index.{every};
ghost use Rattle.layout.specs.View.{state_of};
ghost use Rattle.rules.specs.Calls.{connect as Calls·connect, disconnect as Calls·disconnect};
ghost use Rattle.rules.specs.Calls.{group_ok, groups_ok, group_at, groups_of};
ghost use Rattle.rules.specs.Calls.{rate as Calls·rate, score as Calls·score};
ghost use Rattle.rules.specs.Step.{connect_in, connect_at, connect_reply};
ghost use Rattle.effects.specs.Effects.{reclaimed};
ghost use Rattle.effects.specs.Lent.{AtSlot, ConnectFits};
ghost use Rattle.rules.specs.Promise.{Leaves, Follows};
ghost use Rattle.gate.specs.Ready.{Ready};

use effects::connections::{connect_slot, reclaim, retain_slot};
use effects::slots::{load_magnitude, rate_slot};
use effects::values::end_after;
use gate::{admit, admit_peer, finish, id_ok, time_ok};
use layout::CELLS;
use lookup::find::find_connected;
use records::{Groups, param};
use rules::Answer;
use validity::valid::MAX_ID;

// The greatest number of groups.
const MAX_GROUPS: usize = 4;

// Whether a group has 32 bits and is above the one before it.
fn group_ok(groups: &[u64], k: usize) -> bool
    requires { k < length groups.now }
    ensures { result ≡ group_ok groups.now k }
{
    if k == 0 {
        return groups[k] <= MAX_ID;
    }
    (groups[k] <= MAX_ID) & (groups[k - 1] < groups[k])
}

// Whether all do. By their places, since each is held against the one before it.
fn each_ok(groups: &[u64]) -> bool
    ensures { result ≡ every (length groups.now) (group_ok groups.now) }
{
    let mut ok = true;
    for k in 0..groups.len() {
        ok = ok & group_ok(groups, k);
    }
    ok
}

// Whether they are one to four groups, lowest first and none twice. A longer list is not looked at.
fn groups_ok(groups: &[u64]) -> bool
    ensures { result ≡ groups_ok groups.now }
{
    if !((1 <= groups.len()) & (groups.len() <= MAX_GROUPS)) {
        return false;
    }
    each_ok(groups)
}

// A group as a record holds it.
fn group_at(groups: &[u64], k: usize) -> u64
    requires { groups_ok groups.now ≡ true }
    ensures { result ≡ group_at groups.now k }
{
    if k < groups.len() { groups[k] + 1 } else { 0 }
}

// The groups as a record holds them.
fn groups_of(groups: &[u64]) -> Groups
    requires { groups_ok groups.now ≡ true }
    ensures { result ≡ groups_of groups.now }
{
    Groups {
        first: group_at(groups, 0),
        second: group_at(groups, 1),
        third: group_at(groups, 2),
        fourth: group_at(groups, 3),
    }
}

// A record in a slot becomes a connected one. The flags stay the host's number: the rules' connected_as takes its bits apart.
fn connect_at(
    table: &mut [u64],
    time: u64,
    id: u64,
    groups: Groups,
    flags: u64,
    version: u64,
    slot: usize,
) -> Answer
    requires { AtSlot table.old slot × ConnectFits flags version }
    ensures { Leaves (connect_at (state_of table.old) time id groups flags version slot) result
        table.old table.new }
{
    connect_slot(table, slot, id, groups, flags, version);
    finish(table, time)
}

// A retained id resumes its record; another takes the lowest empty slot. Where none is empty after reclaiming, nothing was reclaimed.
fn connect_known(
    table: &mut [u64],
    time: u64,
    id: u64,
    groups: Groups,
    flags: u64,
    version: u64,
) -> Answer
    requires { Ready table.old time × ConnectFits flags version }
    ensures { Leaves
        (connect_in (state_of table.old) (reclaimed (state_of table.old) time) time id groups flags
        (Some version) None) result
        table.old table.new }
{
    reclaim(table, time);
    if let Some(slot) = lookup::find::find_retained(table, id) {
        return connect_at(table, time, id, groups, flags, version, slot);
    }
    let Some(slot) = lookup::find::lowest_empty(table) else {
        return Answer::NoSlot;
    };
    connect_at(table, time, id, groups, flags, version, slot)
}

// Tests 6 and 4.
fn connect_from(
    table: &mut [u64],
    time: u64,
    id: u64,
    groups: &[u64],
    flags: u64,
    name: &[u8],
) -> Answer
    requires { Ready table.old time × (groups_ok groups.now ≡ true) × (flags ≤ 3) }
    ensures { Leaves
        (connect_reply (state_of table.old) time id (groups_of groups.now) flags name.now) result
        table.old table.new }
{
    let Some(version) = lookup::name::version_of(name) else {
        return Answer::UnknownProtocol;
    };
    if let Some(_) = find_connected(table, id) {
        return Answer::AlreadyConnected;
    }
    connect_known(table, time, id, groups_of(groups), flags, version)
}

// A connection is there: one to four address groups, lowest first; flags are 1 outbound + 2 explicit, and the name is the protocol's.
pub fn connect(
    table: &mut [u64; CELLS],
    time: u64,
    id: u64,
    groups: &[u64],
    flags: u64,
    name: &[u8],
    actions: &mut [u32],
) -> Answer
    ensures { Follows (Calls·connect time id groups.now flags name.now) result
        table.old table.new actions.old actions.new }
{
    let fine = time_ok(time) & (id_ok(id) & (groups_ok(groups) & (flags <= 3)));
    match admit(table, fine, actions.len(), time) {
        Err(refusal) => refusal,
        Ok(()) => connect_from(table, time, id, groups, flags, name),
    }
}

// A connection is gone.
pub fn disconnect(table: &mut [u64; CELLS], time: u64, id: u64, actions: &mut [u32]) -> Answer
    ensures { Follows (Calls·disconnect time id) result
        table.old table.new actions.old actions.new }
{
    let fine = time_ok(time) & id_ok(id);
    match admit_peer(table, fine, actions.len(), time, id) {
        Err(refusal) => refusal,
        Ok(slot) => {
            let end = end_after(time, load_magnitude(table, param::RETAIN));
            retain_slot(table, slot, end);
            finish(table, time)
        }
    }
}

// Whether P5 is within 10^9 millionths of zero.
fn p5_ok(p5: i64) -> bool
    ensures { result ≡ leb (nat_abs p5) 1000000000 }
{
    varint::nat_abs(p5) <= 1000000000
}

// The host sets a peer's P5.
pub fn rate(table: &mut [u64; CELLS], time: u64, id: u64, p5: i64, actions: &mut [u32]) -> Answer
    ensures { Follows (Calls·rate time id p5) result
        table.old table.new actions.old actions.new }
{
    let fine = time_ok(time) & (id_ok(id) & p5_ok(p5));
    match admit_peer(table, fine, actions.len(), time, id) {
        Err(refusal) => refusal,
        Ok(slot) => {
            rate_slot(table, slot, varint::code_of(p5));
            finish(table, time)
        }
    }
}

// A peer's score and its parts, in 10^-9 points.
pub fn score(table: &mut [u64; CELLS], time: u64, id: u64, actions: &mut [u32]) -> Answer
    ensures { Follows (Calls·score time id) result
        table.old table.new actions.old actions.new }
{
    let fine = time_ok(time) & id_ok(id);
    match admit_peer(table, fine, actions.len(), time, id) {
        Err(refusal) => refusal,
        Ok(slot) => {
            let peer = layout::load_peer(table, slot);
            let why = peer_score::why_of(table, slot, peer);
            layout::store_clock(table, time);
            Answer::Scored(why)
        }
    }
}
