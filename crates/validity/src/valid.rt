// Test 12: whether a table is a router's. Every call pays for it: what passes the quick test (quick.rt, by words and columns) is one, and
// only a table that does not is asked here, record by record and exactly. The definitions are specs/Valid.antt, in 01's order, and
// specs/Order.antt.
ghost use Rattle.std.specs.Prelude.{◌≡◌, true, ℕ, ◌+◌, ◌<◌, ◌≤◌, length, get_or, leb};
ghost use Rattle.index.specs.Index.{every};
ghost use Rattle.params.specs.Check.{accepted_codes};
ghost use Rattle.records.specs.Records.{peer_in, slot_count, topic_count};
ghost use Rattle.layout.specs.View.{state_of, cell_count};
ghost use Rattle.validity.specs.Order.{counter_ranges, flag_ranges, rest_ok, small_ok, Small, zero_topic_at, Caps, UpTo};
ghost use Rattle.validity.specs.Valid.{max_time, max_end, rising_ok, peer_ranges, ends_up_to, zero_groups, zero_peer, peer_ok, zero_topic};
ghost use Rattle.validity.specs.Valid.{member_ok, topic_ok};
ghost use Rattle.validity.specs.Valid.{topic_param, joined_ok, topic_ok_at, slot_ok, valid};

use crate::ids::ids_distinct;
use crate::quick::records_right;
use layout::PARAMS;
use records::{Groups, Peer, TOPICS, TopicRecord, param};

// The greatest time; how far from the clock a backoff and a retain period end at most; the greatest id, and group, which a record holds as
// the group + 1.
pub const MAX_TIME: u64 = 1099511627776;

pub const MAX_BACKOFF: u64 = 3600000;

pub const MAX_RETAIN: u64 = 86400000;

pub const MAX_ID: u64 = 4294967295;

pub const MAX_GROUP: u64 = MAX_ID + 1;

// The greatest magnitude of a parameter.
const MAX_SIZE: u64 = 1000000000;

// Where the numbers of topic 0 begin among the parameters, how many each topic has, and which of them are the caps of P2 and P3.
const TOPIC_PARAMS: usize = 19;

const PER_TOPIC: usize = 16;

// Whether the groups of a record go upward, with none past the last.
pub fn rising_ok(g: Groups) -> bool
    ensures { result ≡ rising_ok g }
{
    (g.first <= MAX_GROUP)
        & ((g.second == 0) | ((1 <= g.first) & (g.first < g.second) & (g.second <= MAX_GROUP)))
        & ((g.third == 0) | ((1 <= g.second) & (g.second < g.third) & (g.third <= MAX_GROUP)))
        & ((g.fourth == 0) | ((1 <= g.third) & (g.third < g.fourth) & (g.fourth <= MAX_GROUP)))
}

// Whether there is no group.
fn zero_groups(g: Groups) -> bool
    ensures { result ≡ zero_groups g }
{
    (g.first == 0) & (g.second == 0) & (g.third == 0) & (g.fourth == 0)
}

// Whether each number of a peer's record is in its range, but for the backoff ends.
fn peer_ranges(clock: u64, p: Peer) -> bool
    requires { clock ≤ max_time }
    ensures { result ≡ peer_ranges clock p }
{
    let most = clock + MAX_RETAIN;
    let rising = rising_ok(p.groups);
    (p.status <= 2)
        & (p.id <= MAX_ID)
        & rising
        & (p.outbound <= 1)
        & (p.explicit <= 1)
        & (p.version <= 2)
        & (p.p5 <= 2000000000)
        & (p.p7 <= 1000000)
        & (p.retain <= most)
}

// Whether each backoff end is at most m.
fn ends_up_to(m: u64, p: Peer) -> bool
    ensures { result ≡ ends_up_to m p }
{
    let b = p.backoff;
    (b[0] <= m)
        & (b[1] <= m)
        & (b[2] <= m)
        & (b[3] <= m)
        & (b[4] <= m)
        & (b[5] <= m)
        & (b[6] <= m)
        & (b[7] <= m)
}

// Whether a record is all zero, but for its status.
fn zero_peer(p: Peer) -> bool
    ensures { result ≡ zero_peer p }
{
    let groups = zero_groups(p.groups);
    let ends = ends_up_to(0, p);
    (p.id == 0)
        & groups
        & (p.outbound == 0)
        & (p.explicit == 0)
        & (p.version == 0)
        & (p.p5 == 0)
        & (p.p7 == 0)
        & (p.retain == 0)
        & ends
}

// The same by value.
fn connected_ok(clock: u64, p: Peer) -> bool
    requires { (clock ≤ max_time) × ((p.status ≡ 1) × (ends_up_to (max_end clock) p ≡ true)) }
    ensures { result ≡ peer_ok clock p }
{
    if !((1 <= p.id) & (1 <= p.groups.first) & (p.retain == 0)) {
        return false;
    }
    peer_ranges(clock, p)
}

// Any record.
pub fn peer_ok(clock: u64, p: Peer) -> bool
    requires { clock ≤ max_time }
    ensures { result ≡ peer_ok clock p }
{
    let ranges = peer_ranges(clock, p);
    let ends = ends_up_to(clock + MAX_BACKOFF, p);
    let zeros = zero_peer(p);
    ranges
        & ends
        & ((p.status == 0) | ((1 <= p.id) & (1 <= p.groups.first)))
        & (!(p.status == 0) | zeros)
        & ((p.status == 2) | (p.retain == 0))
}

// Whether the counters that a record holds for a topic are in their ranges.
fn counter_ranges(cap2: u64, cap3: u64, t: TopicRecord) -> bool
    ensures { result ≡ counter_ranges cap2 cap3 t }
{
    if cap2 < t.p2 {
        return false;
    }
    if cap3 < t.p3 {
        return false;
    }
    if 1000000 < t.p4 {
        return false;
    }
    t.p3b <= 1000000000000
}

// Whether its flags and times are.
fn flag_ranges(t: TopicRecord) -> bool
    ensures { result ≡ flag_ranges t }
{
    if 1 < t.subscribed {
        return false;
    }
    if 1 < t.member {
        return false;
    }
    if MAX_TIME < t.graft {
        return false;
    }
    t.mesh <= MAX_TIME
}

fn zero_topic(t: TopicRecord) -> bool
    ensures { result ≡ zero_topic t }
{
    (t.p2 == 0)
        & (t.p3 == 0)
        & (t.p4 == 0)
        & (t.p3b == 0)
        & (t.subscribed == 0)
        & (t.member == 0)
        & (t.graft == 0)
        & (t.mesh == 0)
}

// Whether a + b is at most c, with no sum that could wrap.
fn sum_at_most(a: u64, b: u64, c: u64) -> bool
    ensures { result ≡ leb (a + b) c }
{
    a <= c && b <= c - a
}

// Whether a member is connected, subscribed, not explicit, in a joined topic.
fn member_ok(status: u64, explicit: u64, joined: u64, t: TopicRecord) -> bool
    ensures { result ≡ member_ok status explicit joined t }
{
    !(t.member == 1) | ((status == 1) & (t.subscribed == 1) & (explicit == 0) & (joined == 1))
}

// What is asked of a record for a topic besides the ranges.
fn rest_ok(status: u64, explicit: u64, joined: u64, clock: u64, t: TopicRecord) -> bool
    ensures { result ≡ rest_ok status explicit joined clock t }
{
    let zeros = zero_topic(t);
    let member = member_ok(status, explicit, joined, t);
    let times = sum_at_most(t.graft, t.mesh, clock);
    (!(status == 0) | zeros)
        & ((t.member == 1) | ((t.graft == 0) & (t.mesh == 0)))
        & (!(status == 2) | ((t.subscribed == 0) & (t.member == 0)))
        & member
        & times
}

// Any record for a topic.
pub fn topic_ok(
    status: u64,
    explicit: u64,
    joined: u64,
    clock: u64,
    cap2: u64,
    cap3: u64,
    t: TopicRecord,
) -> bool
    ensures { result ≡ topic_ok status explicit joined clock cap2 cap3 t }
{
    if !counter_ranges(cap2, cap3, t) {
        return false;
    }
    if !flag_ranges(t) {
        return false;
    }
    rest_ok(status, explicit, joined, clock, t)
}

// A connected peer's record for a topic, where the ranges that depend on no parameter are known (`is_small`): outside the mesh, as most
// are, the caps are all that is left to ask.
fn small_topic_ok(
    explicit: u64,
    joined: u64,
    clock: u64,
    cap2: u64,
    cap3: u64,
    t: TopicRecord,
) -> bool
    requires { (small_ok t ≡ true) × (clock ≤ max_time) }
    ensures { result ≡ topic_ok 1 explicit joined clock cap2 cap3 t }
{
    if cap2 < t.p2 {
        return false;
    }
    if cap3 < t.p3 {
        return false;
    }
    if (t.member | t.graft | t.mesh) == 0 {
        return true;
    }
    if !((t.member == 1) & (t.subscribed == 1) & (explicit == 0) & (joined == 1)) {
        return false;
    }
    sum_at_most(t.graft, t.mesh, clock)
}

// The magnitude of topic t's j-th parameter.
fn topic_param(table: &[u64], t: usize, j: usize) -> u64
    requires { (length table.now ≡ cell_count) × ((t < topic_count) × (j < 16)) }
    ensures { result ≡ topic_param (state_of table.now) t j }
{
    layout::load_magnitude(table, TOPIC_PARAMS + PER_TOPIC * t + j)
}

fn topic_at(table: &[u64], slot: usize, status: u64, explicit: u64, t: usize) -> bool
    requires { (length table.now ≡ cell_count) × ((slot < slot_count) × (t < topic_count)) }
    ensures { result ≡ topic_ok_at (state_of table.now) slot status explicit t }
{
    let joined = layout::load_joined(table, t);
    let clock = layout::load_clock(table);
    let cap2 = topic_param(table, t, param::P2_CAP);
    let cap3 = topic_param(table, t, param::P3_CAP);
    let r = layout::load_topic(table, slot * TOPICS + t);
    topic_ok(status, explicit, joined, clock, cap2, cap3, r)
}

fn topics_ok(table: &[u64], slot: usize, status: u64, explicit: u64) -> bool
    requires { (length table.now ≡ cell_count) × (slot < slot_count) }
    ensures { result ≡ every topic_count (topic_ok_at (state_of table.now) slot status explicit) }
{
    (0..TOPICS).all(|t| topic_at(table, slot, status, explicit, t))
}

// One of the caps of each topic, taken once for all slots.
pub fn caps(table: &[u64], j: usize) -> [u64; TOPICS]
    requires { (length table.now ≡ cell_count) × (j < 16) }
    ensures { (t : ℕ) → t < topic_count → get_or result t 0 ≡ topic_param (state_of table.now) t j }
{
    let mut r = [0u64; TOPICS];
    for t in 0..TOPICS {
        r[t] = topic_param(table, t, j);
    }
    r
}

// Whether each backoff end of a slot is near the clock.
fn ends_near(table: &[u64], slot: usize) -> bool
    requires { (length table.now ≡ cell_count) × ((slot < slot_count) × ((state_of table.now).clock ≤ max_time)) }
    ensures { result ≡ ends_up_to (max_end (state_of table.now).clock) (peer_in (state_of table.now) slot) }
{
    let clock = layout::load_clock(table);
    let p = layout::load_peer(table, slot);
    ends_up_to(clock + MAX_BACKOFF, p)
}

// Whether the backoff ends, the counters of P4 and P3b and the subscribed flags of a slot are surely in their ranges. No counter is above
// the union of its bits with others', and that is nearly always small enough, so that one test does for eight. The ends are asked one by
// one: the union of times on either side of a power of two is far from the clock.
fn is_small(table: &[u64], slot: usize) -> bool
    requires { (length table.now ≡ cell_count) × ((slot < slot_count) × ((state_of table.now).clock ≤ max_time)) }
    ensures { result ≡ true → Small (state_of table.now) slot }
{
    if !ends_near(table, slot) {
        return false;
    }
    let mut p4: u64 = 0;
    let mut p3b: u64 = 0;
    let mut subscribed: u64 = 0;
    for t in 0..TOPICS {
        let r = layout::load_topic(table, slot * TOPICS + t);
        p4 = p4 | r.p4;
        p3b = p3b | r.p3b;
        subscribed = subscribed | r.subscribed;
    }
    (p4 <= 1000000) & (p3b <= 1000000000000) & (subscribed <= 1)
}

fn small_topics(
    table: &[u64],
    caps2: &[u64; TOPICS],
    caps3: &[u64; TOPICS],
    slot: usize,
    explicit: u64,
) -> bool
    requires { (length table.now ≡ cell_count)
        × ((slot < slot_count)
        × (Caps (state_of table.now) caps2.now caps3.now
        × (Small (state_of table.now) slot × ((state_of table.now).clock ≤ max_time)))) }
    ensures { result ≡ every topic_count (topic_ok_at (state_of table.now) slot 1 explicit) }
{
    let clock = layout::load_clock(table);
    for t in 0..TOPICS {
        let joined = layout::load_joined(table, t);
        let r = layout::load_topic(table, slot * TOPICS + t);
        if !small_topic_ok(explicit, joined, clock, caps2[t], caps3[t], r) {
            return false;
        }
    }
    true
}

// Any slot.
fn other_slot(table: &[u64], slot: usize) -> bool
    requires { (length table.now ≡ cell_count) × ((slot < slot_count) × ((state_of table.now).clock ≤ max_time)) }
    ensures { result ≡ slot_ok (state_of table.now) slot }
{
    let clock = layout::load_clock(table);
    let p = layout::load_peer(table, slot);
    let peer = peer_ok(clock, p);
    let topics = topics_ok(table, slot, p.status, p.explicit);
    peer & topics
}

// A connected peer's record, where its backoff ends are known to be near the clock.
fn connected_at(table: &[u64], slot: usize) -> bool
    requires { (length table.now ≡ cell_count)
        × ((slot < slot_count)
        × (((state_of table.now).clock ≤ max_time)
        × (((peer_in (state_of table.now) slot).status ≡ 1)
        × (ends_up_to (max_end (state_of table.now).clock) (peer_in (state_of table.now) slot) ≡ true)))) }
    ensures { result ≡ peer_ok (state_of table.now).clock (peer_in (state_of table.now) slot) }
{
    let clock = layout::load_clock(table);
    let p = layout::load_peer(table, slot);
    connected_ok(clock, p)
}

fn connected_slot(table: &[u64], caps2: &[u64; TOPICS], caps3: &[u64; TOPICS], slot: usize) -> bool
    requires { (length table.now ≡ cell_count)
        × ((slot < slot_count)
        × (Caps (state_of table.now) caps2.now caps3.now
        × (((state_of table.now).clock ≤ max_time) × ((peer_in (state_of table.now) slot).status ≡ 1)))) }
    ensures { result ≡ slot_ok (state_of table.now) slot }
{
    if !is_small(table, slot) {
        return other_slot(table, slot);
    }
    if !connected_at(table, slot) {
        return false;
    }
    let p = layout::load_peer(table, slot);
    small_topics(table, caps2, caps3, slot, p.explicit)
}

fn zero_topics(table: &[u64], slot: usize) -> bool
    requires { (length table.now ≡ cell_count) × (slot < slot_count) }
    ensures { result ≡ every topic_count (zero_topic_at (state_of table.now) slot) }
{
    for t in 0..TOPICS {
        if !zero_topic(layout::load_topic(table, slot * TOPICS + t)) {
            return false;
        }
    }
    true
}

// An empty slot is all zero.
pub fn empty_slot(table: &[u64], slot: usize) -> bool
    requires { (length table.now ≡ cell_count) × ((slot < slot_count) × ((peer_in (state_of table.now) slot).status ≡ 0)) }
    ensures { result ≡ slot_ok (state_of table.now) slot }
{
    if !zero_peer(layout::load_peer(table, slot)) {
        return false;
    }
    zero_topics(table, slot)
}

fn slot_ok(table: &[u64], caps2: &[u64; TOPICS], caps3: &[u64; TOPICS], slot: usize) -> bool
    requires { (length table.now ≡ cell_count)
        × ((slot < slot_count) × (Caps (state_of table.now) caps2.now caps3.now × ((state_of table.now).clock ≤ max_time))) }
    ensures { result ≡ slot_ok (state_of table.now) slot }
{
    let status = layout::load_status(table, slot);
    if status == 1 {
        return connected_slot(table, caps2, caps3, slot);
    }
    if status == 0 {
        return empty_slot(table, slot);
    }
    other_slot(table, slot)
}

// The slots up to `end`, from which on every record is empty.
fn slots_ok(table: &[u64], end: usize) -> bool
    requires { UpTo table.now end × ((state_of table.now).clock ≤ max_time) }
    ensures { result ≡ every slot_count (slot_ok (state_of table.now)) }
{
    let caps2 = caps(table, param::P2_CAP);
    let caps3 = caps(table, param::P3_CAP);
    for slot in 0..end {
        if !slot_ok(table, &caps2, &caps3, slot) {
            return false;
        }
    }
    true
}

fn joined_at(table: &[u64], t: usize) -> bool
    requires { (length table.now ≡ cell_count) × (t < topic_count) }
    ensures { result ≡ joined_ok (state_of table.now) t }
{
    layout::load_joined(table, t) <= 1
}

fn joined_ok(table: &[u64]) -> bool
    requires { length table.now ≡ cell_count }
    ensures { result ≡ every topic_count (joined_ok (state_of table.now)) }
{
    let mut ok = true;
    for t in 0..TOPICS {
        ok = ok & joined_at(table, t);
    }
    ok
}

// Whether the parameters pass the check. No magnitude above the greatest limit is one of theirs.
fn params_ok(table: &[u64]) -> bool
    requires { length table.now ≡ cell_count }
    ensures { result ≡ accepted_codes (state_of table.now).setup.edition (state_of table.now).codes }
{
    let setup = layout::load_setup(table);
    let mut codes = [0u64; PARAMS];
    for i in 0..PARAMS {
        if MAX_SIZE < layout::load_magnitude(table, i) {
            return false;
        }
        codes[i] = layout::load_code(table, i);
    }
    params::accepts_codes(setup.edition, &codes)
}

// Whether a table is surely a router's: what every call pays for.
fn looks_right(table: &[u64]) -> bool
    requires { length table.now ≡ cell_count }
    ensures { result ≡ true → valid (state_of table.now) ≡ true }
{
    if MAX_TIME < layout::load_clock(table) {
        return false;
    }
    if !magnitudes::accepted(table) {
        return false;
    }
    if !joined_ok(table) {
        return false;
    }
    records_right(table)
}

// The same record by record, and exactly.
fn each_right(table: &[u64]) -> bool
    requires { length table.now ≡ cell_count }
    ensures { result ≡ valid (state_of table.now) }
{
    if MAX_TIME < layout::load_clock(table) {
        return false;
    }
    let params = params_ok(table);
    let joined = joined_ok(table);
    let end = layout::records_end(table);
    let slots = slots_ok(table, end);
    let ids = ids_distinct(table, end);
    params & joined & slots & ids
}

// Whether a table is a router's.
pub fn is_router(table: &[u64]) -> bool
    requires { length table.now ≡ cell_count }
    ensures { result ≡ valid (state_of table.now) }
{
    if looks_right(table) {
        return true;
    }
    each_right(table)
}
