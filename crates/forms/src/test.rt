// Test 12 of a table in the old form, record by record (crate validity has the definitions and the tests of a record).
ghost use Rattle.std.specs.Prelude.{◌≡◌, ◌<◌, ◌≤◌, length};
ghost use Rattle.index.specs.Index.{every};
ghost use Rattle.records.specs.Records.{slot_count, topic_count};
ghost use Rattle.params.specs.Check.{accepted_codes};
ghost use Rattle.rows.specs.View.{rows_count, state_of_rows};
ghost use Rattle.validity.specs.Valid.{max_time, topic_param, topic_ok_at, slot_ok, new_id, joined_ok, valid};

use records::{SLOTS, TOPICS, param};
use validity::ids::apart;
use validity::valid::{MAX_TIME, peer_ok, topic_ok};

// Where the numbers of topic 0 begin among the parameters, and how many each topic has.
const TOPIC_PARAMS: usize = 19;

const PER_TOPIC: usize = 16;

// The magnitude of topic t's j-th parameter.
fn topic_param(rows: &[u64], t: usize, j: usize) -> u64
    requires { (length rows.now ≡ rows_count) × ((t < topic_count) × (j < 16)) }
    ensures { result ≡ topic_param (state_of_rows rows.now) t j }
{
    varint::magnitude(rows::load_code(rows, TOPIC_PARAMS + PER_TOPIC * t + j))
}

fn topic_at(rows: &[u64], slot: usize, status: u64, explicit: u64, t: usize) -> bool
    requires { (length rows.now ≡ rows_count) × ((slot < slot_count) × (t < topic_count)) }
    ensures { result ≡ topic_ok_at (state_of_rows rows.now) slot status explicit t }
{
    let joined = rows::load_joined(rows, t);
    let clock = rows::load_clock(rows);
    let cap2 = topic_param(rows, t, param::P2_CAP);
    let cap3 = topic_param(rows, t, param::P3_CAP);
    let r = rows::load_topic(rows, slot * TOPICS + t);
    topic_ok(status, explicit, joined, clock, cap2, cap3, r)
}

fn topics_ok(rows: &[u64], slot: usize, status: u64, explicit: u64) -> bool
    requires { (length rows.now ≡ rows_count) × (slot < slot_count) }
    ensures { result ≡ every topic_count (topic_ok_at (state_of_rows rows.now) slot status explicit) }
{
    (0..TOPICS).all(|t| topic_at(rows, slot, status, explicit, t))
}

fn slot_ok(rows: &[u64], slot: usize) -> bool
    requires { (length rows.now ≡ rows_count) × (slot < slot_count) × ((state_of_rows rows.now).clock ≤ max_time) }
    ensures { result ≡ slot_ok (state_of_rows rows.now) slot }
{
    let clock = rows::load_clock(rows);
    let p = rows::load_peer(rows, slot);
    let peer = peer_ok(clock, p);
    let topics = topics_ok(rows, slot, p.status, p.explicit);
    peer & topics
}

fn slots_ok(rows: &[u64]) -> bool
    requires { (length rows.now ≡ rows_count) × ((state_of_rows rows.now).clock ≤ max_time) }
    ensures { result ≡ every slot_count (slot_ok (state_of_rows rows.now)) }
{
    (0..SLOTS).all(|slot| slot_ok(rows, slot))
}

// Whether the id in a slot stands in no lower slot.
fn new_id(rows: &[u64], slot: usize) -> bool
    requires { (length rows.now ≡ rows_count) × (slot < slot_count) }
    ensures { result ≡ new_id (state_of_rows rows.now) slot }
{
    let id = rows::load_id(rows, slot);
    for k in 0..slot {
        if !apart(id, rows::load_id(rows, k)) {
            return false;
        }
    }
    true
}

fn ids_distinct(rows: &[u64]) -> bool
    requires { length rows.now ≡ rows_count }
    ensures { result ≡ every slot_count (new_id (state_of_rows rows.now)) }
{
    (0..SLOTS).all(|slot| new_id(rows, slot))
}

fn joined_at(rows: &[u64], t: usize) -> bool
    requires { (length rows.now ≡ rows_count) × (t < topic_count) }
    ensures { result ≡ joined_ok (state_of_rows rows.now) t }
{
    rows::load_joined(rows, t) <= 1
}

fn joined_ok(rows: &[u64]) -> bool
    requires { length rows.now ≡ rows_count }
    ensures { result ≡ every topic_count (joined_ok (state_of_rows rows.now)) }
{
    (0..TOPICS).all(|t| joined_at(rows, t))
}

fn params_ok(rows: &[u64]) -> bool
    requires { length rows.now ≡ rows_count }
    ensures { result ≡ accepted_codes (state_of_rows rows.now).setup.edition (state_of_rows rows.now).codes }
{
    let setup = rows::load_setup(rows);
    params::accepts_codes(setup.edition, rows::codes(rows))
}

// Whether a table of the old form is a router's.
pub fn is_router(rows: &[u64]) -> bool
    requires { length rows.now ≡ rows_count }
    ensures { result ≡ valid (state_of_rows rows.now) }
{
    if MAX_TIME < rows::load_clock(rows) {
        return false;
    }
    let params = params_ok(rows);
    let joined = joined_ok(rows);
    let slots = slots_ok(rows);
    let ids = ids_distinct(rows);
    params & joined & slots & ids
}
