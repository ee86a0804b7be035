// The table's old form (before 02, order 10), for tables that were kept in it: loads and stores. It does not change any more.
#![tactic(auto)]

ghost use Rattle.std.specs.Prelude.{◌≡◌, ◌+◌, ◌≤◌, ◌<◌, length};
ghost use Rattle.records.specs.Records.{joined_in, code_in, peer_in, topic_in, set_clock, set_joined, set_peer, set_topic, slot_count, topic_count};
ghost use Rattle.records.specs.Records.{param_count};
ghost use Rattle.layout.specs.View.{place_count, set_codes, set_setup};
ghost use Rattle.rows.specs.View.{rows_count, peer_from, topic_from, state_of_rows};

use layout::PARAMS;
use records::{Groups, Peer, SLOTS, Setup, TOPICS, TopicRecord};

// Where the regions begin, one after the other: the clock is cell 0, then the joined flags, the codes of the parameters, the rest of the
// set-up, the peers, the topic records.
const JOINED_AT: usize = 1;

const CODES_AT: usize = JOINED_AT + TOPICS;

const SETUP_AT: usize = CODES_AT + PARAMS;

const SETUP_CELLS: usize = 1;

const PEERS_AT: usize = SETUP_AT + SETUP_CELLS;

const PEER_CELLS: usize = 20;

const TOPICS_AT: usize = PEERS_AT + SLOTS * PEER_CELLS;

const TOPIC_CELLS: usize = 8;

// How many numbers a table has.
pub const CELLS: usize = TOPICS_AT + SLOTS * TOPICS * TOPIC_CELLS;

// The peer's record that starts at cell `b`.
fn read_peer(cells: &[u64], b: usize) -> Peer
    requires { b + 20 ≤ length cells.now }
    ensures { result ≡ peer_from cells.now b }
{
    let ends = [
        cells[b + 12],
        cells[b + 13],
        cells[b + 14],
        cells[b + 15],
        cells[b + 16],
        cells[b + 17],
        cells[b + 18],
        cells[b + 19],
    ];
    Peer {
        status: cells[b],
        id: cells[b + 1],
        groups: Groups {
            first: cells[b + 2],
            second: cells[b + 3],
            third: cells[b + 4],
            fourth: cells[b + 5],
        },
        outbound: cells[b + 6],
        explicit: cells[b + 7],
        version: cells[b + 8],
        p5: cells[b + 9],
        p7: cells[b + 10],
        retain: cells[b + 11],
        backoff: ends,
    }
}

// The topic record that starts at cell `b`.
fn read_topic(cells: &[u64], b: usize) -> TopicRecord
    requires { b + 8 ≤ length cells.now }
    ensures { result ≡ topic_from cells.now b }
{
    TopicRecord {
        p2: cells[b],
        p3: cells[b + 1],
        p4: cells[b + 2],
        p3b: cells[b + 3],
        subscribed: cells[b + 4],
        member: cells[b + 5],
        graft: cells[b + 6],
        mesh: cells[b + 7],
    }
}

// The clock.
pub fn load_clock(cells: &[u64]) -> u64
    requires { length cells.now ≡ rows_count }
    ensures { result ≡ (state_of_rows cells.now).clock }
{
    cells[0]
}

pub fn store_clock(cells: &mut [u64], time: u64)
    requires { length cells.old ≡ rows_count }
    ensures { state_of_rows cells.new ≡ set_clock (state_of_rows cells.old) time }
{
    cells[0] = time;
}

// 1 if topic `t` is joined, else 0.
pub fn load_joined(cells: &[u64], t: usize) -> u64
    requires { (length cells.now ≡ rows_count) × (t < topic_count) }
    ensures { result ≡ joined_in (state_of_rows cells.now) t }
{
    cells[JOINED_AT + t]
}

pub fn store_joined(cells: &mut [u64], t: usize, b: u64)
    requires { (length cells.old ≡ rows_count) × (t < topic_count) }
    ensures { state_of_rows cells.new ≡ set_joined (state_of_rows cells.old) t b }
{
    cells[JOINED_AT + t] = b;
}

// The code of the parameters' number `i`.
pub fn load_code(cells: &[u64], i: usize) -> u64
    requires { (length cells.now ≡ rows_count) × (i < param_count) }
    ensures { result ≡ code_in (state_of_rows cells.now) i }
{
    cells[CODES_AT + i]
}

// The codes of the parameters, side by side.
pub fn codes(cells: &[u64]) -> &[u64]
    requires { length cells.now ≡ rows_count }
    ensures { result.now ≡ (state_of_rows cells.now).codes }
{
    &cells[CODES_AT..SETUP_AT]
}

pub fn store_codes(cells: &mut [u64], codes: &[u64])
    requires { (length cells.old ≡ rows_count) × (length codes.now ≡ param_count) }
    ensures { state_of_rows cells.new ≡ set_codes (state_of_rows cells.old) codes.now }
{
    layout::write_row(cells, CODES_AT, codes);
}

// What the router was made with beside the parameters' numbers.
pub fn load_setup(cells: &[u64]) -> Setup
    requires { length cells.now ≡ rows_count }
    ensures { result ≡ (state_of_rows cells.now).setup }
{
    Setup {
        edition: cells[SETUP_AT],
    }
}

pub fn store_setup(cells: &mut [u64], setup: Setup)
    requires { length cells.old ≡ rows_count }
    ensures { state_of_rows cells.new ≡ set_setup (state_of_rows cells.old) setup }
{
    cells[SETUP_AT] = setup.edition;
}

// The peer's record in slot `slot`.
pub fn load_peer(cells: &[u64], slot: usize) -> Peer
    requires { (length cells.now ≡ rows_count) × (slot < slot_count) }
    ensures { result ≡ peer_in (state_of_rows cells.now) slot }
{
    read_peer(cells, PEERS_AT + slot * PEER_CELLS)
}

// Its id, for a loop that wants no more.
pub fn load_id(cells: &[u64], slot: usize) -> u64
    requires { (length cells.now ≡ rows_count) × (slot < slot_count) }
    ensures { result ≡ (peer_in (state_of_rows cells.now) slot).id }
{
    cells[PEERS_AT + slot * PEER_CELLS + 1]
}

pub fn store_peer(cells: &mut [u64], slot: usize, p: Peer)
    requires { (length cells.old ≡ rows_count) × (slot < slot_count) }
    ensures { state_of_rows cells.new ≡ set_peer (state_of_rows cells.old) slot p }
{
    let ends = p.backoff;
    let row = [
        p.status,
        p.id,
        p.groups.first,
        p.groups.second,
        p.groups.third,
        p.groups.fourth,
        p.outbound,
        p.explicit,
        p.version,
        p.p5,
        p.p7,
        p.retain,
        ends[0],
        ends[1],
        ends[2],
        ends[3],
        ends[4],
        ends[5],
        ends[6],
        ends[7],
    ];
    layout::write_row(cells, PEERS_AT + slot * PEER_CELLS, &row);
}

// The record of slot `k / 8` for topic `k % 8`.
pub fn load_topic(cells: &[u64], k: usize) -> TopicRecord
    requires { (length cells.now ≡ rows_count) × (k < place_count) }
    ensures { result ≡ topic_in (state_of_rows cells.now) k }
{
    read_topic(cells, TOPICS_AT + k * TOPIC_CELLS)
}

pub fn store_topic(cells: &mut [u64], k: usize, t: TopicRecord)
    requires { (length cells.old ≡ rows_count) × (k < place_count) }
    ensures { state_of_rows cells.new ≡ set_topic (state_of_rows cells.old) k t }
{
    let row = [
        t.p2,
        t.p3,
        t.p4,
        t.p3b,
        t.subscribed,
        t.member,
        t.graft,
        t.mesh,
    ];
    layout::write_row(cells, TOPICS_AT + k * TOPIC_CELLS, &row);
}
