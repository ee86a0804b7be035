// How one lent table of numbers holds the router's state: the only code that computes an offset. A change of the layout is made here
// and in specs/View.antt. Everything above goes by the contracts, which speak of the state that the table holds.
// A table is any slice of CELLS numbers, as each contract asks: the type [u64; CELLS] would ask more of crates that hold slices.
// A flag is a number, 0 or 1, as in the records: a damaged one can be any number, and test 12 refuses it.
#![tactic(auto)]

ghost use Rattle.std.specs.Prelude.{◌≡◌, true, ℕ, ◌+◌, ◌*◌, ◌/◌, ◌%◌, ◌^◌, ◌≤◌, ◌<◌, length, get_or, set};
ghost use Rattle.varint.specs.Codes.{magnitude};
ghost use Rattle.records.specs.Records.{joined_in, code_in, peer_in, topic_in, place, set_clock, set_joined, set_peer, set_topic, slot_count};
ghost use Rattle.records.specs.Records.{topic_count, param_count};
ghost use Rattle.layout.specs.Rows.{put};
ghost use Rattle.layout.specs.View.{place_count, clock_at, cell_count, used_of, keep, bit_at, live_at, with_bit, set_bit, topic_raw, ends_of};
ghost use Rattle.layout.specs.View.{set_flags};
ghost use Rattle.layout.specs.View.{set_columns, param_place, field_of, is_below, below, code_for, state_of, set_end, set_code, set_codes};
ghost use Rattle.layout.specs.View.{set_setup, zero_state};
ghost use Rattle.layout.specs.View.{with_subscription, without_member, with_member, EmptyFrom, FlagsFrom, TopicFits, PeerFits, CodesFit};
ghost use Rattle.layout.specs.View.{ZeroUpTo, Idle, member_at, Bare, Uncounted};

use records::{Groups, Peer, SLOTS, Setup, TOPICS, TopicRecord};

// How many numbers the parameters are.
pub const PARAMS: usize = 147;

// How many cells a word by slot has.
pub const WORDS: usize = SLOTS / 64;

// How far apart two columns are: not a power of two, so that they fall into different sets of a cache.
pub const STRIDE: usize = 264;

// Where the regions begin, one after the other: the head, the parameters, the peers, the topics.
const CLOCK_AT: usize = 0;

const JOINED_AT: usize = 1;

const USED_AT: usize = JOINED_AT + TOPICS;

const SETUP_AT: usize = USED_AT + 1;

const PARAMS_AT: usize = 24;

// The six words of the peers.
const CONNECTED_AT: usize = 176;

const RETAINED_AT: usize = CONNECTED_AT + WORDS;

const EXPLICIT_AT: usize = RETAINED_AT + WORDS;

const OUTBOUND_AT: usize = EXPLICIT_AT + WORDS;

const VERSION_AT: usize = OUTBOUND_AT + WORDS;

const VERSION_HIGH_AT: usize = VERSION_AT + WORDS;

// Their columns.
pub const ID_AT: usize = VERSION_HIGH_AT + WORDS;

pub const GROUPS_AT: usize = ID_AT + STRIDE;

pub const P57_AT: usize = GROUPS_AT + 4 * STRIDE;

pub const RETAIN_AT: usize = P57_AT + STRIDE;

pub const ENDS_AT: usize = RETAIN_AT + STRIDE;

// What they hold for the topics.
const SUBSCRIBED_AT: usize = ENDS_AT + SLOTS * TOPICS;

const MEMBER_AT: usize = SUBSCRIBED_AT + TOPICS * WORDS;

pub const COUNTERS_AT: usize = MEMBER_AT + TOPICS * WORDS;

pub const P3B_AT: usize = COUNTERS_AT + TOPICS * STRIDE;

const GRAFT_AT: usize = P3B_AT + SLOTS * TOPICS;

const MESH_AT: usize = GRAFT_AT + TOPICS * STRIDE;

// How many numbers a table has.
pub const CELLS: usize = MESH_AT + TOPICS * STRIDE;

// The lanes of a packed cell: P2 and P3, each below the first, P4 above both; and two numbers of 32 bits.
pub const LANE: u64 = 2097152;

pub const LANES: u64 = 4398046511104;

pub const HALF: u64 = 4294967296;

// ---- bits, lanes, cells in use

fn single(s: usize) -> u64
    requires { s < 64 }
    ensures { result ≡ 2 ^ s }
{
    1 << s
}

// w with bit s as v says.
fn with_bit(w: u64, s: usize, v: u64) -> u64
    requires { s < 64 }
    ensures { result ≡ with_bit w s v }
{
    if v == 1 {
        w | single(s)
    } else {
        w & !single(s)
    }
}

// Bit s of the word that starts at cell o.
fn bit(cells: &[u64], o: usize, s: usize) -> u64
    requires { (o + 4 ≤ length cells.now) × (s < slot_count) }
    ensures { (result ≡ bit_at cells.now o s) × (result ≤ 1) }
{
    (cells[o + s / 64] >> (s % 64)) % 2
}

fn set_bit(cells: &mut [u64], o: usize, s: usize, v: u64)
    requires { (o + 4 ≤ length cells.old) × (s < slot_count) }
    ensures { (cells.new ≡ set_bit cells.old o s v)
        × (length cells.new ≡ length cells.old) }
{
    let w = cells[o + s / 64];
    cells[o + s / 64] = with_bit(w, s % 64, v);
}

fn keep(b: bool, x: u64) -> u64
    ensures { result ≡ keep b x }
{
    if b { x } else { 0 }
}

// Cell `at` of slot s: 0 from the mark on.
fn live(cells: &[u64], s: usize, at: usize) -> u64
    requires { (length cells.now ≡ cell_count) × (at < cell_count) }
    ensures { result ≡ live_at cells.now s at }
{
    keep((s as u64) < cells[USED_AT], cells[at])
}

// The number of two bits.
fn two(a: u64, b: u64) -> u64
    requires { (a ≤ 1) × (b ≤ 1) }
    ensures { result ≡ a + 2 * b }
{
    a + 2 * b
}

// Two numbers in one cell.
fn halves(a: u64, b: u64) -> u64
    requires { (a < 4294967296) × (b < 4294967296) }
    ensures { result ≡ a + b * 4294967296 }
{
    a + b * HALF
}

// Three numbers in one cell.
fn lanes(a: u64, b: u64, c: u64) -> u64
    requires { (a < 2097152) × ((b < 2097152) × (c < 4194304)) }
    ensures { result ≡ a + b * 2097152 + c * 4398046511104 }
{
    a + b * LANE + c * LANES
}

// The word that starts at cell o.
fn word(cells: &[u64], o: usize) -> [u64; WORDS]
    requires { o + 4 ≤ length cells.now }
    ensures { (length result ≡ 4) × ((s : ℕ) → s < slot_count → bit_at result 0 s ≡ bit_at cells.now o s) }
{
    [cells[o], cells[o + 1], cells[o + 2], cells[o + 3]]
}

// Copies `row` into the table from `at` on.
pub fn write_row(cells: &mut [u64], at: usize, row: &[u64])
    requires { at + length row.now ≤ length cells.old }
    ensures { cells.new ≡ put cells.old at row.now }
{
    cells[at..at + row.len()].copy_from_slice(row);
}

// ---- the head

// The clock.
pub fn load_clock(cells: &[u64]) -> u64
    requires { length cells.now ≡ cell_count }
    ensures { result ≡ (state_of cells.now).clock }
{
    cells[CLOCK_AT]
}

// No other cell changes.
pub fn store_clock(cells: &mut [u64], time: u64)
    requires { length cells.old ≡ cell_count }
    ensures { (state_of cells.new ≡ set_clock (state_of cells.old) time)
        × (cells.new ≡ set cells.old clock_at time) }
{
    cells[CLOCK_AT] = time;
}

// 1 if topic `t` is joined, else 0.
pub fn load_joined(cells: &[u64], t: usize) -> u64
    requires { (length cells.now ≡ cell_count) × (t < topic_count) }
    ensures { result ≡ joined_in (state_of cells.now) t }
{
    cells[JOINED_AT + t]
}

pub fn store_joined(cells: &mut [u64], t: usize, b: u64)
    requires { (length cells.old ≡ cell_count) × (t < topic_count) }
    ensures { state_of cells.new ≡ set_joined (state_of cells.old) t b }
{
    cells[JOINED_AT + t] = b;
}

// What the router was made with beside the parameters' numbers.
pub fn load_setup(cells: &[u64]) -> Setup
    requires { length cells.now ≡ cell_count }
    ensures { result ≡ (state_of cells.now).setup }
{
    Setup {
        edition: cells[SETUP_AT],
    }
}

pub fn store_setup(cells: &mut [u64], setup: Setup)
    requires { length cells.old ≡ cell_count }
    ensures { state_of cells.new ≡ set_setup (state_of cells.old) setup }
{
    cells[SETUP_AT] = setup.edition;
}

// ---- the parameters

// Where number i stands among the parameters.
fn param_place(i: usize) -> usize
    requires { i < param_count }
    ensures { (result ≡ param_place i) × (result < param_count) }
{
    if i < 19 {
        i
    } else {
        19 + (i - 19) % 16 * 8 + (i - 19) / 16
    }
}

// The magnitude of the parameters' number `i`: what its code says without the sign, which is its field's.
pub fn load_magnitude(cells: &[u64], i: usize) -> u64
    requires { (length cells.now ≡ cell_count) × (i < param_count) }
    ensures { (result ≡ magnitude (code_in (state_of cells.now) i))
        × (code_for (below i) result ≡ code_in (state_of cells.now) i) }
{
    cells[PARAMS_AT + param_place(i)]
}

// The field of number i.
fn field_of(i: usize) -> usize
    requires { i < param_count }
    ensures { result ≡ field_of i }
{
    if i < 19 { i } else { 19 + (i - 19) % 16 }
}

// Whether the numbers of a field are at most 0.
fn is_below(f: usize) -> bool
    ensures { result ≡ is_below f }
{
    ((9 <= f) & (f <= 11)) | (f == 14) | (f == 16) | (f == 26) | (f == 31) | (f == 33)
}

// The code of a number of this sign and this magnitude.
fn code_for(b: bool, m: u64) -> u64
    requires { m < 4611686018427387904 }
    ensures { result ≡ code_for b m }
{
    if b {
        if m == 0 {
            return 0;
        }
        return 2 * m - 1;
    }
    2 * m
}

// The code of the parameters' number `i`, whose magnitude is one of a code.
pub fn load_code(cells: &[u64], i: usize) -> u64
    requires { (length cells.now ≡ cell_count)
        × ((i < param_count) × (magnitude (code_in (state_of cells.now) i) < 4611686018427387904)) }
    ensures { result ≡ code_in (state_of cells.now) i }
{
    let m = load_magnitude(cells, i);
    code_for(is_below(field_of(i)), m)
}

fn store_magnitude(cells: &mut [u64], i: usize, m: u64)
    requires { (length cells.old ≡ cell_count) × (i < param_count) }
    ensures { state_of cells.new ≡ set_code (state_of cells.old) i (code_for (below i) m) }
{
    let p = param_place(i);
    cells[PARAMS_AT + p] = m;
}

pub fn store_codes(cells: &mut [u64], codes: &[u64])
    requires { (length cells.old ≡ cell_count) × CodesFit codes.now }
    ensures { state_of cells.new ≡ set_codes (state_of cells.old) codes.now }
{
    for i in 0..PARAMS {
        store_magnitude(cells, i, varint::magnitude(codes[i]));
    }
}

// Makes every cell 0, whatever stood there.
pub fn clear(cells: &mut [u64])
    ensures { state_of cells.new ≡ zero_state }
{
    cells.fill(0);
}

// ---- topic records

fn raw_topic(
    counters: u64,
    p3b: u64,
    subscribed: u64,
    member: u64,
    graft: u64,
    mesh: u64,
) -> TopicRecord
    requires { (subscribed ≤ 1) × (member ≤ 1) }
    ensures { (result ≡ topic_raw counters p3b subscribed member graft mesh) × TopicFits result }
{
    TopicRecord {
        p2: counters % LANE,
        p3: counters / LANE % LANE,
        p4: counters / LANES,
        p3b,
        subscribed,
        member,
        graft: keep(member == 1, graft),
        mesh: keep(member == 1, mesh),
    }
}

// The record of slot `k / 8` for topic `k % 8`. What is loaded fits where it is stored, whatever the cells hold.
pub fn load_topic(cells: &[u64], k: usize) -> TopicRecord
    requires { (length cells.now ≡ cell_count) × (k < place_count) }
    ensures { (result ≡ topic_in (state_of cells.now) k) × TopicFits result }
{
    raw_topic(
        live(cells, k / 8, COUNTERS_AT + k % 8 * STRIDE + k / 8),
        live(cells, k / 8, P3B_AT + k),
        bit(cells, SUBSCRIBED_AT + k % 8 * WORDS, k / 8),
        bit(cells, MEMBER_AT + k % 8 * WORDS, k / 8),
        cells[GRAFT_AT + k % 8 * STRIDE + k / 8],
        cells[MESH_AT + k % 8 * STRIDE + k / 8],
    )
}

fn write_topic(cells: &mut [u64], k: usize, t: TopicRecord)
    requires { (length cells.old ≡ cell_count) × ((k < place_count) × ((k / 8 < used_of cells.old) × TopicFits t)) }
    ensures { state_of cells.new ≡ set_topic (state_of cells.old) k t }
{
    cells[COUNTERS_AT + k % 8 * STRIDE + k / 8] = lanes(t.p2, t.p3, t.p4);
    cells[P3B_AT + k] = t.p3b;
    cells[GRAFT_AT + k % 8 * STRIDE + k / 8] = t.graft;
    cells[MESH_AT + k % 8 * STRIDE + k / 8] = t.mesh;
    set_bit(cells, SUBSCRIBED_AT + k % 8 * WORDS, k / 8, t.subscribed);
    set_bit(cells, MEMBER_AT + k % 8 * WORDS, k / 8, t.member);
}

// One flag of a record, and nothing else of it.
pub fn store_subscribed(cells: &mut [u64], k: usize, v: u64)
    requires { (length cells.old ≡ cell_count) × ((k < place_count) × (v ≤ 1)) }
    ensures { state_of cells.new
        ≡ set_topic (state_of cells.old) k (with_subscription (topic_in (state_of cells.old) k) v) }
{
    set_bit(cells, SUBSCRIBED_AT + k % 8 * WORDS, k / 8, v);
}

// Out of the mesh: the times of a non-member are no part of the state, so one bit is all.
pub fn leave_mesh(cells: &mut [u64], k: usize)
    requires { (length cells.old ≡ cell_count) × (k < place_count) }
    ensures { state_of cells.new
        ≡ set_topic (state_of cells.old) k (without_member (topic_in (state_of cells.old) k)) }
{
    set_bit(cells, MEMBER_AT + k % 8 * WORDS, k / 8, 0);
}

pub fn enter_mesh(cells: &mut [u64], k: usize, time: u64)
    requires { (length cells.old ≡ cell_count) × (k < place_count) }
    ensures { state_of cells.new
        ≡ set_topic (state_of cells.old) k (with_member (topic_in (state_of cells.old) k) time) }
{
    cells[GRAFT_AT + k % 8 * STRIDE + k / 8] = time;
    cells[MESH_AT + k % 8 * STRIDE + k / 8] = 0;
    set_bit(cells, MEMBER_AT + k % 8 * WORDS, k / 8, 1);
}

// ---- peers

// The eight backoff ends of slot s.
fn ends(cells: &[u64], s: usize) -> [u64; 8]
    requires { (length cells.now ≡ cell_count) × (s < slot_count) }
    ensures { result ≡ ends_of cells.now s }
{
    let b = ENDS_AT + s * 8;
    [
        live(cells, s, b),
        live(cells, s, b + 1),
        live(cells, s, b + 2),
        live(cells, s, b + 3),
        live(cells, s, b + 4),
        live(cells, s, b + 5),
        live(cells, s, b + 6),
        live(cells, s, b + 7),
    ]
}

// The peer's record in slot `slot`. What is loaded fits where it is stored, whatever the cells hold.
pub fn load_peer(cells: &[u64], slot: usize) -> Peer
    requires { (length cells.now ≡ cell_count) × (slot < slot_count) }
    ensures { (result ≡ peer_in (state_of cells.now) slot) × PeerFits result }
{
    let p57 = live(cells, slot, P57_AT + slot);
    let g = load_groups(cells, slot);
    let e = ends(cells, slot);
    Peer {
        status: two(
            bit(cells, CONNECTED_AT, slot),
            bit(cells, RETAINED_AT, slot),
        ),
        id: live(cells, slot, ID_AT + slot),
        groups: g,
        outbound: bit(cells, OUTBOUND_AT, slot),
        explicit: bit(cells, EXPLICIT_AT, slot),
        version: two(
            bit(cells, VERSION_AT, slot),
            bit(cells, VERSION_HIGH_AT, slot),
        ),
        p5: p57 % HALF,
        p7: p57 / HALF,
        retain: live(cells, slot, RETAIN_AT + slot),
        backoff: e,
    }
}

// The six words of slot s, by a record's flags.
fn set_flags(cells: &mut [u64], s: usize, p: Peer)
    requires { (length cells.old ≡ cell_count) × (s < slot_count) }
    ensures written { cells.new
        ≡ set_flags cells.old s (p.status % 2) (p.status / 2) p.explicit p.outbound (p.version % 2) (p.version / 2) }
    ensures size { length cells.new ≡ length cells.old }
{
    set_bit(cells, CONNECTED_AT, s, p.status % 2);
    set_bit(cells, RETAINED_AT, s, p.status / 2);
    set_bit(cells, EXPLICIT_AT, s, p.explicit);
    set_bit(cells, OUTBOUND_AT, s, p.outbound);
    set_bit(cells, VERSION_AT, s, p.version % 2);
    set_bit(cells, VERSION_HIGH_AT, s, p.version / 2);
}

// Its seven columns.
fn set_columns(cells: &mut [u64], s: usize, id: u64, g: Groups, p57: u64, retain: u64)
    requires { (length cells.old ≡ cell_count) × (s < slot_count) }
    ensures { (cells.new ≡ set_columns cells.old s id g.first g.second g.third g.fourth p57 retain)
        × (length cells.new ≡ length cells.old) }
{
    cells[ID_AT + s] = id;
    cells[GROUPS_AT + s] = g.first;
    cells[GROUPS_AT + STRIDE + s] = g.second;
    cells[GROUPS_AT + 2 * STRIDE + s] = g.third;
    cells[GROUPS_AT + 3 * STRIDE + s] = g.fourth;
    cells[P57_AT + s] = p57;
    cells[RETAIN_AT + s] = retain;
}

fn write_peer(cells: &mut [u64], slot: usize, p: Peer)
    requires { (length cells.old ≡ cell_count) × ((slot < slot_count) × ((slot < used_of cells.old) × PeerFits p)) }
    ensures { state_of cells.new ≡ set_peer (state_of cells.old) slot p }
{
    let row = p.backoff;
    let p57 = halves(p.p5, p.p7);
    set_flags(cells, slot, p);
    set_columns(cells, slot, p.id, p.groups, p57, p.retain);
    write_row(cells, ENDS_AT + slot * 8, &row);
}

fn write_end(cells: &mut [u64], slot: usize, t: usize, end: u64)
    requires { (length cells.old ≡ cell_count) × ((slot < slot_count) × ((t < 8) × (slot < used_of cells.old))) }
    ensures { state_of cells.new
        ≡ set_peer (state_of cells.old) slot (set_end (peer_in (state_of cells.old) slot) t end) }
{
    cells[ENDS_AT + slot * 8 + t] = end;
}

// ---- the mark

// Makes the cells of a slot past the mark 0.
fn clear_slot(cells: &mut [u64], s: usize)
    requires { (length cells.old ≡ cell_count) × ((s < slot_count) × (used_of cells.old ≤ s)) }
    ensures { Idle cells.old cells.new × ZeroUpTo cells.new s 8 }
{
    set_columns(
        cells,
        s,
        0,
        Groups {
            first: 0,
            second: 0,
            third: 0,
            fourth: 0,
        },
        0,
        0,
    );
    for t in 0..8 {
        cells[COUNTERS_AT + t * STRIDE + s] = 0;
        cells[P3B_AT + (s * 8 + t)] = 0;
        cells[ENDS_AT + s * 8 + t] = 0;
    }
}

// Raises the mark past slot s, at which it is: the state stays.
fn open_slot(cells: &mut [u64], s: u64)
    requires { (length cells.old ≡ cell_count) × ((used_of cells.old ≡ s) × (s < slot_count)) }
    ensures { (state_of cells.new ≡ state_of cells.old)
        × ((used_of cells.new ≡ s + 1) × (length cells.new ≡ cell_count)) }
{
    clear_slot(cells, s as usize);
    cells[USED_AT] = s + 1;
}

// Raises the mark past a slot, if it is not.
fn need_slot(cells: &mut [u64], slot: usize)
    requires { (length cells.old ≡ cell_count) × (slot < slot_count) }
    ensures { (state_of cells.new ≡ state_of cells.old)
        × ((slot < used_of cells.new) × (length cells.new ≡ cell_count)) }
{
    for s in cells[USED_AT]..slot as u64 + 1 {
        open_slot(cells, s);
    }
}

// ---- whole records, in any slot

pub fn store_topic(cells: &mut [u64], k: usize, t: TopicRecord)
    requires { (length cells.old ≡ cell_count) × ((k < place_count) × TopicFits t) }
    ensures { state_of cells.new ≡ set_topic (state_of cells.old) k t }
{
    need_slot(cells, k / 8);
    write_topic(cells, k, t);
}

pub fn store_peer(cells: &mut [u64], slot: usize, p: Peer)
    requires { (length cells.old ≡ cell_count) × ((slot < slot_count) × PeerFits p) }
    ensures { state_of cells.new ≡ set_peer (state_of cells.old) slot p }
{
    need_slot(cells, slot);
    write_peer(cells, slot, p);
}

// One backoff end of the record in a slot, and nothing else of it: a record that is stored whole right after one end was replaced in it
// waits for that store.
pub fn store_end(cells: &mut [u64], slot: usize, t: usize, end: u64)
    requires { (length cells.old ≡ cell_count) × ((slot < slot_count) × (t < topic_count)) }
    ensures { state_of cells.new
        ≡ set_peer (state_of cells.old) slot (set_end (peer_in (state_of cells.old) slot) t end) }
{
    need_slot(cells, slot);
    write_end(cells, slot, t, end);
}

// ---- one field of a record, for a loop that wants no more

pub fn load_status(cells: &[u64], slot: usize) -> u64
    requires { (length cells.now ≡ cell_count) × (slot < slot_count) }
    ensures { result ≡ (peer_in (state_of cells.now) slot).status }
{
    two(
        bit(cells, CONNECTED_AT, slot),
        bit(cells, RETAINED_AT, slot),
    )
}

pub fn load_id(cells: &[u64], slot: usize) -> u64
    requires { (length cells.now ≡ cell_count) × (slot < slot_count) }
    ensures { result ≡ (peer_in (state_of cells.now) slot).id }
{
    live(cells, slot, ID_AT + slot)
}

pub fn load_groups(cells: &[u64], slot: usize) -> Groups
    requires { (length cells.now ≡ cell_count) × (slot < slot_count) }
    ensures { result ≡ (peer_in (state_of cells.now) slot).groups }
{
    Groups {
        first: live(cells, slot, GROUPS_AT + slot),
        second: live(cells, slot, GROUPS_AT + STRIDE + slot),
        third: live(cells, slot, GROUPS_AT + 2 * STRIDE + slot),
        fourth: live(cells, slot, GROUPS_AT + 3 * STRIDE + slot),
    }
}

// One backoff end.
pub fn load_end(cells: &[u64], slot: usize, t: usize) -> u64
    requires { (length cells.now ≡ cell_count) × ((slot < slot_count) × (t < topic_count)) }
    ensures { result ≡ get_or (peer_in (state_of cells.now) slot).backoff t 0 }
{
    live(cells, slot, ENDS_AT + slot * 8 + t)
}

pub fn load_member(cells: &[u64], k: usize) -> u64
    requires { (length cells.now ≡ cell_count) × (k < place_count) }
    ensures { result ≡ (topic_in (state_of cells.now) k).member }
{
    bit(cells, MEMBER_AT + k % 8 * WORDS, k / 8)
}

pub fn load_retain(cells: &[u64], slot: usize) -> u64
    requires { (length cells.now ≡ cell_count) × (slot < slot_count) }
    ensures { result ≡ (peer_in (state_of cells.now) slot).retain }
{
    live(cells, slot, RETAIN_AT + slot)
}

// The graft time and the mesh time of a member.
pub fn load_graft(cells: &[u64], slot: usize, t: usize) -> u64
    requires { (length cells.now ≡ cell_count)
        × ((slot < slot_count) × ((t < topic_count) × ((topic_in (state_of cells.now) (place slot t)).member ≡ 1))) }
    ensures { result ≡ (topic_in (state_of cells.now) (place slot t)).graft }
{
    cells[GRAFT_AT + t * STRIDE + slot]
}

pub fn load_mesh(cells: &[u64], slot: usize, t: usize) -> u64
    requires { (length cells.now ≡ cell_count)
        × ((slot < slot_count) × ((t < topic_count) × ((topic_in (state_of cells.now) (place slot t)).member ≡ 1))) }
    ensures { result ≡ (topic_in (state_of cells.now) (place slot t)).mesh }
{
    cells[MESH_AT + t * STRIDE + slot]
}

// The bits of a slot's counters in all topics, together.
fn counted(cells: &[u64], slot: usize) -> u64
    requires { (length cells.now ≡ cell_count) × (slot < slot_count) }
    ensures { result ≡ 0 → (t : ℕ) → t < topic_count → Uncounted cells.now slot t }
{
    let mut acc: u64 = 0;
    for t in 0..TOPICS {
        acc |= cells[COUNTERS_AT + t * STRIDE + slot];
        acc |= cells[P3B_AT + (slot * 8 + t)];
    }
    keep((slot as u64) < cells[USED_AT], acc)
}

// The i-th cells of the words of all topics' members, together.
fn meshed(cells: &[u64], i: usize) -> u64
    requires { (length cells.now ≡ cell_count) × (i < 4) }
    ensures { (j : ℕ) → result / 2 ^ j % 2 ≡ 0 →
        (t : ℕ) → t < topic_count → get_or cells.now (member_at + t * 4 + i) 0 / 2 ^ j % 2 ≡ 0 }
{
    let mut acc: u64 = 0;
    for t in 0..TOPICS {
        acc |= cells[MEMBER_AT + t * WORDS + i];
    }
    acc
}

// Whether nothing is counted of the peer in a slot, in no topic, and it is in no mesh.
pub fn is_bare(cells: &[u64], slot: usize) -> bool
    requires { (length cells.now ≡ cell_count) × (slot < slot_count) }
    ensures { result ≡ true → (t : ℕ) → t < topic_count → Bare (topic_in (state_of cells.now) (place slot t)) }
{
    if (meshed(cells, slot / 64) >> (slot % 64)) % 2 != 0 {
        return false;
    }
    counted(cells, slot) == 0
}

// ---- a flag of all slots, as a word: one line each, since each promises its own field of the record

pub fn load_members(cells: &[u64], t: usize) -> [u64; WORDS]
    requires { (length cells.now ≡ cell_count) × (t < topic_count) }
    ensures { (length result ≡ 4)
        × ((s : ℕ) → s < slot_count → bit_at result 0 s ≡ (topic_in (state_of cells.now) (place s t)).member) }
{
    word(cells, MEMBER_AT + t * WORDS)
}

pub fn load_subscribed(cells: &[u64], t: usize) -> [u64; WORDS]
    requires { (length cells.now ≡ cell_count) × (t < topic_count) }
    ensures { (length result ≡ 4)
        × ((s : ℕ) → s < slot_count → bit_at result 0 s ≡ (topic_in (state_of cells.now) (place s t)).subscribed) }
{
    word(cells, SUBSCRIBED_AT + t * WORDS)
}

// The low bit of the status: of a router's tables, 1 for a connected peer.
pub fn load_connected(cells: &[u64]) -> [u64; WORDS]
    requires { length cells.now ≡ cell_count }
    ensures { (length result ≡ 4) × ((s : ℕ) → s < slot_count → bit_at result 0 s ≡ (peer_in (state_of cells.now) s).status % 2) }
{
    word(cells, CONNECTED_AT)
}

// The high bit of the status: of a router's tables, 1 for a retained record.
pub fn load_retained(cells: &[u64]) -> [u64; WORDS]
    requires { length cells.now ≡ cell_count }
    ensures { (length result ≡ 4) × ((s : ℕ) → s < slot_count → bit_at result 0 s ≡ (peer_in (state_of cells.now) s).status / 2) }
{
    word(cells, RETAINED_AT)
}

pub fn load_explicit(cells: &[u64]) -> [u64; WORDS]
    requires { length cells.now ≡ cell_count }
    ensures { (length result ≡ 4) × ((s : ℕ) → s < slot_count → bit_at result 0 s ≡ (peer_in (state_of cells.now) s).explicit) }
{
    word(cells, EXPLICIT_AT)
}

pub fn load_outbound(cells: &[u64]) -> [u64; WORDS]
    requires { length cells.now ≡ cell_count }
    ensures { (length result ≡ 4) × ((s : ℕ) → s < slot_count → bit_at result 0 s ≡ (peer_in (state_of cells.now) s).outbound) }
{
    word(cells, OUTBOUND_AT)
}

// The two bits of the version.
pub fn load_version(cells: &[u64]) -> [u64; WORDS]
    requires { length cells.now ≡ cell_count }
    ensures { (length result ≡ 4) × ((s : ℕ) → s < slot_count → bit_at result 0 s ≡ (peer_in (state_of cells.now) s).version % 2) }
{
    word(cells, VERSION_AT)
}

pub fn load_version_high(cells: &[u64]) -> [u64; WORDS]
    requires { length cells.now ≡ cell_count }
    ensures { (length result ≡ 4) × ((s : ℕ) → s < slot_count → bit_at result 0 s ≡ (peer_in (state_of cells.now) s).version / 2) }
{
    word(cells, VERSION_HIGH_AT)
}

// ---- where the records end

// The bits of word i, of slots from `used` on, moved down.
fn past_word(w: u64, i: usize, used: u64) -> u64
    requires { i < 4 }
    ensures { result ≡ 0 → (s : ℕ) → s / 64 ≡ i → used ≤ s → w / 2 ^ (s % 64) % 2 ≡ 0 }
{
    let first = 64 * i as u64;
    if used <= first {
        return w;
    }
    if 63 < used - first {
        return 0;
    }
    w >> (used - first)
}

// 0 where no slot from `used` on has its bit in the word that starts at cell o: callers join several such by `|`, with no branch.
pub fn past(cells: &[u64], o: usize, used: u64) -> u64
    requires { o + 4 ≤ length cells.now }
    ensures { result ≡ 0 → (s : ℕ) → s < slot_count → used ≤ s → bit_at cells.now o s ≡ 0 }
{
    past_word(cells[o], 0, used)
        | past_word(cells[o + 1], 1, used)
        | past_word(cells[o + 2], 2, used)
        | past_word(cells[o + 3], 3, used)
}

// The same of n words, one after the other.
fn all_past(cells: &[u64], o: usize, n: usize, used: u64) -> u64
    requires { (o + 4 * n ≤ length cells.now) × (length cells.now ≡ cell_count) }
    ensures { result ≡ 0 → (p s : ℕ) → p < n → s < slot_count → used ≤ s → bit_at cells.now (o + p * 4) s ≡ 0 }
{
    let mut acc: u64 = 0;
    for p in 0..n {
        acc |= past(cells, o + p * WORDS, used);
    }
    acc
}

// The mark: from it on a record is its flags alone.
pub fn load_used(cells: &[u64]) -> u64
    requires { length cells.now ≡ cell_count }
    ensures { (result ≡ used_of cells.now) × FlagsFrom (state_of cells.now) result }
{
    cells[USED_AT]
}

// A slot from which on every record is empty: the mark, where no word has a bit past it.
pub fn records_end(cells: &[u64]) -> usize
    requires { length cells.now ≡ cell_count }
    ensures { (result ≤ slot_count) × EmptyFrom (state_of cells.now) result }
{
    let used = cells[USED_AT];
    if SLOTS as u64 <= used {
        return SLOTS;
    }
    if (all_past(cells, CONNECTED_AT, 6, used) | all_past(cells, SUBSCRIBED_AT, 16, used)) != 0 {
        return SLOTS;
    }
    used as usize
}

// The clock of a lent table: a public call takes the table whole, so that its type fixes the length.
pub fn clock(table: &[u64; CELLS]) -> u64
    ensures { result ≡ (state_of table.now).clock }
{
    load_clock(table)
}
