// The third pass of a load: each record is read again, and stored in its slot.
ghost use Rattle.std.specs.Prelude.{◌≡◌, ℕ, ◌+◌, ◌*◌, ◌≤◌, ◌<◌, true, List, length, get_or};
ghost use Rattle.index.specs.Index.{iter};
ghost use Rattle.records.specs.Records.{slot_count, topic_count};
ghost use Rattle.layout.specs.Rows.{tab};
ghost use Rattle.layout.specs.View.{cell_count, state_of};
ghost use Rattle.validity.specs.Valid.{max_time};
ghost use Rattle.saves.specs.Save.{row_size};
ghost use Rattle.saves.specs.Load.{numbers, parse_from, end_from, loaded_peer, loaded_topic};
ghost use Rattle.save_load.specs.Judge.{is_read};
ghost use Rattle.save_load.specs.Store.{RowFits, stored_topic, stored, Loadable, stored_all};

use crate::numbers;
use records::{Groups, Peer, TOPICS, TopicRecord};

// How many numbers a record is: four, and five for each topic.
pub const ROW: usize = 44;

// When a backoff ends of which so much is left: 0 stays 0.
fn end_from(clock: u64, left: u64) -> u64
    requires { (clock ≤ max_time) × (left ≤ 86400000) }
    ensures { result ≡ end_from clock left }
{
    if left == 0 {
        return 0;
    }
    clock + left
}

fn ends_from(clock: u64, row: &[u64]) -> [u64; TOPICS]
    requires { (clock ≤ max_time) × RowFits row.now }
    ensures { result ≡ tab topic_count (λ t. end_from clock (get_or row.now (8 + t * 5) 0)) }
{
    let mut ends = [0u64; TOPICS];
    for t in 0..TOPICS {
        ends[t] = end_from(clock, row[8 + t * 5]);
    }
    ends
}

// The peer of a record: retained, of the group 0, all that is not saved 0.
fn loaded_peer(clock: u64, row: &[u64]) -> Peer
    requires { (clock ≤ max_time) × RowFits row.now }
    ensures { result ≡ loaded_peer clock row.now }
{
    let ends = ends_from(clock, row);
    Peer {
        status: 2,
        id: row[0],
        groups: Groups {
            first: 1,
            second: 0,
            third: 0,
            fourth: 0,
        },
        outbound: 0,
        explicit: 0,
        version: 0,
        p5: row[2],
        p7: row[3],
        retain: clock + row[1],
        backoff: ends,
    }
}

// And what it holds for a topic.
fn loaded_topic(row: &[u64], t: usize) -> TopicRecord
    requires { (length row.now ≡ row_size) × (t < topic_count) }
    ensures { result ≡ loaded_topic row.now t }
{
    TopicRecord {
        p2: row[4 + t * 5],
        p3: row[5 + t * 5],
        p4: row[7 + t * 5],
        p3b: row[6 + t * 5],
        subscribed: 0,
        member: 0,
        graft: 0,
        mesh: 0,
    }
}

fn store_topics(table: &mut [u64], slot: usize, row: &[u64])
    requires { (length table.old ≡ cell_count) × ((slot < slot_count) × RowFits row.now) }
    ensures { state_of table.new ≡ iter topic_count (stored_topic row.now slot) (state_of table.old) }
{
    for t in 0..TOPICS {
        layout::store_topic(table, slot * TOPICS + t, loaded_topic(row, t));
    }
}

fn store_row(table: &mut [u64], slot: usize, clock: u64, row: &[u64])
    requires { (length table.old ≡ cell_count) × ((slot < slot_count) × ((clock ≤ max_time) × RowFits row.now)) }
    ensures { state_of table.new ≡ stored clock row.now slot (state_of table.old) }
{
    store_topics(table, slot, row);
    layout::store_peer(table, slot, loaded_peer(clock, row));
}

// Reads the numbers of a record that the first pass has read; the place after them.
fn read_row(s: &[u8], at: usize, row: &mut [u64]) -> usize
    requires { (is_read (parse_from row_size s.now at) ≡ true) × (length row.old ≡ row_size) }
    ensures { parse_from row_size s.now at ≡ numbers row.new result }
{
    let mut place = at;
    for i in 0..ROW {
        let Some((v, next)) = numbers::read_number(s, place) else {
            return place;
        };
        row[i] = v;
        place = next;
    }
    place
}

// Stores n records in the slots from 0 on.
pub fn store_rows(table: &mut [u64], s: &[u8], at: usize, n: usize, clock: u64)
    requires { (length table.old ≡ cell_count) × ((n ≤ slot_count) × ((clock ≤ max_time) × Loadable s.now at n)) }
    ensures { (l : List ℕ) (end : ℕ) → parse_from (n * row_size) s.now at ≡ numbers l end →
        state_of table.new ≡ stored_all clock n l (state_of table.old) }
{
    let mut row = [0u64; ROW];
    let mut place = at;
    for k in 0..n {
        place = read_row(s, place, &mut row);
        store_row(table, k, clock, &row);
    }
}
