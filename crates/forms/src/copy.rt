// A router's state copied from one form into the other, part by part.
ghost use Rattle.std.specs.Prelude.{◌≡◌, true, ◌*◌, ◌≤◌, length};
ghost use Rattle.records.specs.Records.{slot_count, topic_count};
ghost use Rattle.layout.specs.View.{place_count, cell_count, state_of, EmptyFrom};
ghost use Rattle.rows.specs.View.{rows_count, state_of_rows};
ghost use Rattle.validity.specs.Valid.{valid};
ghost use Rattle.forms.specs.Turns.{copy_joined, copy_peers, copy_topics, Between, Back};

use layout::PARAMS;
use records::{SLOTS, TOPICS};

// How many records the peers have for the topics.
const PLACES: usize = SLOTS * TOPICS;

fn joined_from(rows: &[u64], table: &mut [u64])
    requires { Between rows.now table.old }
    ensures { state_of table.new
        ≡ copy_joined topic_count (state_of_rows rows.now) (state_of table.old) }
{
    for t in 0..TOPICS {
        layout::store_joined(table, t, rows::load_joined(rows, t));
    }
}

// The slot after the last record that is not empty, which is the last with an id.
fn records_end(rows: &[u64]) -> usize
    requires { (length rows.now ≡ rows_count) × (valid (state_of_rows rows.now) ≡ true) }
    ensures { (result ≤ slot_count) × EmptyFrom (state_of_rows rows.now) result }
{
    for s in (0..SLOTS).rev() {
        if rows::load_id(rows, s) != 0 {
            return s + 1;
        }
    }
    0
}

// The first n records: what lies past the last one that is not empty is not stored, so that the table's mark stays there.
fn peers_from(rows: &[u64], table: &mut [u64], n: usize)
    requires { Between rows.now table.old × (n ≤ slot_count) }
    ensures { state_of table.new ≡ copy_peers n (state_of_rows rows.now) (state_of table.old) }
{
    for s in 0..n {
        layout::store_peer(table, s, rows::load_peer(rows, s));
    }
}

fn topics_from(rows: &[u64], table: &mut [u64], n: usize)
    requires { Between rows.now table.old × (n ≤ slot_count) }
    ensures { state_of table.new
        ≡ copy_topics (n * topic_count) (state_of_rows rows.now) (state_of table.old) }
{
    for k in 0..n * TOPICS {
        layout::store_topic(table, k, rows::load_topic(rows, k));
    }
}

// The state of a router's table of the old form.
pub fn fill_table(rows: &[u64], table: &mut [u64])
    requires { Between rows.now table.old }
    ensures { state_of table.new ≡ state_of_rows rows.now }
{
    layout::clear(table);
    layout::store_clock(table, rows::load_clock(rows));
    joined_from(rows, table);
    layout::store_codes(table, rows::codes(rows));
    layout::store_setup(table, rows::load_setup(rows));
    let n = records_end(rows);
    peers_from(rows, table, n);
    topics_from(rows, table, n);
}

fn joined_to(table: &[u64], rows: &mut [u64])
    requires { Back table.now rows.old }
    ensures { state_of_rows rows.new
        ≡ copy_joined topic_count (state_of table.now) (state_of_rows rows.old) }
{
    for t in 0..TOPICS {
        rows::store_joined(rows, t, layout::load_joined(table, t));
    }
}

fn peers_to(table: &[u64], rows: &mut [u64])
    requires { Back table.now rows.old }
    ensures { state_of_rows rows.new
        ≡ copy_peers slot_count (state_of table.now) (state_of_rows rows.old) }
{
    for s in 0..SLOTS {
        rows::store_peer(rows, s, layout::load_peer(table, s));
    }
}

fn topics_to(table: &[u64], rows: &mut [u64])
    requires { Back table.now rows.old }
    ensures { state_of_rows rows.new
        ≡ copy_topics place_count (state_of table.now) (state_of_rows rows.old) }
{
    for k in 0..PLACES {
        rows::store_topic(rows, k, layout::load_topic(table, k));
    }
}

// The codes of a router's parameters.
fn codes(table: &[u64]) -> [u64; PARAMS]
    requires { (length table.now ≡ cell_count) × (valid (state_of table.now) ≡ true) }
    ensures { result ≡ (state_of table.now).codes }
{
    let mut r = [0u64; PARAMS];
    for i in 0..PARAMS {
        r[i] = layout::load_code(table, i);
    }
    r
}

// The state of a router's table.
pub fn fill_rows(table: &[u64], rows: &mut [u64])
    requires { Back table.now rows.old }
    ensures { state_of_rows rows.new ≡ state_of table.now }
{
    rows::store_clock(rows, layout::load_clock(table));
    joined_to(table, rows);
    let c = codes(table);
    rows::store_codes(rows, &c);
    rows::store_setup(rows, layout::load_setup(table));
    peers_to(table, rows);
    topics_to(table, rows);
}
