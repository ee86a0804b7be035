// One saved record as a row of numbers.
ghost use Rattle.std.specs.Prelude.{◌≡◌, ◌+◌, ◌-◌, ◌≤◌, ◌<◌, [], ◌∷◌, length};
ghost use Rattle.std.proofs.lemmas.List.Edits.{sets};
ghost use Rattle.records.specs.Records.{slot_count};
ghost use Rattle.layout.specs.View.{state_of};
ghost use Rattle.saves.specs.Save.{row_size, topic_row, saved_row};
ghost use Rattle.save_write.specs.Keys.{Saves};

use crate::keys::left_at;
use records::{Peer, TOPICS, TopicRecord};

// How many numbers a record is: four, and five for each topic.
pub const ROW: usize = 44;

// What is left of a time, 0 when over.
fn left_of(end: u64, time: u64) -> u64
    ensures { result ≡ end - time }
{
    if end <= time { 0 } else { end - time }
}

// The four numbers of the peer.
fn put_peer(row: &mut [u64], p: Peer, time: u64)
    requires { length row.old ≡ row_size }
    ensures { row.new ≡ sets row.old 0 (p.id ∷ (p.retain - time) ∷ p.p5 ∷ p.p7 ∷ []) }
{
    row[0] = p.id;
    row[1] = left_of(p.retain, time);
    row[2] = p.p5;
    row[3] = p.p7;
}

// The five numbers of a topic.
fn put_topic(row: &mut [u64], at: usize, r: TopicRecord, left: u64)
    requires { at + 5 ≤ length row.old }
    ensures { row.new ≡ sets row.old at (topic_row r left) }
{
    row[at] = r.p2;
    row[at + 1] = r.p3;
    row[at + 2] = r.p3b;
    row[at + 3] = r.p4;
    row[at + 4] = left;
}

// The record in a slot.
pub fn fill_row(table: &[u64], slot: usize, time: u64, end: u64, row: &mut [u64])
    requires { Saves table.now time end × ((slot < slot_count) × (length row.old ≡ row_size)) }
    ensures { row.new ≡ saved_row (state_of table.now) time slot }
{
    let p = left_at(table, slot, time, end);
    let ends = p.backoff;
    put_peer(row, p, time);
    for t in 0..TOPICS {
        let r = layout::load_topic(table, slot * TOPICS + t);
        put_topic(row, 4 + t * 5, r, left_of(ends[t], time));
    }
}
