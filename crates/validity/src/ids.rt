// Test 12's "no id stands twice". An id is compared with those of lower slots only where one of them fell into the same bucket, so that a
// table of random ids is asked little; of the worst ids every pair is compared.
ghost use Rattle.std.specs.Prelude.{◌≡◌, not, ◌||◌, ◌+◌, ◌<◌, length};
ghost use Rattle.index.specs.Index.{every};
ghost use Rattle.records.specs.Records.{slot_count};
ghost use Rattle.layout.specs.View.{state_of, cell_count};
ghost use Rattle.validity.specs.Order.{Seen, Seeing, UpTo};
ghost use Rattle.validity.specs.Valid.{apart, new_id};

use marks::{WORDS, bucket, is_marked, mark};

// Whether two ids differ, or are none.
pub fn apart(a: u64, b: u64) -> bool
    ensures { result ≡ apart a b }
{
    !((b == a) & !(a == 0))
}

// Whether the id in a slot stands in no lower slot.
fn new_id(table: &[u64], slot: usize) -> bool
    requires { (length table.now ≡ cell_count) × (slot < slot_count) }
    ensures { result ≡ new_id (state_of table.now) slot }
{
    let id = layout::load_id(table, slot);
    for k in 0..slot {
        if !apart(id, layout::load_id(table, k)) {
            return false;
        }
    }
    true
}

// The same, asked only where its bucket is known.
fn new_where(known: bool, table: &[u64], slot: usize) -> bool
    requires { (length table.now ≡ cell_count) × (slot < slot_count) }
    ensures { result ≡ (not known || new_id (state_of table.now) slot) }
{
    if !known {
        return true;
    }
    new_id(table, slot)
}

// Whether the id in a slot stands in no lower slot, of which every id has marked its bucket; then it has marked its own.
fn next_new(table: &[u64], seen: &mut [u64; WORDS], slot: usize) -> bool
    requires { Seeing table.now seen.old slot }
    ensures { (result ≡ new_id (state_of table.now) slot) × Seen (state_of table.now) seen.new (slot + 1) }
{
    let id = layout::load_id(table, slot);
    if id == 0 {
        return true;
    }
    let b = bucket(id);
    let known = is_marked(seen, b);
    mark(seen, b);
    new_where(known, table, slot)
}

// Whether no id stands twice, where every record from `end` on is empty.
pub fn ids_distinct(table: &[u64], end: usize) -> bool
    requires { UpTo table.now end }
    ensures { result ≡ every slot_count (new_id (state_of table.now)) }
{
    let mut seen: [u64; WORDS] = [0; WORDS];
    for slot in 0..end {
        if !next_new(table, &mut seen, slot) {
            return false;
        }
    }
    true
}
