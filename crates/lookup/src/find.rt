// Which slot a call means. The definitions are specs/Find.antt.
ghost use Rattle.std.specs.Prelude.{◌≡◌, ◌<◌, length};
ghost use Rattle.index.specs.Index.{first};
ghost use Rattle.records.specs.Records.{peer_in, is_empty, slot_count};
ghost use Rattle.layout.specs.View.{state_of, cell_count};
ghost use Rattle.lookup.specs.Find.{holds, find_connected, find_retained, lowest_empty};

use records::SLOTS;

// Whether the record in a slot has this status and holds the id.
fn holds(table: &[u64], status: u64, id: u64, slot: usize) -> bool
    requires { (length table.now ≡ cell_count) × (slot < slot_count) }
    ensures { result ≡ holds (state_of table.now) status id slot }
{
    let own = layout::load_status(table, slot);
    let held = layout::load_id(table, slot);
    (own == status) & (held == id)
}

fn find(table: &[u64], status: u64, id: u64) -> Option<usize>
    requires { length table.now ≡ cell_count }
    ensures { result ≡ first slot_count (holds (state_of table.now) status id) }
{
    (0..SLOTS).find(|slot| holds(table, status, id, *slot))
}

// The slot of the connected record that holds the id.
pub fn find_connected(table: &[u64], id: u64) -> Option<usize>
    requires { length table.now ≡ cell_count }
    ensures { result ≡ find_connected (state_of table.now) id }
{
    find(table, 1, id)
}

// The slot of the retained record that holds the id.
pub fn find_retained(table: &[u64], id: u64) -> Option<usize>
    requires { length table.now ≡ cell_count }
    ensures { result ≡ find_retained (state_of table.now) id }
{
    find(table, 2, id)
}

fn is_empty(table: &[u64], slot: usize) -> bool
    requires { (length table.now ≡ cell_count) × (slot < slot_count) }
    ensures { result ≡ is_empty (peer_in (state_of table.now) slot) }
{
    layout::load_status(table, slot) == 0
}

// The lowest empty slot.
pub fn lowest_empty(table: &[u64]) -> Option<usize>
    requires { length table.now ≡ cell_count }
    ensures { result ≡ lowest_empty (state_of table.now) }
{
    (0..SLOTS).find(|slot| is_empty(table, *slot))
}
