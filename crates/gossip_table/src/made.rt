// A router's array in which nothing is held.
ghost use Rattle.std.specs.Prelude.{◌≡◌, [], length, replicate};
ghost use Rattle.records.specs.Records.{slot_count, topic_count};
ghost use Rattle.gossip.specs.Notes.{no_note, no_store, set_replies, fresh_gossip};
ghost use Rattle.gossip_table.specs.View.{gossip_cells, gossip_of, setup_of, set_notes, set_stores, set_setup};

use crate::{GOSSIP_CELLS, NOTES_AT, REPLIES_AT, SETUP, STORES_AT};

fn make_notes(gossip: &mut [u64])
    requires { length gossip.old ≡ gossip_cells }
    ensures { gossip_of gossip.new ≡ set_notes (gossip_of gossip.old) (replicate slot_count no_note) }
{
    notes::make(&mut gossip[NOTES_AT..STORES_AT]);
}

fn make_stores(gossip: &mut [u64])
    requires { length gossip.old ≡ gossip_cells }
    ensures { gossip_of gossip.new ≡ set_stores (gossip_of gossip.old) (replicate topic_count no_store) }
{
    stores::make(&mut gossip[STORES_AT..REPLIES_AT]);
}

fn make_replies(gossip: &mut [u64])
    requires { length gossip.old ≡ gossip_cells }
    ensures { gossip_of gossip.new ≡ set_replies (gossip_of gossip.old) [] }
{
    replies::make(&mut gossip[REPLIES_AT..GOSSIP_CELLS]);
}

// The set-up numbers into the head.
fn make_head(gossip: &mut [u64], setup: &[u64; SETUP])
    requires { length gossip.old ≡ gossip_cells }
    ensures { gossip_of gossip.new ≡ set_setup (gossip_of gossip.old) (setup_of setup.now) }
{
    gossip[..SETUP].copy_from_slice(setup);
}

// Whatever stood there.
pub fn make(gossip: &mut [u64], setup: &[u64; SETUP])
    requires { length gossip.old ≡ gossip_cells }
    ensures { gossip_of gossip.new ≡ fresh_gossip (setup_of setup.now) }
{
    make_notes(gossip);
    make_stores(gossip);
    make_replies(gossip);
    make_head(gossip, setup);
}
