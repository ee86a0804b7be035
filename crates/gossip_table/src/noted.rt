// The notes of the peers: their IDONTWANT sets, and the counts of a heartbeat.
ghost use Rattle.std.specs.Prelude.{◌≡◌, map, ltb};
ghost use Rattle.gossip.specs.Notes.{no_note, note_in, set_note, holds as holds_of};
ghost use Rattle.gossip.specs.Step.{has_room, with_put, with_ihave, parted, beaten};
ghost use Rattle.gossip_table.specs.View.{gossip_of, set_notes};
ghost use Rattle.gossip_table.specs.Fine.{Fine, FineSlot, HasRoom, Lent};

use crate::{NOTES_AT, STORES_AT, load_ihave_bound, load_limit};

// Whether a peer's set holds a number.
pub fn holds(gossip: &[u64], slot: usize, number: u64) -> bool
    requires { FineSlot gossip.now slot }
    ensures { result ≡ holds_of (note_in (gossip_of gossip.now) slot) number }
{
    notes::holds(&gossip[NOTES_AT..STORES_AT], slot, number)
}

// Whether a number more may be put into it.
pub fn has_room(gossip: &[u64], slot: usize) -> bool
    requires { FineSlot gossip.now slot }
    ensures { result ≡ has_room (gossip_of gossip.now).setup (note_in (gossip_of gossip.now) slot) }
{
    let limit = load_limit(gossip);
    notes::has_room(&gossip[NOTES_AT..STORES_AT], slot, limit)
}

// Puts it in.
pub fn put(gossip: &mut [u64], slot: usize, number: u64)
    requires { HasRoom gossip.old slot }
    ensures { gossip_of gossip.new
        ≡ set_note (gossip_of gossip.old) slot (with_put number (note_in (gossip_of gossip.old) slot)) }
{
    notes::put(&mut gossip[NOTES_AT..STORES_AT], slot, number);
}

// Whether an IHAVE more of a peer is answered in this heartbeat.
pub fn may_ihave(gossip: &[u64], slot: usize) -> bool
    requires { FineSlot gossip.now slot }
    ensures { result
        ≡ ltb (note_in (gossip_of gossip.now) slot).ihaves (gossip_of gossip.now).setup.ihaves }
{
    let bound = load_ihave_bound(gossip);
    notes::load_ihaves(&gossip[NOTES_AT..STORES_AT], slot) < bound
}

// Counts it.
pub fn count_ihave(gossip: &mut [u64], slot: usize)
    requires { FineSlot gossip.old slot }
    ensures { gossip_of gossip.new
        ≡ set_note (gossip_of gossip.old) slot (with_ihave (note_in (gossip_of gossip.old) slot)) }
{
    notes::count_ihave(&mut gossip[NOTES_AT..STORES_AT], slot);
}

// A connection ends: its set goes, and the counts stay with the record.
pub fn part(gossip: &mut [u64], slot: usize)
    requires { Lent gossip.old slot }
    ensures { gossip_of gossip.new
        ≡ set_note (gossip_of gossip.old) slot (parted (note_in (gossip_of gossip.old) slot)) }
{
    notes::part(&mut gossip[NOTES_AT..STORES_AT], slot);
}

// A record is given up.
pub fn clear(gossip: &mut [u64], slot: usize)
    requires { Lent gossip.old slot }
    ensures { gossip_of gossip.new ≡ set_note (gossip_of gossip.old) slot no_note }
{
    notes::clear(&mut gossip[NOTES_AT..STORES_AT], slot);
}

// A heartbeat of all notes.
pub fn beat(gossip: &mut [u64])
    requires { Fine gossip.old }
    ensures { gossip_of gossip.new
        ≡ set_notes (gossip_of gossip.old) (map beaten (gossip_of gossip.old).notes) }
{
    notes::beat(&mut gossip[NOTES_AT..STORES_AT]);
}
