// The message numbers that the topics store, and the replies that were given with them.
ghost use Rattle.std.specs.Prelude.{◌≡◌, false, [], map, ℕ, ◌<◌, ltb, length, get_or};
ghost use Rattle.std.proofs.lemmas.List.Edits.{sets};
ghost use Rattle.gossip.specs.Notes.{no_store, store_in, set_store, set_replies, stored_in, stored, count_in, replied, ended, moved, added};
ghost use Rattle.gossip.specs.Notes.{window_most, rows_most, forget as forgetOf};
ghost use Rattle.gossip.specs.Step.{running, announced, wanted};
ghost use Rattle.gossip.specs.Valid.{row_number};
ghost use Rattle.stores.specs.View.{PlaceOf};
ghost use Rattle.gossip_table.specs.View.{gossip_of, set_stores};
ghost use Rattle.gossip_table.specs.Fine.{Fine, FineSlot, FineTopic, Kept, KeptRow, KeptSlot, ReplyFits, StoreFits, Announces, Wants};

use crate::{GOSSIP_CELLS, REPLIES_AT, STORES_AT};
use replies::ROWS;

// Whether a topic stores a number.
pub fn is_stored_in(gossip: &[u64], topic: usize, number: u64) -> bool
    requires { FineTopic gossip.now topic }
    ensures { result ≡ stored_in (store_in (gossip_of gossip.now) topic) number }
{
    stores::is_stored_in(&gossip[STORES_AT..REPLIES_AT], topic, number)
}

// Whether this heartbeat of a topic has room for a number.
pub fn has_room(gossip: &[u64], topic: usize) -> bool
    requires { FineTopic gossip.now topic }
    ensures { result ≡ ltb (running (store_in (gossip_of gossip.now) topic)) window_most }
{
    stores::has_room(&gossip[STORES_AT..REPLIES_AT], topic)
}

// Stores it.
pub fn add(gossip: &mut [u64], topic: usize, number: u64)
    requires { StoreFits gossip.old topic }
    ensures { gossip_of gossip.new
        ≡ set_store (gossip_of gossip.old) topic (added number (store_in (gossip_of gossip.old) topic)) }
{
    stores::add(&mut gossip[STORES_AT..REPLIES_AT], topic, number);
}

// The numbers that are announced, into a lent list; how many they are.
pub fn announce(gossip: &[u64], topic: usize, list: &mut [u64]) -> usize
    requires { Announces gossip.now topic list.old }
    ensures { (list.new
        ≡ sets list.old 0 (announced (store_in (gossip_of gossip.now) topic)))
        × (result ≡ length (announced (store_in (gossip_of gossip.now) topic))) }
{
    stores::announce(&gossip[STORES_AT..REPLIES_AT], topic, list)
}

// Those of the given numbers that no topic stores, each once; how many they are.
pub fn want(gossip: &[u64], given: &[u64], list: &mut [u64]) -> usize
    requires { Wants gossip.now given.now list.old }
    ensures { (list.new
        ≡ sets list.old 0 (wanted (stored (gossip_of gossip.now)) [] given.now))
        × (result ≡ length (wanted (stored (gossip_of gossip.now)) [] given.now)) }
{
    stores::wants::want(&gossip[STORES_AT..REPLIES_AT], given, list)
}

// The place of a stored number.
pub fn find(gossip: &[u64], number: u64) -> Option<usize>
    requires { Fine gossip.now }
    ensures { PlaceOf (stored (gossip_of gossip.now) number) result }
{
    stores::find(&gossip[STORES_AT..REPLIES_AT], number)
}

// How often a connection was answered with a number.
pub fn count(gossip: &[u64], number: u64, slot: usize) -> u64
    requires { FineSlot gossip.now slot }
    ensures { result ≡ count_in (gossip_of gossip.now).replies number slot }
{
    replies::count(&gossip[REPLIES_AT..GOSSIP_CELLS], number, slot)
}

// One reply more.
pub fn reply(gossip: &mut [u64], number: u64, slot: usize, place: u64)
    requires { ReplyFits gossip.old number slot }
    ensures { gossip_of gossip.new
        ≡ set_replies (gossip_of gossip.old) (replied number slot (gossip_of gossip.old).replies) }
{
    replies::reply(&mut gossip[REPLIES_AT..GOSSIP_CELLS], number, slot, place);
}

// A connection's counts end with it.
pub fn end(gossip: &mut [u64], slot: usize)
    requires { KeptSlot gossip.old slot }
    ensures { gossip_of gossip.new
        ≡ set_replies (gossip_of gossip.old) (ended slot (gossip_of gossip.old).replies) }
{
    replies::end(&mut gossip[REPLIES_AT..GOSSIP_CELLS], slot);
}

// Whether the number of a row is stored still.
pub fn row_stays(gossip: &[u64], row: usize) -> bool
    requires { KeptRow gossip.now row }
    ensures { result
        ≡ stored (gossip_of gossip.now) (get_or (map row_number (gossip_of gossip.now).replies) row 0) }
{
    let number = replies::row_number(&gossip[REPLIES_AT..GOSSIP_CELLS], row);
    let hint = replies::row_hint(&gossip[REPLIES_AT..GOSSIP_CELLS], row);
    stores::is_stored_at(&gossip[STORES_AT..REPLIES_AT], hint, number)
}

// Which rows stay.
fn rows_that_stay(gossip: &[u64], flags: &mut [bool])
    requires { Kept gossip.now × (length flags.old ≡ rows_most) }
    ensures { (k : ℕ) → k < length (gossip_of gossip.now).replies → get_or flags.new k false
        ≡ stored (gossip_of gossip.now) (get_or (map row_number (gossip_of gossip.now).replies) k 0) }
{
    let end = replies::rows(&gossip[REPLIES_AT..GOSSIP_CELLS]);
    for row in 0..end {
        flags[row] = row_stays(gossip, row);
    }
}

// Replies with numbers that no topic stores any more go.
pub fn forget(gossip: &mut [u64])
    requires { Kept gossip.old }
    ensures { gossip_of gossip.new ≡ forgetOf (gossip_of gossip.old) }
{
    let mut flags: [bool; ROWS] = [false; ROWS];
    rows_that_stay(gossip, &mut flags);
    replies::keep_rows(&mut gossip[REPLIES_AT..GOSSIP_CELLS], &flags);
}

// A topic's store is emptied.
fn empty_store(gossip: &mut [u64], topic: usize)
    requires { FineTopic gossip.old topic }
    ensures { (gossip_of gossip.new ≡ set_store (gossip_of gossip.old) topic no_store)
        × Kept gossip.new }
{
    stores::empty(&mut gossip[STORES_AT..REPLIES_AT], topic);
}

pub fn empty(gossip: &mut [u64], topic: usize)
    requires { FineTopic gossip.old topic }
    ensures { gossip_of gossip.new ≡ forgetOf (set_store (gossip_of gossip.old) topic no_store) }
{
    empty_store(gossip, topic);
    forget(gossip);
}

// A new heartbeat of all stores.
pub fn move_on(gossip: &mut [u64])
    requires { Kept gossip.old }
    ensures { (gossip_of gossip.new
        ≡ set_stores (gossip_of gossip.old) (map moved (gossip_of gossip.old).stores))
        × Kept gossip.new }
{
    stores::move_on(&mut gossip[STORES_AT..REPLIES_AT]);
}
