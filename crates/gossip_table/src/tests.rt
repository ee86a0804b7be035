// Test 12 of the array: the set-up numbers, the notes, the stores, the replies. What is not in use costs nothing.
ghost use Rattle.std.specs.Prelude.{◌≡◌, length};
ghost use Rattle.index.specs.Index.{every};
ghost use Rattle.records.specs.Records.{slot_count, topic_count, peer_in};
ghost use Rattle.layout.specs.View.{state_of};
ghost use Rattle.effects.specs.Effects.{is_joined};
ghost use Rattle.gossip.specs.Notes.{note_in, store_in, stored};
ghost use Rattle.gossip.specs.Valid.{setup_ok, note_ok, store_ok, replies_ok, gossip_ok};
ghost use Rattle.gossip_table.specs.View.{gossip_cells, gossip_of, setup_of};
ghost use Rattle.gossip_table.specs.Fine.{is_kept, Beside, Noted, Stored, Kept};

use crate::stored::row_stays;
use crate::{
    GOSSIP_CELLS, NOTES_AT, REPLIES_AT, SETUP, STORES_AT, load_factor, load_ihave_bound, load_lazy,
    load_limit, load_reply_bound,
};
use effects::slots::is_joined;
use records::{SLOTS, TOPICS};

// Whether the set-up numbers are in their ranges.
pub fn setup_ok(setup: &[u64; SETUP]) -> bool
    ensures { result ≡ setup_ok (setup_of setup.now) }
{
    let &[limit, lazy, factor, ihaves, replies] = setup;
    (1 <= limit)
        & (limit <= 32)
        & (lazy <= 48)
        & (factor <= 1000)
        & ((1 <= ihaves) & (ihaves <= 32))
        & ((1 <= replies) & (replies <= 32))
}

fn numbers_ok(gossip: &[u64]) -> bool
    requires { length gossip.now ≡ gossip_cells }
    ensures { result ≡ setup_ok (gossip_of gossip.now).setup }
{
    setup_ok(&[
        load_limit(gossip),
        load_lazy(gossip),
        load_factor(gossip),
        load_ihave_bound(gossip),
        load_reply_bound(gossip),
    ])
}

// The note of a slot.
fn note_ok(table: &[u64], gossip: &[u64], slot: usize, limit: u64, ihaves: u64) -> bool
    requires { Noted table.now gossip.now slot limit ihaves }
    ensures { result ≡ note_ok (gossip_of gossip.now).setup (peer_in (state_of table.now) slot)
        (note_in (gossip_of gossip.now) slot) }
{
    if notes::is_still(&gossip[NOTES_AT..STORES_AT], slot) {
        return true;
    }
    let status = layout::load_status(table, slot);
    notes::note_ok(
        &gossip[NOTES_AT..STORES_AT],
        slot,
        status == 1,
        status == 0,
        limit,
        ihaves,
    )
}

// The notes of all slots.
fn notes_ok(table: &[u64], gossip: &[u64]) -> bool
    requires { Beside table.now gossip.now }
    ensures { result ≡ every slot_count (λ s. note_ok (gossip_of gossip.now).setup
        (peer_in (state_of table.now) s) (note_in (gossip_of gossip.now) s)) }
{
    if notes::is_quiet(&gossip[NOTES_AT..STORES_AT]) {
        return true;
    }
    let limit = load_limit(gossip);
    let ihaves = load_ihave_bound(gossip);
    for slot in 0..SLOTS {
        if !note_ok(table, gossip, slot, limit, ihaves) {
            return false;
        }
    }
    true
}

// The stores of all topics.
fn stores_ok(table: &[u64], gossip: &[u64]) -> bool
    requires { Beside table.now gossip.now }
    ensures { result ≡ every topic_count (λ t. store_ok (is_joined (state_of table.now) t)
        (store_in (gossip_of gossip.now) t)) }
{
    if stores::is_quiet(&gossip[STORES_AT..REPLIES_AT]) {
        return true;
    }
    for t in 0..TOPICS {
        let joined = is_joined(table, t);
        if !stores::valid::store_ok(&gossip[STORES_AT..REPLIES_AT], t, joined) {
            return false;
        }
    }
    true
}

// Every row's number is stored.
fn rows_stored(gossip: &[u64]) -> bool
    requires { Kept gossip.now }
    ensures { result
        ≡ every (length (gossip_of gossip.now).replies) (is_kept (gossip_of gossip.now)) }
{
    let end = replies::rows(&gossip[REPLIES_AT..GOSSIP_CELLS]);
    for row in 0..end {
        if !row_stays(gossip, row) {
            return false;
        }
    }
    true
}

// The replies.
fn replies_ok(table: &[u64], gossip: &[u64]) -> bool
    requires { Stored table.now gossip.now }
    ensures { result ≡ replies_ok (state_of table.now) (gossip_of gossip.now).setup.replies
        (stored (gossip_of gossip.now)) (gossip_of gossip.now).replies }
{
    let connected = layout::load_connected(table);
    let most = load_reply_bound(gossip);
    replies::rows_ok(&gossip[REPLIES_AT..GOSSIP_CELLS], &connected, most) && rows_stored(gossip)
}

// Whether the array is a router's, beside a router's table.
pub fn is_gossip(table: &[u64], gossip: &[u64]) -> bool
    requires { Beside table.now gossip.now }
    ensures { result ≡ gossip_ok (state_of table.now) (gossip_of gossip.now) }
{
    if !numbers_ok(gossip) {
        return false;
    }
    if !notes_ok(table, gossip) {
        return false;
    }
    if !stores_ok(table, gossip) {
        return false;
    }
    replies_ok(table, gossip)
}
