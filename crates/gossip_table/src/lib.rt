// The array of orders 6 and 7: five set-up numbers, then three parts, each known to a crate of its own. A function here lends one part to
// that crate, and promises what becomes of the whole.
#![tactic(auto)]

pub mod made;
pub mod noted;
pub mod stored;
pub mod tests;

ghost use Rattle.std.specs.Prelude.{◌≡◌, length};
ghost use Rattle.gossip_table.specs.View.{gossip_cells, gossip_of};

use notes::NOTES_CELLS;
use replies::REPLIES_CELLS;
use stores::STORES_CELLS;

// Where the parts begin.
pub const NOTES_AT: usize = 8;

pub const STORES_AT: usize = NOTES_AT + NOTES_CELLS;

pub const REPLIES_AT: usize = STORES_AT + STORES_CELLS;

// How many numbers the array has.
pub const GOSSIP_CELLS: usize = REPLIES_AT + REPLIES_CELLS;

// The set-up numbers: the limit, D_lazy, the factor, the bounds of IHAVEs and of replies.
pub const SETUP: usize = 5;

pub fn load_limit(gossip: &[u64]) -> u64
    requires { length gossip.now ≡ gossip_cells }
    ensures { result ≡ (gossip_of gossip.now).setup.limit }
{
    gossip[0]
}

pub fn load_lazy(gossip: &[u64]) -> u64
    requires { length gossip.now ≡ gossip_cells }
    ensures { result ≡ (gossip_of gossip.now).setup.lazy }
{
    gossip[1]
}

pub fn load_factor(gossip: &[u64]) -> u64
    requires { length gossip.now ≡ gossip_cells }
    ensures { result ≡ (gossip_of gossip.now).setup.factor }
{
    gossip[2]
}

pub fn load_ihave_bound(gossip: &[u64]) -> u64
    requires { length gossip.now ≡ gossip_cells }
    ensures { result ≡ (gossip_of gossip.now).setup.ihaves }
{
    gossip[3]
}

pub fn load_reply_bound(gossip: &[u64]) -> u64
    requires { length gossip.now ≡ gossip_cells }
    ensures { result ≡ (gossip_of gossip.now).setup.replies }
{
    gossip[4]
}
