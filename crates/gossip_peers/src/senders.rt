// What a call asks of the peer that sent it.
ghost use Rattle.std.specs.Prelude.{◌≡◌, length};
ghost use Rattle.layout.specs.View.{cell_count, state_of};
ghost use Rattle.peer_score.specs.Standing.{SlotStanding};
ghost use Rattle.gossip.specs.Step.{is_heeded, under_gossip};
ghost use Rattle.gossip_peers.specs.Peers.{is_known};

use effects::slots::load_magnitude;
use gate::see_sender;
use lookup::find::find_connected;
use records::param;
use score::sums::is_below;

// The version that takes part in notices: 1.2.0.
pub const NOTICE_VERSION: u64 = 2;

// Whether an IDONTWANT of the peer in a slot counts: it is no older one, and not graylisted. The version comes first: a score costs more.
pub fn is_heeded(table: &[u64], slot: usize) -> bool
    requires { SlotStanding table.now slot }
    ensures { result ≡ is_heeded (state_of table.now) slot }
{
    let p = layout::load_peer(table, slot);
    if p.version != NOTICE_VERSION {
        return false;
    }
    let sender = see_sender(table, slot);
    !sender.graylisted
}

// Whether the peer in a slot is not explicit and scores below the gossip threshold.
pub fn under_gossip(table: &[u64], slot: usize) -> bool
    requires { SlotStanding table.now slot }
    ensures { result ≡ under_gossip (state_of table.now) slot }
{
    let p = layout::load_peer(table, slot);
    let b = peer_score::score_of(table, slot, p);
    (p.explicit == 0) & is_below(b, load_magnitude(table, param::GOSSIP_THRESHOLD))
}

// Whether a message's sender is ourselves (0) or connected.
pub fn sender_known(table: &[u64], sender: u64) -> bool
    requires { length table.now ≡ cell_count }
    ensures { result ≡ is_known (state_of table.now) sender }
{
    if sender == 0 {
        return true;
    }
    match find_connected(table, sender) {
        Some(slot) => true,
        None => false,
    }
}
