// The peer that a call of orders 6 and 7 comes from.
ghost use Rattle.std.specs.Prelude.{◌≡◌};
ghost use Rattle.gossip_table.specs.View.{extended_of};
ghost use Rattle.gossip_table.specs.Fine.{Both};
ghost use Rattle.gossip_peers.specs.Callers.{admitted_peer};

use gossip_gate::{NOT_CONNECTED, admit};
use lookup::find::find_connected;

// The slot of the peer with the id behind the tests 12, 2, 8, 1 and 3, or the number of the test that is not passed.
// That number is what C reads, and a call hands it on as it is.
pub fn admit_peer(
    table: &[u64],
    gossip: &[u64],
    fine: bool,
    fits: bool,
    time: u64,
    id: u64,
) -> Result<usize, u64>
    requires { Both table.now gossip.now }
    ensures { result ≡ admitted_peer (extended_of table.now gossip.now) fine fits time id }
{
    let refusal = admit(table, gossip, fine, fits, time);
    if refusal != 0 {
        return Err(refusal);
    }
    find_connected(table, id).ok_or(NOT_CONNECTED)
}
