// The flags of a router's table: a record is empty, connected or retained, an empty one has no flag, only connected peers are subscribed,
// and a member is a subscribed peer that is not explicit, of a joined topic.
ghost use Rattle.std.specs.Prelude.{◌≡◌, true, ℕ, ◌<◌, max, ◌%◌, ◌/◌, length};
ghost use Rattle.records.specs.Records.{peer_in, slot_count, topic_count};
ghost use Rattle.layout.specs.View.{cell_count, state_of, bit_at};
ghost use Rattle.slot_words.specs.Flags.{FreeSlots, PeerFlags, TopicFlags};

use crate::word;
use layout::WORDS;
use records::TOPICS;

// The slots that are not empty.
pub fn held(table: &[u64]) -> [u64; WORDS]
    requires { length table.now ≡ cell_count }
    ensures { (length result ≡ 4)
        × ((s : ℕ) →
        s < slot_count →
        bit_at result 0 s ≡ max ((peer_in (state_of table.now) s).status % 2) ((peer_in (state_of table.now) s).status / 2)) }
{
    word::union(
        &layout::load_connected(table),
        &layout::load_retained(table),
    )
}

// The slots that are.
pub fn free(table: &[u64]) -> [u64; WORDS]
    requires { length table.now ≡ cell_count }
    ensures { (length result ≡ 4) × FreeSlots (state_of table.now) result }
{
    let h = held(table);
    [
        word::without(h[0]),
        word::without(h[1]),
        word::without(h[2]),
        word::without(h[3]),
    ]
}

// Whether the flags of the peers are a router's, with no record from `used` on.
pub fn peer_flags(table: &[u64], used: u64) -> bool
    requires { length table.now ≡ cell_count }
    ensures { result ≡ true → PeerFlags (state_of table.now) used }
{
    let connected = layout::load_connected(table);
    let retained = layout::load_retained(table);
    let explicit = layout::load_explicit(table);
    let outbound = layout::load_outbound(table);
    let version = layout::load_version(table);
    let high = layout::load_version_high(table);
    let held = held(table);
    (word::common(&connected, &retained)
        | word::common(&version, &high)
        | word::outside(&explicit, &held)
        | word::outside(&outbound, &held)
        | word::outside(&version, &held)
        | word::outside(&high, &held)
        | layout::past(&held, 0, used))
        == 0
}

fn topic_flags(table: &[u64], t: usize) -> bool
    requires { (length table.now ≡ cell_count) × (t < topic_count) }
    ensures { result ≡ true → TopicFlags (state_of table.now) t }
{
    let connected = layout::load_connected(table);
    let explicit = layout::load_explicit(table);
    let subscribed = layout::load_subscribed(table, t);
    let members = layout::load_members(table, t);
    let joined = layout::load_joined(table, t);
    let wrong = word::outside(&subscribed, &connected)
        | word::outside(&members, &subscribed)
        | word::common(&members, &explicit);
    (wrong == 0) & ((joined == 1) | (word::any(&members) == 0))
}

// Whether the subscriptions and memberships of every topic are a router's.
pub fn topics_flags(table: &[u64]) -> bool
    requires { length table.now ≡ cell_count }
    ensures { result ≡ true → (t : ℕ) → t < topic_count → TopicFlags (state_of table.now) t }
{
    for t in 0..TOPICS {
        if !topic_flags(table, t) {
            return false;
        }
    }
    true
}
