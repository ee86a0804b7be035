// The records that the router holds (01, "What the router holds"). Every field is a number, and a flag is 0 or 1, so that an empty record
// is all zeros. A new field changes the layout (crate layout), the test of a table (crate validity) and the definitions that write a record
// field by field (crates effects and score).
#![tactic(auto)]

pub mod param;

// How many peers the router holds, and how many topics.
pub const SLOTS: usize = 256;

pub const TOPICS: usize = 8;

// The numbers of an action list: three for each slot.
pub const ACTION_ROOM: usize = 3 * SLOTS;

// What a router was made with beside the numbers of its parameters. Another such number is another field.
#[derive(Clone, Copy)]
pub struct Setup {
    // the number of the parameters' edition
    pub edition: u64,
}

// The address groups of a peer, lowest first, for P6 (IP colocation). Each is 0 for none, else the group + 1, since 0 is a group.
#[derive(Clone, Copy)]
pub struct Groups {
    pub first: u64,
    pub second: u64,
    pub third: u64,
    pub fourth: u64,
}

// A peer's record, without what it holds for each topic.
#[derive(Clone, Copy)]
pub struct Peer {
    // 0 empty, 1 connected, 2 retained after a disconnect
    pub status: u64,
    pub id: u64,
    pub groups: Groups,
    // the direction: 1 where we opened the connection
    pub outbound: u64,
    // 1 for an explicit peer
    pub explicit: u64,
    // 0 for /meshsub/1.0.0, 1 for /meshsub/1.1.0
    pub version: u64,
    // P5, the application-specific score: set by the host, as the code of a signed number (crate varint)
    pub p5: u64,
    // P7, the behaviour penalty: a counter
    pub p7: u64,
    // the retain end, 0 unless retained
    pub retain: u64,
    // one backoff end for each of the eight topics
    pub backoff: [u64; 8],
}

// What a peer's record holds for one topic. The counters that a delivery adds to come first.
#[derive(Clone, Copy)]
pub struct TopicRecord {
    // P2, first message deliveries
    pub p2: u64,
    // P3, deliveries as a mesh member: what is missing of the threshold is the deficit
    pub p3: u64,
    // P4, invalid messages
    pub p4: u64,
    // P3b, the mesh failure penalty
    pub p3b: u64,
    pub subscribed: u64,
    // 1 for a member of our mesh
    pub member: u64,
    // the graft time and the mesh time (P1, time in mesh), 0 for a non-member
    pub graft: u64,
    pub mesh: u64,
}
