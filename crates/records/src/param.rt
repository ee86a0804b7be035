// Places of the parameters in 01's order: the general ones, then those of a topic, counted from its first.
pub const D_LO: usize = 0;

pub const D: usize = 1;

pub const D_HI: usize = 2;

pub const D_OUT: usize = 3;

pub const D_SCORE: usize = 4;

pub const PRUNE_BACKOFF: usize = 5;

pub const UNSUBSCRIBE_BACKOFF: usize = 6;

pub const RETAIN: usize = 7;

pub const OPPORTUNISTIC_THRESHOLD: usize = 8;

pub const GRAYLIST_THRESHOLD: usize = 9;

pub const GOSSIP_THRESHOLD: usize = 10;

pub const PUBLISH_THRESHOLD: usize = 11;

pub const TOPIC_CAP: usize = 12;

pub const W5: usize = 13;

pub const W6: usize = 14;

pub const P6_THRESHOLD: usize = 15;

pub const W7: usize = 16;

pub const P7_DECAY: usize = 17;

pub const DECAY_TO_ZERO: usize = 18;

pub const WEIGHT: usize = 0;

pub const W1: usize = 1;

pub const P1_QUANTUM: usize = 2;

pub const P1_CAP: usize = 3;

pub const W2: usize = 4;

pub const P2_DECAY: usize = 5;

pub const P2_CAP: usize = 6;

pub const W3: usize = 7;

pub const P3_DECAY: usize = 8;

pub const P3_CAP: usize = 9;

pub const P3_THRESHOLD: usize = 10;

pub const P3_ACTIVATION: usize = 11;

pub const W3B: usize = 12;

pub const P3B_DECAY: usize = 13;

pub const W4: usize = 14;

pub const P4_DECAY: usize = 15;
