// Mesh maintenance, the heartbeat's work for one topic: from what it sees at its start to the mesh that each of its five steps leaves, and
// to the actions that tell the peers. Its promises cite specs/Maintenance.antt, which follows the paper's words.
#![tactic(auto)]

pub mod actions;
pub mod steps;
pub mod still;

use words::WORDS;

// The number that stands for a score of 0: a score s is given as ZERO_SCORE + s.
pub const ZERO_SCORE: u64 = 2_600_000_000_000_000_000;

// The parameters that maintenance goes by: D_lo, D, D_hi, D_out, D_score, and the opportunistic threshold as a score is given.
#[derive(Clone, Copy)]
pub struct Degrees {
    pub lo: u64,
    pub d: u64,
    pub hi: u64,
    pub out: u64,
    pub score: u64,
    pub threshold: u64,
}

// What maintenance sees at its start: sets of slots, and whether it is asked for opportunistic grafts. The scores by slot and the
// permutation are lent beside it; together they are the rules' view (`view_of`).
#[derive(Clone, Copy)]
pub struct Seen {
    pub members: [u64; WORDS],
    pub candidates: [u64; WORDS],
    pub outbound: [u64; WORDS],
    pub ask: bool,
}

// The mesh that each step leaves.
#[derive(Clone, Copy)]
pub struct Stages {
    pub first: [u64; WORDS],
    pub second: [u64; WORDS],
    pub third: [u64; WORDS],
    pub fourth: [u64; WORDS],
    pub fifth: [u64; WORDS],
}

// Of the form of `Stages`, and a type of its own, so that no mesh is taken for a change (specs: Meshes and Changes).
// What each step changes: the members that steps 1 and 3 PRUNE, and the candidates that steps 2, 4 and 5 graft.
#[derive(Clone, Copy)]
pub struct Moves {
    pub first: [u64; WORDS],
    pub second: [u64; WORDS],
    pub third: [u64; WORDS],
    pub fourth: [u64; WORDS],
    pub fifth: [u64; WORDS],
}
