// Scores (01, "Scores, without rounding") and decay, by value. A score is a whole number of 10^-9 points, held as what is gained less what
// is lost, so that all arithmetic is unsigned. A new number of a topic is a field of `TopicParams`.
#![tactic(auto)]

pub mod counters;
pub mod sums;
pub mod topic;

// One topic's parameters, in the order of the table of parameters. The weights that are never positive, w3, w3b and w4, stand without
// their sign.
#[derive(Clone, Copy)]
pub struct TopicParams {
    pub weight: u64,
    pub w1: u64,
    pub quantum: u64,
    pub cap1: u64,
    pub w2: u64,
    pub decay2: u64,
    pub cap2: u64,
    pub w3: u64,
    pub decay3: u64,
    pub cap3: u64,
    pub threshold: u64,
    pub activation: u64,
    pub w3b: u64,
    pub decay3b: u64,
    pub w4: u64,
    pub decay4: u64,
}

// The general parameters that a score takes: the topic cap, w5, w6 and w7 (the last two without their sign), and the threshold of P6.
#[derive(Clone, Copy)]
pub struct ScoreParams {
    pub cap: u64,
    pub w5: u64,
    pub w6: u64,
    pub threshold: u64,
    pub w7: u64,
}

// How many connected peers hold each of a peer's address groups, itself counted; 0 where it holds none. By the fields of `Groups`, whose
// names the definitions of P6 cite; counts of peers are no groups, and so have a type of their own.
#[derive(Clone, Copy)]
pub struct Sharers {
    pub first: u64,
    pub second: u64,
    pub third: u64,
    pub fourth: u64,
}

// A score, or a part of one: the number gain - loss.
#[derive(Clone, Copy)]
pub struct Balance {
    pub gain: u64,
    pub loss: u64,
}

// The parts of a score: the topics' total before the cap and after it, P5's part, and what P6 and P7 take away. The last four add up to
// the score.
#[derive(Clone, Copy)]
pub struct Parts {
    pub topics: Balance,
    pub capped: Balance,
    pub p5: Balance,
    pub p6: u64,
    pub p7: u64,
}

// Why a score is what it is, in 10^-9 points: the topics' total before the cap and after it, the parts of P5, P6 and P7, and the score,
// which the last four of these add up to. A score call answers with it.
#[derive(Clone, Copy)]
pub struct Why {
    pub topics: i64,
    pub capped: i64,
    pub p5: i64,
    pub p6: i64,
    pub p7: i64,
    pub score: i64,
}
