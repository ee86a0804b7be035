// Gossip to the rest (02, order 7), and the heartbeat of orders 6 and 7: what is stored, what is announced, and who asks for it.
// The table and the array stay two parameters of each call: C lends them apart, and each promise speaks of the cells of both.
#![tactic(auto)]

pub mod announcing;
pub mod asking;
pub mod storing;

// The lent list of numbers.
pub const NUMBERS: usize = 192;
