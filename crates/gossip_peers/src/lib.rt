// What the calls of orders 6 and 7 read of 01's table alone: what a sender is worth, whom an action tells, and which records a connect
// empties. Sets of slots are words; scores are taken only of the slots that the words leave.
#![tactic(auto)]

pub mod callers;
pub mod reclaim;
pub mod relays;
pub mod senders;
pub mod sift;
pub mod targets;
pub mod tell;
