// Test 12 by words: what a router's flags satisfy is asked of 64 slots at once, and only members' times are looked at one by one.
#![tactic(auto)]

pub mod flags;
pub mod members;
pub mod word;
