// A router's lent table as a whole: whether it is a router's (test 12).
#![tactic(auto)]

pub mod ids;
pub mod quick;
pub mod slots;
pub mod valid;
