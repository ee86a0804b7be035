// A trace's events (01, "The trace program"): their numbers read from a window of bytes, and a reply in text. The event as a whole is crate
// trace_step, the program that moves the bytes crate trace.
#![tactic(auto)]

pub mod lines;
pub mod reading;

// The editions of a trace: a permutation of the first orders 64 slots (01), one of the second all 256 (02, order 9), and a connect of the
// third has a count of groups and the groups (02, order 11).
#[derive(Clone, Copy)]
pub enum Edition {
    First,
    Second,
    Third,
}

// Numbers were not read: the place of the first that cannot be.
#[derive(Clone, Copy)]
pub struct NumberError {
    pub place: usize,
}
