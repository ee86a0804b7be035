// What a host links (C ABI), over memory that it lends. include/hivepadlet.h says the same to a reader of C. Only what this crate itself
// exports is in the archive, so every function is one call of a function of another crate, whose promise is its own: host_calls,
// host_parameters, host_messages, host_saves, host_forms, host_gossip, and the crates of the calls with the array. None asks anything of
// its caller.
#![tactic(auto)]

pub mod array;
pub mod calls;
pub mod messages;
pub mod old_forms;
pub mod parameters;
pub mod power_cycle;
pub mod tables;
