// Saving the records and loading them (02, order 8). The definitions are specs/Save.antt and specs/Load.antt, the theorems about them
// specs/Promises.antt; the code is in crates save_write and save_load. Here stand only the answers that both speak of.
#![tactic(auto)]

use lookup::FreshError;

// Why no save is written.
#[derive(Clone, Copy)]
pub enum SaveError {
    // 1: the time is earlier than the router's clock
    Early,
    // 2: the time is outside its range
    OutOfRange,
    // 12: the table handed in is no router's
    NotRouter,
    // 13: the buffer is shorter than the save
    Short,
}

// Why no save is loaded.
#[derive(Clone, Copy)]
pub enum LoadError {
    // 2: the clock, or a number of the set-up beside the parameters, is outside its range
    OutOfRange,
    // 9: the index or the rule of the parameters, or the place in the save
    Broken(usize),
    // 10: the place in the save
    Malformed(usize),
}

// Parameters that are refused are the load's first test.
impl From<FreshError> for LoadError {
    fn from(e: FreshError) -> LoadError {
        match e {
            FreshError::Broken(i) => LoadError::Broken(i),
        }
    }
}
