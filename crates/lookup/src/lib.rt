// What a call means by an id and by a protocol name, and the table of a fresh router.
#![tactic(auto)]

pub mod find;
pub mod fresh;
pub mod name;

// Why no fresh router was made: the first number or rule of the parameters that is broken.
#[derive(Clone, Copy)]
pub enum FreshError {
    Broken(usize),
}
