// What the calls do to one record and to one slot of the lent table. The rules are specs/Effects.antt and specs/Actions.antt; every
// function here promises one of them. The table is a slice of CELLS numbers; nothing here asks whether it is a router's.
#![tactic(auto)]

pub mod actions;
pub mod connections;
pub mod slots;
pub mod values;
