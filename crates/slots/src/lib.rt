// A step in a slot of a table of threads, and the table at the start.
//
// The table, the step and what holds of them are defined in the crate `threads`. Every function is proved, for every argument: no public one has a
// `requires`. The crate assumes nothing.
#![tactic(auto)]

mod decision;
mod table;
mod turn;

pub use table::fresh;
pub use turn::{Turn, place, step, take_turn};

// How many slots there are.
const SLOTS: usize = 96;
