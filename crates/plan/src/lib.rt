// The plan runners: a plan and a slot plan. Each reads its text once, performs the steps and writes the report.
//
// Plan and report are defined in the crate `format`, those of slots in `slot_format`; a step's result in `rules`, and that of a step in a slot in `threads`.
// What differs between the two kinds of plan is the state that steps are taken in, credentials or a table of threads: the trait State. Every function is
// proved, for every argument: no public one has a `requires`. The crate assumes nothing.
#![tactic(auto)]

mod report;
mod runner;
mod slot_report;
mod slot_step;
mod state;
mod step;
mod tables;

pub use runner::{run_plan, run_slot_plan};

// The most steps of a plan; what they answer is kept in a list that has room for as many.
const MOST_STEPS: usize = 256;

// How many lines a sheet has.
const SHEET_LINES: u32 = 15;
