// The twenty-two calls, by one entry, `perform`: any credentials, number, operands and attribute bytes in, the answer out.
//
// It alone can be called from outside, for it alone gives 72 and 22 before what a call's own rules refuse. Every function is proved, for
// every argument: none has a `requires`. A rule changes credentials field by field, the form that document 01 names. The crate assumes nothing.
#![tactic(auto)]

mod ambient;
mod bounding;
mod call;
mod capset;
mod decoding;
mod done;
mod group_ids;
mod id_calls;
mod ids;
mod launching;
mod securebits;
mod thread_flags;
mod user_ids;

pub use call::perform;
