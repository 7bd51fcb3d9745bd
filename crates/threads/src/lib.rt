// A table of 96 threads, in which they fork and exit: the types here, the definitions and the statements in specs/.
//
// There are no functions: the crate `slots` has the code that meets these rules. The crate assumes nothing.
#![tactic(auto)]

use credentials::Credentials;
use rules::Answer;

// The threads of a machine: each slot's credentials, and whether the slot is in use. What a slot holds that is not in use shows nowhere. An
// array of credentials and the slots' use marks, by value, is the form that document 01 names.
#[derive(Clone, Copy)]
pub struct Threads {
    pub credentials: [Credentials; 96],
    pub used: [bool; 96],
}

// What a step is to do in a slot that is in use, as the slot's credentials decide: a call's answer, or a refusal; a fork or an exit that these
// credentials and the operands do not refuse. specs/Step.antt says what becomes of the table.
#[derive(Clone, Copy)]
pub enum Decision {
    Answered(Answer),
    Forks,
    Exits,
}

// What comes back from a step in a slot: code, cause, value, and the table after it. They are numbers, since the definition
// `step_in` and the statement `Slots` speak of code, cause and value as numbers, as the report has them.
#[derive(Clone, Copy)]
pub struct SlotResult {
    pub code: u8,
    pub cause: u8,
    pub value: u64,
    pub table: Threads,
}
