// A thread's credentials: user and group IDs, capability sets, securebits and no-new-privs, and which of them are valid.
//
// All numbers are 64 bits wide, so that each clause of validity can fail. Every function is proved, for every
// argument: none has a `requires`. The crate assumes nothing.
#![tactic(auto)]

pub mod securebits;
mod validity;

pub use validity::{LARGEST_ID, LARGEST_SECUREBITS, is_valid};

// What stands for no ID: an ID call leaves the one that it would set, or only asks. It is the paper's number, in operands and in the definitions alike, and
// so no Option.
pub const NO_ID: u64 = 4294967295;

// Four user IDs, or four group IDs.
#[derive(Clone, Copy)]
pub struct Ids {
    pub real: u64,
    pub effective: u64,
    pub saved: u64,
    pub filesystem: u64,
}

#[derive(Clone, Copy)]
pub struct Sets {
    pub permitted: u64,
    pub inheritable: u64,
    pub effective: u64,
    pub bounding: u64,
    pub ambient: u64,
}

// nnp is no-new-privs.
#[derive(Clone, Copy)]
pub struct Credentials {
    pub uids: Ids,
    pub gids: Ids,
    pub sets: Sets,
    pub securebits: u64,
    pub nnp: bool,
}
