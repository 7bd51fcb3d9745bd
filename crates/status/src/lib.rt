// A captured /proc/PID/status and the prediction that it is laid beside: the types of what comes back here, the definitions in specs/.
//
// The crates `status_reader` and `status_comparison` have the code that reads such a text and compares it; here are only the conversions of a refusal.
// The crate assumes nothing.
#![tactic(auto)]

ghost use Rattle.std.specs.Prelude.{◌≡◌};
ghost use Rattle.status.specs.Comparing.{code, unread};

use codes::{INVALID_CREDENTIALS, MALFORMED, NO_ROOM};
use credentials::{Ids, Sets};

// What a status text shows of a thread's credentials, valid or not. nnp is no-new-privs.
#[derive(Clone, Copy)]
pub struct Status {
    pub uids: Ids,
    pub sets: Sets,
    pub nnp: bool,
}

// Why a text is not read: it is malformed (70), at a line counted from 1.
// `names` has a ReadError too: each is of a text of its own, here at a line, there at a place, and neither crate stands on the other.
#[derive(Clone, Copy, Debug, PartialEq, Eq)]
pub enum ReadError {
    Malformed(usize),
}

// Why there is no list: the text is malformed (70), at a line counted from 1; the credentials are not valid (72); the list does not fit (28).
// These are the cases of `format`'s PlanError, but a status text may have more lines than 32 bits count.
#[derive(Clone, Copy, Debug, PartialEq, Eq)]
pub enum CompareError {
    Malformed(usize),
    Invalid,
    NoRoom,
}

impl From<ReadError> for CompareError {
    ghost from_gives = { λ error given. given ≡ unread error };

    // A text that is not read is not compared.
    fn from(error: ReadError) -> CompareError {
        let ReadError::Malformed(line) = error;
        CompareError::Malformed(line)
    }
}

impl From<CompareError> for u8 {
    ghost from_gives = { λ error given. given ≡ code error };

    // The number of a refusal.
    fn from(error: CompareError) -> u8 {
        match error {
            CompareError::Malformed(_) => MALFORMED,
            CompareError::Invalid => INVALID_CREDENTIALS,
            CompareError::NoRoom => NO_ROOM,
        }
    }
}
