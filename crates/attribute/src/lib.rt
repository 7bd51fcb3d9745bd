// The file capability attribute, security.capability: a reader of versions 1 and 2 and a writer of version 2.
//
// Every function is proved, for every argument: no public one has a `requires`. The crate assumes nothing.
#![tactic(auto)]

ghost use Rattle.std.specs.Prelude.{◌≡◌};
ghost use Rattle.attribute.specs.Reader.{read_code};
ghost use Rattle.attribute.specs.Writer.{write_code};

mod reader;
mod writer;

use codes::{INVALID_ARGUMENT, NO_ROOM, UNREADABLE_ATTRIBUTE};
pub use reader::{read, reading_code};
pub use writer::write;

// An attribute's length, by its version.
const XATTR_CAPS_SZ_1: usize = 12;

const XATTR_CAPS_SZ_2: usize = 20;

// Where an attribute's words are. Version 1 has no high words.
const FIRST_WORD: usize = 0;

const PERMITTED_LOW: usize = 4;

const INHERITABLE_LOW: usize = 8;

const PERMITTED_HIGH: usize = 12;

const INHERITABLE_HIGH: usize = 16;

// A word is below this; a set is its low word and this many times its high word.
const WORD: u64 = 0x1_0000_0000;

// A file's capabilities: whether an attribute is attached at all, its two sets and its effective bit. Where
// none is attached the sets are empty and the bit is off. A flag, and no Option around the rest: launching asks the sets of every file.
// No derived Default for that: tried, and what it promises, field by field, did not close `read` at once.
#[derive(Clone, Copy)]
pub struct FileCapabilities {
    pub attached: bool,
    pub permitted: u64,
    pub inheritable: u64,
    pub effective: bool,
}

// Why an attribute is not read.
#[derive(Clone, Copy, Debug, PartialEq, Eq)]
pub enum ReadError {
    // Its length, its revision or one of its bits is none that versions 1 and 2 have.
    Unreadable,
}

// Why sets are not written.
#[derive(Clone, Copy, Debug, PartialEq, Eq)]
pub enum WriteError {
    // A set has a bit above 40.
    OutOfRange,
    // What is to be written is longer than the buffer.
    NoRoom,
}

impl From<ReadError> for u8 {
    ghost from_gives = { λ e number. number ≡ read_code e };

    fn from(error: ReadError) -> u8 {
        match error {
            ReadError::Unreadable => UNREADABLE_ATTRIBUTE,
        }
    }
}

impl From<WriteError> for u8 {
    ghost from_gives = { λ e number. number ≡ write_code e };

    fn from(error: WriteError) -> u8 {
        match error {
            WriteError::OutOfRange => INVALID_ARGUMENT,
            WriteError::NoRoom => NO_ROOM,
        }
    }
}
