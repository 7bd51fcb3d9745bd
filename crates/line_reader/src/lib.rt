// Readers of a `key=value` line at a place of a text, one to a form of value.
//
// A place tells how far the text is read. Each reader answers what its line says and the place past it, where the next one goes on; or that the line is
// at fault, and which one it is. Text, place and key are parameters each: of the three only the text stays from line to line. A key is handed in with its `=`, and what reads hex is lent a table of digits, whichever: with that of `hex_tables` the
// text is read as the crate `format` defines it. Every function is proved, for every argument: no public one has a `requires`. The crate assumes nothing.
#![tactic(auto)]

ghost use Rattle.std.specs.Prelude.{◌≡◌};
ghost use Rattle.format.specs.declared.PlanError.TheVariants as plan_error;
ghost use Rattle.format.specs.declared.SheetError.TheVariants.{Malformed};

mod bytes;
mod digits;
mod lines;
mod places;

pub use bytes::AttributeBytes;
use format::{PlanError, SheetError};
pub use places::{read_attribute, read_decimal, read_hex};

// The byte that ends a line.
const NEWLINE: u8 = 10;

// The most bytes of an attribute's line.
const MOST_ATTRIBUTE: usize = 24;

// The most hex digits of a number.
const MOST_DIGITS: usize = 16;

// Where a text is read to: the position past the lines that were read, and how many they are.
#[derive(Clone, Copy)]
pub struct Place {
    pub at: usize,
    pub lines: u32,
}

// A line that is missing, incomplete or wrong, counted from 1.
#[derive(Clone, Copy, Debug, PartialEq, Eq)]
pub struct Fault {
    pub line: u32,
}

// A plan with a line at fault is malformed there.
impl From<Fault> for PlanError {
    ghost from_gives = { λ fault error. error ≡ plan_error.Malformed fault.line };

    fn from(fault: Fault) -> PlanError {
        PlanError::Malformed(fault.line)
    }
}

// A sheet with a line at fault is malformed there.
impl From<Fault> for SheetError {
    ghost from_gives = { λ fault error. error ≡ Malformed fault.line };

    fn from(fault: Fault) -> SheetError {
        SheetError::Malformed(fault.line)
    }
}

// What lines say and the place past them, or the first of them that is at fault.
pub type Read<T> = Result<(T, Place), Fault>;
