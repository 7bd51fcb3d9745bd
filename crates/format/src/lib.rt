// The text format of sheets, plans and reports: the types of what comes back here, the definitions in specs/.
//
// The crates `line_reader`, `line_writer`, `sheet_reader`, `sheet_writer` and `plan` have the code that reads and writes this format; the functions here
// give what is refused its numbers. The crate assumes nothing.
#![tactic(auto)]

ghost use Rattle.std.specs.Prelude.{◌≡◌};
ghost use Rattle.format.specs.Report.{plan_code, plan_line, c_number};
ghost use Rattle.format.specs.Sheet.{sheet_read_code, sheet_write_code};

use codes::{INVALID_CREDENTIALS, MALFORMED, NO_ROOM};

// The place of the code in the C interface's number.
const CODE: u64 = 0x1_0000_0000;

// Why a text is not read as a sheet.
#[derive(Clone, Copy, Debug, PartialEq, Eq)]
pub enum SheetError {
    // A line is missing, incomplete or wrong: the first that is.
    Malformed(u32),
    // The credentials are not valid.
    Invalid,
}

// Why no sheet is written.
#[derive(Clone, Copy, Debug, PartialEq, Eq)]
pub enum SheetWriteError {
    // The credentials are not valid.
    Invalid,
    // The sheet is longer than the buffer.
    NoRoom,
}

// Why a plan is refused.
#[derive(Clone, Copy, Debug, PartialEq, Eq)]
pub enum PlanError {
    // A line is missing, incomplete or wrong: the first that is.
    Malformed(u32),
    // The credentials at the start are not valid.
    Invalid,
    // The report is longer than the buffer.
    NoRoom,
}

impl From<SheetError> for u8 {
    ghost from_gives = { λ e number. number ≡ sheet_read_code e };

    fn from(error: SheetError) -> u8 {
        match error {
            SheetError::Malformed(_) => MALFORMED,
            SheetError::Invalid => INVALID_CREDENTIALS,
        }
    }
}

impl From<SheetWriteError> for u8 {
    ghost from_gives = { λ e number. number ≡ sheet_write_code e };

    fn from(error: SheetWriteError) -> u8 {
        match error {
            SheetWriteError::Invalid => INVALID_CREDENTIALS,
            SheetWriteError::NoRoom => NO_ROOM,
        }
    }
}

impl From<PlanError> for u8 {
    ghost from_gives = { λ e number. number ≡ plan_code e };

    fn from(error: PlanError) -> u8 {
        match error {
            PlanError::Malformed(_) => MALFORMED,
            PlanError::Invalid => INVALID_CREDENTIALS,
            PlanError::NoRoom => NO_ROOM,
        }
    }
}

impl PlanError {
    // The line of the fault, and 0 where no line is at fault.
    pub fn line(self) -> u32
        ensures { result ≡ plan_line self }
    {
        match self {
            PlanError::Malformed(line) => line,
            PlanError::Invalid | PlanError::NoRoom => 0,
        }
    }
}

// The C interface's number for what the plan runner answers: the report's length, or the code times 4294967296, plus the line of a fault.
pub fn c_number(answer: Result<u32, PlanError>) -> u64
    ensures { result ≡ c_number answer }
{
    match answer {
        Ok(length) => u64::from(length),
        Err(error) => u64::from(u8::from(error)) * CODE + u64::from(error.line()),
    }
}
