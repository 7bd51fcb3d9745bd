// A status text laid beside predicted credentials: what is found is read, then the list's length is taken, then its lines are written.
//
// The list itself is defined in the crate `status`; the table that its hex digits are written by is made once and lent. Every function is proved, for
// every argument: no public one has a `requires`. The crate assumes nothing.
#![tactic(auto)]

ghost use Rattle.std.specs.Prelude.{◌≡◌, ◌+◌, ◌*◌, ◌≤◌, ◌++◌, length};
ghost use Rattle.std.proofs.lemmas.List.Edits.{sets};
ghost use Rattle.format.specs.Report.{buffer};
ghost use Rattle.status.specs.Comparing.{shown_of, last_line, list_text, laid, compared, comparison};
ghost use Rattle.status_comparison.specs.Lines.{lines_text};

mod line;
mod text;

use credentials::{Credentials, is_valid};
use hex_tables::writing_table;
use line::Form::{Decimal, Hex};
use line::Line;
use line_writer::write_bytes;
use status::{CompareError, Status};
use status_reader::read_status;

// How many keys are compared.
const COMPARED: usize = 10;

// How many bytes the last line has.
const LAST_LENGTH: usize = 36;

// A status text laid beside predicted credentials: 70 with the line of its first fault, then 72, then 28, and nothing written; or what differs at the
// front of the list, and its length.
pub fn compare(status: &[u8], predicted: Credentials, list: &mut [u8]) -> Result<u32, CompareError>
    ensures { (result ≡ comparison (compared status.now predicted) (length list.old)) × (list.new ≡ buffer (compared status.now predicted) list.old) }
{
    let found = read_status(status)?;
    lay_beside(found, predicted, list)
}

// What is found laid beside predicted credentials: 72, then 28, and nothing written; or what differs at the front of the list, and its length.
pub fn lay_beside(
    found: Status,
    predicted: Credentials,
    list: &mut [u8],
) -> Result<u32, CompareError>
    ensures { (result ≡ comparison (laid found predicted) (length list.old)) × (list.new ≡ buffer (laid found predicted) list.old) }
{
    if !is_valid(predicted) {
        return Err(CompareError::Invalid);
    }
    let lines = compared_lines(predicted, found);
    let size = list_length(&lines);
    if list.len() < size {
        return Err(CompareError::NoRoom);
    }
    write_list(list, &lines);
    Ok(size as u32)
}

// The ten keys that are compared, in sheet order.
fn compared_lines(predicted: Credentials, found: Status) -> [Line; COMPARED]
    ensures { list_text (shown_of predicted) found ≡ lines_text result ++ last_line }
{
    let uids = predicted.uids;
    let sets = predicted.sets;
    let nnp = u64::from(predicted.nnp);
    [
        Line::new(b"ruid ", Decimal, uids.real, found.uids.real),
        Line::new(b"euid ", Decimal, uids.effective, found.uids.effective),
        Line::new(b"suid ", Decimal, uids.saved, found.uids.saved),
        Line::new(b"fsuid ", Decimal, uids.filesystem, found.uids.filesystem),
        Line::new(b"permitted ", Hex, sets.permitted, found.sets.permitted),
        Line::new(
            b"inheritable ",
            Hex,
            sets.inheritable,
            found.sets.inheritable,
        ),
        Line::new(b"effective ", Hex, sets.effective, found.sets.effective),
        Line::new(b"bounding ", Hex, sets.bounding, found.sets.bounding),
        Line::new(b"ambient ", Hex, sets.ambient, found.sets.ambient),
        Line::new(b"nnp ", Decimal, nnp, u64::from(found.nnp)),
    ]
}

// How long the list of these lines is, whatever their values.
fn list_length(lines: &[Line]) -> usize
    requires { length lines.now ≤ 10 }
    ensures { (result ≡ length (lines_text lines.now ++ last_line)) × (result ≤ 36 + 54 * length lines.now) }
{
    let mut n = LAST_LENGTH;
    for line in lines {
        n += line.length();
    }
    n
}

// The list of these lines at the front of a buffer that it fits.
fn write_list(list: &mut [u8], lines: &[Line])
    requires { length (lines_text lines.now ++ last_line) ≤ length list.old }
    ensures { list.new ≡ sets list.old 0 (lines_text lines.now ++ last_line) }
{
    let table = writing_table();
    let mut at = 0;
    for line in lines {
        at = line.write(list, at, &table);
    }
    write_bytes(list, at, b"not compared: securebits, group IDs\n");
}
