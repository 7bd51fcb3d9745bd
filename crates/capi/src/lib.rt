// The C interface, on byte slices and numbers, a number back: the plan runner, the readers and writers of sheets, attributes and sets in names, and the
// comparison of a status text.
//
// In C a slice is a pointer and a length. No two slices of a call may overlap; any may be empty. The number is the code times 4294967296, plus a line,
// a place, a length or a count. What a reader gives are 64-bit numbers, in a slice that the caller lends. The crate assumes nothing.
#![tactic(auto)]

ghost use Rattle.std.specs.Prelude.{◌≡◌, ◌<◌, length};
ghost use Rattle.attribute.specs.Reader.{reading};
ghost use Rattle.attribute.specs.Writer.{write_code};
ghost use Rattle.format.specs.Sheet.{credentials_of, read_sheet, sheet_values, sheet_write_code};
ghost use Rattle.format.specs.Report.{verdict, outcome, buffer, c_number};
ghost use Rattle.names.specs.Reading.{read_text};
ghost use Rattle.names.specs.Writing.{names_answer, names_buffer};
ghost use Rattle.status.specs.Reading.{read_status};
ghost use Rattle.capi.specs.Interface.{answered, bit_buffer, bit_written, file_given, file_number, file_values, given_credentials, given_in, given_number, joined, low_place, named_sets, named_values, names_given, names_number, sheet_given, sheet_number, status_list, status_number, values_buffer, values_written};

use attribute::{FileCapabilities, WriteError};
use codes::{DONE, INVALID_CREDENTIALS, MALFORMED, NO_ROOM};
use credentials::{Credentials, Ids, Sets};
use format::SheetError;
use status::Status;

// The place of the code in the number.
const CODE: u64 = 0x1_0000_0000;

// How many numbers a sheet has.
const SHEET_VALUES: usize = 15;

// Runs the plan and writes its report at the front of the buffer: the code times 4294967296, plus the line of a fault (70) or the report's length
// (0). A plan that is refused leaves the buffer as it was.
#[unsafe(no_mangle)]
pub extern "C" fn urrezkalu_run_plan(plan: &[u8], report: &mut [u8]) -> u64
    ensures { (result ≡ c_number (outcome (verdict plan.now) (length report.old))) × (report.new ≡ buffer (verdict plan.now) report.old) }
{
    format::c_number(plan::run_plan(plan, report))
}

// Reads a text that is to be a sheet: 70 with the line of its fault, 72 where its credentials are not valid, 28 where values is shorter than
// fifteen, and in each case values stays; else 15, and the first fifteen of values are those of the sheet's lines, in their order.
#[unsafe(no_mangle)]
pub extern "C" fn urrezkalu_read_sheet(text: &[u8], values: &mut [u64]) -> u64
    ensures { (result ≡ sheet_number (read_sheet text.now) (length values.old)) × (values.new ≡ sheet_given (read_sheet text.now) values.old) }
{
    match sheet_reader::read_sheet(text) {
        Ok(held) => give(values, &values_of(held)),
        Err(SheetError::Malformed(line)) => joined(MALFORMED, line),
        Err(SheetError::Invalid) => joined(INVALID_CREDENTIALS, 0),
    }
}

// Writes the sheet of the credentials whose values these are at the front of the buffer: 72 where there are not fifteen of them, the last is neither 0
// nor 1, or the credentials are not valid, then 28 where the sheet is longer than the buffer, and in each case nothing is written; else the sheet's length.
#[unsafe(no_mangle)]
pub extern "C" fn urrezkalu_write_sheet(values: &[u64], sheet: &mut [u8]) -> u64
    ensures { (result ≡ answered sheet_write_code (values_written values.now (length sheet.old))) × (sheet.new ≡ values_buffer values.now sheet.old) }
{
    let Some(held) = credentials_of(values) else {
        return joined(INVALID_CREDENTIALS, 0);
    };
    answered(sheet_writer::write_sheet(held, sheet).map_err(u8::from))
}

// Reads an attribute: 60 where it cannot be read, 28 where values is shorter than four, and in both cases values stays; else 4, and the
// first four of values are whether an attribute is attached, its permitted set, its inheritable set and its effective bit.
#[unsafe(no_mangle)]
pub extern "C" fn urrezkalu_read_attribute(attribute: &[u8], values: &mut [u64]) -> u64
    ensures { (result ≡ file_number (reading attribute.now) (length values.old)) × (values.new ≡ file_given (reading attribute.now) values.old) }
{
    match attribute::read(attribute) {
        Ok(file) => give(values, &file_values(file)),
        Err(error) => joined(u8::from(error), 0),
    }
}

// Writes two sets and an effective bit as a version 2 attribute at the front of the buffer: 22 where a set has a bit above 40 or the effective bit is
// neither 0 nor 1, then 28 where the buffer is shorter than 20 bytes, and in both cases nothing is written; else 20.
#[unsafe(no_mangle)]
pub extern "C" fn urrezkalu_write_attribute(
    permitted: u64,
    inheritable: u64,
    effective: u64,
    attribute: &mut [u8],
) -> u64
    ensures { (result ≡ answered write_code (bit_written permitted inheritable effective (length attribute.old))) × (attribute.new ≡ bit_buffer permitted inheritable effective attribute.old) }
{
    if 1 < effective {
        return joined(u8::from(WriteError::OutOfRange), 0);
    }
    answered(attribute::write(permitted, inheritable, effective == 1, attribute).map_err(u8::from))
}

// Reads a text in names: 70 with the place at which it is malformed, 28 where values is shorter than three, and in both cases values stays; else
// 3, and the first three of values are the permitted, the inheritable and the effective set. A place above 4294967295 is given as 4294967295.
#[unsafe(no_mangle)]
pub extern "C" fn urrezkalu_read_names(text: &[u8], values: &mut [u64]) -> u64
    ensures { (result ≡ names_number (read_text text.now) (length values.old)) × (values.new ≡ names_given (read_text text.now) values.old) }
{
    match names_reader::read_names(text) {
        Ok(held) => give(values, &[held.permitted, held.inheritable, held.effective]),
        Err(names::ReadError::Malformed(place)) => joined(MALFORMED, low_place(place)),
    }
}

// Writes three sets in names at the front of the buffer: 22 where a set has a bit above 40, then 28 where the text is longer than the buffer, and in
// both cases nothing is written; else the text's length.
#[unsafe(no_mangle)]
pub extern "C" fn urrezkalu_write_names(
    permitted: u64,
    inheritable: u64,
    effective: u64,
    text: &mut [u8],
) -> u64
    ensures { (result ≡ answered write_code (names_answer (named_sets permitted inheritable effective) (length text.old))) × (text.new ≡ names_buffer (named_sets permitted inheritable effective) text.old) }
{
    let held = names::Sets {
        permitted,
        inheritable,
        effective,
    };
    answered(names_writer::write_names(held, text).map_err(u8::from))
}

// Lays a status text beside the credentials that a sheet predicts, and writes what differs at the front of the buffer: 70 with the line of the status text's
// fault, from 1 on, 70 with 0 where the sheet is malformed, 72 where its credentials are not valid, 28 where the list is longer than the buffer, and in
// each case nothing is written; else the list's length. A line above 4294967295 is given as 4294967295.
#[unsafe(no_mangle)]
pub extern "C" fn urrezkalu_compare_status(status: &[u8], sheet: &[u8], list: &mut [u8]) -> u64
    ensures { (result ≡ status_number (read_status status.now) (read_sheet sheet.now) (length list.old)) × (list.new ≡ status_list (read_status status.now) (read_sheet sheet.now) list.old) }
{
    match status_reader::read_status(status) {
        Err(status::ReadError::Malformed(line)) => joined(MALFORMED, low_place(line)),
        Ok(found) => beside_sheet(found, sheet, list),
    }
}

// What was found in a status text, laid beside the credentials of a sheet.
fn beside_sheet(found: Status, sheet: &[u8], list: &mut [u8]) -> u64
    ensures { (result ≡ status_number (Ok found) (read_sheet sheet.now) (length list.old)) × (list.new ≡ status_list (Ok found) (read_sheet sheet.now) list.old) }
{
    match sheet_reader::read_sheet(sheet) {
        Err(SheetError::Malformed(_)) => joined(MALFORMED, 0),
        Err(SheetError::Invalid) => joined(INVALID_CREDENTIALS, 0),
        Ok(predicted) => {
            match status_comparison::lay_beside(found, predicted, list) {
                Ok(length) => joined(DONE, length),
                Err(refusal) => joined(u8::from(refusal), 0),
            }
        }
    }
}

// The number of what was written, or of a refusal's code.
fn answered(answer: Result<u32, u8>) -> u64
    ensures { result ≡ answered (λ code. code) answer }
{
    match answer {
        Ok(length) => joined(DONE, length),
        Err(code) => joined(code, 0),
    }
}

// The number of a code and a line, a place, a length or a count. (`format::c_number` is that of a runner's answer; here a place or a count stands there too.)
#[tactic(auto, unfolding(crate::specs::Interface::joined))]
fn joined(code: u8, low: u32) -> u64
    ensures { result ≡ joined code low }
{
    u64::from(code) * CODE + u64::from(low)
}

// Numbers at the front of values: 28 where there is no room for them, else how many they are.
fn give(values: &mut [u64], numbers: &[u64]) -> u64
    requires { length numbers.now < 4294967296 }
    ensures { (result ≡ given_number numbers.now (length values.old)) × (values.new ≡ given_in numbers.now values.old) }
{
    let n = numbers.len();
    if values.len() < n {
        return joined(NO_ROOM, 0);
    }
    values[..n].copy_from_slice(numbers);
    joined(DONE, n as u32)
}

// The credentials, valid or not, whose values numbers are: none where there are not fifteen of them, or the last is neither 0 nor 1.
fn credentials_of(values: &[u64]) -> Option<Credentials>
    ensures { result ≡ given_credentials values.now }
{
    if values.len() != SHEET_VALUES {
        return None;
    }
    if 1 < values[14] {
        return None;
    }
    let uids = Ids {
        real: values[0],
        effective: values[1],
        saved: values[2],
        filesystem: values[3],
    };
    let gids = Ids {
        real: values[4],
        effective: values[5],
        saved: values[6],
        filesystem: values[7],
    };
    let sets = Sets {
        permitted: values[8],
        inheritable: values[9],
        effective: values[10],
        bounding: values[11],
        ambient: values[12],
    };
    Some(Credentials {
        uids,
        gids,
        sets,
        securebits: values[13],
        nnp: values[14] == 1,
    })
}

// The values of a sheet's lines.
fn values_of(held: Credentials) -> [u64; SHEET_VALUES]
    ensures { result ≡ sheet_values held }
{
    [
        held.uids.real,
        held.uids.effective,
        held.uids.saved,
        held.uids.filesystem,
        held.gids.real,
        held.gids.effective,
        held.gids.saved,
        held.gids.filesystem,
        held.sets.permitted,
        held.sets.inheritable,
        held.sets.effective,
        held.sets.bounding,
        held.sets.ambient,
        held.securebits,
        u64::from(held.nnp),
    ]
}

// A file's capabilities as numbers.
fn file_values(file: FileCapabilities) -> [u64; 4]
    ensures { result ≡ file_values file }
{
    [
        u64::from(file.attached),
        file.permitted,
        file.inheritable,
        u64::from(file.effective),
    ]
}

// A place or a line as the number has it: the largest that it has room for, where it has none for the place.
#[tactic(auto, unfolding(crate::specs::Interface::low_place))]
fn low_place(place: usize) -> u32
    ensures { result ≡ low_place place }
{
    u32::try_from(place).unwrap_or(u32::MAX)
}
