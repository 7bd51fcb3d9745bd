// The sheet writer: the sheet's length first, then its lines, each group by a writer of its own.
//
// Buffer, position and table are parameters each, as in `line_writer`. The sheet itself is defined in the crate `format`; the table that its hex digits are written by is made once and lent. Every function is proved, for
// every argument: no public one has a `requires`. The crate assumes nothing.
#![tactic(auto)]

ghost use Rattle.std.specs.Prelude.{◌≡◌, List, [], ◌∷◌, ℕ, ◌+◌, ◌≤◌, length};
ghost use Rattle.format.specs.Line.{decimal_text};
ghost use Rattle.format.specs.Sheet.{id_kinds, set_kinds, flag_kinds, sheet_kinds, sheet_text, id_values, set_values, flag_values, sheet_values, sheet_answer, sheet_buffer};
ghost use Rattle.line_writer.specs.Inside.{lines_put};
ghost use Rattle.sheet_writer.specs.Positions.{answer_at, buffer_by};

use credentials::{Credentials, Ids, Sets, is_valid};
use format::SheetWriteError;
use hex_tables::writing_table;
use line_writer::{decimal_length, has_room, write_decimal, write_hex};

// A sheet's length without the digits of its IDs: the keys, five sets, securebits, no-new-privs and the newlines.
const FIXED_LENGTH: usize = 204;

// How many hex digits a set and securebits have.
const SET_DIGITS: u8 = 16;

const SECUREBITS_DIGITS: u8 = 2;

// How long the sheet of credentials is, valid or not: at most 364 bytes.
pub fn sheet_length(held: Credentials) -> usize
    ensures { (result ≡ length (sheet_text held)) × (result ≤ 364) }
{
    let users = ids_length(held.uids);
    let groups = ids_length(held.gids);
    FIXED_LENGTH + users + groups
}

// How many digits four IDs have together: at most 80.
fn ids_length(ids: Ids) -> usize
    ensures { (result ≡ length (decimal_text ids.real) + length (decimal_text ids.effective) + length (decimal_text ids.saved) + length (decimal_text ids.filesystem)) × (result ≤ 80) }
{
    let real = decimal_length(ids.real);
    let effective = decimal_length(ids.effective);
    let saved = decimal_length(ids.saved);
    let filesystem = decimal_length(ids.filesystem);
    real + effective + saved + filesystem
}

// The sheet of valid credentials at the front of a buffer: its length; or why nothing is written, that they are not valid first.
pub fn write_sheet(held: Credentials, buf: &mut [u8]) -> Result<u32, SheetWriteError>
    ensures { (result ≡ sheet_answer held (length buf.old)) × (buf.new ≡ sheet_buffer held buf.old) }
{
    let table = writing_table();
    write_at(buf, 0, held, &table)
}

// The sheet of valid credentials, its hex digits by the table, in place of the bytes from the position at on: its length; or why nothing is written,
// that they are not valid first.
pub fn write_at(
    buf: &mut [u8],
    at: usize,
    held: Credentials,
    table: &[u8; 16],
) -> Result<u32, SheetWriteError>
    ensures { (result ≡ answer_at held at buf.old) × (buf.new ≡ buffer_by table.now held at buf.old) }
{
    if !is_valid(held) {
        return Err(SheetWriteError::Invalid);
    }
    let size = sheet_length(held);
    if !has_room(buf, at, size) {
        return Err(SheetWriteError::NoRoom);
    }
    write_lines(buf, at, held, table);
    Ok(size as u32)
}

// The lines of a sheet, by the table, into buf from the position at on, each that fits: the position past them.
fn write_lines(buf: &mut [u8], at: usize, held: Credentials, table: &[u8; 16]) -> usize
    ensures { (result ≡ (lines_put table.now sheet_kinds (sheet_values held) buf.old at).at) × (buf.new ≡ (lines_put table.now sheet_kinds (sheet_values held) buf.old at).buffer) }
{
    let at = write_ids(buf, at, held.uids, b'u');
    let at = write_ids(buf, at, held.gids, b'g');
    let at = write_sets(buf, at, held.sets, table);
    write_flags(buf, at, held.securebits, held.nnp, table)
}

// The lines of four IDs, by the letter in their keys: u for users, g for groups.
fn write_ids(buf: &mut [u8], at: usize, ids: Ids, letter: u8) -> usize
    ensures { (table : List ℕ) → (result ≡ (lines_put table (id_kinds (letter ∷ [])) (id_values ids) buf.old at).at) × (buf.new ≡ (lines_put table (id_kinds (letter ∷ [])) (id_values ids) buf.old at).buffer) }
{
    let key = [b'r', letter, b'i', b'd', b'='];
    let at = write_decimal(buf, at, &key, ids.real);
    let key = [b'e', letter, b'i', b'd', b'='];
    let at = write_decimal(buf, at, &key, ids.effective);
    let key = [b's', letter, b'i', b'd', b'='];
    let at = write_decimal(buf, at, &key, ids.saved);
    let key = [b'f', b's', letter, b'i', b'd', b'='];
    write_decimal(buf, at, &key, ids.filesystem)
}

// The lines of the capability sets, by the table.
fn write_sets(buf: &mut [u8], at: usize, held: Sets, table: &[u8; 16]) -> usize
    ensures { (result ≡ (lines_put table.now set_kinds (set_values held) buf.old at).at) × (buf.new ≡ (lines_put table.now set_kinds (set_values held) buf.old at).buffer) }
{
    let at = write_hex(buf, at, b"permitted=", SET_DIGITS, held.permitted, table);
    let at = write_hex(
        buf,
        at,
        b"inheritable=",
        SET_DIGITS,
        held.inheritable,
        table,
    );
    let at = write_hex(buf, at, b"effective=", SET_DIGITS, held.effective, table);
    let at = write_hex(buf, at, b"bounding=", SET_DIGITS, held.bounding, table);
    write_hex(buf, at, b"ambient=", SET_DIGITS, held.ambient, table)
}

// The lines of securebits, by the table, and no-new-privs.
fn write_flags(buf: &mut [u8], at: usize, securebits: u64, nnp: bool, table: &[u8; 16]) -> usize
    ensures { (result ≡ (lines_put table.now flag_kinds (flag_values securebits nnp) buf.old at).at) × (buf.new ≡ (lines_put table.now flag_kinds (flag_values securebits nnp) buf.old at).buffer) }
{
    let at = write_hex(
        buf,
        at,
        b"securebits=",
        SECUREBITS_DIGITS,
        securebits,
        table,
    );
    write_decimal(buf, at, b"nnp=", u64::from(nnp))
}
