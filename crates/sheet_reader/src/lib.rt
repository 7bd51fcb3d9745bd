// The sheet reader: a text that is to be a sheet, or that begins with one. IDs, sets and flags are each read by a reader of their own.
//
// Text, place and table are handed on as `line_reader` takes them. The sheet itself is defined in the crate `format`; the table that its hex digits are read by is made once and lent. Every function is proved, for
// every argument: no public one has a `requires`. The crate assumes nothing.
#![tactic(auto)]

ghost use Rattle.std.specs.Prelude.{◌≡◌, ℕ, List, [], ◌∷◌};
ghost use Rattle.format.specs.Sheet.{id_kinds, set_kinds, flag_kinds, id_values, set_values, read_sheet, sheet_code, sheet_line};
ghost use Rattle.line_reader.specs.Positions.{valued, lines_by};
ghost use Rattle.sheet_reader.specs.Positions.{front_by};

use codes::DONE;
use credentials::{Credentials, Ids, Sets, is_valid};
use format::SheetError;
use hex_tables::reading_table;
use line_reader::{Fault, Place, Read, read_decimal, read_hex};

// The largest number that can be written for an ID, and for no-new-privs.
const LARGEST_WRITTEN_ID: u32 = 4294967295;

const LARGEST_FLAG: u32 = 1;

// How many lines a sheet has.
const SHEET_LINES: u32 = 15;

// The sheet at the start of a text: its credentials, whether they are valid, and the position past it. A flag and no error, since a plan is read on behind
// credentials that are not valid: a fault further on comes first.
#[derive(Clone, Copy)]
pub struct Front {
    pub credentials: Credentials,
    pub is_valid: bool,
    pub end: usize,
}

// The lines of four IDs at a place, by the letter in their keys: u for users, g for groups. (Four lines each with its key: a loop would want the keys and the
// values in arrays beside one another.)
#[tactic(auto, unfolding(line_reader::specs::Positions::lines_at, format::specs::Sheet::id_kinds))]
fn read_ids(text: &[u8], place: Place, letter: u8) -> Read<Ids>
    ensures { (table : List ℕ) → lines_by table (id_kinds (letter ∷ [])) text.now place ≡ valued id_values result }
{
    let key = [b'r', letter, b'i', b'd', b'='];
    let (real, place) = read_decimal(text, place, &key, LARGEST_WRITTEN_ID)?;
    let key = [b'e', letter, b'i', b'd', b'='];
    let (effective, place) = read_decimal(text, place, &key, LARGEST_WRITTEN_ID)?;
    let key = [b's', letter, b'i', b'd', b'='];
    let (saved, place) = read_decimal(text, place, &key, LARGEST_WRITTEN_ID)?;
    let key = [b'f', b's', letter, b'i', b'd', b'='];
    let (filesystem, place) = read_decimal(text, place, &key, LARGEST_WRITTEN_ID)?;
    let ids = Ids {
        real,
        effective,
        saved,
        filesystem,
    };
    Ok((ids, place))
}

// The lines of the capability sets, by the table, at a place.
#[tactic(auto, unfolding(line_reader::specs::Positions::lines_at, format::specs::Sheet::set_kinds))]
fn read_sets(text: &[u8], place: Place, table: &[u8; 256]) -> Read<Sets>
    ensures { lines_by table.now set_kinds text.now place ≡ valued set_values result }
{
    let (permitted, place) = read_hex::<16>(text, place, b"permitted=", table)?;
    let (inheritable, place) = read_hex::<16>(text, place, b"inheritable=", table)?;
    let (effective, place) = read_hex::<16>(text, place, b"effective=", table)?;
    let (bounding, place) = read_hex::<16>(text, place, b"bounding=", table)?;
    let (ambient, place) = read_hex::<16>(text, place, b"ambient=", table)?;
    let sets = Sets {
        permitted,
        inheritable,
        effective,
        bounding,
        ambient,
    };
    Ok((sets, place))
}

// The lines of securebits, by the table, and no-new-privs at a place.
#[tactic(auto, unfolding(line_reader::specs::Positions::lines_at, format::specs::Sheet::flag_kinds))]
fn read_flags(text: &[u8], place: Place, table: &[u8; 256]) -> Read<(u64, u64)>
    ensures { lines_by table.now flag_kinds text.now place ≡ valued (λ flags. flags.0 ∷ flags.1 ∷ []) result }
{
    let (securebits, place) = read_hex::<2>(text, place, b"securebits=", table)?;
    let (nnp, place) = read_decimal(text, place, b"nnp=", LARGEST_FLAG)?;
    Ok(((securebits, nnp), place))
}

// The sheet at the start of a text, its hex digits by the table; or the first of its lines that is at fault.
pub fn read_front(text: &[u8], table: &[u8; 256]) -> Result<Front, Fault>
    ensures { result ≡ front_by table.now text.now }
{
    let start = Place { at: 0, lines: 0 };
    let (uids, place) = read_ids(text, start, b'u')?;
    let (gids, place) = read_ids(text, place, b'g')?;
    let (sets, place) = read_sets(text, place, table)?;
    let ((securebits, nnp), end) = read_flags(text, place, table)?;
    let credentials = Credentials {
        uids,
        gids,
        sets,
        securebits,
        nnp: nnp == 1,
    };
    Ok(Front {
        credentials,
        is_valid: is_valid(credentials),
        end: end.at,
    })
}

// A text that is to be a sheet and nothing more.
pub fn read_sheet(text: &[u8]) -> Result<Credentials, SheetError>
    ensures { result ≡ read_sheet text.now }
{
    let table = reading_table();
    let front = read_front(text, &table)?;
    if front.end < text.len() {
        return Err(SheetError::Malformed(SHEET_LINES + 1));
    }
    if front.is_valid {
        Ok(front.credentials)
    } else {
        Err(SheetError::Invalid)
    }
}

// The code of a sheet's reading: 0, 70 where the text is malformed, 72 where the credentials are not valid. (So has each reader a function of its own, for its
// own error and definition.)
pub fn sheet_code(answer: Result<Credentials, SheetError>) -> u8
    ensures { result ≡ sheet_code answer }
{
    match answer {
        Ok(_) => DONE,
        Err(error) => u8::from(error),
    }
}

// The line of a sheet's reading, which is 0 but for a malformed text.
pub fn sheet_line(answer: Result<Credentials, SheetError>) -> u32
    ensures { result ≡ sheet_line answer }
{
    match answer {
        Err(SheetError::Malformed(line)) => line,
        Ok(_) | Err(SheetError::Invalid) => 0,
    }
}
