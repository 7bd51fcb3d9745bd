// The line at a place: what it says and the place past it.
ghost use Rattle.std.specs.Prelude.{◌≡◌, ℕ};
ghost use Rattle.format.specs.Line.{decimal};
ghost use Rattle.line_reader.specs.Positions.{number_at, hex_by, attribute_by, at_fault, past_line};
ghost use Rattle.line_reader.specs.Inside.{onward};

use crate::lines::{bytes_line, decimal_line, hex_line};
use crate::{AttributeBytes, Fault, MOST_DIGITS, Place, Read};

// The line of key and N hex digits by the table at a place of text. Of more than 16 digits there is none.
pub fn read_hex<const N: usize>(
    text: &[u8],
    place: Place,
    key: &[u8],
    table: &[u8; 256],
) -> Read<u64>
    ensures { result ≡ hex_by table.now key.now N text.now place }
{
    if MOST_DIGITS < N {
        return Err(at_fault(place));
    }
    onward(place, hex_line(text, place.at, key, N, table))
}

// The line of key and a decimal number up to largest at a place of text.
pub fn read_decimal(text: &[u8], place: Place, key: &[u8], largest: u32) -> Read<u64>
    ensures { result ≡ number_at key.now (decimal largest) text.now place }
{
    onward(place, decimal_line(text, place.at, key, largest))
}

// The line of key and up to 24 bytes, two hex digits each by the table, at a place of text.
pub fn read_attribute(
    text: &[u8],
    place: Place,
    key: &[u8],
    table: &[u8; 256],
) -> Read<AttributeBytes>
    ensures { result ≡ attribute_by table.now key.now text.now place }
{
    onward(place, bytes_line(text, place.at, key, table))
}

// What the line at place says, with the place past it in place of its position; or that there is no such line.
fn onward<T>(place: Place, line: Option<(T, usize)>) -> Read<T>
    ensures { result ≡ onward place line }
{
    match line {
        Some((value, at)) => Ok((value, past_line(place, at))),
        None => Err(at_fault(place)),
    }
}

// The place past the line at place, which ends at the position at.
fn past_line(place: Place, at: usize) -> Place
    ensures { result ≡ past_line place at }
{
    Place {
        at,
        lines: place.lines.wrapping_add(1),
    }
}

// The line at place is at fault.
fn at_fault(place: Place) -> Fault
    ensures { result ≡ at_fault place }
{
    Fault {
        line: place.lines.wrapping_add(1),
    }
}
