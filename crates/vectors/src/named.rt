// Capabilities in names: texts that are read, and sets that are written.
ghost use Rattle.std.specs.Prelude.{◌≤◌, length};

use crate::fields::Fields;
use crate::{fields, output};
use codes::MALFORMED;
use names::{ReadError, Sets};
use std::io;

// The most bytes of a text, and of a buffer.
const LARGEST_TEXT: usize = 2048;

const LARGEST_ROOM: usize = 760;

// What stands for a byte that is not typed: `\n`, `\t`, `\\`, or `\x` and two digits.
const ESCAPE: u8 = b'\\';

// What the text behind `text=` is read as.
pub(crate) fn show_text(rt: &impl Print, row: &[u8]) -> io::Result<()> {
    let mut text = [0u8; LARGEST_TEXT];
    let size = text_of(row, &mut text);
    match names_reader::read_names(&text[0..size]) {
        Ok(held) => show_sets(rt, held)?,
        Err(ReadError::Malformed(place)) => {
            output::decimal(rt, b"code=", u64::from(MALFORMED))?;
            output::decimal(rt, b" place=", place as u64)?;
        }
    }
    output::text(rt, b"\n")
}

fn show_sets(rt: &impl Print, held: Sets) -> io::Result<()> {
    output::decimal(rt, b"code=", 0)?;
    output::hex(rt, b" permitted=", held.permitted, 1)?;
    output::hex(rt, b" inheritable=", held.inheritable, 1)?;
    output::hex(rt, b" effective=", held.effective, 1)
}

// The sets of `names=` in a buffer of `room=` bytes, each `.` before.
pub(crate) fn show_written(rt: &impl Print, row: &[u8]) -> io::Result<()> {
    let mut fields = Fields::of(row);
    let permitted = fields.hex();
    let inheritable = fields.hex();
    let effective = fields.hex();
    let room = fields.decimal() as usize;
    let held = Sets {
        permitted,
        inheritable,
        effective,
    };
    let mut buffer = [b'.'; LARGEST_ROOM];
    if let Some(lent) = buffer.get_mut(..room) {
        write(rt, held, lent)?;
    }
    Ok(())
}

// The writer's answer, and the whole buffer afterwards.
fn write(rt: &impl Print, held: Sets, buffer: &mut [u8]) -> io::Result<()> {
    output::written(rt, names_writer::write_names(held, buffer))?;
    output::text(rt, b" buffer=")?;
    output::text(rt, buffer)?;
    output::text(rt, b"\n")
}

// The row's text, byte by byte, as many as there is room for: how many they are.
fn text_of(row: &[u8], text: &mut [u8]) -> usize
    ensures { result ≤ length text.old }
{
    let mut rest = Fields::of(row).text();
    let room = text.len();
    for (n, place) in text.iter_mut().enumerate() {
        let Some((byte, after)) = glyph(rest) else {
            return n;
        };
        *place = byte;
        rest = after;
    }
    room
}

// The byte that a text begins with, typed or escaped, and what follows it.
fn glyph(text: &[u8]) -> Option<(u8, &[u8])> {
    match text {
        [] => None,
        [ESCAPE, b'x', high, low, after @ ..] => Some((fields::byte(*high, *low), after)),
        [ESCAPE, letter, after @ ..] if *letter != b'x' => Some((escaped(*letter), after)),
        [byte, after @ ..] => Some((*byte, after)),
    }
}

fn escaped(letter: u8) -> u8 {
    match letter {
        b'n' => b'\n',
        b't' => b'\t',
        _ => letter,
    }
}
