// Writers of a line at a position, one to a form of value, and of bytes. What does not fit the buffer is not written at all.
ghost use Rattle.std.specs.Prelude.{◌≡◌, ◌+◌, ◌≤◌, leb, length};
ghost use Rattle.std.proofs.lemmas.List.Edits.{sets};
ghost use Rattle.format.specs.Line.{decimal_text, keyed_text};
ghost use Rattle.hex_tables.specs.Tables.{hex_text_by};
ghost use Rattle.line_writer.specs.Positions.{written_to, written};

use crate::NEWLINE;
use crate::digits::{decimal_digit, hex_digit};

// Whether so many bytes fit buf from the position at on.
pub fn has_room(buf: &[u8], at: usize, size: usize) -> bool
    ensures { result ≡ leb (at + size) (length buf.now) }
{
    size <= buf.len() && at <= buf.len() - size
}

// The bytes of src into buf at the position at.
fn put_bytes(buf: &mut [u8], at: usize, src: &[u8]) -> usize
    requires { at + length src.now ≤ length buf.old }
    ensures { (result ≡ at + length src.now) × (buf.new ≡ sets buf.old at src.now) }
{
    // (By element, and not by std's `copy_from_slice`: that calls the C library's `memmove`, and the archive for C leaves `memcpy` and `memset` open alone.)
    for (k, b) in src.iter().enumerate() {
        buf[at + k] = *b;
    }
    at + src.len()
}

// The last n hex digits of v, by the table, into buf at the position at.
fn put_hex(buf: &mut [u8], at: usize, n: usize, v: u64, table: &[u8; 16]) -> usize
    requires { at + n ≤ length buf.old }
    ensures { (result ≡ at + n) × (buf.new ≡ sets buf.old at (hex_text_by table.now n v)) }
{
    let mut w = v;
    for m in (0..n).rev() {
        buf[at + m] = hex_digit(table, w % 16);
        w /= 16;
    }
    at + n
}

// How many decimal digits v has, which is at most 20.
pub fn decimal_length(v: u64) -> usize
    ensures { (result ≡ length (decimal_text v)) × (result ≤ 20) }
{
    // (By division, and not by std's `checked_ilog10`: that has a table made at each call, and long reports took 6 % longer.)
    let mut n: usize = 1;
    let mut w = v;
    while 10 <= w {
        n += 1;
        w = w / 10;
    }
    n
}

// The decimal digits of v, which are n, into buf at the position at.
fn put_decimal(buf: &mut [u8], at: usize, n: usize, v: u64) -> usize
    requires { (n ≡ length (decimal_text v)) × (at + n ≤ length buf.old) }
    ensures { (result ≡ at + n) × (buf.new ≡ sets buf.old at (decimal_text v)) }
{
    let mut w = v;
    for m in (1..n).rev() {
        buf[at + m] = decimal_digit(w % 10);
        w /= 10;
    }
    buf[at] = decimal_digit(w);
    at + n
}

// The bytes of src into buf at the position at: the position past them, or at where they do not fit.
pub fn write_bytes(buf: &mut [u8], at: usize, src: &[u8]) -> usize
    ensures { (result ≡ written_to buf.old at src.now) × (buf.new ≡ written buf.old at src.now) }
{
    if !has_room(buf, at, src.len()) {
        return at;
    }
    put_bytes(buf, at, src)
}

// (Two writers: what digits there are and how many differs, and only the room, the key and the newline are alike.)
// The line of key and the last n hex digits of v, by the table, into buf at the position at: the position past it, or at where it does not fit.
pub fn write_hex(buf: &mut [u8], at: usize, key: &[u8], n: u8, v: u64, table: &[u8; 16]) -> usize
    ensures { (result ≡ written_to buf.old at (keyed_text key.now (hex_text_by table.now n v))) × (buf.new ≡ written buf.old at (keyed_text key.now (hex_text_by table.now n v))) }
{
    let digits = usize::from(n);
    if !has_room(buf, at, key.len() + digits + 1) {
        return at;
    }
    let value = put_bytes(buf, at, key);
    let end = put_hex(buf, value, digits, v, table);
    buf[end] = NEWLINE;
    end + 1
}

// The line of key and the decimal digits of v into buf at the position at: the position past it, or at where it does not fit.
pub fn write_decimal(buf: &mut [u8], at: usize, key: &[u8], v: u64) -> usize
    ensures { (result ≡ written_to buf.old at (keyed_text key.now (decimal_text v))) × (buf.new ≡ written buf.old at (keyed_text key.now (decimal_text v))) }
{
    let digits = decimal_length(v);
    if !has_room(buf, at, key.len() + digits + 1) {
        return at;
    }
    let value = put_bytes(buf, at, key);
    let end = put_decimal(buf, value, digits, v);
    buf[end] = NEWLINE;
    end + 1
}
