// Readers of a line at a position, one to a form of value. The range is tested once a line, the key is compared, then the value is read.
//
// Texts are read by position and not as slices of what is left, with `strip_prefix`, `for` and an Option a digit: that was proved, too, but 16 digits took a
// quarter longer, and a plan of 256 steps an eighth.
ghost use Rattle.std.specs.Prelude.{◌≡◌, ◌+◌, ◌-◌, ◌<◌, ◌≤◌, [], length, drop};
ghost use Rattle.format.specs.Line.{read_decimal, read_digits, starts_with};
ghost use Rattle.hex_tables.specs.Tables.{read_hex_by, read_pairs_by};
ghost use Rattle.line_reader.specs.Inside.{hex_of, line_at, placed};

use crate::digits::{decimal_digit, hex_digit};
use crate::{AttributeBytes, MOST_ATTRIBUTE, NEWLINE};

// Whether text has key at the position at.
fn starts_with(text: &[u8], at: usize, key: &[u8]) -> bool
    requires { at + length key.now ≤ length text.now }
    ensures { result ≡ starts_with key.now (drop at text.now) }
{
    let n = key.len();
    let mut k: usize = 0;
    // (By position, for speed: see above.)
    while k < n {
        if text[at + k] != key[k] {
            return false;
        }
        k += 1;
    }
    true
}

// The number that the n hex digits of text at the position at make by the table.
fn hex_at(text: &[u8], at: usize, n: usize, table: &[u8; 256]) -> Option<u64>
    requires { (n ≤ 16) × (at + n ≤ length text.now) }
    ensures { result ≡ hex_of table.now n 0 (drop at text.now) }
{
    let mut v: u64 = 0;
    let mut k: usize = 0;
    // (By position, for speed: see above.)
    while k < n {
        let d = hex_digit(table, text[at + k]);
        if 16 <= d {
            return None;
        }
        v = v * 16 + d;
        k += 1;
    }
    Some(v)
}

// The line of key and n hex digits by the table at the position at of text.
pub(crate) fn hex_line(
    text: &[u8],
    at: usize,
    key: &[u8],
    n: usize,
    table: &[u8; 256],
) -> Option<(u64, usize)>
    requires { n ≤ 16 }
    ensures { result ≡ line_at key.now (read_hex_by table.now n 0) text.now at }
{
    let size = key.len() + n + 1;
    let len = text.len();
    if len < size {
        return None;
    }
    if len - size < at {
        return None;
    }
    if starts_with(text, at, key) {
        let p = at + key.len();
        let q = p + n;
        let v = hex_at(text, p, n, table)?;
        if text[q] == NEWLINE {
            return Some((v, q + 1));
        }
    }
    None
}

// The digits after first, and the newline.
fn digits_at(text: &[u8], at: usize, largest: u32, first: u64) -> Option<(u64, usize)>
    requires { first ≤ largest }
    ensures { result ≡ placed text.now (read_digits largest first (drop at text.now)) }
{
    let mut i = at;
    let mut v = first;
    // (By position, for speed: see above.)
    while i < text.len() {
        let b = text[i];
        if b == NEWLINE {
            return Some((v, i + 1));
        }
        if v == 0 {
            return None;
        }
        let d = decimal_digit(b);
        if 10 <= d {
            return None;
        }
        let w = v * 10 + d;
        if (largest as u64) < w {
            return None;
        }
        v = w;
        i += 1;
    }
    None
}

// The line of key and a decimal number up to largest at the position at of text.
pub(crate) fn decimal_line(text: &[u8], at: usize, key: &[u8], largest: u32) -> Option<(u64, usize)>
    ensures { result ≡ line_at key.now (read_decimal largest) text.now at }
{
    let size = key.len() + 1;
    let len = text.len();
    if len < size {
        return None;
    }
    if len - size < at {
        return None;
    }
    if starts_with(text, at, key) {
        let p = at + key.len();
        let d = decimal_digit(text[p]);
        if 10 <= d {
            return None;
        }
        if (largest as u64) < d {
            return None;
        }
        return digits_at(text, p + 1, largest, d);
    }
    None
}

// The bytes of two hex digits each, by the table, from the position start on, and the newline.
fn pairs_at(text: &[u8], start: usize, table: &[u8; 256]) -> Option<(AttributeBytes, usize)>
    ensures { result ≡ placed text.now (read_pairs_by table.now 24 [] (drop start text.now)) }
{
    let mut bytes = [0u8; 24];
    let mut i = start;
    let mut n: usize = 0;
    // (By position, for speed: see above.)
    while i < text.len() {
        let b = text[i];
        if b == NEWLINE {
            return Some((AttributeBytes { bytes, size: n }, i + 1));
        }
        if n == MOST_ATTRIBUTE {
            return None;
        }
        let high = hex_digit(table, b);
        if 16 <= high {
            return None;
        }
        let j = i + 1;
        if text.len() <= j {
            return None;
        }
        let low = hex_digit(table, text[j]);
        if 16 <= low {
            return None;
        }
        bytes[n] = (high * 16 + low) as u8;
        n += 1;
        i = j + 1;
    }
    None
}

// The line of key and up to 24 bytes, two hex digits each by the table, at the position at of text.
pub(crate) fn bytes_line(
    text: &[u8],
    at: usize,
    key: &[u8],
    table: &[u8; 256],
) -> Option<(AttributeBytes, usize)>
    ensures { result ≡ line_at key.now (read_pairs_by table.now 24 []) text.now at }
{
    let size = key.len();
    let len = text.len();
    if len < size {
        return None;
    }
    if len - size < at {
        return None;
    }
    if starts_with(text, at, key) {
        return pairs_at(text, at + size, table);
    }
    None
}
