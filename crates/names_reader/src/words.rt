// A name at a position, found in the table.
ghost use Rattle.std.specs.Prelude.{◌≡◌, ◌+◌, ◌≤◌, ◌<◌, length, drop, IfSome};
ghost use Rattle.names_reader.specs.Inside.{common, find, Found, NameEnd, NameTold, OneOf, row_of, rows};

use crate::Parsed;
use crate::table::{Name, hash, names, row_by_hash};
use names::ReadError;

// What every name begins with.
const PREFIX: &[u8] = b"cap_";

// How many bytes of key stand at the front of text, in either case.
pub(crate) fn common(text: &[u8], key: &[u8]) -> usize
    ensures { (result ≡ common key.now text.now) × (result ≤ length key.now) × (result ≤ length text.now) }
{
    text.iter()
        .zip(key)
        .take_while(|(b, k)| b.to_ascii_lowercase() == **k)
        .count()
}

// The name whose rest after `cap_` stands at the position at, or how far the text goes on as some name does: row by row.
#[tactic(auto, using(crate::proofs::Rows::row_by_row, crate::proofs::Common::rest))]
fn search_at(text: &[u8], at: usize) -> Parsed<u64>
    requires { at ≤ length text.now }
    ensures { result ≡ find at 0 rows (drop at text.now) }
{
    let rest = &text[at..];
    let mut best = 0;
    for &(name, number) in names() {
        let n = common(rest, name);
        if n == name.len() {
            return Ok((number, at + n));
        }
        best = best.max(n);
    }
    Err(ReadError::Malformed(at + best))
}

// A letter or `_`, in lower case; 0 for what can follow a name. A number and no Option: it goes into a sum that is only tried.
fn letter(b: u8) -> u8 {
    let low = b.to_ascii_lowercase();
    if low < b'_' { 0 } else { low }
}

// The row that the index has for the bytes at the front of text.
fn indexed(text: &[u8]) -> Option<&'static Name>
    ensures { IfSome result (λ x. OneOf (row_of x.now) rows) }
{
    let [b0, _, _, b3, b4, _, b6, ..] = text else {
        return None;
    };
    let h = hash(
        b0.to_ascii_lowercase(),
        b3.to_ascii_lowercase(),
        b4.to_ascii_lowercase(),
        letter(*b6),
    );
    names().get(usize::from(row_by_hash()[h]))
}

// The name whose rest after `cap_` stands at the position at, or how far the text goes on as some name does: by the index, and else row by row.
#[tactic(auto, using(crate::proofs::Rows::searched, crate::proofs::Common::rest))]
fn find_at(text: &[u8], at: usize) -> Parsed<u64>
    requires { at ≤ length text.now }
    ensures { Found result at (drop at text.now) }
{
    let rest = &text[at..];
    if let Some(&(name, number)) = indexed(rest)
        && common(rest, name) == name.len()
    {
        return Ok((number, at + name.len()));
    }
    search_at(text, at)
}

// The name at the position at: its capability's number.
#[tactic(auto, using(crate::proofs::Found::naming, crate::proofs::Common::rest))]
pub(crate) fn name_at(text: &[u8], at: usize) -> Parsed<u64>
    requires { at ≤ length text.now }
    ensures { NameTold result text.now at × NameEnd result at text.now }
{
    let n = common(&text[at..], PREFIX);
    if n < PREFIX.len() {
        return Err(ReadError::Malformed(at + n));
    }
    find_at(text, at + n)
}
