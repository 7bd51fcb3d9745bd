// Whom a clause is about: names joined by commas, `all`, or nothing.
ghost use Rattle.std.specs.Prelude.{◌≡◌, false, ◌≤◌, ◌<◌, length, get_or};
ghost use Rattle.names.specs.Grammar.{blank};
ghost use Rattle.names_reader.specs.Inside.{AllTold, NamesTold, SubjectEnd, SubjectTold};

use crate::Parsed;
use crate::bytes::{COMMA, EQUALS, is_operator};
use crate::words::{common, name_at};
use capabilities::sets::{FULL, single};
use names::ReadError;

// Whom the clause at the position at is about; the position is that of its first operator.
#[tactic(auto, using(crate::proofs::Steps::first_byte))]
pub(crate) fn subject_at(text: &[u8], at: usize) -> Parsed<u64>
    requires { (at < length text.now) × (blank (get_or text.now at 0) ≡ false) }
    ensures { SubjectTold result text.now at × SubjectEnd result at text.now }
{
    let b = text[at];
    if b == EQUALS {
        return Ok((FULL, at));
    }
    if b.to_ascii_lowercase() == b'a' {
        return all_at(text, at);
    }
    let (number, next) = name_at(text, at)?;
    names_at(text, next, single(number))
}

// What follows names that mean c: a comma and more names, up to the first operator.
fn names_at(text: &[u8], at: usize, c: u64) -> Parsed<u64>
    ensures { NamesTold result text.now at c × SubjectEnd result at text.now }
{
    let mut i = at;
    let mut all = c;
    // A `while`: i moves on by a comma and a whole name.
    while i < text.len() {
        let b = text[i];
        if is_operator(b) {
            return Ok((all, i));
        }
        if b != COMMA {
            return Err(ReadError::Malformed(i));
        }
        let (number, next) = name_at(text, i + 1)?;
        all |= single(number);
        i = next;
    }
    Err(ReadError::Malformed(i))
}

// `all` at the position at, up to the first operator.
fn all_at(text: &[u8], at: usize) -> Parsed<u64>
    requires { at ≤ length text.now }
    ensures { AllTold result text.now at × SubjectEnd result at text.now }
{
    let n = common(&text[at..], b"all");
    let p = at + n;
    if n == b"all".len() && p < text.len() && is_operator(text[p]) {
        return Ok((FULL, p));
    }
    Err(ReadError::Malformed(p))
}
