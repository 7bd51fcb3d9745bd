// A clause: whom it is about, and what its operators and flags do to the sets.
ghost use Rattle.std.specs.Prelude.{◌≡◌, true, false, ◌≤◌, ◌<◌, length, get_or};
ghost use Rattle.names.specs.Grammar.{blank, changed, flagged, without};
ghost use Rattle.names.specs.Reading.{gap, operated};
ghost use Rattle.names_reader.specs.Inside.{begun, ClauseEnd, clause_read, OperatorsEnd, read_at};

use crate::Parsed;
use crate::bytes::{DASH, EQUALS, FLAG_E, FLAG_I, is_blank, is_flag, is_operator};
use crate::subjects::subject_at;
use capabilities::sets::difference;
use names::{ReadError, Sets};

// The clause at the position at, and the blank that ends it: the sets that it leaves.
pub(crate) fn clause_at(text: &[u8], at: usize, s: Sets) -> Parsed<Sets>
    requires { (at < length text.now) × (blank (get_or text.now at 0) ≡ false) }
    ensures { (clause_read result text.now ≡ read_at text.now at (gap s)) × ClauseEnd result at }
{
    let (c, next) = subject_at(text, at)?;
    operators_at(text, next, c, s)
}

// The operators of a clause about c, and the blank that ends it.
#[tactic(auto, using(crate::proofs::Steps::operators))]
fn operators_at(text: &[u8], at: usize, c: u64, s: Sets) -> Parsed<Sets>
    requires { at ≤ length text.now }
    ensures { (clause_read result text.now ≡ read_at text.now at (operated true true c s)) × OperatorsEnd result at text.now }
{
    let mut gives = true;
    let mut ends = true;
    let mut sets = s;
    // A range: `iter().enumerate().skip(at)` would go through all bytes before at, at each clause anew (the library's `skip` takes single steps).
    for i in at..text.len() {
        let b = text[i];
        if is_flag(b) {
            sets = flagged(gives, c, b, sets);
            ends = true;
        } else if ends && is_blank(b) {
            return Ok((sets, i + 1));
        } else if ends && is_operator(b) {
            sets = begun(b, c, sets);
            gives = b != DASH;
            ends = b == EQUALS;
        } else {
            return Err(ReadError::Malformed(i));
        }
    }
    if ends {
        return Ok((sets, text.len()));
    }
    Err(ReadError::Malformed(text.len()))
}

// What an operator does before its flags: `=` takes c out of all three sets. (c stays what it is through a clause and s is new at each step: a struct of
// both would be taken apart and made again each time.)
fn begun(b: u8, c: u64, s: Sets) -> Sets
    ensures { result ≡ begun b c s }
{
    if b == EQUALS { without(c, s) } else { s }
}

fn without(c: u64, s: Sets) -> Sets
    ensures { result ≡ without c s }
{
    Sets {
        permitted: difference(s.permitted, c),
        inheritable: difference(s.inheritable, c),
        effective: difference(s.effective, c),
    }
}

// What a flag does: c is given to its set, or taken out of it.
fn flagged(gives: bool, c: u64, b: u8, s: Sets) -> Sets
    ensures { result ≡ flagged gives c b s }
{
    match b {
        FLAG_E => Sets {
            effective: changed(gives, c, s.effective),
            ..s
        },
        FLAG_I => Sets {
            inheritable: changed(gives, c, s.inheritable),
            ..s
        },
        _ => Sets {
            permitted: changed(gives, c, s.permitted),
            ..s
        },
    }
}

fn changed(gives: bool, c: u64, set: u64) -> u64
    ensures { result ≡ changed gives c set }
{
    if gives { set | c } else { difference(set, c) }
}
