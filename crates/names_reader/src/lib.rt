// The reader of capabilities in names.
//
// A text is read clause by clause: whom a clause is about, then its operators. The form itself is defined in the crate `names`. Every function is proved,
// for every argument: no public one has a `requires`. The crate assumes nothing.
#![tactic(auto)]

ghost use Rattle.std.specs.Prelude.{◌≡◌};
ghost use Rattle.names.specs.Reading.{read_text};

mod bytes;
mod clauses;
mod subjects;
mod table;
mod words;

use names::{ReadError, Sets};

// A part of a text that was read: what it says, and the position past it; or the place of a fault.
// Functions take a text and a position within it, and give the next position. Five contracts ask that it be within:
// a struct of both would keep that, but be made anew at each step, and no call be shorter.
type Parsed<T> = Result<(T, usize), ReadError>;

// The three sets that a text stands for, or the place at which it is malformed.
#[tactic(auto, using(crate::proofs::Found::between))]
pub fn read_names(text: &[u8]) -> Result<Sets, ReadError>
    ensures { result ≡ read_text text.now }
{
    let mut sets = Sets::default();
    let mut i = 0;
    // A `while`: i moves on by a blank or by a whole clause.
    while i < text.len() {
        if bytes::is_blank(text[i]) {
            i += 1;
        } else {
            (sets, i) = clauses::clause_at(text, i, sets)?;
        }
    }
    Ok(sets)
}
