// The writer of capabilities in names: the text's length first, then its clauses.
//
// The form itself is defined in the crate `names`. Every function is proved, for every argument: no public one has a `requires`. The crate assumes nothing.
#![tactic(auto)]

ghost use Rattle.std.specs.Prelude.{◌≡◌, ◌≤◌, length};
ghost use Rattle.std.proofs.lemmas.List.Edits.{sets};
ghost use Rattle.names.specs.Writing.{bits_above40, names_answer, names_buffer, sets_text};

mod clause;
mod table;

use attribute::WriteError;
use capabilities::sets;
use clause::{clause_length, write_clause};
use names::Sets;
use table::names;

// The sets in names at the front of a buffer: 22, then 28, and nothing written, or the text's length.
#[tactic(auto, unfolding(names::specs::Writing::names_answer, names::specs::Writing::names_buffer))]
pub fn write_names(held: Sets, buf: &mut [u8]) -> Result<u32, WriteError>
    ensures { (result ≡ names_answer held (length buf.old)) × (buf.new ≡ names_buffer held buf.old) }
{
    if has_bits_above_40(held) {
        return Err(WriteError::OutOfRange);
    }
    let size = text_length(held);
    if buf.len() < size {
        return Err(WriteError::NoRoom);
    }
    write_clauses(buf, held);
    Ok(size as u32)
}

// Whether some set has a bit above 40: as `attribute` has it of two sets, by a definition of this form.
#[tactic(auto, unfolding(names::specs::Writing::bits_above40))]
fn has_bits_above_40(held: Sets) -> bool
    ensures { result ≡ bits_above40 held }
{
    sets::outside(
        held.permitted | (held.inheritable | held.effective),
        sets::FULL,
    )
}

// How long the text of the sets is.
#[tactic(auto, using(crate::proofs::Texts::steps))]
fn text_length(held: Sets) -> usize
    ensures { (result ≡ length (sets_text held)) × (result ≤ 748) }
{
    let mut size = 0;
    for (number, name) in names().iter().enumerate() {
        size += clause_length(size, name, held, number as u64);
    }
    size
}

// The text of the sets into buf, from its front on. The names are gone through twice, since the length is asked before a byte is written.
#[tactic(auto, using(crate::proofs::Texts::steps))]
fn write_clauses(buf: &mut [u8], held: Sets)
    requires { length (sets_text held) ≤ length buf.old }
    ensures { buf.new ≡ sets buf.old 0 (sets_text held) }
{
    let mut at = 0;
    for (number, name) in names().iter().enumerate() {
        at = write_clause(buf, at, name, held, number as u64);
    }
}
