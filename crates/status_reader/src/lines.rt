// A line, without its newline: whether it is wanted, and the values of each kind of wanted line.
ghost use Rattle.std.specs.Prelude.{◌≡◌, ◌<◌, List, [], ◌∷◌, ◌||◌, eqb, length, position, MatchOption};
ghost use Rattle.format.specs.Line.{bytes, Form, fault, starts_with};
ghost use Rattle.status.specs.Lines.{id_form, ids_entry, flag_entry, lines_of, set_form, wanted};
ghost use Rattle.status.specs.Reading.{up_to, since, read_entry};
ghost use Rattle.status_reader.specs.Inside.{behind_tab, first_read, ids_read, line_read};

use crate::values::{Digits, decimal_value, set_value};
use credentials::Ids;

// The byte before each value.
const TAB: u8 = b'\t';

// The byte that ends a line.
const NEWLINE: u8 = b'\n';

// The largest number that can be written for an ID, and for no-new-privs.
const LARGEST_WRITTEN_ID: u32 = 4294967295;

const LARGEST_FLAG: u32 = 1;

// What stands before the first b and behind it, where there is one.
fn split_once(text: &[u8], b: u8) -> Option<(&[u8], &[u8])>
    ensures { MatchOption result (since b text.now ≡ []) (λ p. (up_to b text.now ≡ p.0.now) × (since b text.now ≡ b ∷ p.1.now)) }
{
    let end = find(text, b)?;
    Some((&text[..end], &text[end + 1..]))
}

// The position of the first b, if there is one.
fn find(text: &[u8], b: u8) -> Option<usize>
    ensures { result ≡ position (λ x. eqb x b) text.now }
{
    // (By index, and not by `iter().position`, which counts twice at each byte: a status file of the kernel took a quarter longer and more.)
    for i in 0..text.len() {
        if text[i] == b {
            return Some(i);
        }
    }
    None
}

// The first line of a text and what stands behind it; an empty text has none.
pub(crate) fn first_line(text: &[u8]) -> Option<(&[u8], &[u8])>
    ensures { MatchOption result (lines_of text.now ≡ []) (λ p. (lines_of text.now ≡ p.0.now ∷ lines_of p.1.now) × (length p.1.now < length text.now)) }
{
    if text.is_empty() {
        return None;
    }
    Some(split_once(text, NEWLINE).unwrap_or((text, &[])))
}

// Whether a line is wanted. Its first byte tells most of those apart that are not.
pub(crate) fn is_wanted(line: &[u8]) -> bool
    ensures { result ≡ wanted line.now }
{
    let Some(first) = line.first() else {
        return false;
    };
    match *first {
        b'C' => is_set_line(line),
        b'U' => begins_with(line, b"Uid:"),
        b'N' => begins_with(line, b"NoNewPrivs:"),
        _ => false,
    }
}

// Whether a line begins with the name of a set.
fn is_set_line(line: &[u8]) -> bool
    ensures { result ≡ starts_with (bytes "CapInh:") line.now || (starts_with (bytes "CapPrm:") line.now || (starts_with (bytes "CapEff:") line.now || (starts_with (bytes "CapBnd:") line.now || starts_with (bytes "CapAmb:") line.now))) }
{
    begins_with(line, b"CapInh:")
        || begins_with(line, b"CapPrm:")
        || begins_with(line, b"CapEff:")
        || begins_with(line, b"CapBnd:")
        || begins_with(line, b"CapAmb:")
}

// Whether a line begins with a name.
fn begins_with(line: &[u8], name: &[u8]) -> bool
    ensures { result ≡ starts_with name.now line.now }
{
    line.starts_with(name)
}

// The values of the line of a name, behind the tab before the first.
fn values_of<'a>(line: &'a [u8], name: &[u8]) -> Option<&'a [u8]>
    ensures { MatchOption result ((f : Form) (fs : List Form) → fault ≡ read_entry (record { name = name.now; forms = f ∷ fs }) line.now) (λ t. (f : Form) (fs : List Form) → behind_tab f fs t.now ≡ read_entry (record { name = name.now; forms = f ∷ fs }) line.now) }
{
    line.strip_prefix(name)?.strip_prefix(b"\t")
}

// The set of the line of a name.
pub(crate) fn set_line(line: &[u8], name: &[u8], digits: &Digits) -> Option<u64>
    ensures { line_read result ≡ read_entry (record { name = name.now; forms = set_form ∷ [] }) line.now }
{
    set_value(values_of(line, name)?, digits)
}

// The flag of no-new-privs' line.
pub(crate) fn flag_line(line: &[u8], digits: &Digits) -> Option<u64>
    ensures { line_read result ≡ read_entry flag_entry line.now }
{
    decimal_value(values_of(line, b"NoNewPrivs:")?, LARGEST_FLAG, digits)
}

// The ID up to the next tab, and the values behind that.
fn first_id<'a>(values: &'a [u8], digits: &Digits) -> Option<(u64, &'a [u8])>
    ensures { MatchOption result ((f : Form) (fs : List Form) → fault ≡ behind_tab id_form (f ∷ fs) values.now) (λ r. (f : Form) (fs : List Form) → first_read r.0 r.1.now f fs ≡ behind_tab id_form (f ∷ fs) values.now) }
{
    let (part, behind) = split_once(values, TAB)?;
    let id = decimal_value(part, LARGEST_WRITTEN_ID, digits)?;
    Some((id, behind))
}

// The four user IDs of their line.
pub(crate) fn ids_line(line: &[u8], digits: &Digits) -> Option<Ids>
    ensures { ids_read result ≡ read_entry ids_entry line.now }
{
    let values = values_of(line, b"Uid:")?;
    let (real, values) = first_id(values, digits)?;
    let (effective, values) = first_id(values, digits)?;
    let (saved, values) = first_id(values, digits)?;
    let filesystem = decimal_value(values, LARGEST_WRITTEN_ID, digits)?;
    Some(Ids {
        real,
        effective,
        saved,
        filesystem,
    })
}
