// A value: the part of a line between a tab and the next, or the line's end.
ghost use Rattle.std.specs.Prelude.{◌≡◌, ◌≤◌, ◌<◌, MatchOption};
ghost use Rattle.format.specs.Line.{decimal, hex_digit};
ghost use Rattle.hex_tables.specs.Tables.{reading_table};
ghost use Rattle.status.specs.Lines.{set_form};
ghost use Rattle.status.specs.Reading.{value_of};
ghost use Rattle.status_reader.specs.Inside.{value_read};

use hex_tables::reading_table;

// How many hex digits a set has.
const SET_DIGITS: usize = 16;

// What digits are read by: the table for reading, made once and lent.
#[derive(Drop)]
pub(crate) struct Digits {
    table: [u8; 256],
    ghost made: { table ≡ reading_table },
}

impl Digits {
    pub(crate) fn new() -> Digits {
        Digits {
            table: reading_table(),
        }
    }

    // What b is as a digit below base, if it is one.
    fn digit(&self, b: u8, base: u64) -> Option<u64>
        ensures { MatchOption result (base ≤ hex_digit b) (λ d. (d ≡ hex_digit b) × (d < base)) }
    {
        let d = u64::from(self.table[usize::from(b)]);
        if d < base { Some(d) } else { None }
    }
}

// The part as a capability set. `line_reader` has a loop like this one: it is private there and reads by whatever table, and a public one would be one
// contract more.
pub(crate) fn set_value(part: &[u8], digits: &Digits) -> Option<u64>
    ensures { value_read result ≡ value_of set_form part.now }
{
    if part.len() != SET_DIGITS {
        return None;
    }
    let mut value: u64 = 0;
    for b in part {
        let d = digits.digit(*b, 16)?;
        value = value * 16 + d;
    }
    Some(value)
}

// The part as a decimal number up to largest.
pub(crate) fn decimal_value(part: &[u8], largest: u32, digits: &Digits) -> Option<u64>
    ensures { value_read result ≡ value_of (decimal largest) part.now }
{
    let (first, further) = part.split_first()?;
    let mut value = digits.digit(*first, 10)?;
    if u64::from(largest) < value {
        return None;
    }
    for b in further {
        if value == 0 {
            return None;
        }
        let d = digits.digit(*b, 10)?;
        value = value * 10 + d;
        if u64::from(largest) < value {
            return None;
        }
    }
    Some(value)
}
