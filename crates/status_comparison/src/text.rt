// The text of a line: how long it is, and written. Where the two values do not differ there is none.
ghost use Rattle.std.specs.Prelude.{◌≡◌, ◌+◌, ◌≤◌, length};
ghost use Rattle.format.specs.Line.{keyed_text, value_text};
ghost use Rattle.hex_tables.specs.Tables.{writing_table};
ghost use Rattle.line_writer.specs.Positions.{written, written_to};
ghost use Rattle.status_comparison.specs.Inside.{form_of, line_of, Put};
ghost use Rattle.status_comparison.specs.Lines.{line_text};

use crate::line::{Form, Line};
use line_writer::{decimal_length, write_decimal, write_hex};

// How many hex digits a set has.
const SET_DIGITS: u8 = 16;

// How many bytes a line has besides its digits and its key: the second space and the newline.
const FIXED_LENGTH: usize = 2;

impl Line {
    pub(crate) fn new(key: &'static [u8], form: Form, predicted: u64, found: u64) -> Line
        requires { length key.now ≤ 12 }
        ensures { line_text result ≡ line_of key.now (form_of form) predicted found }
    {
        Line {
            key,
            form,
            predicted,
            found,
        }
    }

    // How long it is: decimal values have at most 20 digits each.
    pub(crate) fn length(&self) -> usize
        ensures { (result ≡ length (line_text self.now)) × (result ≤ 54) }
    {
        if self.predicted == self.found {
            return 0;
        }
        self.key.len()
            + self.form.digits(self.predicted)
            + self.form.digits(self.found)
            + FIXED_LENGTH
    }

    // The line at a position of a buffer that it fits: the position past it. The second value goes over the newline behind the first.
    pub(crate) fn write(&self, list: &mut [u8], at: usize, table: &[u8; 16]) -> usize
        requires { (at + length (line_text self.now) ≤ length list.old) × (table.now ≡ writing_table) }
        ensures { Put list.old at (line_text self.now) list.new result }
    {
        if self.predicted == self.found {
            return at;
        }
        let past = self.form.write(list, at, self.key, self.predicted, table);
        self.form.write(list, past - 1, b" ", self.found, table)
    }
}

impl Form {
    // How many digits a value has.
    fn digits(self, value: u64) -> usize
        ensures { (result ≡ length (value_text (form_of self) value)) × (result ≤ 20) }
    {
        match self {
            Form::Decimal => decimal_length(value),
            Form::Hex => usize::from(SET_DIGITS),
        }
    }

    // A value behind a key, and a newline, at a position of a buffer: the position past them.
    fn write(self, list: &mut [u8], at: usize, key: &[u8], value: u64, table: &[u8; 16]) -> usize
        requires { table.now ≡ writing_table }
        ensures { (result ≡ written_to list.old at (keyed_text key.now (value_text (form_of self) value))) × (list.new ≡ written list.old at (keyed_text key.now (value_text (form_of self) value))) }
    {
        match self {
            Form::Decimal => write_decimal(list, at, key, value),
            Form::Hex => write_hex(list, at, key, SET_DIGITS, value, table),
        }
    }
}
