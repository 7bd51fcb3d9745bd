// One digit: a hex digit by a table, a decimal one by tests. A number that is too large stands for none: an Option a digit was slower (lines.rt).
ghost use Rattle.std.specs.Prelude.{◌≡◌};
ghost use Rattle.format.specs.Line.{decimal_digit};
ghost use Rattle.hex_tables.specs.Tables.{hex_digit_by};

// The byte of `0`, and the first one past `9`.
const ZERO: u8 = 48;

const PAST_NINE: u8 = 58;

// What b is as a hex digit by the table: above 15 it is none.
pub(crate) fn hex_digit(table: &[u8; 256], b: u8) -> u64
    ensures { result ≡ hex_digit_by table.now b }
{
    let i = b as usize;
    u64::from(table[i])
}

// The number of b as a decimal digit, or 10 where it is none.
pub(crate) fn decimal_digit(b: u8) -> u64
    ensures { result ≡ decimal_digit b }
{
    if b < ZERO {
        return 10;
    }
    if b < PAST_NINE {
        return (b - ZERO) as u64;
    }
    10
}
