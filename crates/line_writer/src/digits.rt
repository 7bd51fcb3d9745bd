// One digit: a hex digit by a table, a decimal one by its number.
ghost use Rattle.std.specs.Prelude.{◌≡◌, ◌<◌};
ghost use Rattle.format.specs.Line.{digit};
ghost use Rattle.hex_tables.specs.Tables.{digit_by};

// What a decimal digit's byte has more than its number.
const ZERO: u64 = 48;

// The hex digit of d by the table.
pub(crate) fn hex_digit(table: &[u8; 16], d: u64) -> u8
    requires { d < 16 }
    ensures { result ≡ digit_by table.now d }
{
    let i = d as usize;
    table[i]
}

// The decimal digit of d.
pub(crate) fn decimal_digit(d: u64) -> u8
    requires { d < 10 }
    ensures { result ≡ digit d }
{
    (ZERO + d) as u8
}
