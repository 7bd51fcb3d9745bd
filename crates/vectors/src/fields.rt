// The values of a row, one after the other. A value begins after `=` or `,`.
ghost use Rattle.std.specs.Prelude.{◌≤◌, IfSome};

// The most bytes that a row's last field is read as.
pub(crate) const LARGEST_SIZE: usize = 32;

// A value below this takes one more hex digit.
const ROOM_FOR_HEX: u64 = 0x1000_0000_0000_0000;

// A value below this takes one more decimal digit; the largest one only up to 5.
const ROOM_FOR_DECIMAL: u64 = 1844674407370955162;

// What is left of a row behind the values that were read.
#[derive(Clone, Copy)]
pub(crate) struct Fields<'a> {
    rest: &'a [u8],
}

impl<'a> Fields<'a> {
    pub(crate) fn of(row: &'a [u8]) -> Fields<'a> {
        Fields { rest: row }
    }

    // The row from the next value on.
    pub(crate) fn text(&self) -> &'a [u8] {
        let rest = self.rest;
        match rest.iter().position(|b| (*b == b'=') | (*b == b',')) {
            Some(at) => &rest[at + 1..],
            None => &rest[rest.len()..],
        }
    }

    pub(crate) fn decimal(&mut self) -> u64 {
        self.number(false)
    }

    pub(crate) fn hex(&mut self) -> u64 {
        self.number(true)
    }

    fn number(&mut self, is_hex: bool) -> u64 {
        let text = self.text();
        let size = text
            .iter()
            .position(|b| digit(*b).is_none())
            .unwrap_or(text.len());
        let (digits, rest) = text.split_at(size);
        self.rest = rest;
        let mut value = 0;
        for glyph in digits {
            value = with_digit(value, is_hex, nibble(*glyph));
        }
        value
    }

    // The bytes of the last value, two digits each, as many as the buffer has room for: at its front.
    pub(crate) fn bytes<'b>(&self, buffer: &'b mut [u8; LARGEST_SIZE]) -> &'b [u8] {
        let value = self.text();
        let size = (value.len() / 2).min(LARGEST_SIZE);
        for (place, pair) in buffer.iter_mut().zip(value.chunks_exact(2)) {
            *place = byte(pair[0], pair[1]);
        }
        &buffer[..size]
    }
}

// A number with one more digit behind it. Digits that it has no room for are lost.
fn with_digit(value: u64, is_hex: bool, next: u8) -> u64
    requires { next ≤ 15 }
{
    if is_hex {
        return value % ROOM_FOR_HEX * 16 + u64::from(next);
    }
    (value % ROOM_FOR_DECIMAL * 10).wrapping_add(u64::from(next))
}

pub(crate) fn byte(high: u8, low: u8) -> u8 {
    nibble(high) * 16 + nibble(low)
}

// A digit's value, or 0 where it is none.
fn nibble(glyph: u8) -> u8
    ensures { result ≤ 15 }
{
    digit(glyph).unwrap_or(0)
}

// A digit's value, decimal or lower-case hex.
fn digit(glyph: u8) -> Option<u8>
    ensures { IfSome result (λ value. value ≤ 15) }
{
    match glyph {
        b'0'..=b'9' => Some(glyph - b'0'),
        b'a'..=b'f' => Some(glyph - b'a' + 10),
        _ => None,
    }
}
