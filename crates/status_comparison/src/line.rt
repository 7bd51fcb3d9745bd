// A line of the list: a key with its two values, and how these are written.
ghost use Rattle.std.specs.Prelude.{◌≤◌, length};

// How values are written: a number in decimal digits, or a set in hex digits.
#[derive(Clone, Copy)]
pub(crate) enum Form {
    Decimal,
    Hex,
}

// A key with the space behind it, and its values: what is predicted and what is found.
#[derive(Clone, Copy)]
pub(crate) struct Line {
    pub key: &'static [u8],
    pub form: Form,
    pub predicted: u64,
    pub found: u64,
    ghost short: { length key.now ≤ 12 },
}
