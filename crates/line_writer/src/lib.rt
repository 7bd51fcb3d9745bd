// Writers of a `key=value` line at a position of a buffer, one to a form of value, and of bytes as they are.
//
// Buffer and position are parameters each: the buffer is the caller's, and only the position goes on from line to line. A key is handed in with its `=`, and what writes hex is lent a table of digits, whichever: with that of `hex_tables` a line is written as the crate
// `format` defines it. What does not fit is not written at all. Every function is proved, for every argument: no public one has a `requires`. The
// crate assumes nothing.
#![tactic(auto)]

mod digits;
mod lines;

pub use lines::{decimal_length, has_room, write_bytes, write_decimal, write_hex};

// The byte that ends a line.
const NEWLINE: u8 = 10;
