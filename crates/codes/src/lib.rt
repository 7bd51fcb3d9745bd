// The codes that come back, as the paper's table "What comes back" numbers them; the other crates have each from here.
//
// They are numbers and no enum, since reports and the C interface carry numbers: where something is refused it is an enum, and `u8::from` gives the
// number. A code has 8 bits. The crate assumes nothing.
#![tactic(auto)]

// Done.
pub const DONE: u8 = 0;

// The rules refuse the call (EPERM).
pub const NOT_PERMITTED: u8 = 1;

// The slot that a step names is not in use (ESRCH).
pub const NO_THREAD: u8 = 3;

// A fork finds no free slot (EAGAIN).
pub const NO_SLOT: u8 = 11;

// Number, operands and attribute make no call, or the slot that a step names is none, or what is to be written is out of its range (EINVAL).
pub const INVALID_ARGUMENT: u8 = 22;

// What is to be written is longer than the lent buffer (ENOSPC).
pub const NO_ROOM: u8 = 28;

// The attribute cannot be read.
pub const UNREADABLE_ATTRIBUTE: u8 = 60;

// The text is malformed, at a line.
pub const MALFORMED: u8 = 70;

// The credentials given are not valid.
pub const INVALID_CREDENTIALS: u8 = 72;
