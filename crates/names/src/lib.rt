// Capabilities in names, the text form of cap_text_formats(7): the types of what comes back here, the definitions in specs/.
//
// There are no functions: the crates `names_reader` and `names_writer` have the code that reads and writes this form. The crate assumes nothing.
#![tactic(auto)]

// The three sets that a text stands for.
#[derive(Clone, Copy, Debug, Default, PartialEq, Eq)]
pub struct Sets {
    pub permitted: u64,
    pub inheritable: u64,
    pub effective: u64,
}

// Why a text cannot be read: malformed (70) at a place, the length of its longest beginning.
// `status` has a ReadError too: each is of a text of its own, here at a place, there at a line, and neither crate stands on the other.
#[derive(Clone, Copy, Debug, PartialEq, Eq)]
pub enum ReadError {
    Malformed(usize),
}
