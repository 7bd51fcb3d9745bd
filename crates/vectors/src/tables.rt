// Tables of threads, those too that no slot plan reaches.
use crate::fields::Fields;
use crate::{output, thread};
use capabilities::sets;
use credentials::{Credentials, Ids, Sets};
use std::io;
use threads::Threads;

// How many slots there are.
const SLOTS: usize = 96;

// How many marks of use a word has.
const MARKS: usize = 64;

const NO_IDS: Ids = Ids {
    real: 4294967295,
    effective: 4294967295,
    saved: 4294967295,
    filesystem: 4294967295,
};

const ZEROS: Ids = Ids {
    real: 0,
    effective: 0,
    saved: 0,
    filesystem: 0,
};

// What a slot holds of which the row says nothing.
const EMPTY: Credentials = Credentials {
    uids: ZEROS,
    gids: ZEROS,
    sets: Sets {
        permitted: 0,
        inheritable: 0,
        effective: 0,
        bounding: 0,
        ambient: 0,
    },
    securebits: 0,
    nnp: false,
};

// What the slot of `other=` holds. Every value but no-new-privs is one that makes credentials invalid.
const INVALID: Credentials = Credentials {
    uids: NO_IDS,
    gids: NO_IDS,
    sets: Sets {
        permitted: 0x8000_0000_0000_0000,
        inheritable: 0x4000_0000_0000_0000,
        effective: 0x2000_0000_0000_0000,
        bounding: 0x1000_0000_0000_0000,
        ambient: 0x0800_0000_0000_0000,
    },
    securebits: 256,
    nnp: true,
};

// The table of a row: the marks of use (two words, hex), the slot that holds INVALID (decimal; none for one above 95), and the credentials of the slot that
// the step names.
pub(crate) fn table_of(fields: &mut Fields<'_>, slot: u64) -> Threads {
    let low = fields.hex();
    let high = fields.hex();
    let other = fields.decimal();
    let start = thread::start_of(fields);
    let mut fresh = slots::fresh(EMPTY);
    fresh.used = marked(low, high);
    with(with(fresh, other, INVALID), slot, start)
}

// A table with these credentials in a slot.
fn with(table: Threads, slot: u64, held: Credentials) -> Threads {
    let mut next = table;
    if slot < SLOTS as u64 {
        let at = slot as usize;
        next.credentials[at] = held;
    }
    next
}

// The marks of use as the bits of two words say, the lowest bit first.
fn marked(low: u64, high: u64) -> [bool; SLOTS] {
    let mut used = [false; SLOTS];
    for (i, mark) in used.iter_mut().enumerate() {
        let word = if i < MARKS { low } else { high };
        *mark = sets::has(word, (i % MARKS) as u64);
    }
    used
}

pub(crate) fn show_marks(rt: &impl Print, table: &Threads) -> io::Result<()> {
    let (low, high) = table.used.split_at(MARKS);
    output::hex(rt, b" used=", word(low), 1)?;
    output::hex(rt, b",", word(high), 1)
}

// The marks of some slots as such a word.
fn word(marks: &[bool]) -> u64 {
    let mut word = 0;
    for (i, mark) in marks.iter().enumerate() {
        if *mark {
            word |= sets::single(i as u64);
        }
    }
    word
}

// The credentials in a slot, if there is such a slot. What a slot still holds that an exit freed shows nowhere.
pub(crate) fn show_slot(rt: &impl Print, table: &Threads, slot: u64, code: u8) -> io::Result<()> {
    if slot < SLOTS as u64 {
        let at = slot as usize;
        if table.used[at] | (code != 0) {
            let held = table.credentials[at];
            thread::show_credentials(rt, held)?;
        }
    }
    Ok(())
}
