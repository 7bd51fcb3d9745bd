// Steps in a slot of a table of threads.
use crate::fields::{Fields, LARGEST_SIZE};
use crate::{output, tables, thread};
use std::io;

const FORK: u64 = 30;

// The step of a row.
#[derive(Clone, Copy)]
struct Step {
    slot: u64,
    number: u64,
    a: u64,
    b: u64,
    c: u64,
}

// The slot's and the call's number (decimal) and the operands (hex).
fn step_of(fields: &mut Fields<'_>) -> Step {
    Step {
        slot: fields.decimal(),
        number: fields.decimal(),
        a: fields.hex(),
        b: fields.hex(),
        c: fields.hex(),
    }
}

// What comes back from a step in a slot of the row's table: code, value, cause, the marks of use, and the credentials in the slot that a fork took, or
// else in the one that is named.
pub(crate) fn show_step(rt: &impl Print, row: &[u8]) -> io::Result<()> {
    let mut fields = Fields::of(row);
    let step = step_of(&mut fields);
    let table = tables::table_of(&mut fields, step.slot);
    let mut buffer = [0u8; LARGEST_SIZE];
    let result = slots::step(
        table,
        step.slot,
        step.number,
        step.a,
        step.b,
        step.c,
        fields.bytes(&mut buffer),
    );
    let mut shown = step.slot;
    if (step.number == FORK) & (result.code == 0) {
        shown = result.value;
    }
    thread::show_answer(rt, result.code, result.value, result.cause)?;
    tables::show_marks(rt, &result.table)?;
    tables::show_slot(rt, &result.table, shown, result.code)?;
    output::text(rt, b"\n")
}
