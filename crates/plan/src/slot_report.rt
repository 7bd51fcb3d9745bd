// The end of a slot plan's report: each used slot's line and sheet. (Buffer, position and tables are handed on as `line_writer` and `sheet_writer` take them.)
ghost use Rattle.std.specs.Prelude.{◌≡◌, true, ℕ, ◌+◌, ◌≤◌, ◌<◌, length};
ghost use Rattle.std.proofs.lemmas.List.Edits.{sets};
ghost use Rattle.credentials.specs.Validity.{valid};
ghost use Rattle.slot_format.specs.SlotReport.{slot_text, table_text};
ghost use Rattle.plan.specs.Inside.{UsedValid};

use crate::tables::Tables;
use credentials::Credentials;
use line_writer::{decimal_length, write_decimal};
use threads::Threads;

// The length of a slot's line without its digits.
const SLOT_LINE_LENGTH: usize = 6;

// How long the line and the sheet of a slot are.
fn slot_length(slot: usize, held: Credentials) -> usize
    ensures { (result ≡ length (slot_text slot held)) × (result ≤ 390) }
{
    SLOT_LINE_LENGTH + decimal_length(slot as u64) + sheet_writer::sheet_length(held)
}

// How long the lines and sheets of all slots in use are.
pub(crate) fn slots_length(table: &Threads) -> usize
    ensures { (result ≡ length (table_text table.now)) × (result ≤ 37440) }
{
    let mut n: usize = 0;
    for (slot, used) in table.used.iter().enumerate() {
        if *used {
            n += slot_length(slot, table.credentials[slot]);
        }
    }
    n
}

// The line and the sheet of a slot with valid credentials into buf from the position at on, where they fit: the position past them.
fn write_slot(buf: &mut [u8], at: usize, slot: usize, held: Credentials, tables: &Tables) -> usize
    requires { (valid held ≡ true) × (at + length (slot_text slot held) ≤ length buf.old) × (at + length (slot_text slot held) ≤ 65535) }
    ensures { (result ≡ at + length (slot_text slot held)) × (buf.new ≡ sets buf.old at (slot_text slot held)) }
{
    let past = write_decimal(buf, at, b"slot=", slot as u64);
    let length = sheet_writer::write_at(buf, past, held, &tables.writing).unwrap();
    past + length as usize
}

// The lines and sheets of all slots in use, whose credentials are valid, into buf from the position at on.
pub(crate) fn write_slots(buf: &mut [u8], at: usize, table: &Threads, tables: &Tables)
    requires { UsedValid table.now × (at + length (table_text table.now) ≤ length buf.old) × (at + length (table_text table.now) ≤ 65535) }
    ensures { buf.new ≡ sets buf.old at (table_text table.now) }
{
    let mut past = at;
    for (slot, used) in table.used.iter().enumerate() {
        if *used {
            past = write_slot(buf, past, slot, table.credentials[slot], tables);
        }
    }
}
