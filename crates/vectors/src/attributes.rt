// The attribute's reader and writer.
use crate::fields::{Fields, LARGEST_SIZE};
use crate::output;
use std::io;

// What the bytes of `read=` stand for.
pub(crate) fn show_reading(rt: &impl Print, row: &[u8]) -> io::Result<()> {
    let mut buffer = [0u8; LARGEST_SIZE];
    let answer = attribute::read(Fields::of(row).bytes(&mut buffer));
    output::decimal(rt, b"code=", u64::from(attribute::reading_code(answer)))?;
    if let Ok(file) = answer {
        output::flag(rt, b" attached=", file.attached)?;
        output::hex(rt, b" permitted=", file.permitted, 1)?;
        output::hex(rt, b" inheritable=", file.inheritable, 1)?;
        output::flag(rt, b" effective=", file.effective)?;
    }
    output::text(rt, b"\n")
}

// The sets and the bit of `write=` in a buffer of `room=` bytes, each aa before.
pub(crate) fn show_writing(rt: &impl Print, row: &[u8]) -> io::Result<()> {
    let mut fields = Fields::of(row);
    let permitted = fields.hex();
    let inheritable = fields.hex();
    let effective = fields.hex() == 1;
    let room = fields.decimal() as usize;
    let mut buffer = [0xaau8; LARGEST_SIZE];
    if let Some(lent) = buffer.get_mut(..room) {
        show_written(rt, permitted, inheritable, effective, lent)?;
    }
    Ok(())
}

// The writer's answer, and the whole buffer afterwards.
fn show_written(
    rt: &impl Print,
    permitted: u64,
    inheritable: u64,
    effective: bool,
    buffer: &mut [u8],
) -> io::Result<()> {
    output::written(
        rt,
        attribute::write(permitted, inheritable, effective, buffer),
    )?;
    output::bytes(rt, b" buffer=", buffer)?;
    output::text(rt, b"\n")
}
