// Credentials: whether they are valid, and what a call makes of them.
use crate::fields::{Fields, LARGEST_SIZE};
use crate::output;
use credentials::{Credentials, Ids, Sets};
use std::io;

// The four user IDs and the four group IDs (decimal), the five sets (hex), securebits (hex) and no-new-privs.
pub(crate) fn start_of(fields: &mut Fields<'_>) -> Credentials {
    Credentials {
        uids: ids_of(fields),
        gids: ids_of(fields),
        sets: sets_of(fields),
        securebits: fields.hex(),
        nnp: fields.hex() == 1,
    }
}

fn ids_of(fields: &mut Fields<'_>) -> Ids {
    Ids {
        real: fields.decimal(),
        effective: fields.decimal(),
        saved: fields.decimal(),
        filesystem: fields.decimal(),
    }
}

fn sets_of(fields: &mut Fields<'_>) -> Sets {
    Sets {
        permitted: fields.hex(),
        inheritable: fields.hex(),
        effective: fields.hex(),
        bounding: fields.hex(),
        ambient: fields.hex(),
    }
}

// Whether the row's credentials are valid.
pub(crate) fn show_validity(rt: &impl Print, row: &[u8]) -> io::Result<()> {
    let given = start_of(&mut Fields::of(row));
    output::flag(rt, b"valid=", credentials::is_valid(given))?;
    output::text(rt, b"\n")
}

// The answer to the call whose number (decimal), operands (hex) and attribute bytes follow the credentials.
pub(crate) fn show_call(rt: &impl Print, row: &[u8]) -> io::Result<()> {
    let mut fields = Fields::of(row);
    let start = start_of(&mut fields);
    let number = fields.decimal();
    let a = fields.hex();
    let b = fields.hex();
    let c = fields.hex();
    let mut buffer = [0u8; LARGEST_SIZE];
    let answer = calls::perform(start, number, a, b, c, fields.bytes(&mut buffer));
    show_answer(
        rt,
        answers::code(answer),
        answers::value(answer),
        answers::cause(answer),
    )?;
    show_credentials(rt, answers::after(start, answer))?;
    output::text(rt, b"\n")
}

pub(crate) fn show_answer(rt: &impl Print, code: u8, value: u64, cause: u8) -> io::Result<()> {
    output::decimal(rt, b"code=", u64::from(code))?;
    output::hex(rt, b" value=", value, 1)?;
    output::decimal(rt, b" cause=", u64::from(cause))
}

pub(crate) fn show_credentials(rt: &impl Print, given: Credentials) -> io::Result<()> {
    show_ids(rt, b" uids=", given.uids)?;
    show_ids(rt, b" gids=", given.gids)?;
    output::hex(rt, b" sets=", given.sets.permitted, 1)?;
    output::hex(rt, b",", given.sets.inheritable, 1)?;
    output::hex(rt, b",", given.sets.effective, 1)?;
    output::hex(rt, b",", given.sets.bounding, 1)?;
    output::hex(rt, b",", given.sets.ambient, 1)?;
    output::hex(rt, b" securebits=", given.securebits, 1)?;
    output::flag(rt, b" nnp=", given.nnp)
}

fn show_ids(rt: &impl Print, key: &[u8], ids: Ids) -> io::Result<()> {
    output::decimal(rt, key, ids.real)?;
    output::decimal(rt, b",", ids.effective)?;
    output::decimal(rt, b",", ids.saved)?;
    output::decimal(rt, b",", ids.filesystem)
}
