// Lines of `key=value` words on standard output.
use attribute::WriteError;
use std::io;

pub(crate) fn text(rt: &impl Print, words: &[u8]) -> io::Result<()> {
    rt.write_all(words)
}

pub(crate) fn decimal(rt: &impl Print, key: &[u8], value: u64) -> io::Result<()> {
    rt.write_all(key)?;
    print!(rt; "{value}")
}

pub(crate) fn hex(rt: &impl Print, key: &[u8], value: u64, width: usize) -> io::Result<()> {
    rt.write_all(key)?;
    print!(rt; "{value:0width$x}")
}

pub(crate) fn flag(rt: &impl Print, key: &[u8], value: bool) -> io::Result<()> {
    decimal(rt, key, u64::from(value))
}

// What a writer answers: a code, and how many bytes it wrote.
pub(crate) fn written(rt: &impl Print, answer: Result<u32, WriteError>) -> io::Result<()> {
    let (code, length) = match answer {
        Ok(length) => (0, length),
        Err(error) => (u8::from(error), 0),
    };
    decimal(rt, b"code=", u64::from(code))?;
    decimal(rt, b" length=", u64::from(length))
}

// Each byte as two digits.
pub(crate) fn bytes(rt: &impl Print, key: &[u8], value: &[u8]) -> io::Result<()> {
    rt.write_all(key)?;
    for byte in value {
        print!(rt; "{byte:02x}")?;
    }
    Ok(())
}
