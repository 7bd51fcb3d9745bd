// Reads standard input, or any other reader, up to so many bytes. The crate assumes nothing.
#![tactic(auto)]

ghost use Rattle.std.specs.Prelude.{ℕ, ◌<◌, ◌≤◌, IfOk, OnErr, length, take};
ghost use Rattle.std.specs.Io.{ReadsAtMost};
ghost use Rattle.std.specs.Io.KnownBytes.{Consumes, IsAtEnd};

use std::io;
use std::io::Read;

// Reads until the buffer is full or the input ends: how many bytes were read, which stand at the buffer's front. Where a read fails, its error; what was
// read before it stands there, and no more was taken from the reader.
pub fn read_full<R: Read>(reader: &mut R, buffer: &mut [u8]) -> io::Result<usize>
    ensures within { ReadsAtMost result buffer.new }
    ensures bytes { IfOk result (λ size. Consumes (R.remaining reader.old) (R.remaining reader.new) (take size buffer.new)) }
    ensures err { OnErr result ((size : ℕ) × (size ≤ length buffer.new) × Consumes (R.remaining reader.old) (R.remaining reader.new) (take size buffer.new)) }
    ensures end { IfOk result (λ size. size < length buffer.new → IsAtEnd (R.remaining reader.new)) }
{
    let mut size = 0;
    // A `while`: size goes on by as many bytes as a read gave.
    while size < buffer.len() {
        let more = reader.read(&mut buffer[size..])?;
        if more == 0 {
            break;
        }
        size += more;
    }
    Ok(size)
}
