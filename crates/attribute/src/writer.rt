// Writing an attribute of version 2 into a buffer that the caller lends.
ghost use Rattle.std.specs.Prelude.{◌≡◌, ◌+◌, ◌≤◌, length};
ghost use Rattle.std.proofs.lemmas.List.Edits.{sets};
ghost use Rattle.attribute.specs.Words.{word_bytes};
ghost use Rattle.attribute.specs.Writer.{buffer_after, first_word, version2_bytes, written};

use crate::reader::has_bits_above_40;
use crate::{
    FIRST_WORD, INHERITABLE_HIGH, INHERITABLE_LOW, PERMITTED_HIGH, PERMITTED_LOW, WORD, WriteError,
    XATTR_CAPS_SZ_2,
};

// The first word of version 2 with the effective bit off, and that bit.
const VFS_CAP_REVISION_2: u32 = 0x0200_0000;

const VFS_CAP_FLAGS_EFFECTIVE: u32 = 1;

// How many bytes are written.
const VERSION_2_LENGTH: u32 = 20;

// Writes two sets and an effective bit as a version 2 attribute at the start of buffer: 22 where a set has a bit above 40, then 28 where buffer
// is shorter than 20 bytes, and in both cases nothing is written; else 20 bytes, and those past them stay.
pub fn write(
    permitted: u64,
    inheritable: u64,
    effective: bool,
    buffer: &mut [u8],
) -> Result<u32, WriteError>
    ensures { (result ≡ written permitted inheritable (length buffer.old)) × (buffer.new ≡ buffer_after permitted inheritable effective buffer.old) }
{
    if has_bits_above_40(permitted, inheritable) {
        return Err(WriteError::OutOfRange);
    }
    if buffer.len() < XATTR_CAPS_SZ_2 {
        return Err(WriteError::NoRoom);
    }
    put_words(permitted, inheritable, effective, buffer);
    Ok(VERSION_2_LENGTH)
}

fn put_words(permitted: u64, inheritable: u64, effective: bool, buffer: &mut [u8])
    requires { 20 ≤ length buffer.old }
    ensures { buffer.new ≡ sets buffer.old 0 (version2_bytes permitted inheritable effective) }
{
    put_word(first_word(effective), buffer, FIRST_WORD);
    put_word((permitted % WORD) as u32, buffer, PERMITTED_LOW);
    put_word((inheritable % WORD) as u32, buffer, INHERITABLE_LOW);
    put_word((permitted / WORD) as u32, buffer, PERMITTED_HIGH);
    put_word((inheritable / WORD) as u32, buffer, INHERITABLE_HIGH);
}

fn first_word(effective: bool) -> u32
    ensures { result ≡ first_word effective }
{
    if effective {
        return VFS_CAP_REVISION_2 + VFS_CAP_FLAGS_EFFECTIVE;
    }
    VFS_CAP_REVISION_2
}

// Puts the four bytes of a word at `at`, lowest first.
fn put_word(value: u32, buffer: &mut [u8], at: usize)
    requires { at + 4 ≤ length buffer.old }
    ensures { buffer.new ≡ sets buffer.old at (word_bytes value) }
{
    buffer[at..at + 4].copy_from_slice(&value.to_le_bytes());
}
