// Reading an attribute of version 1 or 2 from bytes of any length and content. Each private function computes the
// definition in specs/Reader.antt or specs/Words.antt that its contract names.
ghost use Rattle.std.specs.Prelude.{◌≡◌, ◌≤◌, ◌<◌};
ghost use Rattle.attribute.specs.Words.{byte_at, set_of, word_at};
ghost use Rattle.attribute.specs.Reader.{bits_above40, file_of, length_of, reading, reading_code, unreadable, version1, version2};

use crate::{
    FIRST_WORD, FileCapabilities, INHERITABLE_HIGH, INHERITABLE_LOW, PERMITTED_HIGH, PERMITTED_LOW,
    ReadError, WORD, XATTR_CAPS_SZ_1, XATTR_CAPS_SZ_2,
};
use capabilities::sets;
use codes::DONE;

// The first word's top byte is the revision.
const REVISION_UNIT: u64 = 0x0100_0000;

// The file's capabilities that bytes stand for, or that they are unreadable. No bytes mean that no attribute is attached.
pub fn read(bytes: &[u8]) -> Result<FileCapabilities, ReadError>
    ensures { result ≡ reading bytes.now }
{
    if bytes.is_empty() {
        return Ok(FileCapabilities {
            attached: false,
            permitted: 0,
            inheritable: 0,
            effective: false,
        });
    }
    if is_unreadable(bytes) {
        return Err(ReadError::Unreadable);
    }
    Ok(file_of(bytes))
}

// The number that a reading answers: 0, or 60 where it is unreadable. (A function of its own, for its own error and
// definition, as sheet_reader's `sheet_code` says.)
pub fn reading_code(answer: Result<FileCapabilities, ReadError>) -> u8
    ensures { result ≡ reading_code answer }
{
    match answer {
        Ok(_) => DONE,
        Err(error) => u8::from(error),
    }
}

fn is_unreadable(bytes: &[u8]) -> bool
    ensures { result ≡ unreadable bytes.now }
{
    let length = bytes.len();
    let first = word(bytes, FIRST_WORD);
    let version = first / REVISION_UNIT;
    let file = file_of(bytes);
    ((length != XATTR_CAPS_SZ_1) & (length != XATTR_CAPS_SZ_2))
        | ((version != 1) & (version != 2))
        | (length != length_of(version))
        | (first % REVISION_UNIT / 2 != 0)
        | has_bits_above_40(file.permitted, file.inheritable)
}

fn length_of(version: u64) -> usize
    ensures { result ≡ length_of version }
{
    if version == 1 {
        return XATTR_CAPS_SZ_1;
    }
    XATTR_CAPS_SZ_2
}

pub(crate) fn has_bits_above_40(permitted: u64, inheritable: u64) -> bool
    ensures { result ≡ bits_above40 permitted inheritable }
{
    sets::outside(permitted | inheritable, sets::FULL)
}

fn file_of(bytes: &[u8]) -> FileCapabilities
    ensures { result ≡ file_of bytes.now }
{
    if word(bytes, FIRST_WORD) / REVISION_UNIT == 1 {
        return version_1(bytes);
    }
    version_2(bytes)
}

fn version_1(bytes: &[u8]) -> FileCapabilities
    ensures { result ≡ version1 bytes.now }
{
    FileCapabilities {
        attached: true,
        permitted: word(bytes, PERMITTED_LOW),
        inheritable: word(bytes, INHERITABLE_LOW),
        effective: word(bytes, FIRST_WORD) % 2 == 1,
    }
}

fn version_2(bytes: &[u8]) -> FileCapabilities
    ensures { result ≡ version2 bytes.now }
{
    FileCapabilities {
        attached: true,
        permitted: set_of(word(bytes, PERMITTED_LOW), word(bytes, PERMITTED_HIGH)),
        inheritable: set_of(word(bytes, INHERITABLE_LOW), word(bytes, INHERITABLE_HIGH)),
        effective: word(bytes, FIRST_WORD) % 2 == 1,
    }
}

// A set from its low and its high word.
fn set_of(low: u64, high: u64) -> u64
    requires { (low < 0x100000000) × (high < 0x100000000) }
    ensures { result ≡ set_of low high }
{
    low + WORD * high
}

// The little-endian word that starts at `at`. A byte past the end counts as 0, so this is no from_le_bytes of four bytes.
fn word(bytes: &[u8], at: usize) -> u64
    requires { at ≤ 16 }
    ensures { (result ≡ word_at bytes.now at) × (result < 0x100000000) }
{
    byte(bytes, at)
        + 0x100 * byte(bytes, at + 1)
        + 0x1_0000 * byte(bytes, at + 2)
        + 0x100_0000 * byte(bytes, at + 3)
}

fn byte(bytes: &[u8], at: usize) -> u64
    ensures { (result ≡ byte_at bytes.now at) × (result < 256) }
{
    u64::from(bytes.get(at).copied().unwrap_or(0))
}
