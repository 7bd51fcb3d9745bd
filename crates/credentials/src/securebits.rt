// The securebits and their locks by the names of linux/securebits.h.
#![tactic(auto, unfolding(crate::specs::Securebits::header))]

ghost use Rattle.std.specs.Prelude.{◌≡◌};
ghost use Rattle.credentials.specs.Securebits.{header};

pub const SECBIT_NOROOT: u64 = 0x01;

pub const SECBIT_NOROOT_LOCKED: u64 = 0x02;

pub const SECBIT_NO_SETUID_FIXUP: u64 = 0x04;

pub const SECBIT_NO_SETUID_FIXUP_LOCKED: u64 = 0x08;

pub const SECBIT_KEEP_CAPS: u64 = 0x10;

pub const SECBIT_KEEP_CAPS_LOCKED: u64 = 0x20;

pub const SECBIT_NO_CAP_AMBIENT_RAISE: u64 = 0x40;

pub const SECBIT_NO_CAP_AMBIENT_RAISE_LOCKED: u64 = 0x80;

// The securebits in the header's order, each flag followed by its lock.
pub fn values() -> [u64; 8]
    ensures { result ≡ header }
{
    [
        SECBIT_NOROOT,
        SECBIT_NOROOT_LOCKED,
        SECBIT_NO_SETUID_FIXUP,
        SECBIT_NO_SETUID_FIXUP_LOCKED,
        SECBIT_KEEP_CAPS,
        SECBIT_KEEP_CAPS_LOCKED,
        SECBIT_NO_CAP_AMBIENT_RAISE,
        SECBIT_NO_CAP_AMBIENT_RAISE_LOCKED,
    ]
}
