// The table that names are found by, and the index of its rows. Both stand in the program, and are lent by what gives them.
ghost use Rattle.std.specs.Prelude.{◌≡◌, ◌<◌, map};
ghost use Rattle.names_reader.specs.Inside.{hashed, index, row_of, rows};

// A name behind `cap_`, and its capability's number.
pub(crate) type Name = (&'static [u8], u64);

// The shorter names come first: those that the index does not have are found soonest.
static NAMES: [Name; 41] = [
    (b"bpf", 39),
    (b"kill", 5),
    (b"chown", 0),
    (b"mknod", 27),
    (b"lease", 28),
    (b"fowner", 3),
    (b"fsetid", 4),
    (b"setgid", 6),
    (b"setuid", 7),
    (b"syslog", 34),
    (b"setpcap", 8),
    (b"net_raw", 13),
    (b"setfcap", 31),
    (b"perfmon", 38),
    (b"ipc_lock", 14),
    (b"sys_boot", 22),
    (b"sys_nice", 23),
    (b"sys_time", 25),
    (b"net_admin", 12),
    (b"ipc_owner", 15),
    (b"sys_rawio", 17),
    (b"sys_pacct", 20),
    (b"sys_admin", 21),
    (b"mac_admin", 33),
    (b"sys_module", 16),
    (b"sys_chroot", 18),
    (b"sys_ptrace", 19),
    (b"wake_alarm", 35),
    (b"audit_read", 37),
    (b"audit_write", 29),
    (b"dac_override", 1),
    (b"sys_resource", 24),
    (b"mac_override", 32),
    (b"net_broadcast", 11),
    (b"audit_control", 30),
    (b"block_suspend", 36),
    (b"sys_tty_config", 26),
    (b"dac_read_search", 2),
    (b"linux_immutable", 9),
    (b"net_bind_service", 10),
    (b"checkpoint_restore", 40),
];

pub(crate) fn names() -> &'static [Name; 41]
    ensures { map row_of result.now ≡ rows }
{
    &NAMES
}

// For each number that `hash` gives, the row of the name of six bytes or more that has it, or ff. What the index says is only tried: nothing but the
// time depends on it.
static ROW_BY_HASH: [u8; 64] = *b"\
    \x0a\xff\x28\x23\x16\x22\xff\x24\
    \x20\x1e\x08\x06\xff\x0e\x0b\x05\
    \xff\x0f\x07\xff\xff\x1a\xff\xff\
    \x0c\x0d\x17\xff\x25\xff\x18\xff\
    \x19\x12\xff\x1c\x1b\x10\xff\xff\
    \xff\x1f\xff\xff\x27\x1d\x21\x11\
    \xff\x14\x26\xff\xff\xff\xff\x15\
    \xff\xff\xff\xff\x09\xff\x13\xff\
    ";

pub(crate) fn row_by_hash() -> &'static [u8; 64]
    ensures { result.now ≡ index }
{
    &ROW_BY_HASH
}

// A number below 64 of the bytes 0, 3, 4 and 6 of a name behind `cap_`, the last one 0 where the name has six. The factors were found by trying: names of
// six bytes or more come to different numbers.
pub(crate) fn hash(b0: u8, b3: u8, b4: u8, b6: u8) -> usize
    ensures { (result ≡ hashed b0 b3 b4 b6) × (result < 64) }
{
    let sum = 7 * usize::from(b0)
        + 36 * usize::from(b3)
        + 9 * usize::from(b4)
        + 2 * usize::from(b6);
    sum % 64
}
