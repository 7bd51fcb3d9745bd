// The capabilities' numbers by the names of linux/capability.h.
#![tactic(auto, unfolding(crate::specs::Header::header))]

ghost use Rattle.std.specs.Prelude.{◌≡◌};
ghost use Rattle.capabilities.specs.Header.{header};

pub const CAP_CHOWN: u64 = 0;

pub const CAP_DAC_OVERRIDE: u64 = 1;

pub const CAP_DAC_READ_SEARCH: u64 = 2;

pub const CAP_FOWNER: u64 = 3;

pub const CAP_FSETID: u64 = 4;

pub const CAP_KILL: u64 = 5;

pub const CAP_SETGID: u64 = 6;

pub const CAP_SETUID: u64 = 7;

pub const CAP_SETPCAP: u64 = 8;

pub const CAP_LINUX_IMMUTABLE: u64 = 9;

pub const CAP_NET_BIND_SERVICE: u64 = 10;

pub const CAP_NET_BROADCAST: u64 = 11;

pub const CAP_NET_ADMIN: u64 = 12;

pub const CAP_NET_RAW: u64 = 13;

pub const CAP_IPC_LOCK: u64 = 14;

pub const CAP_IPC_OWNER: u64 = 15;

pub const CAP_SYS_MODULE: u64 = 16;

pub const CAP_SYS_RAWIO: u64 = 17;

pub const CAP_SYS_CHROOT: u64 = 18;

pub const CAP_SYS_PTRACE: u64 = 19;

pub const CAP_SYS_PACCT: u64 = 20;

pub const CAP_SYS_ADMIN: u64 = 21;

pub const CAP_SYS_BOOT: u64 = 22;

pub const CAP_SYS_NICE: u64 = 23;

pub const CAP_SYS_RESOURCE: u64 = 24;

pub const CAP_SYS_TIME: u64 = 25;

pub const CAP_SYS_TTY_CONFIG: u64 = 26;

pub const CAP_MKNOD: u64 = 27;

pub const CAP_LEASE: u64 = 28;

pub const CAP_AUDIT_WRITE: u64 = 29;

pub const CAP_AUDIT_CONTROL: u64 = 30;

pub const CAP_SETFCAP: u64 = 31;

pub const CAP_MAC_OVERRIDE: u64 = 32;

pub const CAP_MAC_ADMIN: u64 = 33;

pub const CAP_SYSLOG: u64 = 34;

pub const CAP_WAKE_ALARM: u64 = 35;

pub const CAP_BLOCK_SUSPEND: u64 = 36;

pub const CAP_AUDIT_READ: u64 = 37;

pub const CAP_PERFMON: u64 = 38;

pub const CAP_BPF: u64 = 39;

pub const CAP_CHECKPOINT_RESTORE: u64 = 40;

// The capabilities' numbers in the header's order.
pub fn numbers() -> [u64; 41]
    ensures { result ≡ header }
{
    [
        CAP_CHOWN,
        CAP_DAC_OVERRIDE,
        CAP_DAC_READ_SEARCH,
        CAP_FOWNER,
        CAP_FSETID,
        CAP_KILL,
        CAP_SETGID,
        CAP_SETUID,
        CAP_SETPCAP,
        CAP_LINUX_IMMUTABLE,
        CAP_NET_BIND_SERVICE,
        CAP_NET_BROADCAST,
        CAP_NET_ADMIN,
        CAP_NET_RAW,
        CAP_IPC_LOCK,
        CAP_IPC_OWNER,
        CAP_SYS_MODULE,
        CAP_SYS_RAWIO,
        CAP_SYS_CHROOT,
        CAP_SYS_PTRACE,
        CAP_SYS_PACCT,
        CAP_SYS_ADMIN,
        CAP_SYS_BOOT,
        CAP_SYS_NICE,
        CAP_SYS_RESOURCE,
        CAP_SYS_TIME,
        CAP_SYS_TTY_CONFIG,
        CAP_MKNOD,
        CAP_LEASE,
        CAP_AUDIT_WRITE,
        CAP_AUDIT_CONTROL,
        CAP_SETFCAP,
        CAP_MAC_OVERRIDE,
        CAP_MAC_ADMIN,
        CAP_SYSLOG,
        CAP_WAKE_ALARM,
        CAP_BLOCK_SUSPEND,
        CAP_AUDIT_READ,
        CAP_PERFMON,
        CAP_BPF,
        CAP_CHECKPOINT_RESTORE,
    ]
}
