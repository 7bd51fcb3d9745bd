// The names that are written, by their capabilities' numbers. The table stands in the program.
ghost use Rattle.std.specs.Prelude.{◌≡◌, map};
ghost use Rattle.format.specs.Line.{bytes};
ghost use Rattle.names.specs.Names.{capability_names};

static NAMES: [&[u8]; 41] = [
    b"cap_chown",
    b"cap_dac_override",
    b"cap_dac_read_search",
    b"cap_fowner",
    b"cap_fsetid",
    b"cap_kill",
    b"cap_setgid",
    b"cap_setuid",
    b"cap_setpcap",
    b"cap_linux_immutable",
    b"cap_net_bind_service",
    b"cap_net_broadcast",
    b"cap_net_admin",
    b"cap_net_raw",
    b"cap_ipc_lock",
    b"cap_ipc_owner",
    b"cap_sys_module",
    b"cap_sys_rawio",
    b"cap_sys_chroot",
    b"cap_sys_ptrace",
    b"cap_sys_pacct",
    b"cap_sys_admin",
    b"cap_sys_boot",
    b"cap_sys_nice",
    b"cap_sys_resource",
    b"cap_sys_time",
    b"cap_sys_tty_config",
    b"cap_mknod",
    b"cap_lease",
    b"cap_audit_write",
    b"cap_audit_control",
    b"cap_setfcap",
    b"cap_mac_override",
    b"cap_mac_admin",
    b"cap_syslog",
    b"cap_wake_alarm",
    b"cap_block_suspend",
    b"cap_audit_read",
    b"cap_perfmon",
    b"cap_bpf",
    b"cap_checkpoint_restore",
];

pub(crate) fn names() -> &'static [&'static [u8]; 41]
    ensures { map (λ x. x.now) result.now ≡ map bytes capability_names }
{
    &NAMES
}
