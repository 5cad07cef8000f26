// Names of capabilities.

ghost use Rattle.std.specs.Prelude.{◌≡◌, ◌↔◌, All, Contains, IfSome, IfNone, IsTrue, map};
ghost use Rattle.seccomp_names.specs.Capabilities.{IsCalled, capability_names};

// Linux's capabilities, by their numbers from 0 on (capabilities(7)).
const CAPABILITIES: [&str; 41] = [
    "CAP_CHOWN",
    "CAP_DAC_OVERRIDE",
    "CAP_DAC_READ_SEARCH",
    "CAP_FOWNER",
    "CAP_FSETID",
    "CAP_KILL",
    "CAP_SETGID",
    "CAP_SETUID",
    "CAP_SETPCAP",
    "CAP_LINUX_IMMUTABLE",
    "CAP_NET_BIND_SERVICE",
    "CAP_NET_BROADCAST",
    "CAP_NET_ADMIN",
    "CAP_NET_RAW",
    "CAP_IPC_LOCK",
    "CAP_IPC_OWNER",
    "CAP_SYS_MODULE",
    "CAP_SYS_RAWIO",
    "CAP_SYS_CHROOT",
    "CAP_SYS_PTRACE",
    "CAP_SYS_PACCT",
    "CAP_SYS_ADMIN",
    "CAP_SYS_BOOT",
    "CAP_SYS_NICE",
    "CAP_SYS_RESOURCE",
    "CAP_SYS_TIME",
    "CAP_SYS_TTY_CONFIG",
    "CAP_MKNOD",
    "CAP_LEASE",
    "CAP_AUDIT_WRITE",
    "CAP_AUDIT_CONTROL",
    "CAP_SETFCAP",
    "CAP_MAC_OVERRIDE",
    "CAP_MAC_ADMIN",
    "CAP_SYSLOG",
    "CAP_WAKE_ALARM",
    "CAP_BLOCK_SUSPEND",
    "CAP_AUDIT_READ",
    "CAP_PERFMON",
    "CAP_BPF",
    "CAP_CHECKPOINT_RESTORE",
];

/// The names of Linux's capabilities, by their numbers from 0 on.
pub fn capabilities() -> &'static [&'static str]
    ensures { map (λ own. own.now) result.now ≡ capability_names }
{
    &CAPABILITIES
}

/// The capability of this name, as profiles write it: `CAP_SYS_ADMIN`, for that name and for `SYS_ADMIN`, in any case.
/// None if Linux has no such capability. It takes no memory.
pub fn capability(name: &str) -> Option<&'static str>
    ensures some { IfSome result (λ own. Contains capability_names own.now × IsCalled own.now name.now) }
    ensures none { IfNone result (All (λ own. IsCalled own name.now → ⊥) capability_names) }
{
    called_in(capabilities(), name)
}

// The first of these that is called so.
fn called_in(names: &[&'static str], name: &str) -> Option<&'static str>
    ensures some { IfSome result (λ own. Contains (map (λ own. own.now) names.now) own.now × IsCalled own.now name.now) }
    ensures none { IfNone result (All (λ own. IsCalled own name.now → ⊥) (map (λ own. own.now) names.now)) }
{
    for own in names {
        if is_called(own, name) {
            return Some(own);
        }
    }
    None
}

// Whether the capability is called so, in any case: by its whole name, or without its first four bytes.
fn is_called(own: &str, name: &str) -> bool
    ensures { IsTrue result ↔ IsCalled own.now name.now }
{
    let is_short = match own.as_bytes().get(4..) {
        Some(short) => short.eq_ignore_ascii_case(name.as_bytes()),
        None => false,
    };
    is_short || own.eq_ignore_ascii_case(name)
}
