// A profile as types.

use seccomp_entries::Action;
use seccompiler::TargetArch;
use std::marker::Model;

/// Whose calls a profile is asked about.
#[derive(Clone, Copy)]
pub enum Abi {
    /// An architecture's own.
    Native(TargetArch),
    /// Those of i386, which programs make on `x86_64` by `int 0x80`.
    I386,
    /// Those of x32, which programs make on `x86_64` by numbers from 0x40000000 on.
    X32,
}

/// How an argument of a call is compared, both numbers unsigned and of 64 bits.
#[derive(Clone, Copy)]
pub enum Operator {
    /// The argument differs from `value`: `SCMP_CMP_NE`.
    Ne,
    /// The argument is less than `value`: `SCMP_CMP_LT`.
    Lt,
    /// The argument is at most `value`: `SCMP_CMP_LE`.
    Le,
    /// The argument is `value`: `SCMP_CMP_EQ`.
    Eq,
    /// The argument is at least `value`: `SCMP_CMP_GE`.
    Ge,
    /// The argument is greater than `value`: `SCMP_CMP_GT`.
    Gt,
    /// The argument and `value_two` have the same bits under the mask `value`: `SCMP_CMP_MASKED_EQ`.
    MaskedEq,
}

/// A condition on one argument of a call: an item of `args`.
#[derive(Clone, Copy)]
pub struct Argument {
    /// The argument's index, from 0 to 5.
    pub index: u8,
    /// What the argument is compared with; the mask of `MaskedEq`.
    pub value: u64,
    /// What the argument is compared with under a mask: `valueTwo`, 0 if the text has none.
    pub value_two: u64,
    /// How the argument is compared: `op`.
    pub operator: Operator,
}

/// A flag of `seccomp(2)` that a profile may name. None of them changes what a filter decides.
#[derive(Clone, Copy)]
pub enum Flag {
    /// `SECCOMP_FILTER_FLAG_TSYNC`
    Tsync,
    /// `SECCOMP_FILTER_FLAG_LOG`
    Log,
    /// `SECCOMP_FILTER_FLAG_SPEC_ALLOW`
    SpecAllow,
    /// `SECCOMP_FILTER_FLAG_WAIT_KILLABLE_RECV`
    WaitKillableRecv,
}

/// A version of the kernel, as `minKernel` has it.
#[derive(Clone, Copy)]
pub struct Kernel {
    /// The first number, as 4 of 4.8.
    pub major: u32,
    /// The second number, as 8 of 4.8.
    pub minor: u32,
}

/// Which program makes a filter of the profile. docs/OCI.md says in what they differ.
#[derive(Clone, Copy)]
pub enum Runtime {
    /// crun, and each that does no more than libseccomp.
    Crun,
    /// runc, which answers calls that are newer than all that the profile names with `ENOSYS`.
    Runc,
}

/// What a profile is for: a container's capabilities, the kernel that it runs on, and its runtime.
///
/// A contract sees the names as their bytes, in a list.
#[derive(Drop)]
pub struct Container {
    /// Names of the container's capabilities as a profile has them, such as `CAP_SYS_ADMIN`.
    pub caps: Vec<String>,
    /// The kernel; if none is given, it counts as newer than each that a profile names.
    pub kernel: Option<Kernel>,
    /// The runtime.
    pub runtime: Runtime,
}

impl Model for Container {
    ghost use Rattle.std.specs.Prelude.{map, string_bytes};
    ghost use Rattle.seccomp_profiles.specs.Types.{Container};

    ghost Value = { Container };

    ghost view = { λ c. record { caps = map string_bytes c.caps.items; kernel = c.kernel; runtime = c.runtime } };
}

/// What a container has to have, or must not have, for an entry to apply: `includes` or `excludes`.
///
/// A contract sees the texts as their bytes, in lists.
#[derive(Drop)]
pub struct Criteria {
    /// Names of capabilities, such as `CAP_SYS_ADMIN`: `caps`.
    pub caps: Vec<String>,
    /// Names of architectures as Go has them, such as `amd64`: `arches`.
    pub arches: Vec<String>,
    /// The kernel from which on an entry applies, or doesn't: `minKernel`.
    pub min_kernel: Option<Kernel>,
}

impl Model for Criteria {
    ghost use Rattle.std.specs.Prelude.{map, string_bytes};
    ghost use Rattle.seccomp_profiles.specs.Types.{Criteria};

    ghost Value = { Criteria };

    ghost view = { λ c. record { caps = map string_bytes c.caps.items; arches = map string_bytes c.arches.items; min_kernel = c.min_kernel } };
}

/// One entry of a profile: an item of `syscalls`.
///
/// A contract sees the names as their bytes, and both they and the conditions as lists.
#[derive(Drop)]
pub struct Entry {
    /// The calls' names: `names`, or the one of the older `name`. Some may be no call's.
    pub names: Vec<String>,
    /// The action for these calls: `action`, with `errnoRet`.
    pub action: Action,
    /// The conditions on the calls' arguments: `args`.
    pub args: Vec<Argument>,
    /// What has to be there for the entry to apply: `includes`.
    pub includes: Criteria,
    /// What must not be there for the entry to apply: `excludes`.
    pub excludes: Criteria,
}

impl Model for Entry {
    ghost use Rattle.std.specs.Prelude.{map, string_bytes};
    ghost use Rattle.seccomp_profiles.specs.Types.{Entry};

    ghost Value = { Entry };

    ghost view = { λ e. record { names = map string_bytes e.names.items; action = e.action; args = e.args.items; includes = e.includes; excludes = e.excludes } };
}

/// A profile: `linux.seccomp`.
///
/// A contract sees the flags, the entries and the unknown keys as lists, and the keys as their bytes.
#[derive(Drop)]
pub struct Profile {
    /// The action for calls that no entry is for: `defaultAction`, with `defaultErrnoRet`.
    pub default: Action,
    /// The flags of `seccomp(2)`: `flags`.
    pub flags: Vec<Flag>,
    /// The entries, in the text's order: `syscalls`.
    pub entries: Vec<Entry>,
    /// Whether it lists x86 beside x86_64, so that libseccomp makes a program for x86 too: `architectures` or `archMap`.
    pub lists_x86: bool,
    /// Whether it lists x32 so.
    pub lists_x32: bool,
    /// The place, from 0, of the first of its `architectures` that the OCI runtime specification doesn't have, so that no runtime starts a
    /// container.
    pub unknown_architecture: Option<usize>,
    /// Whether it says where a supervisor listens, which [`Action::Notify`] asks: a text that isn't empty under `listenerPath`.
    pub has_listener: bool,
    /// The keys of the object that no profile has, in the order of JSON's values. They say nothing.
    pub unknown_keys: Vec<String>,
}

impl Model for Profile {
    ghost use Rattle.std.specs.Prelude.{map, string_bytes};
    ghost use Rattle.seccomp_profiles.specs.Types.{Profile};

    ghost Value = { Profile };

    ghost view = { λ p. record { default = p.default; flags = p.flags.items; entries = p.entries.items; lists_x86 = p.lists_x86; lists_x32 = p.lists_x32; unknown_architecture = p.unknown_architecture; has_listener = p.has_listener; unknown_keys = map string_bytes p.unknown_keys.items } };
}
