// Whose calls a profile is asked about.

ghost use Rattle.std.specs.Prelude.{◌≡◌, ◌↔◌, ◌<◌, ◌≤◌, ℕ, pos, IfSome, IfNone, IsTrue};
ghost use Rattle.seccompiler.specs.Machine.{argument_at, word_at};
ghost use Rattle.seccomp_profiles.specs.Decision.{Applies};
ghost use Rattle.seccomp_profiles.specs.Abis.{IsSeenAs, audit_of, end_for, has_number, is_listed, is_of, length_for, machine_of, number_for};

use crate::scope::applies;
use crate::{Abi, Container, Entry, Profile};
use seccomp_names::CallTable;
use seccompiler::record::word_at;
use seccompiler::{SeccompCmpArgLen, SyscallTable, TargetArch};

// What a number of x32 has more than that of its call (`__X32_SYSCALL_BIT` of `asm/unistd.h`).
const X32_BIT: u32 = 0x4000_0000;

// The architecture in a record of i386 (`AUDIT_ARCH_I386` of `linux/audit.h`).
const AUDIT_ARCH_I386: u32 = 0x4000_0003;

// That of `x86_64`, the low byte first.
const X86_64_BYTES: [u8; 4] = [0x3e, 0x00, 0x00, 0xc0];

impl Abi {
    /// The architecture of the machine on which programs make these calls.
    pub fn machine(self) -> TargetArch
        ensures { result ≡ machine_of self }
    {
        match self {
            Abi::Native(arch) => arch,
            Abi::I386 | Abi::X32 => TargetArch::x86_64,
        }
    }

    /// How much of an argument is compared.
    pub(crate) fn arg_len(self) -> SeccompCmpArgLen
        ensures { result ≡ length_for self }
    {
        match self {
            Abi::Native(_) => SeccompCmpArgLen::Qword,
            Abi::I386 | Abi::X32 => SeccompCmpArgLen::Dword,
        }
    }

    /// Whether a profile lists the architecture, which that of the machine needn't be.
    pub fn is_listed(self, profile: &Profile) -> bool
        ensures { result ≡ is_listed self profile.now }
    {
        match self {
            Abi::Native(_) => true,
            Abi::I386 => profile.lists_x86,
            Abi::X32 => profile.lists_x32,
        }
    }

    /// The record of the same call, as one of the machine's own architecture if it is one of these calls, and else as one of
    /// another architecture. It takes no memory.
    pub fn seen(self, call: &[u8; 64]) -> [u8; 64]
        ensures { IsSeenAs self call.now result }
    {
        match self {
            Abi::Native(_) => *call,
            Abi::I386 | Abi::X32 => {
                let is_own = self.is_of(call);
                with_architecture(call, if is_own { X86_64_BYTES } else { [0; 4] })
            }
        }
    }

    /// Whether the record is of one of these calls.
    pub fn is_of(self, call: &[u8; 64]) -> bool
        ensures { result ≡ is_of self call.now }
    {
        word_at(call, 4) == self.audit_value() && self.has_number(word_at(call, 0))
    }

    // Whether a number is one of these calls'.
    fn has_number(self, number: u32) -> bool
        ensures { result ≡ has_number self number }
    {
        match self {
            Abi::X32 => X32_BIT <= number,
            Abi::Native(_) | Abi::I386 => true,
        }
    }

    /// The architecture in the record of one of these calls (`AUDIT_ARCH_*` of `linux/audit.h`).
    pub fn audit_value(self) -> u32
        ensures { result ≡ audit_of self }
    {
        match self {
            Abi::I386 => AUDIT_ARCH_I386,
            Abi::Native(_) | Abi::X32 => self.machine().get_audit_value(),
        }
    }

    /// The number of the call of this name, if there is one. It takes no memory.
    pub fn call_number(self, name: &str) -> Option<u32>
        ensures some { IfSome result (λ n. number_for self name.now ≡ Some (pos n)) }
        ensures none { IfNone result ((n : ℕ) → number_for self name.now ≡ Some (pos n) → ⊥) }
    {
        number_of(self, name)
    }

    /// What these are called: by an architecture's name, `x86` or `x32`.
    pub fn name(self) -> &'static str {
        match self {
            Abi::Native(arch) => arch.name(),
            Abi::I386 => "x86",
            Abi::X32 => "x32",
        }
    }

    /// The name of the call of this number, if it has one. It takes no memory.
    pub fn name_of(self, number: u32) -> Option<&'static str> {
        match self {
            Abi::Native(arch) => name_in(arch, number),
            Abi::I386 => CallTable::I386.name_of(number),
            Abi::X32 => CallTable::X32.name_of(number.checked_sub(X32_BIT)?),
        }
    }
}

// The first name of a number, in byte order.
fn name_in(arch: TargetArch, number: u32) -> Option<&'static str> {
    let table = SyscallTable::new(arch);
    let numbers = table.numbers();
    for place in 0..numbers.len() {
        if numbers[place] == i64::from(number) {
            return Some(table.name(place));
        }
    }
    None
}

// The record with another architecture.
fn with_architecture(call: &[u8; 64], arch: [u8; 4]) -> [u8; 64]
    ensures number { word_at result 0 ≡ word_at call.now 0 }
    ensures arguments { (i : ℕ) → i ≤ 5 → argument_at result i ≡ argument_at call.now i }
    ensures architecture { word_at result 4 ≡ word_at arch 0 }
{
    let mut seen = *call;
    seen[4] = arch[0];
    seen[5] = arch[1];
    seen[6] = arch[2];
    seen[7] = arch[3];
    seen
}

/// Whether an entry applies to a container on the machine.
pub(crate) fn applies_on(abi: Abi, container: &Container, entry: &Entry) -> bool
    ensures { IsTrue result ↔ Applies (machine_of abi) container.now entry.now }
{
    applies(abi.machine(), container, entry)
}

/// The number of the call of this name, if there is one.
pub(crate) fn number_of(abi: Abi, name: &str) -> Option<u32>
    ensures some { IfSome result (λ n. (number_for abi name.now ≡ Some (pos n)) × (n < end_for abi)) }
    ensures none { IfNone result ((n : ℕ) → number_for abi name.now ≡ Some (pos n) → ⊥) }
{
    match abi {
        Abi::Native(arch) => match SyscallTable::new(arch).get_syscall_nr(name) {
            Some(number) => Some(number as u32),
            None => None,
        },
        Abi::I386 => CallTable::I386.number_of(name),
        Abi::X32 => match CallTable::X32.number_of(name) {
            Some(number) => Some(X32_BIT + number),
            None => None,
        },
    }
}
