// What conditions, rules and filters have in common: architectures, comparisons, actions and errors.

use crate::bpf::{
    AUDIT_ARCH_AARCH64, AUDIT_ARCH_RISCV64, AUDIT_ARCH_X86_64, JUMP_EQUAL, LOAD, RETURN,
    SECCOMP_DATA_ARCH_OFFSET, bpf_jump, bpf_stmt, sock_filter,
};
use crate::equality::EqualByParts;
use std::alloc::{AllocError, AllocFailed, Global};
use std::{error, fmt};

// The words that a program returns, as `linux/seccomp.h` has them.
const SECCOMP_RET_KILL_PROCESS: u32 = 0x8000_0000;

const SECCOMP_RET_KILL_THREAD: u32 = 0x0000_0000;

const SECCOMP_RET_TRAP: u32 = 0x0003_0000;

const SECCOMP_RET_ERRNO: u32 = 0x0005_0000;

const SECCOMP_RET_TRACE: u32 = 0x7ff0_0000;

const SECCOMP_RET_LOG: u32 = 0x7ffc_0000;

const SECCOMP_RET_ALLOW: u32 = 0x7fff_0000;

// The part of such a word that is the action's data.
const SECCOMP_RET_DATA: u32 = 0x0000_ffff;

/// The architectures that a filter can be compiled for.
#[allow(non_camel_case_types)]
#[derive(Clone, Copy, Debug, PartialEq, Eq)]
pub enum TargetArch {
    /// Little-endian x86_64.
    x86_64,
    /// Little-endian aarch64.
    aarch64,
    /// Little-endian riscv64.
    riscv64,
}

impl EqualByParts for TargetArch {
    ghost use Rattle.std.specs.Prelude.{◌≡◌};
    ghost use denote.Enum.Bare.{same_true, true_same};
    ghost use Rattle.seccompiler.specs.contracts.backend.TargetArch.{the_type};

    ghost has_same_parts = { λ x y. x ≡ y };

    ghost decides = { λ x y. (same_true the_type tt x y, true_same the_type x y) };
}

impl TargetArch {
    ghost use Rattle.std.specs.Prelude.{◌≡◌, ◌≢◌, ◌⊎◌, Ok, IfOk, IfErr, AllPairs, Contains};
    ghost use Rattle.std.specs.Str.{str_to_ascii_lowercase};
    ghost use Rattle.seccompiler.specs.declared.backend.TargetArch.{TargetArch};
    ghost use Rattle.seccompiler.specs.declared.backend.BackendError.TheVariants.{OutOfMemory};
    ghost use Rattle.seccompiler.specs.Architecture.{arch_text, audit_word};
    ghost use Rattle.seccompiler.specs.Texts.{IsInvalidArch};

    /// Every architecture, each once.
    pub fn all() -> &'static [Self]
        ensures each { (arch : TargetArch) → Contains result.now arch }
        ensures once { AllPairs (λ first second. first ≢ second) result.now }
    {
        &[TargetArch::x86_64, TargetArch::aarch64, TargetArch::riscv64]
    }

    /// Reads an architecture's name, `x86_64`, `aarch64` or `riscv64`, without regard to ASCII case.
    ///
    /// Takes no memory if it succeeds.
    ///
    /// # Errors
    ///
    /// `InvalidTargetArch` with the text as it was given if it is none of the three names;
    /// `OutOfMemory` if there is no memory to keep that text.
    ///
    /// # Examples
    ///
    /// ```
    /// let arch = TargetArch::from_text(alloc, "X86_64")?;
    /// assert!(rt; arch == TargetArch::x86_64);
    /// ```
    pub fn from_text(alloc: Global, text: &str) -> Result<Self, BackendError>
        ensures named { (arch : TargetArch) → str_to_ascii_lowercase text.now ≡ arch_text arch → result ≡ Ok arch }
        ensures read { IfOk result (λ arch. str_to_ascii_lowercase text.now ≡ arch_text arch) }
        ensures refused { IfErr result (λ e. IsInvalidArch e text.now ⊎ (e ≡ OutOfMemory)) }
    {
        if text.eq_ignore_ascii_case("x86_64") {
            Ok(TargetArch::x86_64)
        } else if text.eq_ignore_ascii_case("aarch64") {
            Ok(TargetArch::aarch64)
        } else if text.eq_ignore_ascii_case("riscv64") {
            Ok(TargetArch::riscv64)
        } else {
            match String::from_str(alloc, text) {
                Ok(text) => Err(BackendError::InvalidTargetArch(text)),
                Err(_) => Err(BackendError::OutOfMemory),
            }
        }
    }

    /// The variant's name, as its `Display` writes it.
    pub fn name(self) -> &'static str
        ensures { result.now ≡ arch_text self }
    {
        match self {
            TargetArch::x86_64 => "x86_64",
            TargetArch::aarch64 => "aarch64",
            TargetArch::riscv64 => "riscv64",
        }
    }

    /// The architecture's `AUDIT_ARCH_*` value in a call record, as `linux/audit.h` has it.
    pub fn get_audit_value(self) -> u32
        ensures { result ≡ audit_word self }
    {
        match self {
            TargetArch::x86_64 => AUDIT_ARCH_X86_64,
            TargetArch::aarch64 => AUDIT_ARCH_AARCH64,
            TargetArch::riscv64 => AUDIT_ARCH_RISCV64,
        }
    }
}

/// The variant's name.
impl fmt::Display for TargetArch {
    ghost use Rattle.std.specs.Prelude.{Some};
    ghost use Rattle.seccompiler.specs.Architecture.{arch_text};

    ghost output = { λ arch. Some (arch_text arch) };

    fn fmt<W: fmt::Write>(&self, f: &mut fmt::Formatter<W>) -> fmt::Result {
        f.write_str(self.name())
    }
}

/// How an argument is compared with a condition's value, both unsigned.
#[derive(Clone, Copy, Debug, PartialEq, Eq)]
pub enum SeccompCmpOp {
    /// The argument equals the value.
    Eq,
    /// The argument is at least the value.
    Ge,
    /// The argument is greater than the value.
    Gt,
    /// The argument is at most the value.
    Le,
    /// The argument is less than the value.
    Lt,
    /// The argument and the value have the same bits under this mask.
    MaskedEq(u64),
    /// The argument differs from the value.
    Ne,
}

impl EqualByParts for SeccompCmpOp {
    ghost use Rattle.std.specs.Prelude.{◌≡◌};
    ghost use Rattle.std.proofs.Common.{rules};

    ghost has_same_parts = { λ x y. x ≡ y };

    ghost decides = { Prim.search rules };
}

/// How much of an argument, of the value and of a mask is compared.
#[derive(Clone, Copy, Debug, PartialEq, Eq)]
pub enum SeccompCmpArgLen {
    /// The low 4 bytes.
    Dword,
    /// All 8 bytes.
    Qword,
}

impl EqualByParts for SeccompCmpArgLen {
    ghost use Rattle.std.specs.Prelude.{◌≡◌};
    ghost use denote.Enum.Bare.{same_true, true_same};
    ghost use Rattle.seccompiler.specs.contracts.backend.SeccompCmpArgLen.{the_type};

    ghost has_same_parts = { λ x y. x ≡ y };

    ghost decides = { λ x y. (same_true the_type tt x y, true_same the_type x y) };
}

/// What a filter answers for a system call, as `seccomp(2)` names it.
///
/// A filter's two actions are compared as they are given, not by what programs return: `Errno(1)` and
/// `Errno(65537)` differ, although programs return the same value for both.
#[derive(Clone, Copy, Debug, PartialEq, Eq)]
pub enum SeccompAction {
    /// Allows the call.
    Allow,
    /// Returns from the call with this errno; only its low 16 bits are kept.
    Errno(u32),
    /// Kills the calling thread.
    KillThread,
    /// Kills the calling process.
    KillProcess,
    /// Allows the call after logging it.
    Log,
    /// Notifies the tracing process with this number; only its low 16 bits are kept.
    Trace(u32),
    /// Sends `SIGSYS` to the calling process.
    Trap,
}

impl EqualByParts for SeccompAction {
    ghost use Rattle.std.specs.Prelude.{◌≡◌};
    ghost use Rattle.std.proofs.Common.{rules};

    ghost has_same_parts = { λ x y. x ≡ y };

    ghost decides = { Prim.search rules };
}

/// The value that a program returns for the action.
impl From<SeccompAction> for u32 {
    ghost use Rattle.std.specs.Prelude.{◌≡◌};
    ghost use Rattle.seccompiler.specs.Policy.{word_of};

    ghost from_gives = { λ action word. word ≡ word_of action };

    fn from(action: SeccompAction) -> u32 {
        match action {
            SeccompAction::Allow => SECCOMP_RET_ALLOW,
            SeccompAction::Errno(number) => SECCOMP_RET_ERRNO | (number & SECCOMP_RET_DATA),
            SeccompAction::KillThread => SECCOMP_RET_KILL_THREAD,
            SeccompAction::KillProcess => SECCOMP_RET_KILL_PROCESS,
            SeccompAction::Log => SECCOMP_RET_LOG,
            SeccompAction::Trace(number) => SECCOMP_RET_TRACE | (number & SECCOMP_RET_DATA),
            SeccompAction::Trap => SECCOMP_RET_TRAP,
        }
    }
}

/// Why the backend fails.
#[derive(PartialEq, Eq, Drop)]
pub enum BackendError {
    /// A rule of no conditions was asked for.
    EmptyRule,
    /// The filter takes this many instructions, which is more than a program may have.
    FilterTooLarge(usize),
    /// A filter's two actions are equal.
    IdenticalActions,
    /// A condition's argument index is above 5.
    InvalidArgumentNumber,
    /// No architecture has this name; the text is as it was given.
    InvalidTargetArch(String),
    /// This key of a filter's map lies outside 0 to 4294967295, and no lesser one does.
    InvalidSyscallNumber(i64),
    /// Memory ran out.
    OutOfMemory,
}

impl EqualByParts for BackendError {
    ghost use Rattle.seccompiler.specs.Equality.{IsSameRefusal, refusals_decide};

    ghost has_same_parts = { IsSameRefusal };

    ghost decides = { refusals_decide };
}

/// The error's text.
impl fmt::Display for BackendError {
    ghost use Rattle.std.specs.Prelude.{Some};
    ghost use Rattle.seccompiler.specs.Texts.{backend_text};

    ghost output = { λ error. Some (backend_text error) };

    fn fmt<W: fmt::Write>(&self, f: &mut fmt::Formatter<W>) -> fmt::Result {
        let text = match self {
            BackendError::EmptyRule => "The condition vector of a rule cannot be empty.",
            BackendError::FilterTooLarge(length) => {
                return write!(
                    f,
                    "The seccomp filter contains too many BPF instructions: {length}. Max length is 4096."
                );
            }
            BackendError::IdenticalActions => "`match_action` and `mismatch_action` are equal.",
            BackendError::InvalidArgumentNumber => {
                "The seccomp rule contains an invalid argument index. Maximum index value: 5"
            }
            BackendError::InvalidTargetArch(text) => {
                return write!(f, "Invalid target arch: {text}.");
            }
            BackendError::InvalidSyscallNumber(number) => {
                return write!(f, "Invalid syscall number: {number}.");
            }
            BackendError::OutOfMemory => "Out of memory.",
        };
        f.write_str(text)
    }
}

/// The error's text too.
impl fmt::Debug for BackendError {
    fn fmt<W: fmt::Write>(&self, f: &mut fmt::Formatter<W>) -> fmt::Result {
        fmt::Display::fmt(self, f)
    }
}

impl error::Error for BackendError {}

impl From<AllocError> for BackendError {
    ghost use Rattle.std.specs.Prelude.{◌≡◌};
    ghost use Rattle.seccompiler.specs.declared.backend.BackendError.TheVariants.{OutOfMemory};

    ghost from_gives = { λ _ e. e ≡ OutOfMemory };

    fn from(_refused: AllocError) -> BackendError {
        BackendError::OutOfMemory
    }
}

impl<T: Drop> From<AllocFailed<T>> for BackendError {
    ghost use Rattle.std.specs.Prelude.{◌≡◌};
    ghost use Rattle.seccompiler.specs.declared.backend.BackendError.TheVariants.{OutOfMemory};

    ghost from_gives = { λ _ e. e ≡ OutOfMemory };

    fn from(_refused: AllocFailed<T>) -> BackendError {
        BackendError::OutOfMemory
    }
}

ghost use Rattle.std.specs.Prelude.{◌≡◌, IfOk, IsOkUnless};
ghost use Rattle.seccompiler.specs.declared.backend.BackendError.TheVariants.{OutOfMemory};
ghost use Rattle.seccompiler.specs.Architecture.{audit_word};
ghost use Rattle.seccompiler.specs.Code.{guard_code};

/// The three instructions that kill the process on a call of another architecture: load the
/// `AUDIT_ARCH_*` value, skip the return if it is `arch`'s, return `SECCOMP_RET_KILL_PROCESS`.
///
/// # Errors
///
/// `OutOfMemory` if memory runs out.
pub fn build_arch_validation_sequence(
    alloc: Global,
    arch: TargetArch,
) -> Result<Vec<sock_filter>, BackendError>
    ensures code { IfOk result (λ code. code.items ≡ guard_code (audit_word arch)) }
    ensures memory { IsOkUnless result OutOfMemory }
{
    match arch_guard(arch).to_vec(alloc) {
        Ok(code) => Ok(code),
        Err(_) => Err(BackendError::OutOfMemory),
    }
}

// How many instructions begin each program.
pub(crate) const GUARD_LEN: usize = 3;

// The three instructions that begin each program.
pub(crate) fn arch_guard(arch: TargetArch) -> [sock_filter; GUARD_LEN]
    ensures { result ≡ guard_code (audit_word arch) }
{
    [
        bpf_stmt(LOAD, u32::from(SECCOMP_DATA_ARCH_OFFSET)),
        bpf_jump(JUMP_EQUAL, arch.get_audit_value(), 1, 0),
        bpf_stmt(RETURN, SECCOMP_RET_KILL_PROCESS),
    ]
}
