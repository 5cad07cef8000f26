// What the C library makes by itself, and the arguments that say what a call does.

ghost use Rattle.std.specs.Prelude.{◌≡◌, ◌↔◌, ℕ, pos, Some, IfOk, IfSome, IfNone, IsTrue, slice_index_or, true, false};
ghost use Rattle.seccomp_learn.specs.Usual.{AreCloning, AreOfNames, AreRunnable, AreUsual, IsAskedArgument, IsNumbered, IsShortIn, entries_of, runnable_call, usual_argument};

use crate::observation::{Kept, Observation};
use seccompiler::{SeccompCmpArgLen, SyscallTable, TargetArch};
use std::alloc::{AllocError, Global};

// The calls that choose among many services by an argument, which the kernel takes as 32 bits.
const CHOOSING: [(&str, u8); 6] = [
    ("fcntl", 1),
    ("ioctl", 1),
    ("prctl", 0),
    ("socket", 0),
    ("socket", 1),
    ("socket", 2),
];

// The calls that the C library makes by itself, each with its argument 1 if that is compared. docs/LEARNING.md has the reason of each.
const RUNNABLE: [(&str, Option<u64>); 71] = [
    ("access", None),
    ("arch_prctl", None),
    ("brk", None),
    ("chdir", None),
    ("clock_getres", None),
    ("clock_gettime", None),
    ("clock_nanosleep", None),
    ("clone", None),
    ("clone3", None),
    ("close", None),
    ("dup", None),
    ("dup2", None),
    ("dup3", None),
    ("execve", None),
    ("exit", None),
    ("exit_group", None),
    ("faccessat", None),
    ("faccessat2", None),
    ("fcntl", Some(0)),
    ("fcntl", Some(2)),
    ("fcntl", Some(3)),
    ("fstat", None),
    ("futex", None),
    ("getcwd", None),
    ("getegid", None),
    ("geteuid", None),
    ("getgid", None),
    ("getpid", None),
    ("getppid", None),
    ("getrandom", None),
    ("gettid", None),
    ("gettimeofday", None),
    ("getuid", None),
    ("ioctl", Some(0x5401)),
    ("ioctl", Some(0x5413)),
    ("lseek", None),
    ("madvise", None),
    ("membarrier", None),
    ("mmap", None),
    ("mprotect", None),
    ("mremap", None),
    ("munmap", None),
    ("nanosleep", None),
    ("newfstatat", None),
    ("open", None),
    ("openat", None),
    ("pipe2", None),
    ("pread64", None),
    ("prlimit64", None),
    ("read", None),
    ("readlink", None),
    ("readlinkat", None),
    ("restart_syscall", None),
    ("riscv_hwprobe", None),
    ("rseq", None),
    ("rt_sigaction", None),
    ("rt_sigprocmask", None),
    ("rt_sigreturn", None),
    ("sched_getaffinity", None),
    ("sched_yield", None),
    ("set_robust_list", None),
    ("set_tid_address", None),
    ("stat", None),
    ("sysinfo", None),
    ("tgkill", None),
    ("time", None),
    ("tkill", None),
    ("vfork", None),
    ("wait4", None),
    ("write", None),
    ("writev", None),
];

// The calls by which threads and processes are made.
const CLONING: [(&str, Option<u64>); 2] = [("clone", None), ("clone3", None)];

/// The arguments that are kept by default: what `fcntl`, `ioctl` and `prctl` are asked for, and what kind of socket
/// `socket` makes.
///
/// # Errors
///
/// An error comes where memory runs out.
pub fn usual_kept(alloc: Global, arch: TargetArch) -> Result<Vec<Kept>, AllocError>
    ensures { IfOk result (λ kept. AreUsual arch kept.items) }
{
    kept_in(alloc, arch, &CHOOSING)
}

// The arguments of a table, of the calls that the architecture has.
fn kept_in(alloc: Global, arch: TargetArch, table: &[(&str, u8)]) -> Result<Vec<Kept>, AllocError>
    ensures { IfOk result (λ kept. AreOfNames arch usual_argument (entries_of table.now) kept.items) }
{
    let mut kept = Vec::new(alloc);
    for (name, arg_index) in table {
        let Some(number) = named_number(arch, name) else {
            continue;
        };
        kept.push(Kept {
            number,
            arg_index: *arg_index,
            arg_len: SeccompCmpArgLen::Dword,
        })?;
    }
    Ok(kept)
}

/// An argument that is kept since it is asked for: 32 bits of it, if more of it isn't known of an observed call; else all 64.
pub fn asked_kept(observed: &[Observation], number: u32, arg_index: u8) -> Kept
    ensures { IsAskedArgument observed.now number arg_index result }
{
    Kept {
        number,
        arg_index,
        arg_len: if is_short_in(observed, number, arg_index) {
            SeccompCmpArgLen::Dword
        } else {
            SeccompCmpArgLen::Qword
        },
    }
}

// Whether the low 32 bits of an argument alone are known of an observed call.
fn is_short_in(observed: &[Observation], number: u32, arg_index: u8) -> bool
    ensures { IsTrue result ↔ IsShortIn observed.now number arg_index }
{
    observed.iter().any(|observation| observation.number == number
        && is_short(observation, arg_index))
}

// Whether the low 32 bits of an argument alone are known.
fn is_short(observation: &Observation, arg_index: u8) -> bool
    ensures { IsTrue result ↔ (slice_index_or observation.now.short arg_index false ≡ true) }
{
    match observation.short.get(usize::from(arg_index)) {
        Some(short) => *short,
        None => false,
    }
}

/// The calls that glibc and musl make by themselves in any program that starts, allocates, makes threads, aborts and ends, those of
/// the shell of `system`, and those that a jailer makes behind its last filter.
///
/// # Errors
///
/// An error comes where memory runs out.
pub fn runnable_calls(alloc: Global, arch: TargetArch) -> Result<Vec<Observation>, AllocError>
    ensures { IfOk result (λ calls. AreRunnable arch calls.items) }
{
    calls_in(alloc, arch, &RUNNABLE)
}

/// The calls by which threads and processes are made, `clone` and `clone3`.
///
/// # Errors
///
/// An error comes where memory runs out.
pub fn cloning_calls(alloc: Global, arch: TargetArch) -> Result<Vec<Observation>, AllocError>
    ensures { IfOk result (λ calls. AreCloning arch calls.items) }
{
    calls_in(alloc, arch, &CLONING)
}

// The calls of a table that the architecture has.
fn calls_in(
    alloc: Global,
    arch: TargetArch,
    table: &[(&str, Option<u64>)],
) -> Result<Vec<Observation>, AllocError>
    ensures { IfOk result (λ calls. AreOfNames arch runnable_call (entries_of table.now) calls.items) }
{
    let mut calls = Vec::new(alloc);
    for (name, request) in table {
        let Some(number) = named_number(arch, name) else {
            continue;
        };
        calls.push(Observation {
            number,
            arguments: [None, *request, None, None, None, None],
            short: [false; 6],
        })?;
    }
    Ok(calls)
}

/// The number of the call of this name, if the architecture has one.
pub(crate) fn named_number(arch: TargetArch, name: &str) -> Option<u32>
    ensures named { IfSome result (IsNumbered arch name.now) }
    ensures unnamed { IfNone result ((n : ℕ) → IsNumbered arch name.now n → ⊥) }
{
    let number = SyscallTable::new(arch).get_syscall_nr(name)?;
    u32::try_from(number).ok()
}
