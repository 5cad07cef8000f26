//! Several seccomp programs that hold together, as one: every function proved.
//!
//! A process may have any number of programs: those of its service manager, of its container, its own. The kernel runs
//! all of them for each call and takes the strictest answer. [`stack`] makes one program that returns the same, so that
//! what is made for one program, as comparing it, serves for many. [`run`] says which of the programs decided.
#![tactic(auto)]

mod joined;
mod kernel;

ghost use Rattle.std.specs.Prelude.{◌≡◌, All, IfOk, IfErr};
ghost use Rattle.seccomp_compare.specs.Machine.{IsChecked};
ghost use Rattle.seccomp_stack.specs.Stack.{IsStack, strictness, prevailing};
ghost use Rattle.seccomp_stack.specs.Joined.{IsRefusal};

use joined::join;
pub use kernel::{Decision, run};
use seccompiler::bpf::{BpfProgram, RETURN, bpf_stmt};
use std::alloc::{AllocError, Global};

// The part of a return value that names the action (linux/seccomp.h).
const SECCOMP_RET_ACTION_FULL: u32 = 0xffff_0000;

// The value that allows a call.
const SECCOMP_RET_ALLOW: u32 = 0x7fff_0000;

/// Why programs can't be made one.
#[derive(Clone, Copy, Debug, PartialEq, Eq)]
pub enum StackError {
    /// The program would have so many instructions, more than 4096.
    ///
    /// Programs are joined in their order, and this is the length of the first ones that are too long.
    TooLong(usize),
    /// Memory ran out.
    OutOfMemory,
}

/// A failed allocation is `OutOfMemory`.
impl From<AllocError> for StackError {
    ghost use Rattle.std.specs.Prelude.{◌≡◌};
    ghost use Rattle.seccomp_stack.specs.declared.StackError.TheVariants.{OutOfMemory};

    ghost from_gives = { λ _ error. error ≡ OutOfMemory };

    fn from(_refused: AllocError) -> StackError {
        StackError::OutOfMemory
    }
}

/// Makes one program of several that hold together, in the order in which they are installed.
///
/// For every call record it returns the value that the kernel takes of theirs: that of the strictest action, and among
/// equal actions that of the program that was installed last. The data in the lower half, as an errno, comes along.
/// The strictest action is killing the process, then come killing the thread, trap, errno, user notification, trace,
/// log and allow, as `seccomp(2)` ranks them. The kernel compares their numbers as signed ones, so any other action
/// stands where its number is among these.
///
/// Of no programs it makes one that allows each call, and of one program a copy.
///
/// The programs must pass [`machine::check`](seccomp_compare::machine::check), and the one that is made does so too.
///
/// Two programs make one that is as long as the older one, and for each value that the older one returns as long as the
/// newer one and one instruction more. One of 400 instructions that returns three values, and a newer one of 400, make
/// one of 400 + 3 * 401 = 1603. The steps that it takes are those of both and one more.
///
/// # Errors
///
/// `TooLong(n)` if the programs, or the first so many of them, make a program of n instructions, which is too long to be run. `OutOfMemory` if memory runs out.
///
/// # Examples
///
/// ```
/// // A container's program allows call 39 only, and gives errno 1 for any other.
/// let container = vec![in alloc;
///     bpf_stmt(BPF_LD | BPF_W | BPF_ABS, 0),
///     bpf_jump(BPF_JMP | BPF_JEQ | BPF_K, 39, 0, 1),
///     bpf_stmt(BPF_RET | BPF_K, 0x7fff_0000),
///     bpf_stmt(BPF_RET | BPF_K, 0x0005_0001),
/// ]?;
/// // The process's own one kills it.
/// let own = vec![in alloc; bpf_stmt(BPF_RET | BPF_K, 0x8000_0000); 1]?;
/// let program = stack(alloc, &[container, own])?;
/// assert!(rt; program.len() == 8);
/// assert!(rt; machine::run(&program, &[0; 64]).word == 0x8000_0000);
/// ```
pub fn stack(alloc: Global, programs: &[BpfProgram]) -> Result<BpfProgram, StackError>
    requires { All (λ p. IsChecked p.items) programs.now }
    ensures stack { IfOk result (λ p. IsStack programs.now p.items) }
    ensures refused { IfErr result (IsRefusal programs.now) }
{
    if programs.is_empty() {
        return Ok(vec![in alloc; bpf_stmt(RETURN, SECCOMP_RET_ALLOW); 1]?);
    }
    let mut program = programs[0].as_slice().to_vec(alloc)?;
    for count in 1..programs.len() {
        program = join(alloc, &program, &programs[count])?;
    }
    Ok(program)
}

// The place of a word's action among all, from the strictest.
fn strictness(word: u32) -> u32
    ensures { result ≡ strictness word }
{
    (word & SECCOMP_RET_ACTION_FULL).wrapping_add(0x8000_0000)
}

// The word that the kernel takes of those of two programs.
fn prevailing(older: u32, newer: u32) -> u32
    ensures { result ≡ prevailing older newer }
{
    if strictness(older) < strictness(newer) {
        older
    } else {
        newer
    }
}
