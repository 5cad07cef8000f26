//! Comparisons of seccomp programs, and of the filters that programs are made of: every function proved.
//!
//! - [`compare`] says whether two programs answer alike, or the first permits no more than the second
//!   ([`Relation`]), on every call of a set ([`Calls`]). If not, it gives a call that shows it
//!   ([`Comparison`]). [`compare_to_end`] also says where it stopped, if neither is found ([`End`]).
//! - [`compare_filters`] compares what two filters decide, and [`compare_program`] a program with a filter.
//! - [`rank`] says how much the action of a return value permits.
//!
//! A program may be of any compiler, as long as [`machine::check`] passes it.
//!
//! ```
//! use seccomp_compare::{Calls, Comparison, Relation, compare_filters};
//! use seccompiler::{BackendError, SeccompFilter, TargetArch};
//! use std::alloc::Global;
//!
//! /// Whether the new policy permits no call of x86_64 that the old one doesn't, as far as is found out.
//! fn permits_no_more(
//!     alloc: Global,
//!     new: &SeccompFilter,
//!     old: &SeccompFilter,
//! ) -> Result<bool, BackendError> {
//!     let calls = Calls::of_arch(TargetArch::x86_64);
//!     let relation = Relation::AtMostAsPermissive;
//!     let answer = compare_filters(alloc, new, old, &calls, relation, 1_000_000)?;
//!     Ok(matches!(answer, Comparison::Holds))
//! }
//! ```
#![tactic(auto)]

mod calls;
mod covered;
mod filters;
mod follow;
mod known;
pub mod machine;
mod rules;
mod sets;
mod spans;
mod tasks;
mod values;

ghost use Rattle.std.specs.Prelude.{◌≡◌, ◌↔◌, IsTrue, IfOk, IsOkUnless};
ghost use Rattle.seccompiler.specs.declared.backend.BackendError.TheVariants.{OutOfMemory};
ghost use Rattle.seccomp_compare.specs.Machine.{IsChecked};
ghost use Rattle.seccomp_compare.specs.Compare.{Compares, EndsFor, Related, rank};

pub use calls::Calls;
pub use covered::{Cover, cover_of};
pub use filters::{compare_filters, compare_program};
pub use rules::is_related_on;
use seccompiler::BackendError;
use seccompiler::bpf::BpfProgramRef;
use std::alloc::Global;
use tasks::compare_on;

// The actions of return values, from the one that permits least on, as `linux/seccomp.h` has them; that of killing
// the process is any other.
const SECCOMP_RET_KILL_THREAD: u32 = 0x0000_0000;

const SECCOMP_RET_TRAP: u32 = 0x0003_0000;

const SECCOMP_RET_ERRNO: u32 = 0x0005_0000;

const SECCOMP_RET_USER_NOTIF: u32 = 0x7fc0_0000;

const SECCOMP_RET_TRACE: u32 = 0x7ff0_0000;

const SECCOMP_RET_LOG: u32 = 0x7ffc_0000;

const SECCOMP_RET_ALLOW: u32 = 0x7fff_0000;

// The part of a return value that names the action.
const SECCOMP_RET_ACTION_FULL: u32 = 0xffff_0000;

/// What is asked of the values that two programs return for a call.
#[derive(Clone, Copy, Debug)]
pub enum Relation {
    /// Both values are the same.
    Alike,
    /// The action of the first permits as much as that of the second, or less.
    ///
    /// From the least that is permitted: killing the process, killing the thread, trap, errno, user
    /// notification, trace, log, allow, as `seccomp(2)` ranks them. The values' data doesn't count. A value
    /// that names none of these actions kills the process.
    AtMostAsPermissive,
}

/// What a comparison says.
#[derive(Clone, Copy, Debug)]
pub enum Comparison {
    /// The relation holds for every call of the set.
    Holds,
    /// It doesn't for the call of this record, which is one of the set.
    Fails([u8; 64]),
    /// As many sets of records were looked at as was allowed, and neither was found.
    Undecided,
}

/// A set of calls at which a comparison stopped, and where both programs stand on it.
///
/// The programs stand where not all calls of the set go on together: at a test whose outcome isn't the same for all of
/// them, or at a return.
#[derive(Clone, Copy, Debug)]
pub struct Stop {
    /// The record of one of the calls.
    pub call: [u8; 64],
    /// The place of the first program's instruction, counted from 0.
    pub place: usize,
    /// The place of the second program's.
    pub other_place: usize,
}

/// How a comparison ends, with the place where it stopped.
#[derive(Clone, Copy, Debug)]
pub enum End {
    /// The relation holds for every call of the set.
    Holds,
    /// It doesn't for the call of this record, which is one of the set.
    Fails([u8; 64]),
    /// As many sets of records were looked at as was allowed, and this one is left.
    Stops(Stop),
}

/// Compares the answers of two programs for each call of a set.
///
/// The programs must pass [`machine::check`], and may be of any compiler. The comparison splits the calls by
/// the tests of both programs, into sets for which it knows what the programs return, and looks at no more than
/// `most` such sets. Most pairs of programs take a few sets for each test, some microseconds in all; tests
/// under masks of several arguments in one rule may take many. A million sets take some tenths of a second.
///
/// The sets that are left take memory, some 370 bytes each; the use of stack doesn't depend on the programs.
///
/// # Errors
///
/// `OutOfMemory` if memory runs out.
///
/// # Examples
///
/// ```
/// // Allows system call 39, and kills the process at another one.
/// let strict = [
///     bpf_stmt(BPF_LD | BPF_W | BPF_ABS, 0),
///     bpf_jump(BPF_JMP | BPF_JEQ | BPF_K, 39, 0, 1),
///     bpf_stmt(BPF_RET | BPF_K, 0x7fff_0000),
///     bpf_stmt(BPF_RET | BPF_K, 0x8000_0000),
/// ];
/// // Logs another one.
/// let mut lax = strict;
/// lax[3] = bpf_stmt(BPF_RET | BPF_K, 0x7ffc_0000);
/// assert!(rt; check(&strict) && check(&lax));
/// let (all, relation) = (Calls::all(), Relation::AtMostAsPermissive);
/// let answer = compare(alloc, &strict, &lax, &all, relation, 1_000_000)?;
/// assert!(rt; matches!(answer, Comparison::Holds));
/// let answer = compare(alloc, &lax, &strict, &all, relation, 1_000_000)?;
/// assert!(rt; matches!(answer, Comparison::Fails(_)));
/// let only_39 = Calls::of_number(TargetArch::x86_64, 39);
/// let answer = compare(alloc, &lax, &strict, &only_39, Relation::Alike, 1_000_000)?;
/// assert!(rt; matches!(answer, Comparison::Holds));
/// ```
pub fn compare(
    alloc: Global,
    p: BpfProgramRef<'_>,
    q: BpfProgramRef<'_>,
    calls: &Calls,
    relation: Relation,
    most: usize,
) -> Result<Comparison, BackendError>
    requires p_checked { IsChecked p.now }
    requires q_checked { IsChecked q.now }
    ensures compares { IfOk result (λ answer. Compares calls.now relation p.now q.now answer) }
    ensures memory { IsOkUnless result OutOfMemory }
{
    match compare_to_end(alloc, p, q, calls, relation, most)? {
        End::Holds => Ok(Comparison::Holds),
        End::Fails(call) => Ok(Comparison::Fails(call)),
        End::Stops(_) => Ok(Comparison::Undecided),
    }
}

/// Compares as [`compare`] does, and says where the comparison stopped if it found no answer.
///
/// That is one of the sets that weren't looked at; which one isn't promised.
///
/// # Errors
///
/// `OutOfMemory` if memory runs out.
pub fn compare_to_end(
    alloc: Global,
    p: BpfProgramRef<'_>,
    q: BpfProgramRef<'_>,
    calls: &Calls,
    relation: Relation,
    most: usize,
) -> Result<End, BackendError>
    requires p_checked { IsChecked p.now }
    requires q_checked { IsChecked q.now }
    ensures ends { IfOk result (λ end. EndsFor calls.now relation p.now q.now end) }
    ensures memory { IsOkUnless result OutOfMemory }
{
    Ok(compare_on(alloc, p, q, &calls.records(), relation, most)?)
}

// Whether the relation holds of two words.
fn is_related(relation: Relation, word: u32, other: u32) -> bool
    ensures { IsTrue result ↔ Related relation word other }
{
    match relation {
        Relation::Alike => word == other,
        Relation::AtMostAsPermissive => rank(word) <= rank(other),
    }
}

/// How much the action of a return value permits: 0 for killing the process, 1 for killing the thread, 2 for
/// trap, 3 for an errno, 4 for user notification, 5 for trace, 6 for log, 7 for allow.
///
/// The upper half of the value names the action; the lower half, its data, doesn't count. A value that
/// names none of these actions kills the process.
pub fn rank(word: u32) -> u32
    ensures { result ≡ rank word }
{
    match word & SECCOMP_RET_ACTION_FULL {
        SECCOMP_RET_ALLOW => 7,
        SECCOMP_RET_LOG => 6,
        SECCOMP_RET_TRACE => 5,
        SECCOMP_RET_USER_NOTIF => 4,
        SECCOMP_RET_ERRNO => 3,
        SECCOMP_RET_TRAP => 2,
        SECCOMP_RET_KILL_THREAD => 1,
        _ => 0,
    }
}
