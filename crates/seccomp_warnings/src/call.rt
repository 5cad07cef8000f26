// What is so of the calls that entries are for, and of those that none is for.

ghost use Rattle.std.specs.Prelude.{◌↔◌, IsSomeAnd, IsTrue, slice_get};
ghost use Rattle.seccomp_warnings.specs.CallWarnings.{DeniesEach, HasNoArgs, IsDeniedUnlisted, IsExit, IsJudged, IsNumberOf, IsSoOfEntry, IsSoOfUnlisted, IsUnrestartable, IsUnstartable, IsWithAndWithoutArgs, LetsClone3Through, MatchesEachCall, Names, NamesCall};

use crate::action::permits;
use crate::code::Code;
use crate::part::Part;
use crate::sibling::is_undone;
use crate::unlisted::Unlisted;
use seccomp_entries::{Entry, Verdict};
use seccompiler::{SyscallTable, TargetArch};

// Whether the call of this name has this number.
pub(crate) fn is_number_of(arch: TargetArch, name: &str, number: u32) -> bool
    ensures { IsTrue result ↔ IsNumberOf arch name.now number }
{
    Some(i64::from(number)) == SyscallTable::new(arch).get_syscall_nr(name)
}

// Whether the entry is for the call of this name.
fn names(arch: TargetArch, entry: &Entry, name: &str) -> bool
    ensures { IsTrue result ↔ Names arch name.now entry.now }
{
    is_number_of(arch, name, entry.number)
}

// Whether the entry has no conditions.
pub(crate) fn has_no_args(entry: &Entry) -> bool
    ensures { IsTrue result ↔ HasNoArgs entry.now }
{
    entry.conditions.is_empty()
}

// Whether some entry is for the call.
pub(crate) fn names_call(part: &Part, name: &str) -> bool
    ensures { IsTrue result ↔ NamesCall part.now name.now }
{
    match SyscallTable::new(part.target_arch).get_syscall_nr(name) {
        Some(number) => {
            let mut entries = part.entries.iter();
            entries.any(|entry| i64::from(entry.number) == number)
        }
        None => false,
    }
}

// Whether some entry matches every call of this name.
fn matches_each_call(part: &Part, name: &str) -> bool
    ensures { IsTrue result ↔ MatchesEachCall part.now name.now }
{
    match SyscallTable::new(part.target_arch).get_syscall_nr(name) {
        Some(number) => {
            let mut entries = part.entries.iter();
            entries.any(|entry| i64::from(entry.number) == number && has_no_args(entry))
        }
        None => false,
    }
}

/// Whether every call of this name is denied: by an entry without conditions, or since no entry is for the call.
pub(crate) fn denies_each(part: &Part, name: &str) -> bool
    ensures { IsTrue result ↔ DeniesEach name.now part.now }
{
    (!permits(part.actions.matching) && matches_each_call(part, name))
        || is_denied_unlisted(part, name)
}

// Whether calls that no entry matches are denied, and no entry is for the call.
fn is_denied_unlisted(part: &Part, name: &str) -> bool
    ensures { IsTrue result ↔ IsDeniedUnlisted part.now name.now }
{
    !permits(part.actions.mismatch) && !names_call(part, name)
}

// Whether the part is that of a program that starts under it, and lets no program be started.
fn is_unstartable(part: &Part) -> bool
    ensures { IsTrue result ↔ IsUnstartable part.now }
{
    if !permits(part.actions.matching) || !names_call(part, "set_tid_address") {
        return false;
    }
    is_denied_unlisted(part, "execve") && !names_call(part, "execveat")
}

// Whether a call is listed that Linux goes on with by restart_syscall, and that one is denied.
fn is_unrestartable(part: &Part) -> bool
    ensures { IsTrue result ↔ IsUnrestartable part.now }
{
    permits(part.actions.matching)
        && is_denied_unlisted(part, "restart_syscall")
        && (names_call(part, "nanosleep")
            || names_call(part, "clock_nanosleep")
            || names_call(part, "poll")
            || names_call(part, "futex"))
}

// Whether what a code says is so of a call that no entry is for.
pub(crate) fn is_so_of_unlisted(code: Code, part: &Part, call: Unlisted) -> bool
    ensures { IsTrue result ↔ IsSoOfUnlisted code part.now call }
{
    match (code, call) {
        (Code::KillsExit, Unlisted::Exit) => is_denied_unlisted(part, "exit"),
        (Code::KillsExit, Unlisted::ExitGroup) => is_denied_unlisted(part, "exit_group"),
        (Code::KillsExit, Unlisted::RtSigreturn) => is_denied_unlisted(part, "rt_sigreturn"),
        // clone is denied by entries, and clone3 is let through as no entry is for it.
        (Code::CloneByClone3, Unlisted::Clone3) => {
            permits(part.actions.mismatch)
                && !permits(part.actions.matching)
                && names_call(part, "clone")
                && !names_call(part, "clone3")
        }
        (Code::NoExecve, Unlisted::Execve) => is_unstartable(part),
        (Code::NoRestart, Unlisted::RestartSyscall) => is_unrestartable(part),
        _ => false,
    }
}

// Whether a thread or a process ends by the entry's call, or a signal handler returns.
fn is_exit(arch: TargetArch, entry: &Entry) -> bool
    ensures { IsTrue result ↔ IsExit arch entry.now }
{
    names(arch, entry, "exit")
        || names(arch, entry, "exit_group")
        || names(arch, entry, "rt_sigreturn")
}

// Whether the entry lets every clone3 through, if not every clone is let through.
fn lets_clone3_through(part: &Part, entry: &Entry) -> bool
    ensures { IsTrue result ↔ LetsClone3Through part.now entry.now }
{
    if !permits(part.actions.matching) || permits(part.actions.mismatch) {
        return false;
    }
    names(part.target_arch, entry, "clone3")
        && has_no_args(entry)
        && !matches_each_call(part, "clone")
}

// Whether the entry has no conditions, and another one of its call has some.
fn is_with_and_without_args(part: &Part, entry: &Entry) -> bool
    ensures { IsTrue result ↔ IsWithAndWithoutArgs part.now entry.now }
{
    let mut entries = part.entries.iter();
    has_no_args(entry) && entries.any(|other| other.number == entry.number && !has_no_args(other))
}

// Whether what a code says of an entry is so.
fn is_so_of_entry(code: Code, part: &Part, entry: &Entry) -> bool
    ensures { IsTrue result ↔ IsSoOfEntry code part.now entry.now }
{
    match code {
        // It denies each call by which a thread or a process ends, or a signal handler returns.
        Code::KillsExit => {
            !permits(part.actions.matching)
                && has_no_args(entry)
                && is_exit(part.target_arch, entry)
        }
        Code::CloneByClone3 => lets_clone3_through(part, entry),
        Code::SiblingAllowed => is_undone(part, entry),
        Code::CrateDiffers => is_with_and_without_args(part, entry),
        _ => false,
    }
}

// Whether the part has an entry at the place, of which what a code says is so.
pub(crate) fn is_so_at(code: Code, part: &Part, place: usize) -> bool
    ensures { IsTrue result ↔ IsSomeAnd (slice_get part.now.entries place) (IsSoOfEntry code part.now) }
{
    match part.entries.get(place) {
        Some(entry) => is_so_of_entry(code, part, entry),
        None => false,
    }
}

// Whether there is a verdict at the place, by which what a code says is so.
pub(crate) fn is_judged(code: Code, verdicts: &[Verdict], place: usize) -> bool
    ensures { IsTrue result ↔ IsJudged code verdicts.now place }
{
    let Some(verdict) = verdicts.get(place) else {
        return false;
    };
    match code {
        Code::UnreachableEntry => matches!(verdict, Verdict::Unreachable),
        Code::RedundantEntry => matches!(verdict, Verdict::Redundant),
        Code::UndecidedEntry => matches!(verdict, Verdict::Undecided),
        _ => false,
    }
}
