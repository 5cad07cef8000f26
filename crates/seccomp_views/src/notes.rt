// Failures, and notes on what stands at a path.

ghost use Rattle.std.specs.Prelude.{◌≡◌, IfOk, string_bytes};
ghost use Rattle.std.specs.Str.Lossy.{utf8_lossy};
ghost use Rattle.seccomp_text.specs.Readable as spec;

use crate::text::Text;
use seccomp_answers::error::{AnswerError, front_of};
use seccomp_entries::Action;
use seccomp_profiles::{CompiledProfile, Flag};
use seccomp_text::readable::{TextKind, readable as readable_text};
use seccompiler::TargetArch;
use seccompiler::bpf::RETURN;
use std::alloc::{AllocError, Global};
use std::collections::BTreeSet;

/// The line of a failure: the program, the path of what it is in, and the error.
pub fn failure(
    alloc: Global,
    path: Option<&str>,
    error: &AnswerError,
) -> Result<String, AllocError> {
    let told = error.told(alloc)?;
    let mut line = Text::new(alloc);
    line.push_str("seccomptool: ");
    if let Some(path) = path {
        push_front(&mut line, path);
    }
    line.push_readable(told.as_str(), TextKind::Line);
    line.push_str("\n");
    line.finish_string()
}

/// The text as people read it, with bytes that aren't UTF-8 replaced. What the program reports of files goes through here; bytes of
/// programs and of records don't.
pub fn readable(alloc: Global, text: &[u8], kind: TextKind) -> Result<String, AllocError>
    ensures { IfOk result (λ told. string_bytes told ≡ spec.readable kind (utf8_lossy text.now)) }
{
    let text = String::from_utf8_lossy(alloc, text)?;
    readable_text(alloc, text.as_str(), kind)
}

/// Adds the line of a note on what stands at this path.
pub fn note(notes: &mut Text, path: &str, told: Result<String, AllocError>) {
    notes.push_str("seccomptool: ");
    push_front(notes, path);
    notes.push_format(told);
    notes.push_str("\n");
}

// Adds what stands in front of each line about what is at this path.
pub(crate) fn push_front(text: &mut Text, path: &str) {
    text.push_format(front_of(text.alloc(), path));
}

/// Adds notes on the profile of a path: how many names are left out, each counted once, and the names in the profile's order if
/// they are to be listed; and what becomes of the calls of 32-bit programs, if it lists their architectures.
pub fn push_profile_notes(
    notes: &mut Text,
    arch: TargetArch,
    path: &str,
    listed: bool,
    compiled: &CompiledProfile,
    others: &str,
) {
    push_left_out(notes, arch, path, listed, &compiled.left_out);
    let (TargetArch::x86_64, profile) = (arch, &compiled.profile) else {
        return;
    };
    let listed = match (profile.lists_x86, profile.lists_x32) {
        (true, true) => "SCMP_ARCH_X86, SCMP_ARCH_X32",
        (true, false) => "SCMP_ARCH_X86",
        (false, true) => "SCMP_ARCH_X32",
        (false, false) => return,
    };
    let told = format!(in notes.alloc(); "calls of 32-bit programs ({listed}) are {others}");
    note(notes, path, told);
}

// Adds a note on the names that are left out.
fn push_left_out(
    notes: &mut Text,
    arch: TargetArch,
    path: &str,
    listed: bool,
    left_out: &[String],
) {
    let alloc = notes.alloc();
    let Ok((count, names)) = each_once(alloc, left_out) else {
        return notes.fail();
    };
    let names = if listed { names.as_str() } else { "" };
    if count > 0 {
        let told = match count {
            1 => format!(in alloc; "1 name that {arch} has no call for is left out{names}"),
            _ => format!(in alloc; "{count} names that {arch} has no call for are left out{names}"),
        };
        note(notes, path, told);
    }
}

/// Adds the notes on what whoever installs the program of a profile has to do: set its flags, and listen if it asks a supervisor.
pub fn push_install_notes(notes: &mut Text, path: &str, compiled: &CompiledProfile) {
    let (alloc, flags) = (notes.alloc(), &compiled.profile.flags);
    if !flags.is_empty() {
        let (mut told, mut front) = (Text::new(alloc), ": ");
        told.push_format(format!(in alloc;
            "flags to set when the program is installed ({})",
            flags.len()
        ));
        for flag in flags {
            told.push_str(front);
            told.push_str(match flag {
                Flag::Tsync => "SECCOMP_FILTER_FLAG_TSYNC",
                Flag::Log => "SECCOMP_FILTER_FLAG_LOG",
                Flag::SpecAllow => "SECCOMP_FILTER_FLAG_SPEC_ALLOW",
                Flag::WaitKillableRecv => "SECCOMP_FILTER_FLAG_WAIT_KILLABLE_RECV",
            });
            front = ", ";
        }
        note(notes, path, told.finish_string());
    }
    let notify = u32::from(Action::Notify);
    if compiled
        .program
        .iter()
        .any(|it| it.code == RETURN && it.k == notify)
    {
        let told =
            "calls that a supervisor decides fail with errno 38 (ENOSYS), unless one listens";
        note(notes, path, String::from_str(alloc, told));
    }
}

/// How many different names these are, and their list as people read it behind a colon, each where it first stands.
pub fn each_once(alloc: Global, names: &[String]) -> Result<(usize, String), AllocError> {
    let mut told = BTreeSet::new(alloc);
    let (mut list, mut front) = (Text::new(alloc), ": ");
    for name in names {
        if told.insert(name.as_str())? {
            list.push_str(front);
            list.push_readable(name.as_str(), TextKind::Name);
            front = ", ";
        }
    }
    Ok((told.len(), list.finish_string()?))
}
