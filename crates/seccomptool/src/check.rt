// What `check` makes of what it is given, and what the codes of its warnings mean.

ghost use Rattle.std.specs.Prelude.{◌≡◌, IfErr, IfOk, false};
ghost use Rattle.seccomp_answers.specs.declared.error.AnswerError.TheVariants.{OutOfMemory};
ghost use Rattle.seccomptool.specs.Commands.{IsAccepted, IsCheck, IsPlain, IsRejectedFor};

use crate::command::Check;
use crate::made::{Made, shown};
use crate::notes::warnings_of;
use crate::progress::Watch;
use seccomp_answers::check::{checked, profile_checked, verdict_where};
use seccomp_answers::error::AnswerError;
use seccomp_answers::findings::Verdict;
use seccomp_answers::kind::{Subject, subject_of};
use seccomp_answers::program::program_of;
use seccomp_faults::{Fault, Problem};
use seccomp_views::check::fault::push_error;
use seccomp_views::check::format::{CheckFormat, Lines};
use seccomp_views::check::policy::push_warnings;
use seccomp_views::check::profile::push_profile_warnings;
use seccomp_views::json::{Object, push_item, written};
use seccomp_views::notes::push_profile_notes;
use seccomp_views::text::Text;
use seccomp_warnings::Code;
use std::alloc::{AllocError, Global};

// What becomes of the calls of 32-bit programs.
const ON_ABIS: &str = "decided by the entries of their names, as explain -a x86 and -a x32 print";

pub(crate) fn check_made(
    alloc: Global,
    asked: &Check<'_>,
    path: &str,
    given: &[u8],
    progress: &mut Watch<'_>,
) -> Result<Made, AnswerError>
    ensures made { IfOk result (λ made. IsCheck asked.now given.now made.verdict × (made.is_cut ≡ false)) }
    ensures failed { IfErr result (λ error. error ≡ OutOfMemory) }
{
    let subject = subject_of(alloc, &asked.reading, given)?;
    let mut lines = Lines::new(alloc, asked.format, path, given);
    let verdict = match accepted(&mut lines, asked, subject, given) {
        Ok(verdict) => verdict,
        Err(AnswerError::OutOfMemory { .. }) => {
            drop(lines);
            return Err(AnswerError::OutOfMemory);
        }
        Err(error) => {
            push_rejected(&mut lines, asked, given, error);
            Verdict::Different
        }
    };
    let (text, notes) = lines.finish();
    let text = match asked.format {
        CheckFormat::Json => items_of(text.finish()?, progress)?,
        _ => shown(text.finish())?,
    };
    Ok(Made::noting(text, verdict, notes.finish()?))
}

// The items of a list, each of which has a comma behind it, as they stand there: behind those that are written before, and without the
// last comma.
fn items_of(text: Vec<u8>, progress: &mut Watch<'_>) -> Result<Vec<u8>, AllocError> {
    let Some(items) = text.strip_suffix(b",\n") else {
        return Ok(text);
    };
    let front: &[u8] = if progress.is_listed { b",\n" } else { b"\n" };
    let mut piece = Vec::from_slice(*text.allocator(), front)?;
    piece.extend_from_slice(items)?;
    progress.is_listed = true;
    Ok(piece)
}

// What is found of a subject that is accepted.
fn accepted(
    lines: &mut Lines<'_>,
    asked: &Check<'_>,
    subject: Subject<'_>,
    given: &[u8],
) -> Result<Verdict, AnswerError>
    ensures accepted { IfOk result (IsAccepted asked.now subject.entry given.now) }
    ensures rejected { IfErr result (IsRejectedFor asked.now.arch subject.entry given.now) }
{
    let (alloc, arch, denied) = (lines.text.alloc(), asked.arch, asked.denied);
    match subject {
        Subject::Policy => {
            let checked = checked(alloc, arch, &asked.allowed, given)?;
            push_warnings(lines, arch, &checked.filters);
            Ok(verdict_where(denied, checked.count))
        }
        Subject::Profile(container) => {
            let checked = profile_checked(alloc, arch, container, &asked.allowed, given)?;
            let (listed, compiled) = (asked.reading.listed, &checked.compiled);
            let notes = &mut lines.notes;
            push_profile_notes(notes, arch, lines.file, listed, compiled, ON_ABIS);
            push_profile_warnings(lines, arch, &checked);
            Ok(verdict_where(denied, checked.warnings.len()))
        }
        Subject::Program => {
            let _program = program_of(alloc, given)?;
            Ok(Verdict::Same)
        }
    }
}

// Adds what is said of a rejection, and the warnings of a policy whose programs are too long in the linear layout alone.
fn push_rejected(lines: &mut Lines<'_>, asked: &Check<'_>, given: &[u8], error: AnswerError) {
    push_error(lines, given, &error);
    let is_long = is_too_long(&error);
    drop(error);
    if is_long {
        push_warnings_of(lines, asked, given);
    }
}

// Whether all that is wrong with a policy is that programs are too long in the linear layout.
fn is_too_long(error: &AnswerError) -> bool {
    match error {
        AnswerError::Placed(first, faults) => match faults.get(*first) {
            Some(Fault { problem, .. }) => matches!(problem, Problem::TooLong(_, _, _)),
            None => false,
        },
        _ => false,
    }
}

// Adds what is said of the warnings of a policy whose programs may be too long: they may fit in the tree layout, and `compile` counts
// the warnings then.
fn push_warnings_of(lines: &mut Lines<'_>, asked: &Check<'_>, given: &[u8]) {
    match warnings_of(lines.text.alloc(), asked.arch, &asked.allowed, given) {
        Ok(checked) => push_warnings(lines, asked.arch, &checked.filters),
        Err(error) => {
            drop(error);
            lines.text.fail();
        }
    }
}

// A line for each code of a warning, in the order of `Code::all`: its name, and what is so if a warning has the code, up to the first
// point or colon. As JSON their list, with all that is said of each.
pub(crate) fn codes_made(alloc: Global, json: bool) -> Result<Made, AnswerError>
    ensures made { IfOk result IsPlain }
    ensures failed { IfErr result (λ error. error ≡ OutOfMemory) }
{
    let mut text = Text::new(alloc);
    for code in Code::all() {
        let (name, paragraph) = (code.name, code.paragraph);
        if json {
            let mut item = Object::new(alloc);
            item.field("code", name);
            item.field("meaning", paragraph);
            push_item(&mut text, item);
        } else {
            let head = head_of(paragraph);
            text.push_format(format!(in alloc; "{name:22} {head}\n"));
        }
    }
    Made::plain(alloc, written(text, json, "codes"))
}

// What a paragraph says up to its first point or colon.
fn head_of(paragraph: &str) -> &str {
    let mut head = paragraph.trim_end_matches('.');
    for end in [". ", ": "] {
        if let Some((front, _)) = head.split_once(end) {
            head = front;
        }
    }
    head
}
