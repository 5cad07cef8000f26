// What the program tells on standard error: failures, and notes on what stands at a path.

ghost use Rattle.std.specs.Prelude.{◌≡◌, ◌≤◌, ◌⊎◌};
ghost use Rattle.clap.specs.Words.{kind_of};
ghost use Rattle.clap.specs.declared.error.kind.ErrorKind.TheVariants.{DisplayHelp, DisplayVersion};
ghost use Rattle.seccomptool.specs.Learn.{IsTold};

use crate::outside::{Cause, Failure, Outside};
use crate::words::read;
use clap::error::ErrorKind;
use seccomp_answers::check::{CheckedPolicy, warnings_in};
use seccomp_answers::error::{AnswerError, path_text};
use seccomp_text::readable::TextKind;
use seccomp_views::notes::{failure as failure_line, note, readable};
use seccomp_views::text::Text;
use seccomp_warnings::Code;
use seccompiler::json::filters_of;
use seccompiler::{JsonFrontendError, TargetArch};
use std::alloc::{AllocError, Global};
use std::io;

// Tells a failure, and the file that it is in. Fails if there is no memory for the line.
pub(crate) fn tell(rt: &HostRuntime, failure: &Failure<'_>) -> Result<(), AllocError> {
    let alloc = rt.alloc();
    let told = match &failure.cause {
        Cause::Answer(error) => {
            let line = failure_line(alloc, failure.input, error)?;
            let _ = eprint!(rt; "{line}");
            return Ok(());
        }
        Cause::Io(error) => error.to_string(alloc),
        Cause::Closed => String::from_str(alloc, "nobody reads it"),
        Cause::Terminal => {
            let told = "bytes aren't written to a terminal; use a file or a pipe";
            String::from_str(alloc, told)
        }
        Cause::Overwrites => String::from_str(alloc, "the output would overwrite the input"),
    };
    let mut line = Text::new(alloc);
    note(&mut line, failure.input.unwrap_or("standard output"), told);
    let line = line.finish_string()?;
    let _ = eprint!(rt; "{line}");
    Ok(())
}

// What is wrong with what is at a path.
pub(crate) fn of_path(alloc: Global, path: &str, told: &str) -> AnswerError
    ensures { IsTold result }
{
    match path_text(alloc, path, told) {
        Ok(text) => AnswerError::Told(text),
        Err(error) => error.into(),
    }
}

// Tells what `clap` has to say: status 0 where that is help or the version, and it is written; else 2.
pub(crate) fn misused<O: Outside>(
    rt: &HostRuntime,
    out: &O,
    words: &[String],
    error: &clap::Error,
) -> u8
    ensures ended { result ≤ 2 }
    ensures shown { result ≤ 1 → (kind_of error.now ≡ DisplayHelp) ⊎ (kind_of error.now ≡ DisplayVersion) }
{
    match error.kind() {
        ErrorKind::DisplayHelp | ErrorKind::DisplayVersion => match error.print(rt) {
            Ok(()) => 0,
            Err(error) => {
                if error.kind() != io::ErrorKind::BrokenPipe {
                    let _ = eprintln!(rt; "seccomptool: standard output: {error}");
                }
                2
            }
        },
        ErrorKind::OutOfMemory => {
            let _ = eprintln!(rt; "seccomptool: Out of memory.");
            2
        }
        _ => {
            let told = match error_text(rt.alloc(), out, words, error) {
                Ok(told) => readable(rt.alloc(), told.as_bytes(), TextKind::Lines),
                Err(error) => Err(error),
            };
            let _ = match told {
                Ok(lines) => eprint!(rt; "{lines}"),
                Err(_) => eprintln!(rt; "seccomptool: Out of memory."),
            };
            2
        }
    }
}

// Tells that the words can't be read: for want of memory, or as one of them is no text.
pub(crate) fn unread(rt: &HostRuntime, error: &io::Error) {
    if error.kind() == io::ErrorKind::OutOfMemory {
        let _ = eprintln!(rt; "seccomptool: Out of memory.");
    } else {
        let _ = eprintln!(rt; "seccomptool: the arguments aren't UTF-8");
    }
}

// What `clap` says of words that are wrong. It writes words as they are, and all but their line feeds are written by number later. So
// words with line feeds are read once more, with those by number.
pub(crate) fn error_text<O: Outside>(
    alloc: Global,
    out: &O,
    words: &[String],
    error: &clap::Error,
) -> Result<String, AllocError> {
    let told = format!(in alloc; "{error}")?;
    if !words.iter().any(|word| word.contains('\n')) {
        return Ok(told);
    }
    let mut shown = Vec::new(alloc);
    for word in words {
        shown.push(readable(alloc, word.as_bytes(), TextKind::Line)?)?;
    }
    let Some(again) = error_of(alloc, out, &shown) else {
        return readable(alloc, told.as_bytes(), TextKind::Line);
    };
    if again.kind() == ErrorKind::OutOfMemory {
        return Err(AllocError);
    }
    format!(in alloc; "{again}")
}

// What is wrong with these words, if something is.
fn error_of<O: Outside>(alloc: Global, out: &O, words: &[String]) -> Option<clap::Error> {
    let mut codes = Vec::new(alloc);
    match read(alloc, out, words, &mut codes) {
        Ok(_command) => None,
        Err(error) => Some(error),
    }
}

// The warnings of a policy's text, whichever layout its programs fit in.
pub(crate) fn warnings_of(
    alloc: Global,
    arch: TargetArch,
    allowed: &[Code],
    text: &[u8],
) -> Result<CheckedPolicy, JsonFrontendError> {
    let filters = filters_of(alloc, text)?;
    warnings_in(alloc, arch, allowed, &filters)
}

// Adds the note on how many warnings `check` has for the policy of this path, with this text, unless it isn't to be told. There is
// none where it has no warning, and where a filter is refused, which is for the command to report.
pub(crate) fn push_counted(
    notes: &mut Text,
    quiet: bool,
    arch: TargetArch,
    path: &str,
    text: &[u8],
) {
    if quiet {
        return;
    }
    let alloc = notes.alloc();
    let count = match warnings_of(alloc, arch, &[], text) {
        Ok(checked) => checked.count,
        Err(JsonFrontendError::OutOfMemory) => return notes.fail(),
        Err(error) => return drop(error),
    };
    let told = match count {
        0 => return,
        1 => String::from_str(alloc, "1 warning; seccomptool check prints it"),
        _ => format!(in alloc; "{count} warnings; seccomptool check prints them"),
    };
    note(notes, path, told);
}
