// What the program does with its arguments: carries out what they ask for, and ends with a status.

ghost use Rattle.std.specs.Prelude.{[], ◌≡◌, IfErr, IfOk, IsSome, OnErr, OnOk, false, map};
ghost use Rattle.seccomp_answers.specs.Chosen.{text_of};
ghost use Rattle.seccomptool.specs.declared.outside.Cause.TheVariants.{Answer};
ghost use Rattle.seccomptool.specs.Ends as spec;
ghost use Rattle.seccomptool.specs.Ends.{AreOf, Ends, EndsInList, EndsOnEach, EndsWith, IsAnswered, IsCarriedOut, IsKept, IsOfOutside, IsRefused, IsSaid, apart_of};
ghost use Rattle.seccomptool.specs.Files.{guarded as guarded_of, lists, output_of, subjects_of, writes_bytes};
ghost use Rattle.seccomptool.specs.Outside.{Does, got_of, named_of, writes};

use crate::command::{Command, Named};
use crate::made::Made;
use crate::outside::{Cause, Failure, Outside};
use crate::perform::perform;
use crate::progress::Watch;
use crate::words::read;
use seccomp_answers::error::AnswerError;
use seccomp_answers::findings::Verdict;
use seccomp_answers::layers::Layer;
use seccomp_text::readable::TextKind;
use seccomp_views::notes::readable;
use std::alloc::Global;

// The status of a command that fails.
const TROUBLE: u8 = 2;

/// Carries out what the arguments after the program's name ask for. The exit status is that of what is found.
///
/// # Errors
///
/// What is wrong with the arguments, or the help or the version that they ask for. Nothing is done then.
pub(crate) fn answer<O: Outside>(
    alloc: Global,
    out: &mut O,
    words: &[String],
    progress: &mut Watch<'_>,
) -> Result<u8, clap::Error>
    ensures answered { IfOk result (λ status. Does (O.did out.old out.new) (λ events. IsAnswered O.reads (O.there out.old) events status)) }
    ensures misused { OnErr result (O.did out.old out.new []) }
{
    let mut codes: Vec<&'static str> = Vec::new(alloc);
    match read(alloc, out, words, &mut codes) {
        Ok(command) => Ok(carry_out_with(alloc, out, &command, progress)),
        Err(error) => Err(error),
    }
}

// Carries out a command: a check on one file after the other, another on all of its files.
fn carry_out_with<O: Outside>(
    alloc: Global,
    out: &mut O,
    command: &Command<'_>,
    progress: &mut Watch<'_>,
) -> u8
    ensures { Does (O.did out.old out.new) (λ events. EndsWith O.reads command.now events result) }
{
    if let Some(subjects) = command.subjects() {
        if command.lists() {
            return carry_out_list(alloc, out, command, subjects, progress);
        }
        return carry_out_each(alloc, out, command, subjects, progress);
    }
    match command.files(alloc) {
        Ok(files) => carry_out(alloc, out, command, &files, progress),
        Err(error) => {
            out.tell(&Failure::from(error));
            TROUBLE
        }
    }
}

// Writes a list of what is found in one file after the other.
fn carry_out_list<O: Outside>(
    alloc: Global,
    out: &mut O,
    command: &Command<'_>,
    subjects: &[&str],
    progress: &mut Watch<'_>,
) -> u8
    requires { IsSome (subjects_of command.now) }
    ensures { Does (O.did out.old out.new) (λ events. EndsInList O.reads command.now subjects.now events result) }
{
    let begun = say(out, b"{\"diagnostics\":[");
    if begun > 0 {
        return begun;
    }
    let status = carry_out_each(alloc, out, command, subjects, progress);
    let end = if progress.is_listed { "\n]}\n" } else { "]}\n" };
    let ended = say(out, end.as_bytes());
    status.max(ended)
}

// Writes a text to standard output, or reports why it can't: then the status is that of trouble.
fn say<O: Outside>(out: &mut O, text: &[u8]) -> u8
    ensures { Does (O.did out.old out.new) (λ events. IsSaid events result) }
{
    let Err(cause) = out.write(None, text) else {
        return 0;
    };
    out.tell(&Failure { input: None, cause });
    TROUBLE
}

// Carries out a check on one file after the other: one that fails doesn't keep those behind it from being checked. The status is the
// greatest of theirs.
fn carry_out_each<O: Outside>(
    alloc: Global,
    out: &mut O,
    command: &Command<'_>,
    subjects: &[&str],
    progress: &mut Watch<'_>,
) -> u8
    requires { IsSome (subjects_of command.now) }
    ensures { Does (O.did out.old out.new) (λ events. EndsOnEach O.reads command.now subjects.now events result) }
{
    let mut status = 0;
    for subject in subjects {
        let own = carry_out(
            alloc,
            out,
            command,
            &[Named {
                path: *subject,
                filter: None,
            }],
            progress,
        );
        status = own.max(status);
    }
    status
}

// Carries out a command on these files, and reports what keeps it from that.
fn carry_out<O: Outside>(
    alloc: Global,
    out: &mut O,
    command: &Command<'_>,
    files: &[Named<'_>],
    progress: &mut Watch<'_>,
) -> u8
    requires { AreOf command.now files.now }
    ensures { Does (O.did out.old out.new) (λ events. Ends O.reads command.now files.now events result) }
{
    match carried_out(alloc, out, command, files, progress) {
        Ok(made) => status_of(made.is_cut, made.verdict),
        Err(failure) => {
            out.tell(&failure);
            TROUBLE
        }
    }
}

// Carries out a command on these files, writes what it makes of them, at once, and reports its notes, which are made first, so that
// nothing fails behind what is written.
fn carried_out<'a, O: Outside>(
    alloc: Global,
    out: &mut O,
    command: &Command<'a>,
    files: &[Named<'a>],
    progress: &mut Watch<'_>,
) -> Result<Made, Failure<'a>>
    requires { AreOf command.now files.now }
    ensures carries { IfOk result (λ made. Does (O.did out.old out.new) (λ events. IsCarriedOut O.reads command.now files.now events made)) }
    ensures kept { IfErr result (λ f. Does (O.did out.old out.new) (λ events. IsKept O.reads command.now files.now events f × (writes events ≡ false))) }
{
    let output = command.output();
    refuse_output(out, output, command.writes_bytes(), guarded(command, files))?;
    let inputs = read_all(alloc, out, files)?;
    let made = perform(alloc, out, command, &inputs, progress);
    // Here, so that no branch below has to.
    drop(inputs);
    let made = match made {
        Ok(made) => made,
        Err(error) => return Err(failure_of(command, files, error)),
    };
    let notes = readable(alloc, &made.notes, TextKind::Lines)?;
    match out.write(output, &made.text) {
        Ok(()) => {
            out.note(notes.as_str());
            Ok(made)
        }
        Err(cause) => {
            drop(made);
            Err(Failure {
                input: output,
                cause,
            })
        }
    }
}

// Of the files that are read those over which nothing is written: all but the policy that calls are added to.
fn guarded<'b, 'a>(command: &Command<'_>, files: &'b [Named<'a>]) -> &'b [Named<'a>]
    ensures { result.now ≡ guarded_of command.now files.now }
{
    match command {
        Command::Learn(asked) => &files[..asked.traces.len().min(files.len())],
        _ => files,
    }
}

// Refuses to write bytes to a terminal, and to write over these files.
fn refuse_output<'a, O: Outside>(
    out: &mut O,
    output: Option<&'a str>,
    of_bytes: bool,
    files: &[Named<'_>],
) -> Result<(), Failure<'a>>
    ensures apart { OnOk result (O.did out.old out.new (apart_of (text_of output.entry) of_bytes files.now)) }
    ensures refused { IfErr result (λ f. Does (O.did out.old out.new) (λ events. IsRefused (text_of output.entry) of_bytes files.now events f × (writes events ≡ false))) }
{
    let Some(written) = output else {
        if of_bytes && out.is_terminal() {
            return Err(Failure {
                input: None,
                cause: Cause::Terminal,
            });
        }
        return Ok(());
    };
    for file in files {
        if out.is_same(file.path, written) {
            return Err(Failure {
                input: Some(written),
                cause: Cause::Overwrites,
            });
        }
    }
    Ok(())
}

// Reads what stands at each path.
fn read_all<'a, O: Outside>(
    alloc: Global,
    out: &mut O,
    files: &[Named<'a>],
) -> Result<Vec<Layer<'a>>, Failure<'a>>
    ensures named { IfOk result (λ inputs. map named_of inputs.items ≡ files.now) }
    ensures read { IfOk result (λ inputs. O.did out.old out.new (map got_of inputs.items)) }
    ensures lost { IfErr result (λ f. Does (O.did out.old out.new) (λ events. IsOfOutside events f × (writes events ≡ false))) }
{
    let mut inputs = Vec::new(alloc);
    for file in files {
        let Named { path, filter } = *file;
        match out.read(alloc, path) {
            Ok(text) => inputs.push(Layer { path, filter, text })?,
            Err(cause) => {
                return Err(Failure {
                    input: Some(path),
                    cause,
                });
            }
        }
    }
    Ok(inputs)
}

// The failure of an error of what is read, and the file that it is in: of `learn` the policy that calls are added to, if there is one.
fn failure_of<'a>(command: &Command<'a>, files: &[Named<'a>], error: AnswerError) -> Failure<'a>
    ensures { result.cause ≡ Answer error }
{
    let input = match (&error, command) {
        (
            AnswerError::OutOfMemory
            | AnswerError::UnknownCall(_, _)
            | AnswerError::StackTooLong(_)
            | AnswerError::Told(_),
            _,
        ) => None,
        (_, Command::Learn(asked)) => asked.start.file(),
        (AnswerError::Second(_), _) => files.last().map(|file| file.path),
        _ => files.first().map(|file| file.path),
    };
    Failure {
        input,
        cause: Cause::Answer(error),
    }
}

// The status of what a command finds; that of trouble if records end inside of one.
fn status_of(is_cut: bool, verdict: Verdict) -> u8
    ensures { result ≡ spec.made_status is_cut verdict }
{
    if is_cut {
        return TROUBLE;
    }
    match verdict {
        Verdict::Same => 0,
        Verdict::Different => 1,
        Verdict::Undecided => 3,
    }
}
