// A command, carried out on what is opened for it.

ghost use Rattle.std.specs.Prelude.{◌≡◌, IfOk, IfErr};
ghost use Rattle.seccompc.specs.Commands.{AnswersCommand, IsUnopened};
ghost use Rattle.seccompc.specs.Errors.{KeepsOutput};

use crate::error::ToolError;
use crate::list::list;
use crate::probe::probe;
use crate::run::run_policy;
use crate::words::Command;
use std::alloc::Global;
use std::io::{self, ErrorKind, Read, Write};

/// Carries out a command on the file that it names, if that is opened.
///
/// The file is not read if the command names none.
///
/// # Errors
///
/// `Unopened` if the file can't be opened, or `OutOfMemory` if memory runs out while it is, and then nothing is read or written; or
/// else those of [`perform`].
pub fn perform_on<F: Read + Drop, I: Read + Drop, W: Write>(
    alloc: Global,
    command: Command<'_>,
    file: io::Result<F>,
    input: I,
    out: &mut W,
) -> Result<(), ToolError>
    // A file that is opened is not told as one that isn't.
    ensures opened { IfOk file (λ opened. AnswersCommand command.entry (F.remaining opened) (I.remaining input) result (W.contents out.old) (W.contents out.new)) }
    ensures unopened { IfErr file (λ e. IsUnopened e result) }
    ensures unwritten { IfErr file (λ e. out.new ≡ out.old) }
{
    match file {
        Ok(file) => perform(alloc, command, file, input, out),
        Err(error) if error.kind() == ErrorKind::OutOfMemory => Err(ToolError::OutOfMemory),
        Err(_) => Err(ToolError::Unopened),
    }
}

/// Carries out a command: `probe` and `list` on the input, `run` on the policy of the file and on the
/// records of the input.
///
/// The file is not read if the command names none.
///
/// # Errors
///
/// Those of [`probe`], of [`list`] and of [`run_policy`].
pub fn perform<F: Read + Drop, I: Read + Drop, W: Write>(
    alloc: Global,
    command: Command<'_>,
    file: F,
    input: I,
    out: &mut W,
) -> Result<(), ToolError>
    // When each answer comes, and what is written.
    ensures answers { AnswersCommand command.entry (F.remaining file) (I.remaining input) result (W.contents out.old) (W.contents out.new) }
    ensures unwritten { IfErr result (λ e. KeepsOutput e out.old out.new) }
{
    match command {
        Command::Probe {
            arch,
            nr,
            index,
            value,
        } => probe(alloc, arch, nr, index, value, input, out),
        Command::List { arch } => list(alloc, arch, input, out),
        Command::Run {
            arch,
            file: _,
            name,
        } => run_policy(alloc, arch, file, name, input, out),
    }
}
