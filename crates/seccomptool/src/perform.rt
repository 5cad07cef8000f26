// A command, carried out on what is read for it.

ghost use Rattle.std.specs.Prelude.{◌≤◌, IfErr, IfOk, IfSome, length, map};
ghost use Rattle.seccomptool.specs.Commands.{Answers, IsParted};
ghost use Rattle.seccomptool.specs.Ends.{AreOf};
ghost use Rattle.seccomptool.specs.Failures.{Fails};
ghost use Rattle.seccomptool.specs.Outside.{named_of};

use crate::call::call_made;
use crate::check::{check_made, codes_made};
use crate::command::Command;
use crate::compile::compile_made;
use crate::diff::diff_made;
use crate::explain::explain_made;
use crate::learn::learn_made;
use crate::made::Made;
use crate::outside::Outside;
use crate::progress::Watch;
use crate::show::show_made;
use crate::stack::stack_made;
use seccomp_answers::error::AnswerError;
use seccomp_answers::layers::Layer;
use std::alloc::Global;

/// What a command makes of what is read for it, ready to be written.
///
/// # Errors
///
/// The engine's.
pub(crate) fn perform<O: Outside>(
    alloc: Global,
    out: &O,
    command: &Command<'_>,
    inputs: &[Layer<'_>],
    progress: &mut Watch<'_>,
) -> Result<Made, AnswerError>
    requires { AreOf command.now (map named_of inputs.now) }
    ensures answers { IfOk result (Answers O.reads command.now inputs.now) }
    ensures fails { IfErr result (Fails O.reads command.now inputs.now) }
{
    match command {
        Command::Check(asked) => {
            let [one] = inputs else { unreachable!() };
            check_made(alloc, asked, one.path, &one.text, progress)
        }
        Command::Codes(json) => codes_made(alloc, *json),
        Command::Compile(asked) => {
            let [one] = inputs else { unreachable!() };
            compile_made(alloc, asked, one.path, &one.text)
        }
        Command::Show(asked) => {
            let [one] = inputs else { unreachable!() };
            show_made(alloc, asked, &one.text)
        }
        Command::Explain(asked) => {
            let (layers, bytes) = parted(inputs, asked.calls.file());
            explain_made(alloc, asked, layers, bytes)
        }
        Command::Diff(asked) => {
            let [old, new] = inputs else { unreachable!() };
            diff_made(alloc, asked, old, new, progress)
        }
        Command::Stack(asked) => stack_made(alloc, asked, inputs),
        Command::Learn(asked) => {
            let (traced, policy) = parted(inputs, asked.start.file());
            learn_made(alloc, out, asked, traced, policy)
        }
        Command::Call(asked) => call_made(alloc, asked),
    }
}

// What is read in front of the last file, and the bytes of that one, if it is read behind the others.
fn parted<'b, 'a>(inputs: &'b [Layer<'a>], behind: Option<&str>) -> (&'b [Layer<'a>], &'b [u8])
    requires { IfSome behind (λ path. 1 ≤ length inputs.now) }
    ensures { IsParted behind.entry inputs.now result.0.now result.1.now }
{
    match behind {
        None => (inputs, b""),
        Some(_) => {
            let [front @ .., last] = inputs else {
                unreachable!()
            };
            (front, &last.text)
        }
    }
}
