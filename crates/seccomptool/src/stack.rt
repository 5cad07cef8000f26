// One program for all that hold together.

ghost use Rattle.std.specs.Prelude.{IfErr, IfOk};
ghost use Rattle.seccomptool.specs.Causes.{IsUnstacked};
ghost use Rattle.seccomptool.specs.Commands.{IsPlain, IsStacked};

use crate::command::Stack;
use crate::compile::program_written;
use crate::made::Made;
use seccomp_answers::error::AnswerError;
use seccomp_answers::layers::{Layer, programs_of};
use seccomp_stack::stack;
use std::alloc::Global;

pub(crate) fn stack_made(
    alloc: Global,
    asked: &Stack<'_>,
    layers: &[Layer<'_>],
) -> Result<Made, AnswerError>
    ensures made { IfOk result (λ made. IsStacked asked.now layers.now made.text.items × IsPlain made) }
    ensures cause { IfErr result (IsUnstacked asked.now layers.now) }
{
    let programs = programs_of(alloc, asked.arch, &asked.reading, layers)?;
    let program = stack(alloc, &programs)?;
    Made::plain(
        alloc,
        program_written(alloc, asked.format, "stack", &program),
    )
}
