// The calls of a name or a number, or the record of one.

ghost use Rattle.std.specs.Prelude.{IfErr, IfOk};
ghost use Rattle.seccomp_answers.specs.Calls.{AreKnownCalls, IsUnknownCall};
ghost use Rattle.seccomptool.specs.Commands.{IsAskedAbout, IsCalled, IsPlain};
ghost use Rattle.seccomptool.specs.Failures.{IsUncalledOn};

use crate::command::Lookup;
use crate::made::{Made, shown};
use seccomp_answers::calls::{KnownCall, called_record, known_calls};
use seccomp_answers::error::AnswerError;
use seccomp_views::calls::calls_text;
use seccompiler::TargetArch;
use std::alloc::Global;

pub(crate) fn call_made(alloc: Global, asked: &Lookup<'_>) -> Result<Made, AnswerError>
    ensures made { IfOk result (λ made. IsCalled asked.now made.text.items × IsPlain made) }
    ensures failed { IfErr result (IsUncalledOn asked.now.recorded asked.now.each_arch asked.now.arch asked.now.call) }
{
    let (arch, call) = (asked.arch, asked.call);
    if asked.recorded {
        let record = called_record(alloc, arch, call.name, &call.arguments)?;
        return Made::plain(alloc, Ok(record));
    }
    let calls = calls_of(alloc, asked)?;
    let text = calls_text(alloc, asked.json, call.name, &calls);
    Made::plain(alloc, shown(text))
}

// The calls of the name or number that is asked about, on the architecture that is asked about, or on each.
fn calls_of(alloc: Global, asked: &Lookup<'_>) -> Result<Vec<KnownCall>, AnswerError>
    ensures known { IfOk result (λ calls. AreKnownCalls (IsAskedAbout asked.now.each_arch asked.now.arch) asked.now.call.name.now calls.items) }
    ensures unknown { IfErr result (IsUnknownCall (IsAskedAbout asked.now.each_arch asked.now.arch) asked.now.call.name.now) }
{
    let (arch, call) = (asked.arch, asked.call.name);
    if asked.each_arch {
        return known_calls(alloc, TargetArch::all(), call);
    }
    known_calls(alloc, &[arch], call)
}
