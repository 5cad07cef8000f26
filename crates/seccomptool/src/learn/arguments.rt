// The arguments whose values are kept, and what is noted of `--args` that keeps no values.

ghost use Rattle.std.specs.Prelude.{◌≡◌, Any, IfErr, IfOk, OnOk, false, slice_index_or};
ghost use Rattle.seccomp_answers.specs.Calls.{IsUncalled};
ghost use Rattle.seccomptool.specs.Learn.{AreWanted, AreWithCall, InTurn, IsUnknown, IsWithArgument, OrMemory};

use super::AskedArguments;
use super::notes::{has, path_at};
use crate::command::Learn;
use seccomp_answers::calls::call_number;
use seccomp_answers::error::AnswerError;
use seccomp_learn::{Kept, Observation, Symbolic, Trace, asked_kept, usual_kept};
use seccomp_profiles::Abi;
use seccomp_text::readable::TextKind;
use seccomp_views::notes::note;
use seccomp_views::text::Text;
use seccompiler::TargetArch;
use std::alloc::{AllocError, Global};

// The arguments whose values are kept: the usual ones, and those that are asked for.
pub(super) fn wanted_in(
    alloc: Global,
    asked: &Learn<'_>,
    observed: &[Observation],
) -> Result<Vec<Kept>, AnswerError>
    ensures wanted { IfOk result (λ wanted. AreWanted asked.now observed.now wanted.items) }
    ensures cause { IfErr result (OrMemory (IsUnknown asked.now)) }
{
    let mut wanted = usual_kept(alloc, asked.arch)?;
    push_calls(alloc, asked.arch, observed, &asked.arguments, &mut wanted)?;
    Ok(wanted)
}

// Adds the arguments that are asked for, of one call after the other.
fn push_calls(
    alloc: Global,
    arch: TargetArch,
    observed: &[Observation],
    calls: &[AskedArguments<'_>],
    wanted: &mut Vec<Kept>,
) -> Result<(), AnswerError>
    ensures added { OnOk result (InTurn (AreWithCall arch observed.now) calls.now wanted.old.items wanted.new.items) }
    ensures cause { IfErr result (λ error. Any (λ call. IsUncalled arch call.call.now error) calls.now) }
{
    for call in calls {
        push_call(alloc, arch, observed, call, wanted)?;
    }
    Ok(())
}

// Adds the arguments of a call that are asked for and aren't there yet.
fn push_call(
    alloc: Global,
    arch: TargetArch,
    observed: &[Observation],
    call: &AskedArguments<'_>,
    wanted: &mut Vec<Kept>,
) -> Result<(), AnswerError>
    ensures added { OnOk result (AreWithCall arch observed.now call.now wanted.old.items wanted.new.items) }
    ensures cause { IfErr result (IsUncalled arch call.now.call.now) }
{
    let Some(number) = call_number(arch, call.call) else {
        return Err(AnswerError::UnknownCall(
            String::from_str(alloc, call.call)?,
            Abi::Native(arch),
        ));
    };
    for index in 0..6u8 {
        push_argument(observed, number, call, index, wanted)?;
    }
    Ok(())
}

// Adds an argument, if it is asked for and isn't there yet.
fn push_argument(
    observed: &[Observation],
    number: u32,
    call: &AskedArguments<'_>,
    index: u8,
    wanted: &mut Vec<Kept>,
) -> Result<(), AllocError>
    ensures { OnOk result (IsWithArgument observed.now number call.now.indices index wanted.old.items wanted.new.items) }
{
    if !is_asked(call, index) || has(wanted, number, Some(index)) {
        return Ok(());
    }
    wanted.push(asked_kept(observed, number, index))?;
    Ok(())
}

// Adds a note for each argument that is asked for and isn't a number in a trace, and for each call of which nothing is kept.
pub(super) fn push_asked_notes(
    notes: &mut Text,
    asked: &Learn<'_>,
    traces: &[Trace],
    kept: &[Kept],
) {
    let alloc = notes.alloc();
    for each in &asked.arguments {
        let Some(number) = call_number(asked.arch, each.call) else {
            continue;
        };
        // A call that has too many values is noted already.
        if !has(kept, number, None) {
            continue;
        }
        let mut has_effect = false;
        for (index, trace) in traces.iter().enumerate() {
            for symbolic in trace.symbolic.as_slice() {
                if symbolic.number == number && is_asked(each, symbolic.arg_index) {
                    has_effect = true;
                    note(
                        notes,
                        path_at(asked, index),
                        uncompared(alloc, each, symbolic),
                    );
                }
            }
            has_effect |= has_value(trace, number, each);
        }
        if !has_effect {
            let call = each.call;
            let told = format!(in alloc;
                "--args {call} keeps nothing: no such argument of {call} was read"
            );
            note(notes, path_at(asked, 0), told);
        }
    }
}

// Whether this argument is asked for.
fn is_asked(asked: &AskedArguments<'_>, index: u8) -> bool
    ensures { result ≡ slice_index_or asked.now.indices index false }
{
    match asked.indices.get(usize::from(index)) {
        Some(is_asked) => *is_asked,
        None => false,
    }
}

// Whether a trace has a call of this number with a value of an argument that is asked for.
fn has_value(trace: &Trace, number: u32, asked: &AskedArguments<'_>) -> bool {
    for observation in trace.observed.as_slice() {
        if observation.number != number {
            continue;
        }
        for (value, is_asked) in observation.arguments.iter().zip(&asked.indices) {
            if *is_asked && value.is_some() {
                return true;
            }
        }
    }
    false
}

// That an argument isn't compared.
fn uncompared(
    alloc: Global,
    asked: &AskedArguments<'_>,
    symbolic: &Symbolic,
) -> Result<String, AllocError> {
    let (call, index) = (asked.call, symbolic.arg_index);
    let mut told = Text::new(alloc);
    told.push_format(format!(in alloc; "--args {call}:{index} doesn't compare "));
    told.push_readable(symbolic.text.as_str(), TextKind::Line);
    told.push_str("; strace -X raw prints numbers");
    told.finish_string()
}
