// Calls and their records, and numbers as they are written in words.

ghost use Rattle.std.specs.Prelude.{◌≡◌, ◌≤◌, ℕ, Contains, IfOk, IfErr, IfSome, IfNone};
ghost use Rattle.seccomp_answers.specs.Numbers.{IsNumber};
ghost use Rattle.seccomp_answers.specs.Calls.{AreKnownCalls, IsCall, IsCallOn, IsRecordOf, IsRecordOn, IsUncalled, IsUncalledOf, IsUnknownCall};
ghost use Rattle.seccomp_answers.specs.Calls.{number_for, number_on, record_bytes};

use crate::error::AnswerError;
use crate::findings::parts::name_of;
use seccomp_profiles::Abi;
use seccomp_text::numbers::read_digits;
use seccompiler::TargetArch;
use seccompiler::record::word_at;
use std::alloc::{AllocError, Global};

/// The record of a call as the kernel hands it to a program: the 64 bytes of a `struct seccomp_data`, as `seccomp(2)` has it.
///
/// They are the call number and the `AUDIT_ARCH_*` value, of 4 bytes each, the instruction pointer, which is 0, and the six
/// arguments, of 8 bytes each, every number with its low byte first. What is no call is an error.
pub fn called_record(
    alloc: Global,
    target: TargetArch,
    call: &str,
    arguments: &[u64],
) -> Result<Vec<u8>, AnswerError>
    ensures recorded { IfOk result (λ bytes. IsRecordOf target call.now arguments.now bytes.items) }
    ensures refused { IfErr result (IsUncalled target call.now) }
{
    called_on(alloc, Abi::Native(target), call, arguments)
}

// The bytes of the record of a call.
fn bytes_of(alloc: Global, number: u32, arch: u32, arguments: &[u64]) -> Result<Vec<u8>, AllocError>
    ensures { IfOk result (λ bytes. bytes.items ≡ record_bytes arch number arguments.now) }
{
    let head = [number.to_le_bytes(), arch.to_le_bytes(), [0; 4], [0; 4]];
    let mut bytes = Vec::from_slice(alloc, head.as_flattened())?;
    for argument in arguments {
        bytes.extend_from_slice(&argument.to_le_bytes())?;
    }
    Ok(bytes)
}

/// The same of whosever calls, as [`called_record`] gives those of an architecture itself.
pub fn called_on(
    alloc: Global,
    abi: Abi,
    call: &str,
    arguments: &[u64],
) -> Result<Vec<u8>, AnswerError>
    ensures recorded { IfOk result (λ bytes. IsRecordOn abi call.now arguments.now bytes.items) }
    ensures refused { IfErr result (IsUncalledOf abi call.now) }
{
    let Some(number) = number_in(abi, call) else {
        return Err(AnswerError::UnknownCall(String::from_str(alloc, call)?, abi));
    };
    Ok(bytes_of(alloc, number, abi.audit_value(), arguments)?)
}

/// A call of an architecture.
#[derive(Clone, Copy)]
pub struct KnownCall {
    pub target: TargetArch,
    pub number: u32,
}

/// The calls of this name or number on these architectures; of a number those alone that have a name. That there is none is an error.
pub fn known_calls(
    alloc: Global,
    targets: &[TargetArch],
    call: &str,
) -> Result<Vec<KnownCall>, AnswerError>
    ensures known { IfOk result (λ calls. AreKnownCalls (Contains targets.now) call.now calls.items) }
    ensures unknown { IfErr result (IsUnknownCall (Contains targets.now) call.now) }
{
    let mut calls = Vec::new(alloc);
    for target in targets {
        let Some(number) = call_number(*target, call) else {
            continue;
        };
        if name_of(*target, number).is_some() {
            calls.push(KnownCall {
                target: *target,
                number,
            })?;
        }
    }
    if calls.is_empty() {
        return Err(AnswerError::Told(format!(in alloc;
            "No architecture has a call of this name or number: {call}."
        )?));
    }
    Ok(calls)
}

/// The number of the call of this name or number.
pub fn call_number(target: TargetArch, call: &str) -> Option<u32>
    ensures called { IfSome result (IsCall target call.now) }
    ensures uncalled { IfNone result ((n : ℕ) → IsCall target call.now n → ⊥) }
{
    number_in(Abi::Native(target), call)
}

/// The number that a text of decimal digits writes, or of hexadecimal ones after `0x`, if 64 bits hold it. Numbers that begin with a
/// 0 are octal in C, so none is read.
pub fn read_number(text: &str) -> Option<u64>
    ensures read { IfSome result (IsNumber text.now) }
    ensures unread { IfNone result ((n : ℕ) → IsNumber text.now n → ⊥) }
{
    match text.strip_prefix("0x") {
        Some(digits) => read_digits(digits, 16),
        // Written as octal numbers are in C.
        None if text.len() > 1 && text.as_bytes()[0] == b'0' => None,
        None => read_digits(text, 10),
    }
}

// The number of whosever call, by its name or number.
fn number_in(abi: Abi, call: &str) -> Option<u32>
    ensures called { IfSome result (IsCallOn abi call.now) }
    ensures uncalled { IfNone result ((n : ℕ) → IsCallOn abi call.now n → ⊥) }
{
    match read_number(call) {
        Some(number) => u32::try_from(number).ok(),
        None => abi.call_number(call),
    }
}

// The number of a record's call, if it is one of these.
pub(crate) fn number_on(abi: Abi, call: &[u8; 64]) -> Option<u32>
    ensures { result ≡ number_on abi call.now }
{
    abi.is_of(call).then_some(word_at(call, 0))
}

// The number of a record's call, if the record is of the architecture.
pub(crate) fn number_for(target: TargetArch, call: &[u8; 64]) -> Option<u32>
    ensures { result ≡ number_for target call.now }
{
    let is_own = word_at(call, 4) == target.get_audit_value();
    is_own.then_some(word_at(call, 0))
}
