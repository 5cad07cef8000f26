// Texts, into a caller's buffer.

ghost use Rattle.std.specs.Prelude.{◌≡◌, [], pos, length, IfOk, IfSome, string_bytes};
ghost use Rattle.seccompiler.specs.declared.backend.TargetArch.{TargetArch};
ghost use Rattle.seccompiler_c.specs.Arguments.{IsArchitecture};
ghost use Rattle.seccompiler_c.specs.Messages.{HasFault, HoldsMessage, IsFaultText, fault_cause, IsTextOf, IsShown, TellsPolicyFault};

use crate::arguments::architecture_of;
use crate::fault::Fault;
use seccomp_faults::{Cause, cause_of_frontend, faults, first_of};
use seccomp_text::readable::{TextKind, readable};
use seccompiler::{JsonFrontendError, TargetArch};
use std::alloc::Global;
use std::fmt;
use std::fmt::Display;

// How many unknown names of calls may have suggestions.
const MOST: usize = 100;

// Writes a text's front, as many whole characters as there is room for with a byte 0 behind them, and
// this byte.
pub(crate) fn write_message(text: &str, message: &mut [u8])
    ensures { HoldsMessage text.now message.old message.new }
{
    if message.is_empty() {
        return;
    }
    let count = text.floor_char_boundary(message.len() - 1);
    message[..count].copy_from_slice(&text.as_bytes()[..count]);
    message[count] = 0;
}

// Writes a text likewise, and tells how many bytes all of it has.
pub(crate) fn write_text(text: &str, buffer: &mut [u8]) -> i64
    ensures holds { HoldsMessage text.now buffer.old buffer.new }
    ensures told { result ≡ pos (length text.now) }
{
    write_message(text, buffer);
    text.len() as i64
}

// The text of a fault. Display's own text is not enough: it says nothing of JSON that can't be read.
fn text_of(alloc: Global, fault: &Fault) -> Result<String, fmt::Error>
    ensures text { IfOk result (λ text. IsFaultText fault.now (string_bytes text)) }
{
    let mut f = fmt::Formatter::new(String::new(alloc));
    fault.fmt(&mut f)?;
    Ok(f.into_inner())
}

// The text of a fault of this policy that has no place. If the policy is no JSON and ends with a byte 0, as C's strings do, that
// is said too.
fn own_text(alloc: Global, policy: &[u8], fault: &Fault) -> Option<String>
    ensures { IfSome result (λ text. IsFaultText fault.now (string_bytes text)) }
{
    let mut text = text_of(alloc, fault).ok()?;
    if let Fault::Text(JsonFrontendError::SerdeJson(_)) = fault
        && policy.last() == Some(&0)
    {
        text.push_str("; the text ends with a byte 0, which its length must not count")
            .ok()?;
    }
    Some(text)
}

// The kind of a fault, if it has a place in the policy.
fn cause_of(fault: &Fault) -> Option<Cause>
    ensures { result ≡ fault_cause fault.now }
{
    match fault {
        Fault::Text(refusal) => cause_of_frontend(refusal),
        _ => None,
    }
}

// The text of the first fault of a kind in a policy's text. None if memory runs out for it, or none is found, which isn't proved not
// to be.
fn placed(alloc: Global, policy: &[u8], target: TargetArch, cause: Cause) -> Option<String>
    ensures { IfSome result (λ text. HasFault target policy.now cause) }
{
    let Ok(all) = faults(alloc, target, MOST, policy) else {
        return None;
    };
    let first = first_of(cause, &all)?;
    match all.get(first)?.text(alloc) {
        Ok(text) => Some(text),
        Err(_) => None,
    }
}

// The text of a policy's fault: with the path of its place if it is of a kind that has one.
fn told(alloc: Global, policy: &[u8], target: TargetArch, fault: &Fault) -> Option<String>
    ensures { IfSome result (λ text. IsTextOf (λ t. t ≡ target) policy.now fault.now (string_bytes text)) }
{
    match cause_of(fault) {
        None => own_text(alloc, policy, fault),
        Some(cause) => placed(alloc, policy, target, cause),
    }
}

// The same as people read it.
fn shown(alloc: Global, policy: &[u8], target: TargetArch, fault: &Fault) -> Option<String>
    ensures { IfSome result (λ said. IsShown (IsTextOf (λ t. t ≡ target) policy.now fault.now) (string_bytes said)) }
{
    let text = told(alloc, policy, target, fault)?;
    match readable(alloc, text.as_str(), TextKind::Line) {
        Ok(said) => Some(said),
        Err(_) => None,
    }
}

// Writes the text of a policy's fault on an architecture as people read it, or what its code means if memory runs out
// for the text. If there is no room for it, no memory is asked for.
pub(crate) fn tell_place(
    alloc: Global,
    policy: &[u8],
    target: TargetArch,
    fault: &Fault,
    message: &mut [u8],
)
    ensures { TellsPolicyFault (λ t. t ≡ target) policy.now fault.now message.old message.new }
{
    if message.is_empty() {
        return write_message(fault.code().text(), message);
    }
    match shown(alloc, policy, target, fault) {
        Some(said) => write_message(said.as_str(), message),
        None => write_message(fault.code().text(), message),
    }
}

// The same on the architecture of a word. If the word is none's, that is the fault, and its text is what the code means.
pub(crate) fn tell_policy(
    alloc: Global,
    policy: &[u8],
    architecture: u32,
    fault: &Fault,
    message: &mut [u8],
)
    ensures { TellsPolicyFault (IsArchitecture architecture) policy.now fault.now message.old message.new }
{
    match architecture_of(architecture) {
        Some(target) => tell_place(alloc, policy, target, fault, message),
        None => write_message(fault.code().text(), message),
    }
}
