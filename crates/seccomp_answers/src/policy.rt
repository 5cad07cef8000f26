// The filters of a policy's text, or why it is rejected.

ghost use Rattle.std.specs.Prelude.{◌<◌, ℕ, List, All, IfErr, IfOk, IfSome, length};
ghost use Rattle.std.specs.BTreeMap.{get_by_text};
ghost use Rattle.serde_json.specs.Data.{Data};
ghost use Rattle.seccompiler.specs.Compiled.{numbers_of};
ghost use Rattle.serde_json.specs.View.{view};
ghost use Rattle.seccompiler.specs.JsonAnswers.{ArePoliciesOf, HasPolicy, IsValueOf, OfValue, TellsFrontendFault};
ghost use Rattle.seccompiler.specs.JsonFilters.{IsReadBack};
ghost use Rattle.seccompiler.specs.SyscallTable.{IsTableNumber};
ghost use Rattle.seccompiler.specs.declared.backend.TargetArch.{TargetArch};
ghost use Rattle.seccompiler.specs.Errors.{IsNoMemoryInFrontend};
ghost use Rattle.seccompiler.specs.JsonSteps.{AreFilters, IsNoFailedRead};
ghost use Rattle.seccomp_answers.specs.Causes.{IsUnread};
ghost use Rattle.seccomp_answers.specs.Errors.{IsToldAs};

use crate::error::AnswerError;
use seccomp_faults::{Fault, JsonFault, Rejection, outline_of, rejection_in};
use seccompiler::json::{JsonFrontendError, read_filters, value_of};
use seccompiler::{JsonFilterMap, SeccompFilter, TargetArch, json};
use serde_json::Value;
use std::alloc::{AllocError, Global};
use std::collections::BTreeMap;

/// How many unknown names of calls may have suggestions.
pub(crate) const MOST: usize = 100;

// The policies of a policy's text, by the names of its filters.
pub(crate) fn policies_in(
    alloc: Global,
    target: TargetArch,
    text: &[u8],
) -> Result<BTreeMap<String, SeccompFilter>, AnswerError>
    ensures policies { IfOk result (λ m. OfValue text.now (ArePoliciesOf target (get_by_text m))) }
    ensures read_back { IfOk result (λ m. (d : Data) → ArePoliciesOf target (get_by_text m) d → IsReadBack (HasPolicy target) m d) }
    ensures numbers { IfOk result (λ m. (name : List ℕ) → IfSome (get_by_text m name) (λ f. All IsTableNumber (numbers_of f.chains))) }
    ensures unread { IfErr result (IsUnread target text.now) }
{
    let value = value_in(alloc, text)?;
    match json::policies_in(alloc, &value, target) {
        Ok(policies) => Ok(policies),
        Err(refusal) => Err(unread(alloc, target, text, &value, refusal)),
    }
}

// The filters of a policy's text.
pub(crate) fn filters_in(
    alloc: Global,
    target: TargetArch,
    text: &[u8],
) -> Result<JsonFilterMap, AnswerError>
    ensures filters { IfOk result (λ filters. OfValue text.now (λ d. AreFilters d filters)) }
    ensures unread { IfErr result (IsUnread target text.now) }
{
    let value = value_in(alloc, text)?;
    match read_filters(alloc, &value) {
        Ok(filters) => Ok(filters),
        Err(refusal) => Err(unread(alloc, target, text, &value, refusal)),
    }
}

// The value of a policy's text.
fn value_in(alloc: Global, text: &[u8]) -> Result<Value, AnswerError>
    ensures value { IfOk result (λ value. IsValueOf text.now (view value)) }
    // On whichever architecture.
    ensures unread { IfErr result (λ error. (target : TargetArch) → IsUnread target text.now error) }
{
    let value = value_of(alloc, text)?;
    Ok(value)
}

// Why the value of a policy's text is rejected, of which this is the library's refusal.
fn unread(
    alloc: Global,
    target: TargetArch,
    text: &[u8],
    value: &Value,
    refusal: JsonFrontendError,
) -> AnswerError
    ensures { IsValueOf text.now (view value.now) → TellsFrontendFault target text.now refusal → IsNoFailedRead refusal
        → IsNoMemoryInFrontend refusal → IsUnread target text.now result }
{
    let rejection = rejection_in(alloc, target, MOST, value, refusal.into());
    rejected(alloc, text, rejection)
}

/// A rejection of a policy's text as an error, of which the fault that comes first in the text is printed.
pub(crate) fn rejected(alloc: Global, text: &[u8], rejection: Rejection) -> AnswerError
    ensures { IsToldAs rejection result }
{
    match rejection {
        Rejection::Library(refusal) => AnswerError::Library(refusal),
        Rejection::OutOfMemory => AnswerError::OutOfMemory,
        Rejection::Placed(first, faults) => match earliest(alloc, text, first, &faults) {
            Ok(told) => AnswerError::Placed(told, faults),
            Err(_) => AnswerError::OutOfMemory,
        },
    }
}

// The place of the fault that comes first in the text, among these, of which one is at this place.
fn earliest(alloc: Global, text: &[u8], first: usize, faults: &[Fault]) -> Result<usize, AllocError>
    ensures { first < length faults.now → IfOk result (λ told. told < length faults.now) }
{
    let outline = match outline_of(alloc, text) {
        Ok(outline) => outline,
        Err(JsonFault::At(_, _)) => return Ok(first),
        Err(JsonFault::OutOfMemory) => return Err(AllocError),
    };
    let (mut told, mut least) = (first, (usize::MAX, usize::MAX));
    for (place, fault) in faults.iter().enumerate() {
        let at = outline.place_of(fault);
        if (at.line, at.column) < least {
            told = place;
            least = (at.line, at.column);
        }
    }
    Ok(told)
}
