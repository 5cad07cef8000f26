// Whether a policy is taken, and else its faults; and those of a profile.

ghost use Rattle.std.specs.Prelude.{◌≡◌, All, IfErr, IfOk, IfSome};
ghost use Rattle.serde_json.specs.Data.{Data};
ghost use Rattle.serde_json.specs.View.{view};
ghost use Rattle.seccompiler.specs.JsonAnswers.{IsReadAs, OfEachText, OfValue};
ghost use Rattle.seccompiler.specs.JsonPrograms.{TellsFirstFault};
ghost use Rattle.seccompiler.specs.JsonSteps.{AreFilters};
ghost use Rattle.seccompiler.specs.declared.backend.TargetArch.TheVariants.{x86_64};
ghost use Rattle.seccomp_profiles.specs.ProfileText.{profile_in};
ghost use Rattle.seccomp_faults.specs.Checks.{AreAllCompiled, IsAtOf, IsRejection, IsRejectionOf, frontend_cause, cause_told};
ghost use Rattle.seccomp_faults.specs.Faults.{IsFault};
ghost use Rattle.seccomp_faults.specs.declared.table.Form.TheVariants as form;

use crate::fault::{Cause, Fault, cause_of};
use crate::length::lengths;
use crate::table::Form;
use crate::walk::walk;
use seccomp_profiles::profile_in;
use seccompiler::compile::programs_in;
use seccompiler::json::{JsonFrontendError, read_filters, value_of};
use seccompiler::{BackendError, Error, JsonFilterMap, TargetArch};
use serde_json::Value;
use std::alloc::{AllocError, Global};

/// Why a policy isn't taken.
///
/// Running out of memory is `OutOfMemory` alone, and never inside another variant.
#[derive(Drop)]
pub enum Rejection {
    /// The library rejects the policy, and the fault has no place: the text is no JSON, or repeats a name.
    Library(Error),
    /// The policy has these faults. The one at this place among them is the one that the library reports.
    Placed(usize, Vec<Fault>),
    /// Memory ran out.
    OutOfMemory,
}

/// The library's `OutOfMemory` stays so; any other error has no place.
impl From<Error> for Rejection {
    ghost use Rattle.std.specs.Prelude.{◌≡◌};
    ghost use Rattle.seccomp_faults.specs.Checks.{from_library};

    ghost from_gives = { λ refusal rejection. rejection ≡ from_library refusal };

    fn from(refusal: Error) -> Rejection {
        match refusal {
            Error::OutOfMemory => Rejection::OutOfMemory,
            refusal => Rejection::Library(refusal),
        }
    }
}

/// Reads a policy's text: its filters, if `compile_from_json` compiles all of them, and else its faults, each with its place.
///
/// The faults are in the order in which they are looked for: filters in byte order of names, and in a filter its own
/// in front of those inside. The first `most` unknown names of calls may have suggestions, which take time.
///
/// # Errors
///
/// `Placed` with all faults, if that which the library reports has a place. `Library` with the error of `compile_from_json`, if it
/// has none: the bytes are no JSON, or a name is repeated. `OutOfMemory` in place of both, if memory runs out.
pub fn check(
    alloc: Global,
    target: TargetArch,
    most: usize,
    text: &[u8],
) -> Result<JsonFilterMap, Rejection>
    ensures compiled { IfOk result (λ filters. OfValue text.now (λ d. AreFilters d filters × AreAllCompiled target d)) }
    ensures rejected { IfErr result (IsRejection target text.now) }
{
    match value_of(alloc, text) {
        Ok(value) => check_in(alloc, target, most, &value),
        Err(refusal) => Err(Error::from(refusal).into()),
    }
}

// The same of the text's value.
fn check_in(
    alloc: Global,
    target: TargetArch,
    most: usize,
    value: &Value,
) -> Result<JsonFilterMap, Rejection>
    ensures compiled { IfOk result (λ filters. AreFilters (view value.now) filters × AreAllCompiled target (view value.now)) }
    ensures rejected { IfErr result (λ rejection. OfEachText (view value.now) (λ text. IsRejection target text rejection)) }
{
    match programs_in(alloc, value, target) {
        Err(refusal) => Err(rejection_in(alloc, target, most, value, refusal)),
        Ok(_programs) => match read_filters(alloc, value) {
            Ok(filters) => Ok(filters),
            // Memory is lacking that was there before.
            Err(_) => Err(Rejection::OutOfMemory),
        },
    }
}

/// The kind of fault that an error of the front end reports, if it has a place in the policy.
pub fn cause_of_frontend(refusal: &JsonFrontendError) -> Option<Cause>
    ensures { result ≡ frontend_cause refusal.now }
{
    match refusal {
        JsonFrontendError::NotAnObject => Some(Cause::Top),
        JsonFrontendError::Shape(_) => Some(Cause::Shape),
        JsonFrontendError::SyscallName(_, _) => Some(Cause::Call),
        JsonFrontendError::Backend(BackendError::InvalidArgumentNumber) => Some(Cause::Argument),
        JsonFrontendError::Backend(BackendError::EmptyRule) => Some(Cause::Empty),
        JsonFrontendError::Backend(BackendError::IdenticalActions) => Some(Cause::Actions),
        _ => None,
    }
}

/// The kind of fault that an error of the library reports, if it has a place in the policy.
pub fn cause_of_error(refusal: &Error) -> Option<Cause>
    ensures { result ≡ cause_told refusal.now }
{
    match refusal {
        Error::JsonFrontend(refusal) => cause_of_frontend(refusal),
        Error::Backend(BackendError::FilterTooLarge(_)) => Some(Cause::Length),
        _ => None,
    }
}

/// All faults of a policy's text, as those of [`check`]; none if the text is no JSON. Programs that are too long are among them
/// only if there is no other fault.
///
/// # Errors
///
/// `AllocError` if memory runs out.
pub fn faults(
    alloc: Global,
    target: TargetArch,
    most: usize,
    text: &[u8],
) -> Result<Vec<Fault>, AllocError>
    ensures { (d : Data) → IsReadAs text.now d → IfOk result (λ all. All (IsFault target form.Policy d) all.items) }
{
    match Value::from_slice(alloc, text) {
        Ok(value) => faults_in(alloc, target, most, &value),
        Err(error) if error.is_memory() => Err(AllocError),
        Err(_) => Ok(Vec::new(alloc)),
    }
}

// The same of the text's value.
fn faults_in(
    alloc: Global,
    target: TargetArch,
    most: usize,
    value: &Value,
) -> Result<Vec<Fault>, AllocError>
    ensures { IfOk result (λ all. All (IsFault target form.Policy (view value.now)) all.items) }
{
    let found = walk(alloc, target, most, Form::Policy, value)?;
    if found.is_empty() {
        return lengths(alloc, target, value);
    }
    Ok(found)
}

/// All faults of a text that is no profile, in the order in which they are looked for; none if it is no JSON, or a profile.
///
/// # Errors
///
/// `AllocError` if memory runs out.
pub fn profile_faults(alloc: Global, text: &[u8]) -> Result<Vec<Fault>, AllocError>
    ensures { (d : Data) → IsReadAs text.now d → IfOk result (λ all. All (IsFault x86_64 form.Profile (profile_in d)) all.items) }
{
    match Value::from_slice(alloc, text) {
        // No form of a profile depends on the architecture.
        Ok(value) => {
            let profile = profile_in(&value);
            walk(alloc, TargetArch::x86_64, 0, Form::Profile, profile)
        }
        Err(error) if error.is_memory() => Err(AllocError),
        Err(_) => Ok(Vec::new(alloc)),
    }
}

/// The place of the first fault of a kind among some.
pub fn first_of(cause: Cause, faults: &[Fault]) -> Option<usize>
    ensures { IfSome result (IsAtOf cause faults.now) }
{
    for (place, fault) in faults.iter().enumerate() {
        if cause_of(&fault.problem) == cause {
            return Some(place);
        }
    }
    None
}

/// The rejection of the value of a policy's text, which the library rejects so: all faults, or the library's error as it is if it
/// has no place.
#[tactic(auto, using(crate::proofs::Judgements::without_place))]
pub fn rejection_in(
    alloc: Global,
    target: TargetArch,
    most: usize,
    value: &Value,
    refusal: Error,
) -> Rejection
    ensures { OfEachText (view value.now) (λ text. TellsFirstFault target text refusal → IsRejectionOf target text refusal result) }
{
    let Some(cause) = cause_of_error(&refusal) else {
        return refusal.into();
    };
    match faults_in(alloc, target, most, value) {
        Ok(faults) => match first_of(cause, &faults) {
            Some(first) => Rejection::Placed(first, faults),
            None => refusal.into(),
        },
        Err(_) => Rejection::OutOfMemory,
    }
}
