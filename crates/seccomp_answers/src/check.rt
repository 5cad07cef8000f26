// Whether a policy or a profile is accepted, and its warnings.

ghost use Rattle.std.specs.Prelude.{◌≡◌, ◌+◌, IfErr, IfOk, IfSome, false};
ghost use Rattle.seccomp_answers.specs.Causes.{IsRefusedProfile};
ghost use Rattle.seccomp_answers.specs.Check as spec;
ghost use Rattle.seccomp_answers.specs.Check.{AreWarningsIn, IsCheckOf, IsRefusal};
ghost use Rattle.seccomp_answers.specs.CheckProfile.{IsProfileCheckOf};
ghost use Rattle.seccomp_answers.specs.Errors.{IsToldAs};

use crate::error::AnswerError;
use crate::findings::Verdict;
use crate::policy::MOST;
use crate::profile::compiled_of;
use seccomp_faults::{Rejection, check};
use seccomp_profiles::{CompiledProfile, Container};
use seccomp_warnings::{
    Code, FilterWarned, ProfileWarning, beside_of, codes_beside, policy_warnings_of,
    profile_warnings_of,
};
use seccompiler::{JsonFilterMap, JsonFrontendError, TargetArch};
use std::alloc::Global;

/// A filter's name, and its warnings.
#[derive(Drop)]
pub struct FilterWarnings {
    /// The name.
    pub name: String,
    /// The warnings, and what is so of its entries beside each other.
    pub warned: FilterWarned,
}

/// The warnings of all filters of a policy.
#[derive(Drop)]
pub struct CheckedPolicy {
    /// Those of each filter, in byte order of names.
    pub filters: Vec<FilterWarnings>,
    /// How many there are.
    pub count: usize,
}

/// The warnings of a policy's text, except those of the allowed codes, and of those that another filter of the text settles.
///
/// The filters come in byte order of names. Of each filter come first the warnings of its two actions, then those of its
/// entries, condition by condition.
///
/// # Errors
///
/// `Placed` with all faults, one of which is of the kind that `compile_from_json` reports, if that has a place.
/// `Library` with the error of `compile_from_json`, if it has no place: the bytes are no JSON, or a name is repeated.
/// `OutOfMemory` is returned instead of any of these if memory runs out.
///
/// That all faults are there, in the order of docs/CHECKS.md, and that a fault with a place is reported as `Placed`, is tested and
/// not proved.
pub fn checked(
    alloc: Global,
    target: TargetArch,
    allowed: &[Code],
    text: &[u8],
) -> Result<CheckedPolicy, AnswerError>
    ensures checked { IfOk result (IsCheckOf target allowed.now text.now) }
    ensures refused { IfErr result (IsRefusal target text.now) }
{
    let filters = match check(alloc, target, MOST, text) {
        Ok(filters) => filters,
        Err(rejection) => return Err(told_whole(rejection)),
    };
    // The policy is taken, so that each of its filters is one of the architecture: an error is want of memory.
    match warnings_in(alloc, target, allowed, &filters) {
        Ok(checked) => Ok(checked),
        Err(error) => {
            // Here, so that no branch below has to.
            drop(error);
            Err(AnswerError::OutOfMemory)
        }
    }
}

// A rejection as an error. All of its faults are printed, in the order that the text gives them.
fn told_whole(rejection: Rejection) -> AnswerError
    ensures { IsToldAs rejection result }
{
    match rejection {
        Rejection::Library(refusal) => AnswerError::Library(refusal),
        Rejection::OutOfMemory => AnswerError::OutOfMemory,
        Rejection::Placed(first, faults) => AnswerError::Placed(first, faults),
    }
}

/// The warnings of all filters.
pub fn warnings_in(
    alloc: Global,
    target: TargetArch,
    allowed: &[Code],
    filters: &JsonFilterMap,
) -> Result<CheckedPolicy, JsonFrontendError>
    ensures { IfOk result (λ checked. AreWarningsIn target allowed.now filters.now.0.entries checked) }
{
    let beside = beside_of(filters);
    let mut all = Vec::new(alloc);
    let mut count: usize = 0;
    for (name, filter) in &filters.0 {
        let codes = codes_beside(alloc, allowed, beside, filter)?;
        let warned = policy_warnings_of(alloc, target, filter, &codes)?;
        let Some(sum) = sum_of(count, warned.of_part.warnings.len(), warned.evasions.len()) else {
            return Err(JsonFrontendError::OutOfMemory);
        };
        count = sum;
        let name = name.clone()?;
        all.push(FilterWarnings { name, warned })?;
    }
    Ok(CheckedPolicy {
        filters: all,
        count,
    })
}

// The sum of three numbers, if it is one.
fn sum_of(first: usize, second: usize, third: usize) -> Option<usize>
    ensures { IfSome result (λ sum. sum ≡ first + (second + third)) }
{
    first.checked_add(second)?.checked_add(third)
}

/// The verdict where warnings are denied or not, and there are so many.
pub fn verdict_where(denied: bool, count: usize) -> Verdict
    ensures { result ≡ spec.verdict_where denied count }
{
    if denied && count > 0 {
        Verdict::Different
    } else {
        Verdict::Same
    }
}

/// A profile that was read, with its program and its warnings.
#[derive(Drop)]
pub struct CheckedProfile {
    /// The profile, and its program.
    pub compiled: CompiledProfile,
    /// The warnings.
    pub warnings: Vec<ProfileWarning>,
}

/// The warnings of a profile's text, except those of the allowed codes.
///
/// # Errors
///
/// Those of [`compiled_of`], if it isn't strict.
pub fn profile_checked(
    alloc: Global,
    target: TargetArch,
    container: &Container,
    allowed: &[Code],
    text: &[u8],
) -> Result<CheckedProfile, AnswerError>
    ensures checked { IfOk result (IsProfileCheckOf target container.now allowed.now text.now) }
    ensures refused { IfErr result (IsRefusedProfile target container.now false text.now) }
{
    let compiled = compiled_of(alloc, target, container, false, text)?;
    let profile = &compiled.profile;
    let Ok(warnings) = profile_warnings_of(alloc, target, container, allowed, profile) else {
        return Err(AnswerError::OutOfMemory);
    };
    Ok(CheckedProfile { compiled, warnings })
}
