// From observed calls to a policy.

ghost use Rattle.std.specs.Prelude.{◌≡◌, ◌↔◌, ◌⊎◌, ℕ, List, Any, IfOk, IfErr};
ghost use Rattle.seccompiler.specs.JsonPolicyOf.{IsPolicyOf};
ghost use Rattle.seccompiler.specs.JsonSteps.{IsPolicyRefusal};
ghost use Rattle.seccompiler.specs.Policy.{Filter, Matches};
ghost use Rattle.seccomp_learn.specs.Learned.{IsLearnedWithin};
ghost use Rattle.seccomp_learn.specs.Observed.{IsAsNamed};

use crate::limits::within;
use crate::observation::{Kept, Observation};
use crate::rules::{in_order, push_observed};
use seccompiler::{JsonCompiler, JsonFilter, JsonFrontendError, SeccompFilter, TargetArch};
use std::alloc::Global;

/// A learned policy.
#[derive(Drop)]
pub struct Learned {
    /// The policy, its entries in byte order of the calls' names.
    pub json: JsonFilter,
    /// What it is on the architecture.
    pub filter: SeccompFilter,
}

/// Makes a policy that matches what an old policy matches, and each call as it was observed.
///
/// A call matches an observed one if the arguments that are kept and known have the same values. An observed
/// number that the architecture has no call for is skipped. The old policy's actions stay.
///
/// # Errors
///
/// What [`JsonCompiler::make_seccomp_filter`] rejects the old policy for, or `OutOfMemory`.
///
/// [`JsonCompiler::make_seccomp_filter`]: seccompiler::JsonCompiler::make_seccomp_filter
pub fn learn(
    alloc: Global,
    arch: TargetArch,
    observed: &[Observation],
    kept: &[Kept],
    old: JsonFilter,
) -> Result<Learned, JsonFrontendError>
    ensures policy { IfOk result (λ learned. IsPolicyOf arch learned.json learned.filter) }
    ensures actions { IfOk result (λ learned. (learned.json.mismatch_action ≡ old.mismatch_action) × (learned.json.match_action ≡ old.match_action)) }
    // The old policy is one.
    ensures before { IfOk result (λ _. (before : Filter) × IsPolicyOf arch old before) }
    // It matches what the old policy matches, and what is as it was observed, and nothing else.
    ensures matches { IfOk result (λ learned. (before : Filter) → IsPolicyOf arch old before → (r : List ℕ) → Matches learned.filter r ↔ (Matches before r ⊎ Any (IsAsNamed arch kept.now r) observed.now)) }
    ensures refused { IfErr result (IsPolicyRefusal arch old) }
{
    let compiler = JsonCompiler::new(arch);
    let before = compiler.make_seccomp_filter(alloc, &old)?;
    drop(before);
    let JsonFilter {
        mismatch_action,
        match_action,
        mut rules,
    } = old;
    push_observed(alloc, arch, &mut rules, kept, observed)?;
    let json = JsonFilter {
        mismatch_action,
        match_action,
        rules: in_order(alloc, rules)?,
    };
    match compiler.make_seccomp_filter(alloc, &json) {
        Ok(filter) => Ok(Learned { json, filter }),
        // Nothing is wrong with its entries: they are the old policy's, or of calls that have names.
        Err(_) => Err(JsonFrontendError::OutOfMemory),
    }
}

/// A learned policy, and what it keeps.
#[derive(Drop)]
pub struct Lesson {
    /// The policy.
    pub learned: Learned,
    /// The arguments whose values it keeps.
    pub kept: Vec<Kept>,
}

/// Makes a policy as [`learn`] does, which keeps the arguments that are wanted, except those of calls that were observed with
/// more than `limit` different values: such a call is allowed with any arguments.
///
/// # Errors
///
/// Those of [`learn`].
pub fn learn_within(
    alloc: Global,
    arch: TargetArch,
    observed: &[Observation],
    wanted: &[Kept],
    limit: usize,
    old: JsonFilter,
) -> Result<Lesson, JsonFrontendError>
    ensures learned { IfOk result (IsLearnedWithin arch limit wanted.now observed.now old) }
    ensures refused { IfErr result (IsPolicyRefusal arch old) }
{
    let kept = within(alloc, wanted, observed, limit)?;
    let learned = learn(alloc, arch, observed, &kept, old)?;
    Ok(Lesson { learned, kept })
}
