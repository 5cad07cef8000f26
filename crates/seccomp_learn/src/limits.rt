// Kept arguments of calls that have too many values.

ghost use Rattle.std.specs.Prelude.{◌≡◌, ◌≢◌, ◌≤◌, ◌⊎◌, length, All, AllPairs, Any, Contains, IfOk, IsTrue, false, option_map};
ghost use Rattle.seccompiler.specs.Policy.{part_of};
ghost use Rattle.seccomp_learn.specs.Observed.{HasFewValues, HasMoreValues, IsAlikeIn, IsSeenAlike, IsSeenApart, value_at};

use crate::observation::{Kept, Observation, seen_part};
use std::alloc::{AllocError, Global};

/// The kept arguments, except those of calls that were observed with more than `limit` different values. Such a
/// call is allowed with any arguments.
///
/// # Errors
///
/// `AllocError` if memory runs out.
pub fn within(
    alloc: Global,
    kept: &[Kept],
    observed: &[Observation],
    limit: usize,
) -> Result<Vec<Kept>, AllocError>
    ensures among { IfOk result (λ left. All (Contains kept.now) left.items) }
    ensures few { IfOk result (λ left. All (λ each. HasFewValues limit kept.now observed.now each.number) left.items) }
    ensures left_out { IfOk result (λ left. All (λ each. Contains left.items each ⊎ HasMoreValues limit kept.now observed.now each.number) kept.now) }
{
    let mut left = Vec::new(alloc);
    for each in kept {
        if has_more(alloc, kept, observed, each.number, limit)? {
            continue;
        }
        left.push(*each)?;
    }
    Ok(left)
}

// Whether a call was observed with more different values than the limit.
fn has_more(
    alloc: Global,
    kept: &[Kept],
    observed: &[Observation],
    number: u32,
    limit: usize,
) -> Result<bool, AllocError>
    ensures more { IfOk result (λ more. IsTrue more → HasMoreValues limit kept.now observed.now number) }
    ensures few { IfOk result (λ more. more ≡ false → HasFewValues limit kept.now observed.now number) }
{
    let own = observations_of(alloc, observed, number)?;
    // As many values as observations are no more than these.
    if own.len() <= limit {
        return Ok(false);
    }
    let different = different_in(alloc, kept, &own, limit)?;
    Ok(different.len() > limit)
}

// Observations that differ, each two of them, in a kept argument: so many that each other one is like one of them, or more than the
// limit.
fn different_in(
    alloc: Global,
    kept: &[Kept],
    own: &[Observation],
    limit: usize,
) -> Result<Vec<Observation>, AllocError>
    ensures among { IfOk result (λ different. All (Contains own.now) different.items) }
    ensures apart { IfOk result (λ different. AllPairs (IsSeenApart kept.now) different.items) }
    ensures alike { IfOk result (λ different. length different.items ≤ limit → All (λ o. Any (λ other. IsSeenAlike kept.now other o) different.items) own.now) }
{
    let mut different = Vec::new(alloc);
    for observation in own {
        if different.len() > limit {
            return Ok(different);
        }
        if !is_new(kept, &different, observation) {
            continue;
        }
        different.push(*observation)?;
    }
    Ok(different)
}

// The observations of a call.
fn observations_of(
    alloc: Global,
    observed: &[Observation],
    number: u32,
) -> Result<Vec<Observation>, AllocError>
    ensures among { IfOk result (λ own. All (λ o. Contains observed.now o × (o.number ≡ number)) own.items) }
    ensures all { IfOk result (λ own. All (λ o. o.number ≡ number → Contains own.items o) observed.now) }
{
    let mut own = Vec::new(alloc);
    for observation in observed {
        if observation.number != number {
            continue;
        }
        own.push(*observation)?;
    }
    Ok(own)
}

// Whether it differs from all of these in a kept argument.
fn is_new(kept: &[Kept], others: &[Observation], observation: &Observation) -> bool
    ensures apart { IsTrue result → All (λ other. IsSeenApart kept.now other observation.now) others.now }
    ensures alike { result ≡ false → Any (λ other. IsSeenAlike kept.now other observation.now) others.now }
{
    others
        .iter()
        .all(|other| is_apart(kept, other, observation))
}

// Whether two observations of a call differ in a kept argument.
fn is_apart(kept: &[Kept], first: &Observation, second: &Observation) -> bool
    ensures apart { IsTrue result → IsSeenApart kept.now first.now second.now }
    ensures alike { result ≡ false → IsSeenAlike kept.now first.now second.now }
{
    kept.iter().any(|each| is_apart_in(each, first, second))
}

// Whether two observations of a call differ in this argument, if it is one of the call.
fn is_apart_in(each: &Kept, first: &Observation, second: &Observation) -> bool
    ensures apart { IsTrue result → (each.now.number ≡ first.now.number) × (option_map (part_of each.now.arg_len) (value_at first.now each.now.arg_index) ≢ option_map (part_of each.now.arg_len) (value_at second.now each.now.arg_index)) }
    ensures alike { result ≡ false → IsAlikeIn first.now second.now each.now }
{
    if each.number != first.number {
        return false;
    }
    seen_part(each, first) != seen_part(each, second)
}
