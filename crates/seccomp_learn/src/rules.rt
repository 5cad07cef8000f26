// The entries of a policy: one for each call as it was observed, none that another one covers.

ghost use Rattle.std.specs.Prelude.{◌≡◌, ◌↔◌, ◌⊎◌, ℕ, List, Any, IfOk, IsTrue};
ghost use Rattle.seccompiler.specs.JsonEntries.{MeetsEntry};
ghost use Rattle.seccompiler.specs.declared.backend.TargetArch.{TargetArch};
ghost use Rattle.seccomp_learn.specs.Observed.{IsAsNamed};
ghost use Rattle.seccomp_learn.specs.Parts.{MeetAlike, MeetAlso, MeetsSome};

use crate::conditions::conditions_of;
use crate::names::{NUMBERS, name_by, places_of};
use crate::observation::{Kept, Observation};
use seccompiler::{JsonCondition, JsonRule, TargetArch};
use std::alloc::{AllocError, Global};
use std::cmp::Ordering;

// As many entries are looked at before one more is added.
const LATELY: usize = 256;

// Adds an entry for each observed call that has a name.
pub(crate) fn push_observed(
    alloc: Global,
    arch: TargetArch,
    rules: &mut Vec<JsonRule>,
    kept: &[Kept],
    observed: &[Observation],
) -> Result<(), AllocError>
    ensures { IfOk result (λ _. (r : List ℕ) → MeetsSome arch r rules.new.items ↔ (MeetsSome arch r rules.old.items ⊎ Any (IsAsNamed arch kept.now r) observed.now)) }
{
    let places = places_of(arch);
    // For each number, how many entries there were when one of it was last added.
    let mut ends = [0; NUMBERS];
    for observation in observed {
        push_call(alloc, arch, rules, kept, observation, &places, &mut ends)?;
    }
    Ok(())
}

// Adds an entry for an observed call, if it has a name.
fn push_call(
    alloc: Global,
    arch: TargetArch,
    rules: &mut Vec<JsonRule>,
    kept: &[Kept],
    observation: &Observation,
    places: &[usize; NUMBERS],
    ends: &mut [usize; NUMBERS],
) -> Result<(), AllocError>
    ensures { IfOk result (λ _. (r : List ℕ) → MeetsSome arch r rules.new.items ↔ (MeetsSome arch r rules.old.items ⊎ IsAsNamed arch kept.now r observation.now)) }
{
    let Some(name) = name_by(places, arch, observation.number) else {
        return Ok(());
    };
    let conditions = conditions_of(alloc, kept, observation)?;
    let syscall = String::from_str(alloc, name)?;
    let rule = JsonRule {
        syscall,
        conditions,
    };
    let place = observation.number as usize % NUMBERS;
    let mut end = ends[place];
    push_rule(rules, rule, &mut end)?;
    ends[place] = end;
    Ok(())
}

// Puts entries into order, and leaves out those that others cover.
pub(crate) fn in_order(alloc: Global, mut rules: Vec<JsonRule>) -> Result<Vec<JsonRule>, AllocError>
    ensures { IfOk result (λ ordered. MeetAlike rules.items ordered.items) }
{
    rules.sort_by(compare)?;
    let (mut left, mut end) = (Vec::new(alloc), 0);
    for rule in rules {
        push_rule(&mut left, rule, &mut end)?;
    }
    Ok(left)
}

// Adds an entry, unless one of its call right in front of the end covers it. The end is then behind it.
fn push_rule(rules: &mut Vec<JsonRule>, rule: JsonRule, end: &mut usize) -> Result<(), AllocError>
    ensures { IfOk result (λ _. MeetAlso rule rules.old.items rules.new.items) }
{
    if is_covered(rules, &rule, *end) {
        return Ok(());
    }
    rules.push(rule)?;
    *end = rules.len();
    Ok(())
}

// Whether one of the entries in front of the end, as far as they are for the same call, has the same conditions or none.
fn is_covered(rules: &[JsonRule], rule: &JsonRule, end: usize) -> bool
    ensures { IsTrue result → (arch : TargetArch) (r : List ℕ) → MeetsEntry arch r rule.now → MeetsSome arch r rules.now }
{
    for place in (end.saturating_sub(LATELY)..end).rev() {
        let Some(other) = rules.get(place) else {
            return false;
        };
        if other.syscall != rule.syscall {
            return false;
        }
        if covers(other, rule) {
            return true;
        }
    }
    false
}

// Whether an entry is for the call of the other, with the same conditions or none.
fn covers(rule: &JsonRule, other: &JsonRule) -> bool
    ensures { IsTrue result → (arch : TargetArch) (r : List ℕ) → MeetsEntry arch r other.now → MeetsEntry arch r rule.now }
{
    if *rule == *other {
        return true;
    }
    rule.conditions.is_none() && rule.syscall == other.syscall
}

// Entries go by the names of their calls, those without conditions first, and then by the values of their conditions.
fn compare(first: &JsonRule, second: &JsonRule) -> Ordering {
    match first.syscall.cmp(&second.syscall) {
        Ordering::Equal => match (&first.conditions, &second.conditions) {
            (None, None) => Ordering::Equal,
            (None, Some(_)) => Ordering::Less,
            (Some(_), None) => Ordering::Greater,
            (Some(one), Some(other)) => compare_values(one, other),
        },
        other => other,
    }
}

// Conditions go by the first value in which they differ.
fn compare_values(first: &[JsonCondition], second: &[JsonCondition]) -> Ordering {
    for (one, other) in first.iter().zip(second) {
        match one.value.cmp(&other.value) {
            Ordering::Equal => {}
            differs => return differs,
        }
    }
    first.len().cmp(&second.len())
}
