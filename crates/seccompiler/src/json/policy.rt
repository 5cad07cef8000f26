// From JSON filters to filters.

ghost use Rattle.std.specs.Prelude.{◌≡◌, ◌≢◌, ◌↔◌, ◌&&◌, ℤ, [], ◌∷◌, Some, None, All, Contains, IfOk, IfErr, OnOk, MatchResult, map, if◌then◌else◌, length};
ghost use Rattle.std.specs.List.{list_any};
ghost use Rattle.std.specs.List.Sorted.{IsStrictlySortedBy};
ghost use Rattle.std.specs.Option.{is_some};
ghost use Rattle.std.specs.Ordering.{int_cmp, int_eq};
ghost use Rattle.seccompiler.specs.Policy.{chains_of};
ghost use Rattle.seccompiler.specs.JsonPolicyOf.{chain_at, condition_of, AreFineArgs, IsFaultIn, IsFaultOf, IsFineEntry, IsFirstOf, IsPolicyOf};
ghost use Rattle.seccompiler.specs.JsonGathered.{added, AreGathered, HasChains};
ghost use Rattle.seccompiler.specs.JsonWidened.{IsWidened};
ghost use Rattle.seccompiler.specs.JsonSteps.{IsPolicyRefusal, Tells};

use crate::backend::{BackendError, TargetArch};
use crate::condition::SeccompCondition;
use crate::filter::SeccompFilter;
use crate::json::error::JsonFrontendError;
use crate::json::lent::{LentFilter, LentRule, lent};
use crate::json::types::{JsonCondition, JsonFilter};
use crate::rule::SeccompRule;
use crate::syscall_table::SyscallTable;
use std::alloc::{AllocError, Global};
use std::collections::BTreeMap;

/// The condition of the same four parts.
///
/// # Errors
///
/// `Backend(InvalidArgumentNumber)` if the index is above 5: a system call has six arguments.
impl TryFrom<JsonCondition> for SeccompCondition {
    ghost use Rattle.seccompiler.specs.JsonSteps.{IsConditionOf};

    type Error = JsonFrontendError;

    ghost try_from_gives = { IsConditionOf };

    fn try_from(condition: JsonCondition) -> Result<SeccompCondition, JsonFrontendError> {
        let JsonCondition {
            arg_index,
            arg_len,
            operator,
            value,
        } = condition;
        Ok(SeccompCondition::new(arg_index, arg_len, operator, value)?)
    }
}

// How many numbers a call may have: 0 to 462.
const NUMBERS: usize = 463;

// What the entries of a filter stand for, before it is said which chain each number has.
#[derive(Drop)]
struct Gathered {
    // Under the number of its call, the rule of each entry that has conditions, in order.
    rules: BTreeMap<i64, Vec<SeccompRule>>,
    // Whether a number is one of a call of an entry without conditions.
    always: [bool; NUMBERS],
}

// The rule of the conditions, in their order.
fn rule_of(alloc: Global, conditions: &[JsonCondition]) -> Result<SeccompRule, JsonFrontendError>
    ensures { MatchResult result (λ rule. (rule ≡ map condition_of conditions.now) × AreFineArgs conditions.now)
        (Tells (IsFaultIn conditions.now)) }
{
    let Ok(mut found) = Vec::with_capacity(alloc, conditions.len()) else {
        return Err(JsonFrontendError::OutOfMemory);
    };
    for condition in conditions {
        found.push_reserved(SeccompCondition::try_from(*condition)?);
    }
    Ok(SeccompRule::new(found)?)
}

// Puts the rule of the conditions at the end of the number's rules, of which there may be none yet.
fn add_rule(
    alloc: Global,
    rules: &mut BTreeMap<i64, Vec<SeccompRule>>,
    number: i64,
    conditions: &[JsonCondition],
) -> Result<(), JsonFrontendError>
    ensures { MatchResult result (λ _. AreFineArgs conditions.now × ((q : ℤ) → chain_at (chains_of rules.new.entries) q ≡ added (if int_eq q number then map condition_of conditions.now ∷ [] else []) (chain_at (chains_of rules.old.entries) q)))
        (Tells (IsFaultIn conditions.now)) }
{
    let rule = rule_of(alloc, conditions)?;
    let chain = rules.entry(number)?.or_insert(Vec::new(alloc));
    chain.push(rule)?;
    Ok(())
}

// What the entries stand for.
fn gather(
    alloc: Global,
    arch: TargetArch,
    entries: &[LentRule<'_>],
) -> Result<Gathered, JsonFrontendError>
    ensures { MatchResult result (λ gathered. All (IsFineEntry arch) entries.now × AreGathered arch entries.now gathered)
        (Tells (IsFirstOf arch entries.now)) }
{
    let table = SyscallTable::new(arch);
    let mut rules = BTreeMap::new(alloc);
    let mut always = [false; NUMBERS];
    let mut near = 0;
    for entry in entries {
        let Some(number) = table.number_near(&mut near, entry.syscall) else {
            let Ok(name) = String::from_str(alloc, entry.syscall) else {
                return Err(JsonFrontendError::OutOfMemory);
            };
            return Err(JsonFrontendError::SyscallName(name, arch));
        };
        match &entry.conditions {
            Some(conditions) => add_rule(alloc, &mut rules, number, conditions.as_slice())?,
            None => always[number as usize] = true,
        }
    }
    Ok(Gathered { rules, always })
}

// The chain of each number: the empty one where some entry has the number and no conditions, else the
// rules that were gathered under it.
fn chains_of_numbers(
    alloc: Global,
    gathered: Gathered,
    entries: usize,
) -> Result<BTreeMap<i64, Vec<SeccompRule>>, AllocError>
    ensures { IfOk result (HasChains gathered) }
{
    let Gathered { rules, always } = gathered;
    // To make a map of all takes less than to insert each. Of two chains of a number the last one stays.
    let mut found: Vec<(i64, Vec<SeccompRule>)> = rules.into_iter().collect(alloc)?;
    let Ok(()) = found.reserve(entries.min(NUMBERS)) else {
        return Err(AllocError);
    };
    for number in 0..NUMBERS {
        if always[number] {
            found.push((number as i64, Vec::new(alloc)))?;
        }
    }
    Ok(found.into_iter().collect(alloc)?)
}

/// The filter on an architecture of a JSON filter whose names are lent.
pub fn lent_seccomp_filter(
    alloc: Global,
    arch: TargetArch,
    filter: &LentFilter<'_>,
) -> Result<SeccompFilter, JsonFrontendError>
    ensures { MatchResult result (IsPolicyOf arch filter.now) (IsPolicyRefusal arch filter.now) }
{
    let gathered = gather(alloc, arch, filter.rules.as_slice())?;
    let Ok(chains) = chains_of_numbers(alloc, gathered, filter.rules.len()) else {
        return Err(JsonFrontendError::OutOfMemory);
    };
    Ok(SeccompFilter::new(chains, filter.mismatch_action, filter.match_action, arch)?)
}

/// The numbers that have both an entry without conditions and one with conditions, ascending.
pub fn widened_numbers(
    alloc: Global,
    arch: TargetArch,
    filter: &JsonFilter,
) -> Result<Vec<i64>, JsonFrontendError>
    ensures numbers { IfOk result (λ numbers. (number : ℤ) → Contains numbers.items number ↔ IsWidened arch filter.now number) }
    ensures ascending { IfOk result (λ numbers. IsStrictlySortedBy int_cmp numbers.items) }
    ensures faultless { OnOk result (All (IsFineEntry arch) filter.now.rules × (filter.now.mismatch_action ≢ filter.now.match_action)) }
    ensures refused { IfErr result (IsPolicyRefusal arch filter.now) }
{
    let Ok(lent) = lent(alloc, filter) else {
        return Err(JsonFrontendError::OutOfMemory);
    };
    let gathered = gather(alloc, arch, lent.rules.as_slice())?;
    if filter.mismatch_action == filter.match_action {
        return Err(JsonFrontendError::Backend(BackendError::IdenticalActions));
    }
    let Gathered { rules, always } = gathered;
    let mut numbers = Vec::new(alloc);
    for number in 0..NUMBERS {
        if !always[number] {
            continue;
        }
        if !rules.contains_key(&(number as i64)) {
            continue;
        }
        let Ok(()) = numbers.push(number as i64) else {
            return Err(JsonFrontendError::OutOfMemory);
        };
    }
    Ok(numbers)
}
