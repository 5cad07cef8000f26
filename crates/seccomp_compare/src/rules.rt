// What filters decide for the calls of a number, rule by rule.

ghost use Rattle.std.specs.Prelude.{◌≡◌, ℕ, List, ◌⊎◌, All, Contains, IfOk, IsSome, IsTrue, false, map};
ghost use Rattle.seccompiler.specs.Policy.{RuleHolds};
ghost use Rattle.seccomp_compare.specs.Cover.{Covers, SomeHolds};
ghost use Rattle.seccomp_compare.specs.Rules.{AreCovered, AreRelatedOn, IsNotSeen, IsOneUncovered, rules_under};

use crate::covered::{Cover, cover_of, stands_in};
use crate::{Relation, is_related};
use seccompiler::{SeccompCondition, SeccompFilter, SeccompRule, TargetArch};
use std::alloc::{AllocError, Global};

/// Whether the relation is seen to hold of what two filters decide, for each call of a number: by their rules, in whatever
/// order, some of which may stand twice or be covered by others.
///
/// It takes no program. Of each rule so many sets of calls are looked at, at most, as [`cover_of`](crate::cover_of) does: first beside the
/// rules of the other filter that share a condition with it, and then beside all. Filters of one architecture whose match actions and
/// mismatch actions are so related are seen to decide so, unless they don't, or a rule and those of the other filter compare too many bits.
///
/// # Errors
///
/// An error is returned if memory runs out.
pub fn is_related_on(
    alloc: Global,
    relation: Relation,
    filter: &SeccompFilter,
    other: &SeccompFilter,
    number: u32,
    most: usize,
) -> Result<bool, AllocError>
    ensures related { IfOk result (λ is. IsTrue is → AreRelatedOn relation filter.now other.now number) }
    ensures unseen { IfOk result (λ is. is ≡ false → IsNotSeen relation filter.now other.now number most) }
{
    let arch = filter.target_arch();
    if arch.get_audit_value() != other.target_arch().get_audit_value() {
        return Ok(false);
    }
    let matched = u32::from(filter.match_action());
    let other_matched = u32::from(other.match_action());
    if !is_related(relation, matched, other_matched) {
        return Ok(false);
    }
    let default = u32::from(filter.mismatch_action());
    let other_default = u32::from(other.mismatch_action());
    if !is_related(relation, default, other_default) {
        return Ok(false);
    }
    let rules = rules_under(alloc, filter, number)?;
    let other_rules = rules_under(alloc, other, number)?;
    let is_apart = is_related(relation, matched, other_default);
    if !covers(alloc, is_apart, arch, number, &rules, &other_rules, most)? {
        return Ok(false);
    }
    let is_apart = is_related(relation, default, other_matched);
    covers(alloc, is_apart, arch, number, &other_rules, &rules, most)
}

// The rules of a number; one without conditions if all its calls match.
fn rules_under<'a>(
    alloc: Global,
    filter: &'a SeccompFilter,
    number: u32,
) -> Result<Vec<&'a [SeccompCondition]>, AllocError>
    ensures { IfOk result (λ rules. map (λ q. q.now) rules.items ≡ rules_under filter.now number) }
{
    let Some(chain) = filter.rules().get(&i64::from(number)) else {
        return Ok(Vec::new(alloc));
    };
    if chain.is_empty() {
        let always: &[SeccompCondition] = &[];
        return Ok(vec![in alloc; always]?);
    }
    rules_in(alloc, chain)
}

// The rules of a chain.
fn rules_in<'a>(
    alloc: Global,
    chain: &'a [SeccompRule],
) -> Result<Vec<&'a [SeccompCondition]>, AllocError>
    ensures { IfOk result (λ rules. map (λ q. q.now) rules.items ≡ chain.now) }
{
    let mut rules = Vec::with_capacity(alloc, chain.len())?;
    for rule in chain {
        rules.push(rule.conditions())?;
    }
    Ok(rules)
}

// Whether for each call for which one of these rules holds one of the others is seen to hold too; or it needn't be so.
fn covers(
    alloc: Global,
    is_enough: bool,
    arch: TargetArch,
    number: u32,
    rules: &[&[SeccompCondition]],
    others: &[&[SeccompCondition]],
    most: usize,
) -> Result<bool, AllocError>
    ensures covered { IfOk result (λ is. IsTrue is → IsTrue is_enough ⊎ AreCovered arch number (map (λ q. q.now) rules.now) (map (λ q. q.now) others.now)) }
    ensures enough { IfOk result (λ is. is ≡ false → is_enough ≡ false) }
    ensures uncovered { IfOk result (λ is. is ≡ false → IsOneUncovered arch number most (map (λ q. q.now) rules.now) (map (λ q. q.now) others.now)) }
{
    if is_enough {
        return Ok(true);
    }
    // Each is looked for from where the one before it was found, so rules in the same order take one walk through both; and from the
    // front again after one that wasn't found there.
    let mut place = 0;
    for rule in rules {
        if let Some(found) = implied_from(rule, others, place) {
            place = found;
        } else if let Cover::Covered = cover_by(alloc, arch, number, rule, others, most)? {
            place = 0;
        } else {
            return Ok(false);
        }
    }
    Ok(true)
}

// The first place from this one on of a rule all of whose conditions a rule has.
fn implied_from(
    rule: &[SeccompCondition],
    others: &[&[SeccompCondition]],
    from: usize,
) -> Option<usize>
    ensures { IsSome result → (r : List ℕ) → RuleHolds rule.now r → SomeHolds (map (λ q. q.now) others.now) r }
{
    for place in from..others.len() {
        if implies(rule, others[place]) {
            return Some(place);
        }
    }
    None
}

// Whether a rule has all conditions of another one.
fn implies(rule: &[SeccompCondition], other: &[SeccompCondition]) -> bool
    ensures { IsTrue result → (r : List ℕ) → RuleHolds rule.now r → RuleHolds other.now r }
{
    for condition in other {
        if !stands_in(condition, rule) {
            return false;
        }
    }
    true
}

// Whether other rules hold wherever one does, which is tried beside few of them first.
fn cover_by(
    alloc: Global,
    arch: TargetArch,
    number: u32,
    rule: &[SeccompCondition],
    others: &[&[SeccompCondition]],
    most: usize,
) -> Result<Cover, AllocError>
    ensures { IfOk result (Covers arch number rule.now (map (λ q. q.now) others.now) most) }
{
    let near = near_of(alloc, rule, others)?;
    if let Cover::Covered = cover_of(alloc, arch, number, rule, &near, most)? {
        return Ok(Cover::Covered);
    }
    cover_of(alloc, arch, number, rule, others, most)
}

// Those of the other rules that share a condition with a rule. A part of it is mostly covered by parts that differ in another condition.
fn near_of<'a>(
    alloc: Global,
    rule: &[SeccompCondition],
    others: &[&'a [SeccompCondition]],
) -> Result<Vec<&'a [SeccompCondition]>, AllocError>
    ensures { IfOk result (λ near. All (Contains (map (λ q. q.now) others.now)) (map (λ q. q.now) near.items)) }
{
    let mut near = Vec::new(alloc);
    for other in others {
        if !other.iter().any(|condition| stands_in(condition, rule)) {
            continue;
        }
        near.push(*other)?;
    }
    Ok(near)
}
