// Rules that libseccomp rejects behind others, so that no container starts (found by trying; docs/CHECKS.md). Nothing is promised of these.

use crate::profile::added::{Rule, Test};
use crate::profile::clash::{Clash, Effect, called};
use seccompiler::TargetArch;
use std::alloc::{AllocError, Global};
use std::collections::BTreeMap;

// A rule or an entry: its index among some, and its place in the profile.
pub(crate) type At = (usize, usize);

// By what they test, of the rules of a call that were added the first of each action.
type Seen = BTreeMap<Vec<Test>, BTreeMap<u32, At>>;

/// Adds those of these rules, of one architecture and in the order in which they are added, that libseccomp rejects.
pub(crate) fn push_rejected(
    alloc: Global,
    clashes: &mut Vec<Clash>,
    target: TargetArch,
    rules: &[Rule<'_>],
) -> Result<(), AllocError> {
    let mut calls: BTreeMap<&str, Seen> = BTreeMap::new(alloc);
    for (index, rule) in rules.iter().enumerate() {
        let (tests, at) = (rule.tests.as_slice(), (index, rule.place));
        let seen = calls.entry(rule.call)?.or_insert(BTreeMap::new(alloc));
        if !tests.is_empty() {
            if let Some((_, beside)) = beside_of(alloc, seen, tests, rule.action)? {
                let effect = Effect::Rejected { beside };
                clashes.push(called(effect, target, rule))?;
            }
        }
        let firsts = seen
            .entry(tests.to_vec(alloc)?)?
            .or_insert(BTreeMap::new(alloc));
        let first = firsts.get(&rule.action).copied().unwrap_or(at);
        drop(firsts.insert(rule.action, first)?);
    }
    Ok(())
}

// The first of the rules that were added behind which one with these tests and this action is rejected: its tests begin with these, and no
// rule has some of them, or some between.
fn beside_of(
    alloc: Global,
    seen: &Seen,
    tests: &[Test],
    action: u32,
) -> Result<Option<At>, AllocError> {
    for length in 0..tests.len() {
        if seen.contains_key(&tests[..length]) {
            return Ok(None);
        }
    }
    if let Some(same) = seen.get(tests) {
        return Ok(first_beside(same, action));
    }
    let mut least = None;
    let mut front: &[Test] = &[];
    for (longer, own) in seen.range(tests.to_vec(alloc)?..) {
        if !begins(longer, tests) {
            break;
        }
        if front.is_empty() || !begins(longer, front) {
            front = longer.as_slice();
            least = lesser(least, first_beside(own, action));
        }
    }
    Ok(least)
}

// Whether the first begin with the second.
fn begins(longer: &[Test], tests: &[Test]) -> bool {
    match longer.get(..tests.len()) {
        Some(front) => front == tests,
        None => false,
    }
}

// The one of two with the lesser index.
pub(crate) fn lesser(one: Option<At>, other: Option<At>) -> Option<At> {
    match (one, other) {
        (Some(first), Some(second)) if second.0 < first.0 => other,
        (None, _) => other,
        _ => one,
    }
}

// The first of these with another action.
fn first_beside(firsts: &BTreeMap<u32, At>, action: u32) -> Option<At> {
    let mut least = None;
    for (own, at) in firsts {
        if *own != action {
            least = lesser(least, Some(*at));
        }
    }
    least
}
