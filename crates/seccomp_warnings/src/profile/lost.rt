// Entries that libseccomp loses (_gen_bpf_syscalls of its gen_bpf.c, and db_rule_add of its db.c). Nothing is promised of these.
//
// It sorts the calls of an architecture by how many nodes their tests have, and of equal ones has those first that the architecture has; those of
// x32 come behind those of x86_64. Its program reads a call's number in front of the first alone. If the architecture lacks that one it isn't
// made, so no number is read, and no call gets its entries. A program for x86_64 alone reads it anyway.

use crate::profile::added::{Rule, Test};
use crate::profile::clash::{Clash, Effect, called};
use seccomp_profiles::Abi;
use seccompiler::TargetArch;
use std::alloc::{AllocError, Global};
use std::collections::BTreeMap;

// Of calls with more rules these are counted.
const MOST: usize = 64;

// What is compared of a half of an argument: the half, the operator, the mask, and the value.
type Node = (u8, u8, u64, u64);

// The nodes of a call's rules, those of each in their order.
type Nodes = BTreeMap<Vec<Node>, ()>;

// A call: how many nodes it has, and the index of its first rule.
type Call = (usize, usize);

/// What stands first in a list of calls.
#[derive(Clone, Copy)]
pub(crate) struct Head {
    // How many nodes it has; none if there is no call.
    nodes: Option<usize>,
    // What it does, if the architecture lacks it.
    lost: Option<Clash>,
    // Whether there is a call that the architecture has.
    has_calls: bool,
}

/// A list of no calls.
pub(crate) const NONE: Head = Head {
    nodes: None,
    lost: None,
    has_calls: false,
};

/// What stands first if the calls of these rules come behind those of a list.
pub(crate) fn head_of(
    alloc: Global,
    target: TargetArch,
    abi: Abi,
    rules: &[Rule<'_>],
    front: Head,
) -> Result<Head, AllocError> {
    let mut head = front;
    if let Some((nodes, _)) = least_of(alloc, abi, rules, true)? {
        head.has_calls = true;
        if is_before(nodes, head.nodes) {
            head.nodes = Some(nodes);
            head.lost = None;
        }
    }
    if let Some((nodes, index)) = least_of(alloc, abi, rules, false)? {
        if is_before(nodes, head.nodes) {
            head.nodes = Some(nodes);
            head.lost = lost_at(target, abi, rules, index);
        }
    }
    Ok(head)
}

/// Adds the entry by which all are lost, if one is.
pub(crate) fn push_lost(clashes: &mut Vec<Clash>, head: Head) -> Result<(), AllocError> {
    if let (Some(clash), true) = (head.lost, head.has_calls) {
        clashes.push(clash)?;
    }
    Ok(())
}

// That all are lost by the rule at this index.
fn lost_at(target: TargetArch, abi: Abi, rules: &[Rule<'_>], index: usize) -> Option<Clash> {
    match rules.get(index) {
        Some(rule) => Some(called(Effect::Lost(abi), target, rule)),
        None => None,
    }
}

// Whether so many nodes are fewer than these.
fn is_before(nodes: usize, others: Option<usize>) -> bool {
    match others {
        Some(least) => nodes < least,
        None => true,
    }
}

// The first call with the fewest nodes, of those that the architecture has or lacks.
fn least_of(
    alloc: Global,
    abi: Abi,
    rules: &[Rule<'_>],
    is_had: bool,
) -> Result<Option<Call>, AllocError> {
    let mut calls: BTreeMap<&str, (usize, Nodes)> = BTreeMap::new(alloc);
    for (index, rule) in rules.iter().enumerate() {
        if rule.is_had == is_had {
            let call = calls
                .entry(rule.call)?
                .or_insert((index, BTreeMap::new(alloc)));
            drop(call.1.insert(nodes_of(alloc, abi, &rule.tests)?, ())?);
        }
    }
    let mut least: Option<Call> = None;
    for (index, nodes) in calls.values() {
        let call = (count_of(nodes), *index);
        if least.is_none_or(|it| call < it) {
            least = Some(call);
        }
    }
    Ok(least)
}

// The nodes of a rule's tests: of 64 bits those of the high half, two of them if it is compared by order, and that of the low half.
fn nodes_of(alloc: Global, abi: Abi, tests: &[Test]) -> Result<Vec<Node>, AllocError> {
    let mut nodes = Vec::new(alloc);
    for (index, operator, mask, value) in tests {
        let (high, low) = (2 * (index % 6), 2 * (index % 6) + 1);
        // One by its negation is the same but for what it leads to.
        let operator = match operator {
            1 => 0,
            4 => 3,
            5 => 2,
            other => *other,
        };
        if let Abi::Native(_) = abi {
            if let 2 | 3 = operator {
                nodes.push((high, 3, mask >> 32, value >> 32))?;
                nodes.push((high, 0, mask >> 32, value >> 32))?;
            } else {
                nodes.push((high, operator, mask >> 32, value >> 32))?;
            }
        }
        nodes.push((low, operator, mask & 0xffff_ffff, value & 0xffff_ffff))?;
    }
    Ok(nodes)
}

// How many nodes the rules of a call have, what is the same in front being one: without those that have all nodes of another one.
fn count_of(rules: &Nodes) -> usize {
    let mut count = 0usize;
    let mut last: &[Node] = &[];
    for nodes in rules.keys().take(MOST) {
        let is_kept = rules.keys().take(MOST).all(|other| other.len() == nodes.len()
            || !other.iter().all(|it| nodes.contains(it)));
        if is_kept {
            let same = nodes
                .iter()
                .zip(last)
                .take_while(|pair| pair.0 == pair.1)
                .count();
            count = count.saturating_add(nodes.len().saturating_sub(same));
            last = nodes.as_slice();
        }
    }
    count
}
