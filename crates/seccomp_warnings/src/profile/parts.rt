// The parts of a profile of which warnings are told.

ghost use Rattle.std.specs.Prelude.{◌≡◌, ◌↔◌, ◌⊎◌, [], ◌∷◌, ◌++◌, Contains, IfOk, IsTrue, List, OnOk, map};
ghost use Rattle.seccomp_entries.specs.declared.entry.Action.{Action as ActionValue};
ghost use Rattle.seccomp_warnings.specs.ProfileParts as spec;
ghost use Rattle.seccomp_warnings.specs.ProfileParts.{AllowBoth, AreActions, AreParts, actions_in, deciding, effective_in, entries_of};

use crate::part::Part;
use crate::warning::Actions;
use seccomp_entries::{Action, Entry};
use seccompiler::{SeccompAction, TargetArch};
use std::alloc::{AllocError, Global};

// One more than the greatest number of a call that has a name.
pub(crate) const NUMBERS: u32 = 463;

/// Where an entry is from.
#[derive(Clone, Copy)]
pub struct Origin {
    /// The place of its entry in the profile, from 0.
    pub entry: usize,
    /// The place of its only condition among those of that entry, if each of them has an entry of its own.
    pub condition: Option<usize>,
    /// The number of its calls.
    pub number: u32,
}

/// Where an entry is from.
pub(crate) fn origin_of(entry: &Entry) -> Origin
    ensures { result ≡ spec.origin_of entry.now }
{
    Origin {
        entry: entry.place,
        condition: entry.alternative,
        number: entry.number,
    }
}

/// Of the entries of a profile in one form those that decide some call, unless their conditions never hold: of those for the calls of a
/// number all, or the first alone, if it has no conditions.
pub(crate) fn effective_of(alloc: Global, entries: &[Entry]) -> Result<Vec<Entry>, AllocError>
    ensures { IfOk result (λ own. own.items ≡ effective_in entries.now) }
{
    let mut all = Vec::new(alloc);
    for number in 0..NUMBERS {
        let mut own = deciding_of(alloc, number, entries)?;
        all.append(&mut own)?;
    }
    Ok(all)
}

// Those of a number.
fn deciding_of(alloc: Global, number: u32, entries: &[Entry]) -> Result<Vec<Entry>, AllocError>
    ensures { IfOk result (λ own. own.items ≡ deciding (entries_of number entries.now)) }
{
    let mut own = entries_of_number(alloc, number, entries)?;
    if is_settled(&own) {
        own.truncate(1);
    }
    Ok(own)
}

/// Of the entries those for the calls of a number.
pub(crate) fn entries_of_number(
    alloc: Global,
    number: u32,
    entries: &[Entry],
) -> Result<Vec<Entry>, AllocError>
    ensures { IfOk result (λ own. own.items ≡ entries_of number entries.now) }
{
    let mut own = Vec::new(alloc);
    for entry in entries {
        if entry.number == number {
            own.push(copy_of(alloc, entry)?)?;
        }
    }
    Ok(own)
}

// Whether the first of these has no conditions.
fn is_settled(entries: &[Entry]) -> bool
    ensures { result ≡ spec.is_settled entries.now }
{
    match entries {
        [first, ..] => first.conditions.is_empty(),
        [] => false,
    }
}

/// The parts of a profile of this default action and these effective entries, which `check` warns about. They are no program of the
/// profile: [`decisions_of_profile`](seccomp_profiles::decisions_of_profile) gives what it decides.
///
/// Each action of an entry but `allow` has a part of the entries with it, beside which all else is allowed. If the default action isn't to
/// allow, a part of all entries allows what they are for, and has the default action for all else.
///
/// # Errors
///
/// `AllocError` if memory runs out.
pub fn parts_of(
    alloc: Global,
    target: TargetArch,
    default: Action,
    effective: &[Entry],
) -> Result<Vec<Part>, AllocError>
    ensures { IfOk result (λ parts. AreParts target default effective.now parts.items) }
{
    let actions = actions_of(alloc, default, effective)?;
    let parts = each_part(alloc, target, default, effective, &actions)?;
    Ok(parts)
}

// The parts of these actions.
fn each_part(
    alloc: Global,
    target: TargetArch,
    default: Action,
    effective: &[Entry],
    actions: &[Action],
) -> Result<Vec<Part>, AllocError>
    ensures { IfOk result (λ parts. parts.items ≡ map (spec.part_of target default effective.now) actions.now) }
{
    let mut parts = Vec::new(alloc);
    for action in actions {
        parts.push(part_of(alloc, target, default, effective, *action)?)?;
    }
    Ok(parts)
}

// The actions that have a part.
fn actions_of(alloc: Global, default: Action, entries: &[Entry]) -> Result<Vec<Action>, AllocError>
    ensures { IfOk result (λ actions. AreActions default (actions_in entries.now) actions.items) }
{
    let mut actions = Vec::new(alloc);
    push_action(&mut actions, default, Action::Own(SeccompAction::Allow))?;
    for entry in entries {
        push_action(&mut actions, default, entry.action)?;
    }
    Ok(actions)
}

// Adds an action, if it has a part and isn't known.
fn push_action(actions: &mut Vec<Action>, default: Action, action: Action) -> Result<(), AllocError>
    ensures { OnOk result ((asked : List ActionValue) → AreActions default asked actions.old.items → AreActions default (asked ++ action ∷ []) actions.new.items) }
{
    if is_known(actions, default, action) {
        return Ok(());
    }
    actions.push(action)?;
    Ok(())
}

// Whether the action is to allow, as the default one is, or is one of these.
fn is_known(actions: &[Action], default: Action, action: Action) -> bool
    ensures { IsTrue result ↔ (AllowBoth default action ⊎ Contains actions.now action) }
{
    allow_both(default, action) || actions.contains(&action)
}

fn allow_both(default: Action, action: Action) -> bool
    ensures { IsTrue result ↔ AllowBoth default action }
{
    is_same(action, Action::Own(SeccompAction::Allow))
        && is_same(default, Action::Own(SeccompAction::Allow))
}

// Whether both are the same action.
pub(crate) fn is_same(first: Action, second: Action) -> bool
    ensures { IsTrue result ↔ (first ≡ second) }
{
    first == second
}

// The part of an action.
fn part_of(
    alloc: Global,
    target: TargetArch,
    default: Action,
    effective: &[Entry],
    action: Action,
) -> Result<Part, AllocError>
    ensures { IfOk result (λ part. part ≡ spec.part_of target default effective.now action) }
{
    let mut entries = Vec::new(alloc);
    for entry in effective {
        if is_in(action, entry) {
            entries.push(copy_of(alloc, entry)?)?;
        }
    }
    Ok(Part {
        target_arch: target,
        actions: Actions {
            mismatch: beside(default, action),
            matching: action,
        },
        entries,
    })
}

fn is_in(action: Action, entry: &Entry) -> bool
    ensures { result ≡ spec.is_in action entry.now }
{
    is_allow(action) || u32::from(entry.action) == u32::from(action)
}

// What is done beside the entries of an action.
fn beside(default: Action, action: Action) -> Action
    ensures { result ≡ spec.beside default action }
{
    if is_allow(action) {
        default
    } else {
        Action::Own(SeccompAction::Allow)
    }
}

/// Whether it is to allow.
pub(crate) fn is_allow(action: Action) -> bool
    ensures { result ≡ spec.is_allow action }
{
    matches!(action, Action::Own(SeccompAction::Allow))
}

// The same entry once more.
fn copy_of(alloc: Global, entry: &Entry) -> Result<Entry, AllocError>
    ensures { IfOk result (λ copy. copy ≡ entry.now) }
{
    let conditions = entry.conditions.as_slice().to_vec(alloc)?;
    Ok(Entry {
        place: entry.place,
        alternative: entry.alternative,
        number: entry.number,
        conditions,
        action: entry.action,
    })
}
