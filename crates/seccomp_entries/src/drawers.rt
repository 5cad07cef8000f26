// Entries by what each call that meets them has, so that few are looked at for a call.

ghost use Rattle.std.specs.Prelude.{◌≡◌, ◌≢◌, ◌↔◌, ℕ, All, IfNone, IfOk, IfSome, IsTrue, MatchOption, OnOk, Some, length, slice_get};
ghost use Rattle.seccompiler.specs.Machine.{word_at};
ghost use Rattle.seccomp_entries.specs.Drawers.{AreFiled, IsDrawerOf, IsFoundBy, IsIn, MeetsAt};
ghost use Rattle.seccomp_entries.specs.Entries.{Entry, IsDecider, Meets, NoneMeets};
ghost use Rattle.seccomp_entries.specs.Verdicts.{IsBeside, IsRuleBeside};

use crate::decider::meets;
use crate::entry::Entry;
use seccompiler::record::word_at;
use seccompiler::{SeccompCmpOp, SeccompCondition};
use std::alloc::{AllocError, Global};
use std::collections::BTreeMap;

/// An argument that a condition of an entry wants to equal a value, and the low half of that; or 6, and the number of its calls.
pub type Drawer = (u8, u32);

/// The places of entries, by their drawers: what [`decided`](crate::decided) looks them up by.
///
/// # Errors
///
/// An error is returned if memory runs out.
pub fn filed(alloc: Global, entries: &[Entry]) -> Result<BTreeMap<Drawer, Vec<usize>>, AllocError>
    ensures { IfOk result (AreFiled entries.now (length entries.now)) }
{
    let mut files = BTreeMap::new(alloc);
    for (place, entry) in entries.iter().enumerate() {
        file(alloc, &mut files, drawer_of(entry), place)?;
    }
    Ok(files)
}

// Puts a place into a drawer.
fn file(
    alloc: Global,
    files: &mut BTreeMap<Drawer, Vec<usize>>,
    drawer: Drawer,
    place: usize,
) -> Result<(), AllocError>
    ensures old { OnOk result ((d : _) (k : ℕ) → IsIn files.old d k → IsIn files.new d k) }
    ensures own { OnOk result (IsIn files.new drawer place) }
{
    let mut places = match files.remove(&drawer) {
        Some(places) => places,
        None => Vec::new(alloc),
    };
    places.push(place)?;
    drop(files.insert(drawer, places)?);
    Ok(())
}

// The drawer of an entry.
fn drawer_of(entry: &Entry) -> Drawer
    ensures { IsDrawerOf entry.now result }
{
    for condition in &entry.conditions {
        if matches!(condition.operator(), SeccompCmpOp::Eq) {
            let low = (condition.value() % 0x1_0000_0000) as u32;
            return (condition.arg_index(), low);
        }
    }
    (6, entry.number)
}

/// The conditions of an entry at another place that a call meets, if there is one.
pub(crate) fn first_beside<'a>(
    entries: &'a [Entry],
    files: &BTreeMap<Drawer, Vec<usize>>,
    place: usize,
    call: &[u8; 64],
) -> Option<&'a [SeccompCondition]>
    requires { AreFiled entries.now (length entries.now) files.now }
    ensures some { IfSome result (λ q. IsRuleBeside entries.now place (word_at call.now 0) q.now) }
    ensures none { IfNone result (IsBeside entries.now place (Meets call.now) → ⊥) }
{
    for index in 0..6u8 {
        let low = word_at(call, 16 + 8 * usize::from(index));
        let rule = first_in(entries, files, &(index, low), place, call);
        if rule.is_some() {
            return rule;
        }
    }
    first_in(entries, files, &(6, word_at(call, 0)), place, call)
}

// The conditions of one that stands in a drawer.
fn first_in<'a>(
    entries: &'a [Entry],
    files: &BTreeMap<Drawer, Vec<usize>>,
    drawer: &Drawer,
    place: usize,
    call: &[u8; 64],
) -> Option<&'a [SeccompCondition]>
    ensures some { IfSome result (λ q. IsRuleBeside entries.now place (word_at call.now 0) q.now) }
    ensures none { IfNone result ((k : ℕ) (e : Entry) → IsIn files.now drawer.now k → k ≢ place → slice_get entries.now k ≡ Some e → Meets call.now e → ⊥) }
{
    let places = files.get(drawer)?;
    for at in places {
        let rule = rule_at(entries, *at, place, call);
        if rule.is_some() {
            return rule;
        }
    }
    None
}

// The conditions of the entry at a place, if it is another one and the call meets it.
fn rule_at<'a>(
    entries: &'a [Entry],
    at: usize,
    place: usize,
    call: &[u8; 64],
) -> Option<&'a [SeccompCondition]>
    ensures some { IfSome result (λ q. IsRuleBeside entries.now place (word_at call.now 0) q.now) }
    ensures none { IfNone result ((e : Entry) → at ≢ place → slice_get entries.now at ≡ Some e → Meets call.now e → ⊥) }
{
    let entry = entries.get(at)?;
    if at != place && meets(entry, call) {
        Some(entry.conditions.as_slice())
    } else {
        None
    }
}

/// The index of the first entry that a call meets.
pub(crate) fn first_met(
    entries: &[Entry],
    files: &BTreeMap<Drawer, Vec<usize>>,
    call: &[u8; 64],
) -> Option<usize>
    requires { AreFiled entries.now (length entries.now) files.now }
    ensures { MatchOption result (NoneMeets entries.now call.now) (IsDecider entries.now call.now) }
{
    let mut found = None;
    for argument in 0..6u8 {
        let low = word_at(call, 16 + 8 * usize::from(argument));
        found = least_in(entries, files, &(argument, low), call, found);
    }
    least_in(entries, files, &(6, word_at(call, 0)), call, found)
}

// The least of the indices in a drawer at which the call meets an entry, or what was found before, if that is less.
fn least_in(
    entries: &[Entry],
    files: &BTreeMap<Drawer, Vec<usize>>,
    drawer: &Drawer,
    call: &[u8; 64],
    before: Option<usize>,
) -> Option<usize>
    requires { IfSome before (MeetsAt entries.now call.now) }
    ensures met { IfSome result (MeetsAt entries.now call.now) }
    ensures old { (k : ℕ) → IsFoundBy before k → IsFoundBy result k }
    ensures own { (k : ℕ) → IsIn files.now drawer.now k → MeetsAt entries.now call.now k → IsFoundBy result k }
{
    match files.get(drawer) {
        Some(places) => least_of(entries, places, call, before),
        None => before,
    }
}

// The same of some indices.
fn least_of(
    entries: &[Entry],
    places: &[usize],
    call: &[u8; 64],
    before: Option<usize>,
) -> Option<usize>
    requires { IfSome before (MeetsAt entries.now call.now) }
    ensures met { IfSome result (MeetsAt entries.now call.now) }
    ensures old { (k : ℕ) → IsFoundBy before k → IsFoundBy result k }
    ensures own { All (λ k. MeetsAt entries.now call.now k → IsFoundBy result k) places.now }
{
    let mut found = before;
    for at in places {
        found = lesser(entries, *at, call, found);
    }
    found
}

// An index at which the call meets an entry, or what was found before, if that is less.
fn lesser(entries: &[Entry], at: usize, call: &[u8; 64], before: Option<usize>) -> Option<usize>
    requires { IfSome before (MeetsAt entries.now call.now) }
    ensures met { IfSome result (MeetsAt entries.now call.now) }
    ensures old { (k : ℕ) → IsFoundBy before k → IsFoundBy result k }
    ensures own { MeetsAt entries.now call.now at → IsFoundBy result at }
{
    if let Some(first) = before {
        if first <= at {
            return before;
        }
    }
    if meets_at(entries, at, call) {
        Some(at)
    } else {
        before
    }
}

// Whether the call meets the entry at an index.
fn meets_at(entries: &[Entry], at: usize, call: &[u8; 64]) -> bool
    ensures { IsTrue result ↔ MeetsAt entries.now call.now at }
{
    match entries.get(at) {
        Some(entry) => meets(entry, call),
        None => false,
    }
}
