// Whether entries are needed beside each other.

ghost use Rattle.std.specs.Prelude.{◌≡◌, ◌≢◌, ◌<◌, ℕ, [], IfNone, IfOk, IfSome, IsSomeAnd, length, map, slice_get};
ghost use Rattle.seccomp_compare.specs.Cover.{Covers};
ghost use Rattle.seccomp_entries.specs.Drawers.{AreFiled};
ghost use Rattle.seccomp_entries.specs.Verdicts as spec;
ghost use Rattle.seccomp_entries.specs.Verdicts.{AreBeside, AreVerdicts, CoversBeside, IsVerdict};

use crate::decider::is_own;
use crate::drawers::{Drawer, filed, first_beside};
use crate::entry::Entry;
use seccomp_compare::{Cover, cover_of};
use seccompiler::{SeccompCondition, TargetArch};
use std::alloc::{AllocError, Global};
use std::collections::BTreeMap;

// How many sets of calls are looked at for all entries.
const MOST_SETS: usize = 300_000;

// How many sets are looked at for an entry beside few others, at least. They take little time; a range of 64 bits takes 64.
const MOST_BESIDE_FEW: usize = 1_000;

// How many others are few.
const MOST_TRIES: usize = 16;

/// Whether an entry is needed beside others.
#[derive(Clone, Copy)]
pub enum Verdict {
    /// Some call meets the entry, and no other entry.
    Needed,
    /// Some call meets the entry, and each that does meets another entry too. So without the entry every call is decided alike, if the
    /// entries have one action.
    Redundant,
    /// No call meets the entry.
    Unreachable,
    /// There are more sets of calls than were looked at.
    Undecided,
}

/// A verdict for each of some entries, in their order; each is true.
///
/// Of each entry as many sets of calls are looked at as its share of 300000, but one at least. It is undecided only if there are more, as
/// the entries of its call compare too many bits that it leaves open: never if the others compare only what equalities of it fix.
///
/// # Errors
///
/// An error is returned if memory runs out.
pub fn verdicts_of(
    alloc: Global,
    arch: TargetArch,
    entries: &[Entry],
) -> Result<Vec<Verdict>, AllocError>
    ensures { IfOk result (λ verdicts. AreVerdicts arch entries.now verdicts.items) }
{
    let most = (MOST_SETS / entries.len().max(1)).max(1);
    let files = filed(alloc, entries)?;
    let mut verdicts = Vec::with_capacity(alloc, entries.len())?;
    for place in 0..entries.len() {
        let verdict = verdict_at(alloc, arch, entries, &files, place, most)?;
        verdicts.push(verdict)?;
    }
    Ok(verdicts)
}

// The verdict of the entry at a place.
fn verdict_at(
    alloc: Global,
    arch: TargetArch,
    entries: &[Entry],
    files: &BTreeMap<Drawer, Vec<usize>>,
    place: usize,
    most: usize,
) -> Result<Verdict, AllocError>
    requires filed { AreFiled entries.now (length entries.now) files.now }
    requires within { place < length entries.now }
    ensures { IfOk result (λ v. IsSomeAnd (slice_get entries.now place) (λ own. IsVerdict arch entries.now place most own v)) }
{
    let own = &entries[place];
    let alone = few_at(alloc, arch, own, &[], most)?;
    let beside = beside_of(alloc, arch, entries, files, place, own, most, alone)?;
    Ok(verdict_by(alone, beside))
}

// The verdict of an entry by whether it is covered by no others, and by the others.
fn verdict_by(alone: Cover, beside: Cover) -> Verdict
    ensures { result ≡ spec.verdict_by alone beside }
{
    match (alone, beside) {
        (Cover::Covered, _) => Verdict::Unreachable,
        (_, Cover::Escapes(_)) => Verdict::Needed,
        (Cover::Escapes(_), Cover::Covered) => Verdict::Redundant,
        _ => Verdict::Undecided,
    }
}

// What is so of the conditions of the entry at a place beside the others, if this is so of them alone: first beside few of the others,
// of which calls were found to meet each, and if that doesn't do, beside all.
fn beside_of(
    alloc: Global,
    arch: TargetArch,
    entries: &[Entry],
    files: &BTreeMap<Drawer, Vec<usize>>,
    place: usize,
    own: &Entry,
    most: usize,
    alone: Cover,
) -> Result<Cover, AllocError>
    requires filed { AreFiled entries.now (length entries.now) files.now }
    requires alone { Covers arch own.now.number own.now.conditions [] most alone }
    ensures { IfOk result (CoversBeside arch entries.now place most own.now) }
{
    let mut few = Vec::new(alloc);
    let mut answer = alone;
    for _ in 0..MOST_TRIES {
        match answer {
            Cover::Covered => return Ok(Cover::Covered),
            Cover::Undecided => break,
            Cover::Escapes(call) => {
                let Some(rule) = first_beside(entries, files, place, &call) else {
                    return Ok(Cover::Escapes(call));
                };
                few.push(rule)?;
                answer = few_at(alloc, arch, own, &few, most)?;
            }
        }
    }
    let others = others_of(alloc, entries, place, number_of(own))?;
    cover_at(alloc, arch, own, &others, most)
}

// What is so of the conditions of an entry beside few others, which takes little time.
fn few_at(
    alloc: Global,
    arch: TargetArch,
    own: &Entry,
    few: &[&[SeccompCondition]],
    most: usize,
) -> Result<Cover, AllocError>
    ensures { IfOk result (Covers arch own.now.number own.now.conditions (map (λ q. q.now) few.now) most) }
{
    cover_at(alloc, arch, own, few, most.max(MOST_BESIDE_FEW))
}

// What is so of the conditions of an entry beside others.
fn cover_at(
    alloc: Global,
    arch: TargetArch,
    own: &Entry,
    others: &[&[SeccompCondition]],
    most: usize,
) -> Result<Cover, AllocError>
    ensures { IfOk result (Covers arch own.now.number own.now.conditions (map (λ q. q.now) others.now) most) }
{
    cover_of(
        alloc,
        arch,
        own.number,
        own.conditions.as_slice(),
        others,
        most,
    )
}

// The number of the entry's calls.
fn number_of(entry: &Entry) -> u32
    ensures { result ≡ entry.now.number }
{
    entry.number
}

// The conditions of the entries of these calls at other places.
fn others_of<'a>(
    alloc: Global,
    entries: &'a [Entry],
    place: usize,
    number: u32,
) -> Result<Vec<&'a [SeccompCondition]>, AllocError>
    ensures { IfOk result (λ others. AreBeside entries.now place number (length entries.now) (map (λ q. q.now) others.items)) }
{
    let mut others = Vec::new(alloc);
    for (index, entry) in entries.iter().enumerate() {
        if let Some(rule) = rule_at(entry, index, place, number) {
            others.push(rule)?;
        }
    }
    Ok(others)
}

// The conditions of the entry with this index, if it is for these calls and stands at another place.
fn rule_at<'a>(
    entry: &'a Entry,
    index: usize,
    place: usize,
    number: u32,
) -> Option<&'a [SeccompCondition]>
    ensures some { IfSome result (λ q. (index ≢ place) × (entry.now.number ≡ number) × (q.now ≡ entry.now.conditions)) }
    ensures none { IfNone result (index ≢ place → entry.now.number ≡ number → ⊥) }
{
    if index != place && is_own(entry, number) {
        Some(entry.conditions.as_slice())
    } else {
        None
    }
}
