// What may be doubtful about a profile: `doubts` says what of it is so. So nothing is promised of it.

use crate::candidate::met_call;
use crate::profile::clash::Clash;
use crate::profile::doubts::Doubt;
use crate::profile::warnings::ProfileWarning;
use seccomp_entries::{Entry, Lowered};
use seccomp_profiles::Profile;
use seccompiler::TargetArch;
use std::alloc::{AllocError, Global};
use std::collections::BTreeMap;

// At most so many entries with conditions of a call are held against each other, and so many of their conditions.
const ENTRIES: usize = 32;

const CONDITIONS: usize = 8;

// At most so many pairs of entries are told.
const MOST: usize = 64;

// What may be so, and an index, which plays no part here.
type Try = (Doubt, usize);

// The entries from one index to another, which are of one of the profile and for the calls of one number.
#[derive(Clone, Copy)]
struct Part {
    begin: usize,
    end: usize,
}

/// What may be so, in the order in which it is reported: which pairs of entries leave a call open, what is doubtful about the default action
/// and each entry by itself, what of the profile, and what libseccomp does. Of what may be so of an entry that concerns some call it has the
/// index of one of it in the other form.
pub(crate) fn asked_of(
    alloc: Global,
    profile: &Profile,
    lowered: &Lowered,
    clashes: &[Clash],
) -> Result<Vec<(ProfileWarning, usize)>, AllocError> {
    let mut doubts = tries_of(alloc, lowered)?;
    doubts.push((Doubt::LargeDefaultErrno, 0))?;
    doubts.push((Doubt::NotifiesByDefault, 0))?;
    for place in 0..profile.entries.len() {
        doubts.push((Doubt::EqualsDefault { place }, 0))?;
        doubts.push((Doubt::ManyConditions { place }, 0))?;
    }
    // Those of one entry of the profile stand together.
    let mut last = None;
    for (index, entry) in lowered.entries.iter().enumerate() {
        let place = entry.place;
        if last != Some(place) {
            doubts.push((Doubt::LargeErrno { place }, index))?;
            doubts.push((Doubt::NoListener { place }, index))?;
            doubts.push((Doubt::NotifiesWrite { place }, index))?;
        }
        last = Some(place);
    }
    let mut asked = Vec::new(alloc);
    for (doubt, index) in doubts.as_slice() {
        asked.push((ProfileWarning::Doubtful(*doubt), *index))?;
    }
    for place in 0..profile.unknown_keys.len() {
        asked.push((ProfileWarning::UnknownKey(place), 0))?;
    }
    if let Some(place) = profile.unknown_architecture {
        asked.push((ProfileWarning::UnknownArchitecture(place), 0))?;
    }
    asked.push((ProfileWarning::Flags, 0))?;
    for clash in clashes {
        asked.push((ProfileWarning::Clashing(*clash), 0))?;
    }
    Ok(asked)
}

// What may be open in a profile of which these are the entries.
fn tries_of(alloc: Global, lowered: &Lowered) -> Result<Vec<Try>, AllocError> {
    let entries = lowered.entries.as_slice();
    let mut tries = Vec::new(alloc);
    for own in by_number(alloc, entries)?.values() {
        let parts = own.as_slice();
        // If the part that is asked first has no conditions, it decides each call.
        let first = parts.first().and_then(|part| entries.get(part.begin));
        if !matches!(first, Some(entry) if entry.conditions.is_empty()) {
            push_pairs(alloc, &mut tries, lowered, parts)?;
        }
    }
    Ok(tries)
}

// The parts of each number, in the order in which they are asked.
fn by_number(alloc: Global, entries: &[Entry]) -> Result<BTreeMap<u32, Vec<Part>>, AllocError> {
    let mut all: BTreeMap<u32, Vec<Part>> = BTreeMap::new(alloc);
    for (index, entry) in entries.iter().enumerate() {
        let own = all.entry(entry.number)?.or_insert(Vec::new(alloc));
        let end = index + 1;
        match (own.last_mut(), entry.alternative) {
            (Some(last), Some(1..)) => last.end = end,
            _ => own.push(Part { begin: index, end })?,
        }
    }
    Ok(all)
}

// The pairs of these parts.
fn push_pairs(
    alloc: Global,
    tries: &mut Vec<Try>,
    lowered: &Lowered,
    parts: &[Part],
) -> Result<(), AllocError> {
    let entries = lowered.entries.as_slice();
    let parts = parts.get(..ENTRIES).unwrap_or(parts);
    for (first, one) in parts.iter().enumerate() {
        for (second, other) in parts.iter().enumerate() {
            if first < second && tries.len() < MOST {
                let one = entries.get(one.begin..one.end).unwrap_or(&[]);
                let other = entries.get(other.begin..other.end).unwrap_or(&[]);
                push_pair(alloc, tries, lowered.target_arch, one, other)?;
            }
        }
    }
    Ok(())
}

// What may be doubtful of two parts, of which the first is asked first.
fn push_pair(
    alloc: Global,
    tries: &mut Vec<Try>,
    arch: TargetArch,
    one: &[Entry],
    other: &[Entry],
) -> Result<(), AllocError> {
    let ([front, ..], [back, ..]) = (one, other) else {
        return Ok(());
    };
    // Of equal conditions libseccomp rejects one, which is said of it.
    if front.action == back.action || front.conditions.as_slice() == back.conditions.as_slice() {
        return Ok(());
    }
    let (first, second, number) = (front.place, back.place, front.number);
    let (low, high) = if first < second {
        (one, other)
    } else {
        (other, one)
    };
    if let Some(call) = call_of(alloc, arch, number, low, high)? {
        let doubt = Doubt::OpenOrder {
            first,
            second,
            call,
        };
        tries.push((doubt, 0))?;
    }
    Ok(())
}

// A call that meets one entry of each part.
fn call_of(
    alloc: Global,
    arch: TargetArch,
    number: u32,
    one: &[Entry],
    other: &[Entry],
) -> Result<Option<[u8; 64]>, AllocError> {
    if one.len() > CONDITIONS || other.len() > CONDITIONS {
        return Ok(None);
    }
    for first in one {
        for second in other {
            if first.conditions.len() > CONDITIONS || second.conditions.len() > CONDITIONS {
                continue;
            }
            let mut both = first.conditions.as_slice().to_vec(alloc)?;
            for condition in &second.conditions {
                both.push(*condition)?;
            }
            let call = met_call(alloc, arch, number, &both)?;
            if call.is_some() {
                return Ok(call);
            }
        }
    }
    Ok(None)
}
