// Calls that change alike, whose lines are one.

use crate::lines::is_named_architecture;
use seccomp_answers::findings::parts::X32;
use seccomp_answers::findings::{Answer, Finding, Part};
use std::alloc::{AllocError, Global};

// More ranges than these that change alike have one line; and more calls than this.
const RANGES: usize = 4;

const CALLS: usize = 1;

/// What is found, with ranges as one that lie side by side and change alike, or on each of which some calls change. An architecture that
/// has a name stays alone.
pub(crate) fn merged(alloc: Global, findings: &[Finding]) -> Result<Vec<Finding>, AllocError> {
    let mut all: Vec<Finding> = Vec::new(alloc);
    for finding in findings {
        let both = match all.last() {
            Some(last) => joined(*last, *finding),
            None => None,
        };
        match both {
            Some(both) => {
                let _last = all.pop();
                all.push(both)?;
            }
            None => all.push(*finding)?,
        }
    }
    Ok(all)
}

// Two findings as one, if they are of ranges side by side that change alike, or on each of which some calls change.
fn joined(first: Finding, second: Finding) -> Option<Finding> {
    if !change_alike(first, second) && !change_in_part(first, second) {
        return None;
    }
    let part = match (first.part, second.part) {
        (
            Part::Unnamed { least, greatest },
            Part::Unnamed {
                least: next,
                greatest: end,
            },
        ) if next.checked_sub(1) == Some(greatest) => Part::Unnamed {
            least,
            greatest: end,
        },
        (
            Part::Elsewhere { least, greatest },
            Part::Elsewhere {
                least: next,
                greatest: end,
            },
        ) if next.checked_sub(1) == Some(greatest) => Part::Elsewhere {
            least,
            greatest: end,
        },
        _ => return None,
    };
    let answer = first.answer;
    Some(Finding { part, answer })
}

/// The parts of all findings that have one line with this one, in order: none if it has a line of its own.
pub(crate) fn parts_alike(
    alloc: Global,
    findings: &[Finding],
    finding: Finding,
) -> Result<Vec<Part>, AllocError> {
    let mut parts = Vec::new(alloc);
    for other in findings {
        if change_alike(*other, finding) {
            parts.push(other.part)?;
        }
    }
    let most = match finding.part {
        Part::Named { .. } => CALLS,
        _ => RANGES,
    };
    if parts.len() <= most {
        return Ok(Vec::new(alloc));
    }
    Ok(parts)
}

// Whether the calls of two parts of one kind change throughout from the same value to the same.
fn change_alike(first: Finding, second: Finding) -> bool {
    match (first.answer, second.answer) {
        (
            Answer::Fails {
                old,
                new,
                throughout: true,
                ..
            },
            Answer::Fails {
                old: other_old,
                new: other_new,
                throughout: true,
                ..
            },
        ) => old == other_old && new == other_new && are_of_one_kind(first.part, second.part),
        _ => false,
    }
}

// Whether some calls change of each of two parts of one kind, and neither is an architecture that has a name.
fn change_in_part(first: Finding, second: Finding) -> bool {
    varies(first)
        && varies(second)
        && are_of_one_kind(first.part, second.part)
        && !is_named_architecture(first.part)
        && !is_named_architecture(second.part)
}

// Whether some calls of a part change, and others don't or change otherwise.
fn varies(finding: Finding) -> bool {
    matches!(
        finding.answer,
        Answer::Fails {
            throughout: false,
            ..
        }
    )
}

// Whether both are calls with a name, other calls, x32 calls, or calls of other architectures.
fn are_of_one_kind(first: Part, second: Part) -> bool {
    match (first, second) {
        (Part::Named { .. }, Part::Named { .. })
        | (Part::Elsewhere { .. }, Part::Elsewhere { .. }) => true,
        (Part::Unnamed { least, .. }, Part::Unnamed { least: other, .. }) => {
            (least < X32) == (other < X32)
        }
        _ => false,
    }
}

/// Whether two parts begin with the same calls.
pub(crate) fn begin_alike(first: Part, second: Part) -> bool {
    first_of(first) == first_of(second)
}

// The least number of a part.
fn first_of(part: Part) -> u32 {
    match part {
        Part::Named { number } => number,
        Part::Unnamed { least, .. } | Part::Elsewhere { least, .. } => least,
    }
}
