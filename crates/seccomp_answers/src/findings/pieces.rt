// What is found of two programs part by part. A range of numbers on which it isn't the same for all calls is cut into pieces, where the
// programs test its numbers.

ghost use Rattle.std.specs.Prelude.{◌≡◌, ◌∷◌, [], IfOk, IfSome, IsTrue};
ghost use Rattle.std.specs.List.{filter};
ghost use Rattle.seccomp_compare.specs.Machine.{IsChecked};
ghost use Rattle.seccomp_answers.specs.Findings.{AreAllFound, AreFoundOn, AreReturned, IsCutInto, is_kept};
ghost use Rattle.seccomp_answers.specs.Rulings.{AreOf};

use crate::findings::{
    Answer, FIRST, Filters, Finding, Part, Progress, Terms, answer_on, are_same,
};
use seccomp_compare::machine::JUMP_IF_SET;
use seccompiler::BpfProgramRef;
use seccompiler::bpf::{JUMP_AT_LEAST, JUMP_EQUAL, JUMP_GREATER, MASK};
use std::alloc::{AllocError, Global};

/// What is found of two programs, of these filters if there are any, on these parts, or on the pieces of them: nothing of those on which
/// the relation holds.
pub(crate) fn found_on(
    alloc: Global,
    terms: Terms,
    parts: &[Part],
    new: BpfProgramRef<'_>,
    old: BpfProgramRef<'_>,
    filters: Option<Filters<'_>>,
    progress: &mut impl Progress,
) -> Result<Vec<Finding>, AllocError>
    requires new_checked { IsChecked new.now }
    requires old_checked { IsChecked old.now }
    requires filters { IfSome filters (AreOf terms.target new.now old.now) }
    ensures { IfOk result (λ findings. AreFoundOn terms.target terms.relation (AreReturned new.now old.now) parts.now findings.items) }
{
    let is_same = are_same(new, old);
    let borders = borders_of(alloc, new, old)?;
    let mut all = Vec::new(alloc);
    for part in parts {
        let part = *part;
        let pieces = pieces_of(
            alloc, terms, part, new, old, is_same, filters, &borders, progress,
        )?;
        all.extend_from_slice(&pieces)?;
    }
    kept(alloc, &all)
}

// The findings on whose parts the relation doesn't hold or nothing is known.
fn kept(alloc: Global, all: &[Finding]) -> Result<Vec<Finding>, AllocError>
    ensures { IfOk result (λ findings. findings.items ≡ filter is_kept all.now) }
{
    let mut findings = Vec::new(alloc);
    for finding in all {
        match finding.answer {
            Answer::Holds => {}
            _ => findings.push(*finding)?,
        }
    }
    Ok(findings)
}

// What is found on a part, or, of a range on which it isn't the same for all calls, on its pieces.
fn pieces_of(
    alloc: Global,
    terms: Terms,
    part: Part,
    new: BpfProgramRef<'_>,
    old: BpfProgramRef<'_>,
    is_same: bool,
    filters: Option<Filters<'_>>,
    borders: &[u32],
    progress: &mut impl Progress,
) -> Result<Vec<Finding>, AllocError>
    requires new_checked { IsChecked new.now }
    requires old_checked { IsChecked old.now }
    requires same { IsTrue is_same → new.now ≡ old.now }
    requires filters { IfSome filters (AreOf terms.target new.now old.now) }
    ensures { IfOk result (λ pieces. AreAllFound terms.target terms.relation (AreReturned new.now old.now) (part ∷ []) pieces.items) }
{
    let answer = answer_on(alloc, terms, part, new, old, is_same, filters, progress)?;
    if may_be_cut(part, answer)
        && let Some(pieces) = cut_at(alloc, terms, part, new, old, borders, progress)?
    {
        return Ok(pieces);
    }
    let mut pieces = Vec::new(alloc);
    pieces.push(Finding { part, answer })?;
    Ok(pieces)
}

// Whether a part is a range, and what is found isn't seen to be so for all of its calls.
fn may_be_cut(part: Part, answer: Answer) -> bool {
    let is_range = !matches!(part, Part::Named { .. });
    is_range
        && matches!(
            answer,
            Answer::Fails {
                throughout: false,
                ..
            }
        )
}

// What is found on the pieces of a range that is cut at these numbers; nothing if that is more than a short search on one of them.
fn cut_at(
    alloc: Global,
    terms: Terms,
    part: Part,
    new: BpfProgramRef<'_>,
    old: BpfProgramRef<'_>,
    borders: &[u32],
    progress: &mut impl Progress,
) -> Result<Option<Vec<Finding>>, AllocError>
    requires new_checked { IsChecked new.now }
    requires old_checked { IsChecked old.now }
    ensures { IfOk result (λ pieces. IfSome pieces (λ all. AreAllFound terms.target terms.relation (AreReturned new.now old.now) (part ∷ []) all.items)) }
{
    let (target, relation) = (terms.target, terms.relation);
    let most = terms.most.min(FIRST);
    let terms = Terms {
        target,
        relation,
        most,
    };
    let (mut pieces, mut rest) = (Vec::new(alloc), part);
    for border in borders {
        let Some((front, back)) = cut(rest, *border) else {
            continue;
        };
        let answer = answer_on(alloc, terms, front, new, old, false, None, progress)?;
        if let Answer::Undecided { .. } = answer {
            return Ok(None);
        }
        pieces.push(Finding {
            part: front,
            answer,
        })?;
        rest = back;
    }
    let answer = answer_on(alloc, terms, rest, new, old, false, None, progress)?;
    if let Answer::Undecided { .. } = answer {
        return Ok(None);
    }
    pieces.push(Finding { part: rest, answer })?;
    Ok(Some(pieces))
}

// The numbers of a range below this one, and those from it on, if there are such numbers.
fn cut(part: Part, border: u32) -> Option<(Part, Part)>
    ensures { IfSome result (λ both. IsCutInto part both.0 both.1) }
{
    match part {
        Part::Unnamed { least, greatest } if least < border && border <= greatest => Some((
            Part::Unnamed {
                least,
                greatest: border - 1,
            },
            Part::Unnamed {
                least: border,
                greatest,
            },
        )),
        Part::Elsewhere { least, greatest } if least < border && border <= greatest => Some((
            Part::Elsewhere {
                least,
                greatest: border - 1,
            },
            Part::Elsewhere {
                least: border,
                greatest,
            },
        )),
        _ => None,
    }
}

// The numbers at which what two programs return may change, in ascending order.
fn borders_of(
    alloc: Global,
    new: BpfProgramRef<'_>,
    old: BpfProgramRef<'_>,
) -> Result<Vec<u32>, AllocError> {
    let mut borders = Vec::new(alloc);
    push_borders(&mut borders, new)?;
    push_borders(&mut borders, old)?;
    borders.sort()?;
    Ok(borders)
}

// Adds the numbers that a program tests, and those behind them; and where a bit that it tests begins and ends to be set.
fn push_borders(borders: &mut Vec<u32>, program: BpfProgramRef<'_>) -> Result<(), AllocError> {
    for instruction in program {
        let (code, k) = (instruction.code, instruction.k);
        if matches!(code, JUMP_EQUAL | JUMP_GREATER | JUMP_AT_LEAST) {
            borders.push(k)?;
            borders.push(k.saturating_add(1))?;
        }
        if matches!(code, JUMP_IF_SET | MASK) {
            borders.push(k)?;
            borders.push(k.saturating_mul(2))?;
            borders.push(k.saturating_mul(3))?;
        }
    }
    Ok(())
}
