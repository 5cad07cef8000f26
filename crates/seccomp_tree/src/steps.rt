// What is looked up by a number: steps, each from its start up to the next one's; and comparisons laid over them.

ghost use Rattle.std.specs.Prelude.{◌≡◌, ◌<◌, ◌≤◌, ◌^◌, ◌∷◌, [], IfOk, true};
ghost use Rattle.seccomp_tree.specs.Code.{AreFilled, AreLaid, AreOpenTo, AreSteps, IsPushed, IsTurn, compares, filled_by, numbers_of};
ghost use Rattle.seccomp_tree.specs.Decisions.{is_plain};

use seccompiler::{SeccompCmpArgLen, SeccompCmpOp, SeccompCondition};
use std::alloc::{AllocError, Global};

/// How many numbers there are of 32 bits.
pub(crate) const WORDS: u64 = 0x1_0000_0000;

/// What steps have for numbers that they leave open. No ruling goes on at the last instruction of a program.
pub(crate) const OPEN: Target = Target::At(0);

/// What a program does next.
#[derive(Clone, Copy, PartialEq, Eq)]
pub(crate) enum Target {
    /// It returns this value.
    Give(u32),
    /// It goes on at this place, counted from its end, whatever the accumulator holds.
    At(usize),
}

/// From its start on, up to the start of the next step, each number has this target.
#[derive(Clone, Copy)]
pub(crate) struct Step {
    pub(crate) start: u64,
    pub(crate) target: Target,
}

/// One target for all numbers.
pub(crate) fn one(alloc: Global, target: Target) -> Result<Vec<Step>, AllocError>
    ensures { IfOk result (λ steps. steps.items ≡ record { start = 0; target = target } ∷ []) }
{
    Ok(vec![in alloc; Step { start: 0, target }]?)
}

/// Gives the numbers from `start` on this target. The steps are over the numbers below `start`.
pub(crate) fn push_step(steps: &mut Vec<Step>, start: u64, target: Target) -> Result<(), AllocError>
    requires below { AreSteps start steps.old.items }
    ensures { IfOk result (λ _. IsPushed steps.old.items start target steps.new.items) }
{
    // Neighbours with one target are one step.
    if steps.is_empty() || steps[steps.len() - 1].target != target {
        steps.push(Step { start, target })?;
    }
    Ok(())
}

/// Leaves the numbers from `next` up to `end` open. The steps are over the numbers below `next`.
pub(crate) fn open_to(steps: &mut Vec<Step>, next: u128, end: u128) -> Result<(), AllocError>
    requires below { AreSteps next steps.old.items }
    requires ascends { next ≤ end }
    requires fits { end ≤ 2 ^ 64 }
    ensures { IfOk result (λ _. AreOpenTo steps.old.items next end steps.new.items) }
{
    if next < end {
        push_step(steps, next as u64, OPEN)?;
    }
    Ok(())
}

/// Steps that have the target if the condition's comparison holds, and else the other.
pub(crate) fn laid(
    alloc: Global,
    condition: &SeccompCondition,
    target: Target,
    other: Target,
) -> Result<Vec<Step>, AllocError>
    requires plain { is_plain condition.now.operator ≡ true }
    ensures { IfOk result (λ steps. AreLaid condition.now target other steps.items) }
{
    let size = numbers_of(condition.arg_len());
    let value = u128::from(condition.value()) % size;
    let mut steps = Vec::with_capacity(alloc, 3)?;
    let mut number = 0;
    while number < size {
        let is_met = compares(condition.operator(), number, value);
        push_step(
            &mut steps,
            number as u64,
            if is_met { target } else { other },
        )?;
        number = turn(number, value + u128::from(value <= number), size);
    }
    Ok(steps)
}

/// Steps that have what the front has, and what the back has for numbers that the front leaves open.
pub(crate) fn filled(
    alloc: Global,
    length: SeccompCmpArgLen,
    front: &[Step],
    back: &[Step],
) -> Result<Vec<Step>, AllocError>
    requires front { AreSteps (numbers_of length) front.now }
    requires back { AreSteps (numbers_of length) back.now }
    ensures { IfOk result (λ steps. AreFilled length front.now back.now steps.items) }
{
    let size = numbers_of(length);
    let mut steps = Vec::with_capacity(alloc, front.len() + back.len())?;
    let (mut number, mut ahead, mut behind) = (0, front, back);
    while number < size {
        let target = filled_by(ahead[0].target, behind[0].target);
        push_step(&mut steps, number as u64, target)?;
        let end = ahead.get(1).map_or(size, |step| u128::from(step.start));
        let other_end = behind.get(1).map_or(size, |step| u128::from(step.start));
        number = end.min(other_end);
        ahead = &ahead[usize::from(number == end)..];
        behind = &behind[usize::from(number == other_end)..];
    }
    Ok(steps)
}

// The front's target, or the back's if the front leaves it open.
fn filled_by(front: Target, back: Target) -> Target
    ensures { result ≡ filled_by front back }
{
    if front == OPEN { back } else { front }
}

/// How many numbers a length has.
pub(crate) fn numbers_of(length: SeccompCmpArgLen) -> u128
    ensures { result ≡ numbers_of length }
{
    match length {
        SeccompCmpArgLen::Dword => 0x1_0000_0000,
        SeccompCmpArgLen::Qword => 0x1_0000_0000_0000_0000,
    }
}

/// The cut or the end, whichever comes first behind the number.
pub(crate) fn turn(number: u128, cut: u128, end: u128) -> u128
    requires { number < end }
    ensures { IsTurn number cut end result }
{
    if number < cut { cut.min(end) } else { end }
}

// Whether the comparison holds.
fn compares(operator: SeccompCmpOp, number: u128, value: u128) -> bool
    ensures { result ≡ compares operator number value }
{
    match operator {
        SeccompCmpOp::Eq => number == value,
        SeccompCmpOp::Ne => number != value,
        SeccompCmpOp::Ge => number >= value,
        SeccompCmpOp::Gt => number > value,
        SeccompCmpOp::Le => number <= value,
        SeccompCmpOp::Lt => number < value,
        SeccompCmpOp::MaskedEq(mask) => number & u128::from(mask) == value & u128::from(mask),
    }
}
