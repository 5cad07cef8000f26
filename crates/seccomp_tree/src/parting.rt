// Rulings that compare one part of a record for single values, which are parted by it.

ghost use Rattle.std.specs.Prelude.{◌≡◌, ◌≤◌, ◌%◌, ◌↔◌, IfOk, None, drop, length, true};
ghost use Rattle.seccomp_tree.specs.Code.{IsIn};
ghost use Rattle.seccomp_tree.specs.Decisions.{only};
ghost use Rattle.seccomp_tree.specs.Parts.{AreAlone, AreInTurn, AreParted, IsGroup, IsParted, compared, left_at, low_half, occurs, part_mask, rest_of};
ghost use Rattle.seccompiler.specs.declared.backend.SeccompCmpOp.TheVariants.{MaskedEq};

use crate::code::{Code, Test};
use crate::decisions::Decision;
use crate::rules::only;
use crate::steps::{Target, WORDS};
use seccompiler::bpf::{LOAD, MASK, bpf_stmt};
use seccompiler::{SeccompCmpArgLen, SeccompCmpOp, SeccompCondition};
use std::alloc::{AllocError, Global};

// How many rulings are parted at once: each is compared with the others.
const MOST: usize = 8;

/// How often rulings that are left at a value are parted again at most, since each time takes more of the stack.
pub(crate) const AGAIN: usize = 8;

// A word of the record under a mask, which the first condition of a ruling compares, and with which value. The mask is 0 if it
// compares in another way. Of 64 bits the high half is compared first.
#[derive(Clone, Copy)]
pub(crate) struct Part {
    pub(crate) byte: u8,
    pub(crate) mask: u32,
    pub(crate) value: u32,
}

impl Code {
    /// Goes on as the last of the rulings says, and those in front of it that are parted with it, or else as what comes after
    /// them; and gives the place of the first of these. A ruling that could be of a run is parted only with such rulings.
    #[cycle(group)]
    pub(crate) fn group(
        &mut self,
        alloc: Global,
        rulings: &[Decision],
        after: Target,
        again: usize,
    ) -> Result<(usize, Target), AllocError>
        requires some { 1 ≤ length rulings.now }
        requires after { IsIn self.old after }
        ensures { IfOk result (λ x. IsGroup rulings.now x.0 self.old after x.1 self.new) }
    {
        let last = rulings.len() - 1;
        let ruling = &rulings[last];
        let shared = compared(ruling);
        let start = group_start(rulings, shared, is_alone(ruling), after);
        if start < last && again > 0 {
            let target = self.parted(alloc, &rulings[start..], shared, after, again - 1)?;
            return Ok((start, target));
        }
        let target = self.conditions(alloc, &ruling.conditions, ruling.value, after)?;
        Ok((last, target))
    }

    // Goes on as the first of the rulings that holds says, and else as what comes after them. They compare one part, which is
    // loaded once. Each of its values has the rulings that compare for it, and no other ruling holds there.
    #[cycle(group)]
    fn parted(
        &mut self,
        alloc: Global,
        rulings: &[Decision],
        shared: Part,
        after: Target,
        again: usize,
    ) -> Result<Target, AllocError>
        requires some { 1 ≤ length rulings.now }
        requires parted { AreParted shared rulings.now }
        requires aligned { shared.byte % 4 ≡ 0 }
        requires inside_record { shared.byte ≤ 60 }
        requires after { IsIn self.old after }
        ensures { IfOk result (λ t. AreInTurn rulings.now self.old after t self.new) }
    {
        let mut target = after;
        for left in (0..rulings.len()).rev() {
            let value = compared(&rulings[left]).value;
            if !occurs(&rulings[..left], value) {
                let others = left_at(alloc, &rulings[left..], value)?;
                let yes = self.in_turn(alloc, &others, after, again)?;
                target = self.test(Test::Equal, value, yes, target)?;
            }
        }
        if shared.mask != 0xffff_ffff {
            self.push(bpf_stmt(MASK, shared.mask))?;
        }
        self.push(bpf_stmt(LOAD, u32::from(shared.byte)))?;
        Ok(Target::At(self.len() - 1))
    }

    // Goes on as the first of the rulings that holds says, and else as what comes after them.
    #[cycle(group)]
    fn in_turn(
        &mut self,
        alloc: Global,
        rulings: &[Decision],
        after: Target,
        again: usize,
    ) -> Result<Target, AllocError>
        requires after { IsIn self.old after }
        ensures { IfOk result (λ t. AreInTurn rulings.now self.old after t self.new) }
    {
        let (mut left, mut target) = (rulings.len(), after);
        while left > 0 {
            (left, target) = self.group(alloc, &rulings[..left], target, again)?;
        }
        Ok(target)
    }
}

// The rulings that compare for a value, with what is left of their conditions.
fn left_at(alloc: Global, rulings: &[Decision], value: u32) -> Result<Vec<Decision>, AllocError>
    ensures { IfOk result (λ left. left.items ≡ left_at rulings.now value) }
{
    let mut left = Vec::new(alloc);
    for ruling in rulings {
        if compared(ruling).value == value {
            let conditions = rest_of(alloc, &ruling.conditions)?;
            left.push(Decision {
                conditions,
                value: ruling.value,
            })?;
        }
    }
    Ok(left)
}

// The conditions without what the first compares.
fn rest_of(
    alloc: Global,
    conditions: &[SeccompCondition],
) -> Result<Vec<SeccompCondition>, AllocError>
    ensures { IfOk result (λ rest. rest.items ≡ rest_of conditions.now) }
{
    let mut rest = Vec::new(alloc);
    let Some(first) = conditions.first() else {
        return Ok(rest);
    };
    if let Some(low) = low_half(first) {
        rest.push(low)?;
    }
    rest.extend_from_slice(&conditions[1..])?;
    Ok(rest)
}

// The condition on the low half that is left of one for a value of 64 bits.
fn low_half(condition: &SeccompCondition) -> Option<SeccompCondition>
    ensures { result ≡ low_half condition.now }
{
    let (SeccompCmpArgLen::Qword, SeccompCmpOp::Eq) = (condition.arg_len(), condition.operator())
    else {
        return None;
    };
    let low = condition.value() % WORDS;
    SeccompCondition::new(
        condition.arg_index(),
        SeccompCmpArgLen::Dword,
        SeccompCmpOp::Eq,
        low,
    )
    .ok()
}

// What a ruling's first condition compares.
fn compared(ruling: &Decision) -> Part
    ensures is { result ≡ compared ruling.now.conditions }
    ensures aligned { result.byte % 4 ≡ 0 }
    ensures inside_record { result.byte ≤ 60 }
{
    let Some(condition) = ruling.conditions.first() else {
        return Part {
            byte: 0,
            mask: 0,
            value: 0,
        };
    };
    let (high, low) = condition.split_value();
    let byte = 16 + 8 * condition.arg_index();
    let size = condition.arg_len();
    let (byte, mask, value) = match condition.operator() {
        SeccompCmpOp::Eq => match size {
            SeccompCmpArgLen::Qword => (byte + 4, 0xffff_ffff, high),
            SeccompCmpArgLen::Dword => (byte, 0xffff_ffff, low),
        },
        SeccompCmpOp::MaskedEq(mask) => {
            let mask = low_mask(size, mask);
            (byte, mask, low & mask)
        }
        _ => (byte, 0, 0),
    };
    Part { byte, mask, value }
}

// The mask of the low half, if it is compared alone, or else 0.
fn low_mask(size: SeccompCmpArgLen, mask: u64) -> u32
    ensures { result ≡ part_mask size (MaskedEq mask) }
{
    match size {
        SeccompCmpArgLen::Qword if mask >= WORDS => 0,
        _ => (mask % WORDS) as u32,
    }
}

// Where those of the rulings begin, up to the last, that are parted by what they share; behind the last if none is. All of them
// are alone, or none is.
fn group_start(rulings: &[Decision], shared: Part, alone: bool, after: Target) -> usize
    ensures within { result ≤ length rulings.now }
    ensures parted { AreParted shared (drop result rulings.now) }
    ensures alone { alone ≡ true → AreAlone (drop result rulings.now) }
{
    let len = rulings.len();
    let mut start = len;
    while start > 0
        && len - start < MOST
        && is_alone(&rulings[start - 1]) == alone
        && is_parted(&rulings[start - 1], shared, after)
    {
        start -= 1;
    }
    start
}

// Whether a ruling is of no run.
fn is_alone(ruling: &Decision) -> bool
    ensures { (result ≡ true) ↔ (only ruling.now.conditions ≡ None) }
{
    only(ruling).is_none()
}

// Whether a ruling compares this part. One that returns what comes after it needs no test.
fn is_parted(ruling: &Decision, shared: Part, after: Target) -> bool
    ensures { result ≡ true → IsParted shared ruling.now }
{
    let own = compared(ruling);
    own.mask != 0
        && own.mask == shared.mask
        && own.byte == shared.byte
        && after != Target::Give(ruling.value)
}

// Whether one of the rulings compares for this value.
fn occurs(rulings: &[Decision], value: u32) -> bool
    ensures { result ≡ occurs rulings.now value }
{
    for ruling in rulings {
        if compared(ruling).value == value {
            return true;
        }
    }
    false
}
