// Conditions and rulings as targets: what a condition chooses, and what the first ruling that holds says.

ghost use Rattle.std.specs.Prelude.{◌≡◌, ◌<◌, ◌≤◌, ◌-◌, ◌%◌, ◌∷◌, [], Some, IfOk, IfErr, IfSome, bit_and, length, nat_eq};
ghost use Rattle.seccompiler.specs.Machine.{greatest_length, word_at};
ghost use Rattle.seccomp_tree.specs.declared.error.TreeError.TheVariants as tree;
ghost use Rattle.seccomp_tree.specs.declared.steps.Target.TheVariants.{Give};
ghost use Rattle.seccomp_tree.specs.Code.{AreAlike, AreMet, AreRunSteps, Grows, IsAnswer, IsAsked, IsIn, IsMet, IsRun};
ghost use Rattle.seccomp_tree.specs.Decisions.{alike, only, rules_length};

use crate::code::{Code, Test};
use crate::decisions::Decision;
use crate::error::TreeError;
use crate::parting::AGAIN;
use crate::steps::{OPEN, Step, Target, WORDS, filled, laid, numbers_of, one, open_to, push_step};
use seccompiler::bpf::{BPF_MAX_LEN, LOAD, MASK, bpf_stmt};
use seccompiler::{SeccompCmpArgLen, SeccompCmpOp, SeccompCondition};
use std::alloc::{AllocError, Global};

impl Code {
    /// Goes on as the first of the rulings that holds says, or returns the default; whatever the accumulator holds. If one
    /// value answers each call, it is returned at once.
    pub(crate) fn rules(
        &mut self,
        alloc: Global,
        rulings: &[Decision],
        default: u32,
    ) -> Result<Target, TreeError>
        ensures grows { IfOk result (λ _. Grows self.old (rules_length rulings.now) self.new) }
        ensures answer { IfOk result (λ t. IsAnswer self.new default rulings.now t) }
        ensures large { IfErr result (λ e. e ≡ tree.TooLarge → greatest_length < rules_length rulings.now) }
    {
        match rulings.first() {
            None => return Ok(Target::Give(default)),
            Some(first) if first.conditions.is_empty() => return Ok(Target::Give(first.value)),
            _ => {}
        }
        // What comes after the rulings that are left, and where those end that compare the same as the one in front of them.
        let mut after = Target::Give(default);
        let mut end = rulings.len();
        let mut left = rulings.len();
        while left > 0 {
            match only(&rulings[left - 1]) {
                None => (left, after) = self.group(alloc, &rulings[..left], after, AGAIN)?,
                Some(condition) => {
                    left -= 1;
                    if left > 0 && joins(&rulings[left - 1], &condition) {
                        continue;
                    }
                    after = self.run(alloc, &condition, &rulings[left..end], after)?;
                }
            }
            end = left;
        }
        Ok(after)
    }

    // Goes on as the first ruling of a run says that holds, and else as what comes after it, whatever the accumulator holds.
    fn run(
        &mut self,
        alloc: Global,
        condition: &SeccompCondition,
        run: &[Decision],
        after: Target,
    ) -> Result<Target, TreeError>
        requires some { 1 ≤ length run.now }
        requires alike { AreAlike condition.now run.now }
        requires after { IsIn self.old after }
        ensures run { IfOk result (λ t. IsRun condition.now run.now self.old after t self.new) }
        ensures large { IfErr result (λ e. e ≡ tree.TooLarge → greatest_length < rules_length run.now) }
    {
        let (size, index) = (condition.arg_len(), condition.arg_index());
        let steps = filled(
            alloc,
            size,
            &run_steps(alloc, condition, run)?,
            &one(alloc, after)?,
        )?;
        // A program has fewer tests than so many steps need.
        if steps.len() > BPF_MAX_LEN {
            return Err(TreeError::TooLarge);
        }
        Ok(self.argument(alloc, size, index, &steps)?)
    }

    /// Returns the value if all conditions hold, and else goes on: the last of them first, since code is written from its
    /// end.
    pub(crate) fn conditions(
        &mut self,
        alloc: Global,
        conditions: &[SeccompCondition],
        value: u32,
        after: Target,
    ) -> Result<Target, AllocError>
        requires after { IsIn self.old after }
        ensures { IfOk result (λ t. AreMet conditions.now self.old (Give value) after t self.new) }
    {
        let mut target = Target::Give(value);
        for left in (0..conditions.len()).rev() {
            target = self.condition(alloc, &conditions[left], target, after)?;
        }
        Ok(target)
    }

    // Goes on as the one target says if the condition holds, and else as the other, whatever the accumulator holds.
    fn condition(
        &mut self,
        alloc: Global,
        condition: &SeccompCondition,
        yes: Target,
        no: Target,
    ) -> Result<Target, AllocError>
        requires yes { IsIn self.old yes }
        requires no { IsIn self.old no }
        ensures { IfOk result (λ t. AreMet (condition.now ∷ []) self.old yes no t self.new) }
    {
        if yes == no {
            return Ok(yes);
        }
        if let SeccompCmpOp::MaskedEq(mask) = condition.operator() {
            // The low half first, since code is written from its end.
            let index = condition.arg_index();
            let (high_value, low_value) = condition.split_value();
            let yes = self.masked(16 + 8 * index, (mask % WORDS) as u32, low_value, yes, no)?;
            if let SeccompCmpArgLen::Dword = condition.arg_len() {
                return Ok(yes);
            }
            return self.masked(20 + 8 * index, (mask / WORDS) as u32, high_value, yes, no);
        }
        let steps = laid(alloc, condition, yes, no)?;
        self.argument(alloc, condition.arg_len(), condition.arg_index(), &steps)
    }

    // Goes on as the one target says if the record's word at this byte has the value's bits under the mask.
    fn masked(
        &mut self,
        byte: u8,
        mask: u32,
        value: u32,
        yes: Target,
        no: Target,
    ) -> Result<Target, AllocError>
        requires aligned { byte % 4 ≡ 0 }
        requires inside_record { byte ≤ 60 }
        requires yes { IsIn self.old yes }
        requires no { IsIn self.old no }
        ensures { IfOk result (λ t. IsMet (λ r. nat_eq (bit_and (word_at r byte) mask) (bit_and value mask)) 5 4 self.old yes no t self.new) }
    {
        if mask == 0 {
            return Ok(yes);
        }
        self.test(Test::Equal, value & mask, yes, no)?;
        self.push(bpf_stmt(MASK, mask))?;
        self.push(bpf_stmt(LOAD, u32::from(byte)))?;
        Ok(Target::At(self.len() - 1))
    }
}

// Steps over what the rulings of a run compare: the value of the first whose comparison holds. Other numbers they leave open.
fn run_steps(
    alloc: Global,
    like: &SeccompCondition,
    run: &[Decision],
) -> Result<Vec<Step>, AllocError>
    requires { AreAlike like.now run.now }
    ensures { IfOk result (λ steps. AreRunSteps like.now run.now steps.items) }
{
    if let Some(steps) = ascending_steps(alloc, like, run)? {
        return Ok(steps);
    }
    if run.len() < 2 {
        return match run.first() {
            Some(ruling) => match only(ruling) {
                Some(condition) => laid(alloc, &condition, Target::Give(ruling.value), OPEN),
                None => one(alloc, OPEN),
            },
            None => one(alloc, OPEN),
        };
    }
    let half = run.len() / 2;
    let front = run_steps(alloc, like, &run[..half])?;
    let back = run_steps(alloc, like, &run[half..])?;
    filled(alloc, like.arg_len(), &front, &back)
}

// The same, if each ruling of the run compares for one value, and these ascend.
fn ascending_steps(
    alloc: Global,
    like: &SeccompCondition,
    run: &[Decision],
) -> Result<Option<Vec<Step>>, AllocError>
    requires { AreAlike like.now run.now }
    ensures { IfOk result (λ given. IfSome given (λ steps. AreRunSteps like.now run.now steps.items)) }
{
    let size = numbers_of(like.arg_len());
    let mut steps = Vec::with_capacity(alloc, 2 * run.len() + 1)?;
    let mut next = 0;
    for ruling in run {
        let Some(value) = asked(ruling) else {
            return Ok(None);
        };
        if value < next {
            return Ok(None);
        }
        open_to(&mut steps, next, value)?;
        push_step(&mut steps, value as u64, Target::Give(ruling.value))?;
        next = value + 1;
    }
    open_to(&mut steps, next, size)?;
    Ok(Some(steps))
}

// What a ruling compares for, if its one condition is for one value.
fn asked(ruling: &Decision) -> Option<u128>
    ensures { IfSome result (IsAsked (only ruling.now.conditions)) }
{
    let condition = only(ruling)?;
    let SeccompCmpOp::Eq = condition.operator() else {
        return None;
    };
    match condition.arg_len() {
        SeccompCmpArgLen::Dword => Some(u128::from(condition.value() % WORDS)),
        SeccompCmpArgLen::Qword => Some(u128::from(condition.value())),
    }
}

// Whether a ruling has one condition, without a mask, that compares the same as the other.
fn joins(ruling: &Decision, other: &SeccompCondition) -> bool
    ensures { result ≡ alike (only ruling.now.conditions) (Some other.now) }
{
    match only(ruling) {
        Some(one) => one.arg_index() == other.arg_index() && one.arg_len() == other.arg_len(),
        None => false,
    }
}

/// A ruling's condition, if it has one alone, without a mask.
pub(crate) fn only(ruling: &Decision) -> Option<SeccompCondition>
    ensures { result ≡ only ruling.now.conditions }
{
    let [condition] = ruling.conditions.as_slice() else {
        return None;
    };
    match condition.operator() {
        SeccompCmpOp::MaskedEq(_) => None,
        _ => Some(*condition),
    }
}
