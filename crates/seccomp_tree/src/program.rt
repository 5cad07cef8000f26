// The program of decisions.

ghost use Rattle.std.specs.Prelude.{◌≡◌, ◌<◌, ◌≤◌, ◌^◌, ℕ, Contains, IfOk, IfErr, IfSome, true};
ghost use Rattle.seccompiler.specs.Machine.{greatest_length};
ghost use Rattle.seccomp_tree.specs.declared.error.TreeError.TheVariants as tree;

use crate::code::{Code, Test};
use crate::decisions::{Decision, Decisions, KILL_PROCESS};
use crate::error::TreeError;
use crate::steps::{Step, Target, WORDS, push_step};
use seccompiler::BpfProgram;
use seccompiler::bpf::{
    BPF_MAX_LEN, LOAD, SECCOMP_DATA_ARCH_OFFSET, SECCOMP_DATA_NR_OFFSET, bpf_stmt,
};
use std::alloc::Global;
use std::ops::Bound;

// With how many of the calls that were seen last a call's rulings are compared.
const LAST: usize = 8;

impl Decisions {
    ghost use Rattle.seccomp_tree.specs.TreeProgram.{IsTreeProgram, IsTooLargeFor, calls_length};
    ghost use Rattle.seccomp_tree.specs.Code.{AllAnswer, Answers, AreAnsweredAlike, AreCallSteps, Grows};
    ghost use Rattle.seccomp_tree.specs.Decisions.{rules_length};
    ghost use Rattle.seccomp_tree.specs.Decided.{default_for, rulings_for};

    /// The program of these decisions: one tree of tests over call numbers, and after it the tests of their arguments.
    ///
    /// # Errors
    ///
    /// `TooLarge` if the program would have more than 4096 instructions, and `OutOfMemory` if memory runs out.
    pub fn to_bpf(&self, alloc: Global) -> Result<BpfProgram, TreeError>
        ensures program { IfOk result (λ p. IsTreeProgram self.now p.items) }
        ensures large { IfErr result (IsTooLargeFor self.now) }
    {
        let mut code = Code::new(alloc)?;
        let steps = self.call_steps(alloc, &mut code)?;
        let calls = code.word(SECCOMP_DATA_NR_OFFSET, &steps)?;
        let arch = self.target_arch.get_audit_value();
        code.test(Test::Equal, arch, calls, Target::Give(KILL_PROCESS))?;
        code.push(bpf_stmt(LOAD, u32::from(SECCOMP_DATA_ARCH_OFFSET)))?;
        let program = code.into_program();
        if program.len() > BPF_MAX_LEN {
            return Err(TreeError::TooLarge);
        }
        Ok(program)
    }

    // The steps over call numbers.
    #[tactic(auto, using(crate::proofs::Decided::calls_less))]
    fn call_steps(&self, alloc: Global, code: &mut Code) -> Result<Vec<Step>, TreeError>
        ensures steps { IfOk result (λ steps. AreCallSteps code.old self.now (calls_length self.now.calls) (2 ^ 32) steps.items code.new) }
        ensures large { IfErr result (λ e. e ≡ tree.TooLarge → greatest_length < calls_length self.now.calls) }
    {
        let mut steps = Vec::new(alloc);
        let mut seen = Vec::new(alloc);
        let mut next: u64 = 0;
        while next < WORDS {
            let number = next as u32;
            let target = self.answer(alloc, code, &mut seen, number)?;
            push_step(&mut steps, next, target)?;
            next = self.next_start(number);
        }
        Ok(steps)
    }

    // What answers calls of a number: what answers one seen before it that has the same rulings, or what is written for them.
    #[tactic(auto, using(crate::proofs::Decided::answer_seen, crate::proofs::Runs::grows_not))]
    fn answer(
        &self,
        alloc: Global,
        code: &mut Code,
        seen: &mut Vec<(u32, Target)>,
        number: u32,
    ) -> Result<Target, TreeError>
        requires seen { AllAnswer self.now code.old seen.old.items }
        ensures grows { IfOk result (λ _. Grows code.old (rules_length (rulings_for self.now.calls number)) code.new) }
        ensures answer { IfOk result (Answers self.now code.new number) }
        ensures seen { IfOk result (λ _. AllAnswer self.now code.new seen.new.items) }
        ensures large { IfErr result (λ e. e ≡ tree.TooLarge → greatest_length < rules_length (rulings_for self.now.calls number)) }
    {
        if let Some((_, target)) = self.seen_as(seen, number) {
            return Ok(target);
        }
        let target = code.rules(alloc, self.rulings_for(number), self.default_for(number))?;
        if let Target::Give(_) = target {
            return Ok(target);
        }
        match seen.push((number, target)) {
            Ok(()) => Ok(target),
            Err(_) => Err(TreeError::OutOfMemory),
        }
    }

    // Of the last numbers that were seen one that has conditions, the same as this one, with the same values.
    fn seen_as(&self, seen: &[(u32, Target)], number: u32) -> Option<(u32, Target)>
        ensures { IfSome result (λ e. Contains seen.now e × AreAnsweredAlike self.now e.0 number) }
    {
        let rulings = self.rulings_for(number);
        match rulings.first() {
            Some(first) if !first.conditions.is_empty() => {}
            _ => return None,
        }
        for place in (seen.len().saturating_sub(LAST)..seen.len()).rev() {
            let (other, target) = seen[place];
            if self.default_for(other) == self.default_for(number)
                && are_same(self.rulings_for(other), rulings)
            {
                return Some((other, target));
            }
        }
        None
    }

    // The next number after this one that may be answered otherwise: it or this one has rulings, or a default starts at it;
    // or 2^32.
    fn next_start(&self, number: u32) -> u64
        ensures above { number < result }
        ensures within { result ≤ 2 ^ 32 }
        ensures default { (n : ℕ) → number ≤ n → n < result → default_for self.now.defaults n ≡ default_for self.now.defaults number }
        ensures rulings { (n : ℕ) → number ≤ n → n < result → rulings_for self.now.calls n ≡ rulings_for self.now.calls number }
    {
        let mut from_here = self
            .calls
            .range((Bound::Included(number), Bound::Unbounded));
        let mut next = match from_here.next() {
            Some((next, _)) => u64::from(*next).max(u64::from(number) + 1),
            None => WORDS,
        };
        for default in &self.defaults {
            if number < default.start {
                next = next.min(u64::from(default.start));
            }
        }
        next
    }
}

// Whether rulings have the same conditions and values.
fn are_same(rulings: &[Decision], others: &[Decision]) -> bool
    ensures { result ≡ true → rulings.now ≡ others.now }
{
    if rulings.len() != others.len() {
        return false;
    }
    for index in 0..rulings.len() {
        let ruling = &rulings[index];
        let other = &others[index];
        if ruling.value != other.value
            || ruling.conditions.as_slice() != other.conditions.as_slice()
        {
            return false;
        }
    }
    true
}
