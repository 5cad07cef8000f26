// The tree of tests of steps, over the accumulator, a word of the record or an argument.

ghost use Rattle.std.specs.Prelude.{◌≡◌, ◌≤◌, ◌+◌, ◌-◌, ◌*◌, ◌/◌, ◌%◌, ◌^◌, All, IfOk, length, min};
ghost use Rattle.seccomp_tree.specs.Code.{AllIn, AreOver, AreSteps, IsIn, IsMiddle, IsPart, IsTree, numbers_of, row, second_stands_out};
ghost use Rattle.seccompiler.specs.Machine.{argument_at, word_at};
ghost use Rattle.seccompiler.specs.Policy.{part_of};
ghost use Rattle.seccompiler.specs.declared.backend.SeccompCmpArgLen.TheVariants.{Dword};

use crate::code::{Code, Test};
use crate::steps::{Step, Target, push_step, turn};
use seccompiler::SeccompCmpArgLen;
use seccompiler::bpf::{LOAD, bpf_stmt};
use std::alloc::{AllocError, Global};

// How many numbers of 64 bits have one high half, and how many high halves there are.
const HALF: u128 = 0x1_0000_0000;

// How many steps on each side of the middle are looked at: an odd number, since two steps that take turns are a test for two.
const AROUND: usize = 9;

// Whether the second step is of one number, and its neighbours have one target.
fn stands_out(steps: &[Step]) -> bool
    ensures { result ≡ second_stands_out steps.now }
{
    steps.len() > 2
        && steps[0].target == steps[2].target
        && steps[2].start.saturating_sub(steps[1].start) == 1
}

// How many tests tell the steps apart, one after the other, or `most` if there are more.
fn tests(steps: &[Step], most: usize) -> usize
    ensures { result ≡ min (row steps.now) most }
{
    if steps.len() < 2 || most == 0 {
        return 0;
    }
    let settled = if stands_out(steps) { 2 } else { 1 };
    1 + tests(&steps[settled..], most - 1)
}

// How many tests tell the steps near a place apart, if they are halved at another.
fn tests_around(steps: &[Step], place: usize, half: usize) -> usize
    requires half { half ≤ length steps.now }
    requires near { half ≤ place + 9 }
    requires near_back { place ≤ half + 9 }
{
    let back = &steps[place.saturating_sub(AROUND)..half];
    let front = &steps[half..steps.len().min(place + AROUND)];
    tests(back, 2 * AROUND) + tests(front, 2 * AROUND)
}

// Where to halve steps, neither half longer than half of `most`: near the middle, but so that few tests are needed there. A step
// that stands out stays with its neighbours.
fn middle(steps: &[Step], most: usize) -> usize
    requires some { 2 ≤ length steps.now }
    requires few { length steps.now ≤ most }
    ensures { IsMiddle (length steps.now) most result }
{
    let near = steps.len() / 2;
    let half = (near, tests_around(steps, near, near));
    let half = better(steps, most, half, near + 1);
    let half = better(steps, most, half, near + 2);
    let half = better(steps, most, half, near.saturating_sub(1));
    better(steps, most, half, near.saturating_sub(2)).0
}

// The other place and how many tests are needed there, if steps may be halved there, and those are fewer.
fn better(steps: &[Step], most: usize, half: (usize, usize), other: usize) -> (usize, usize)
    requires half { IsMiddle (length steps.now) most half.0 }
    requires near { other ≤ length steps.now / 2 + 2 }
    requires near_back { length steps.now / 2 ≤ other + 2 }
    ensures { IsMiddle (length steps.now) most result.0 }
{
    let len = steps.len();
    if other == 0 || len <= other || other.max(len - other) > most - most / 2 {
        return half;
    }
    let needed = tests_around(steps, len / 2, other);
    if needed < half.1 {
        (other, needed)
    } else {
        half
    }
}

impl Code {
    /// Goes on as the steps say for the accumulator. A row of at most six tests stays one, and other steps are halved, so
    /// that each half is as long as half of `most` at most.
    #[tactic(auto, using(crate::proofs::Trees::start_fits))]
    pub(crate) fn tree(&mut self, steps: &[Step], most: usize) -> Result<Target, AllocError>
        requires some { 1 ≤ length steps.now }
        requires few { length steps.now ≤ most }
        requires over { AreOver (2 ^ 32) steps.now }
        requires inside { All (λ x. IsIn self.old x.target) steps.now }
        ensures { IfOk result (λ t. IsTree self.old steps.now most t self.new) }
    {
        if steps.len() == 1 {
            return Ok(steps[0].target);
        }
        let needed = tests(steps, 7);
        if needed > 6 {
            let half = middle(steps, most);
            let upper = self.tree(&steps[half..], most - most / 2)?;
            let lower = self.tree(&steps[..half], most - most / 2)?;
            return self.test(Test::AtLeast, steps[half].start as u32, upper, lower);
        }
        if stands_out(steps) {
            let rest = self.tree(&steps[2..], most)?;
            return self.test(Test::Equal, steps[1].start as u32, steps[1].target, rest);
        }
        let rest = self.tree(&steps[1..], most)?;
        self.test(Test::AtLeast, steps[1].start as u32, rest, steps[0].target)
    }

    /// Goes on as the steps say for the 32 bits of the record from this byte on, whatever is in the accumulator.
    pub(crate) fn word(&mut self, byte: u8, steps: &[Step]) -> Result<Target, AllocError>
        requires aligned { byte % 4 ≡ 0 }
        requires inside_record { byte ≤ 60 }
        requires are { AreSteps (2 ^ 32) steps.now }
        requires inside { AllIn self.old (2 ^ 32) steps.now }
        ensures { IfOk result (λ t. IsPart self.old Dword (λ r. word_at r byte) steps.now t self.new) }
    {
        let tested = self.tree(steps, steps.len().next_power_of_two())?;
        if steps.len() == 1 {
            return Ok(tested);
        }
        self.push(bpf_stmt(LOAD, u32::from(byte)))?;
        Ok(Target::At(self.len() - 1))
    }

    /// Goes on as the steps say for what is compared of the argument, whatever the accumulator holds.
    pub(crate) fn argument(
        &mut self,
        alloc: Global,
        size: SeccompCmpArgLen,
        index: u8,
        steps: &[Step],
    ) -> Result<Target, AllocError>
        requires index { index ≤ 5 }
        requires are { AreSteps (numbers_of size) steps.now }
        requires inside { AllIn self.old (numbers_of size) steps.now }
        ensures { IfOk result (λ t. IsPart self.old size (λ r. part_of size (argument_at r index)) steps.now t self.new) }
    {
        if let SeccompCmpArgLen::Dword = size {
            return self.word(16 + 8 * index, steps);
        }
        let mut highs = Vec::new(alloc);
        let mut lows = Vec::new(alloc);
        let (mut number, mut rest) = (0, steps);
        while number < HALF * HALF {
            push_step(&mut lows, (number % HALF) as u64, rest[0].target)?;
            let end = rest.get(1).map_or(HALF * HALF, |step| step.start.into());
            let (high, last) = (number / HALF, end / HALF);
            if high < last {
                let target = self.word(16 + 8 * index, &lows)?;
                push_step(&mut highs, high as u64, target)?;
                lows = Vec::new(alloc);
            }
            // High halves that begin with this number have what it has.
            let past = if number % HALF == 0 { last } else { high + 1 };
            number = turn(number, past * HALF, end);
            rest = &rest[usize::from(number == end)..];
        }
        self.word(20 + 8 * index, &highs)
    }
}
