// Code that is written from its end to its front.

ghost use Rattle.std.specs.Prelude.{◌≡◌, ◌≤◌, ◌<◌, ◌+◌, ◌^◌, ◌∷◌, [], ℕ, IfOk, OnOk, length};
ghost use Rattle.seccompiler.specs.Code.{give};
ghost use Rattle.seccompiler.specs.Machine.{IsFine, IsInRange};
ghost use Rattle.seccomp_tree.specs.declared.steps.Target.TheVariants.{At};
ghost use Rattle.seccomp_tree.specs.Code.{IsIn, IsReached, IsSound, IsTested, stand_in};

use crate::steps::Target;
use seccompiler::BpfProgram;
use seccompiler::bpf::{JUMP, JUMP_AT_LEAST, JUMP_EQUAL, RETURN, bpf_jump, bpf_stmt, sock_filter};
use std::alloc::{AllocError, Global};
use std::marker::Model;

// How many instructions a jump may pass over if one more may still come between: 8 bits hold 255.
const REACH: usize = 254;

/// How a test compares the accumulator with its operand.
#[derive(Clone, Copy)]
pub(crate) enum Test {
    /// Whether they are equal.
    Equal = JUMP_EQUAL as isize,
    /// Whether the accumulator is at least the operand, unsigned.
    AtLeast = JUMP_AT_LEAST as isize,
}

/// The code of a program, from some place to its end. Each instruction is written in front of the others, and jumps lead
/// forward alone. A place counts from the end, so that what starts there never changes.
#[derive(Drop)]
pub(crate) struct Code {
    // The last instruction first.
    back: Vec<sock_filter>,
    // Where there is a return or a jump, in ascending order.
    exits: Vec<usize>,
}

impl Model for Code {
    ghost use Rattle.std.specs.Prelude.{List, reverse};
    ghost use Rattle.seccompiler.specs.declared.bpf.sock_filter.{sock_filter};
    ghost use Rattle.seccomp_tree.specs.Code.{IsSound};

    ghost Value = { List sock_filter };

    ghost view = { λ c. reverse c.back.items };

    ghost invariant = { λ c. IsSound (reverse c.back.items) };
}

impl Code {
    /// Code that kills the process.
    pub(crate) fn new(alloc: Global) -> Result<Self, AllocError>
        ensures { IfOk result (λ code. code ≡ give 0x80000000 ∷ []) }
    {
        let back = vec![in alloc; bpf_stmt(RETURN, 0x8000_0000)]?;
        let exits = vec![in alloc; 0]?;
        Ok(Code { back, exits })
    }

    /// How many instructions there are.
    pub(crate) fn len(&self) -> usize
        ensures { result ≡ length self.now }
    {
        self.back.len()
    }

    /// Writes an instruction in front of the others.
    pub(crate) fn push(&mut self, instruction: sock_filter) -> Result<(), AllocError>
        requires fine { IsFine instruction 0 (length self.old + 1) }
        requires range { IsInRange instruction }
        ensures { OnOk result (self.new ≡ instruction ∷ self.old) }
    {
        // 32 bits hold the distance of each jump. A program has far fewer instructions.
        if self.back.len() == 0xffff_ffff {
            return Err(AllocError);
        }
        self.back.push(instruction)?;
        Ok(())
    }

    // How many instructions a jump that is written now passes over to a place.
    fn over(&self, place: usize) -> usize
        requires { place < length self.now }
        ensures over { result + place + 1 ≡ length self.now }
        ensures few { result < 2 ^ 32 }
    {
        self.back.len() - 1 - place
    }

    /// A near place that does what the target says: its own, or that of a return or a jump, which is written if none
    /// is near.
    pub(crate) fn reach(&mut self, target: Target) -> Result<usize, AllocError>
        requires { IsIn self.old target }
        ensures { IfOk result (λ place. IsReached self.old target place self.new) }
    {
        if let Target::At(place) = target {
            if self.over(place) <= REACH {
                return Ok(place);
            }
        }
        let len = self.len();
        for nearer in (0..self.exits.len()).rev() {
            let place = self.exits[nearer];
            if len <= place || self.over(place) > REACH {
                break;
            }
            if self.back[place] == stand_in(target, place) {
                return Ok(place);
            }
        }
        self.push(stand_in(target, len))?;
        self.exits.push(len)?;
        Ok(len)
    }

    /// If the accumulator compares with `k`, goes on as the one target says, and else as the other.
    pub(crate) fn test(
        &mut self,
        test: Test,
        k: u32,
        yes: Target,
        no: Target,
    ) -> Result<Target, AllocError>
        requires yes { IsIn self.old yes }
        requires no { IsIn self.old no }
        ensures { IfOk result (λ t. IsTested self.old test k yes no t self.new) }
    {
        let yes = self.reach(yes)?;
        let no = self.reach(no)?;
        self.push(bpf_jump(test as u16, k, self.over(yes) as u8, self.over(no) as u8))?;
        Ok(Target::At(self.len() - 1))
    }

    /// The program, its first instruction first.
    pub(crate) fn into_program(self) -> BpfProgram
        ensures program { result.items ≡ self }
        ensures sound { IsSound result.items }
    {
        let Code { mut back, .. } = self;
        back.reverse();
        back
    }
}

// The instruction that does at a place what the target says, whatever is in the accumulator.
fn stand_in(target: Target, place: usize) -> sock_filter
    requires place { place < 2 ^ 32 }
    requires behind { (m : ℕ) → target ≡ At m → m < place }
    ensures is { result ≡ stand_in target place }
    ensures fine { IsFine result 0 (place + 1) }
    ensures range { IsInRange result }
{
    match target {
        Target::Give(word) => bpf_stmt(RETURN, word),
        Target::At(to) => bpf_stmt(JUMP, (place - to - 1) as u32),
    }
}
