// The checker of programs, and the machine that runs them on the record of a system call.

ghost use Rattle.std.specs.Prelude.{◌≡◌, ◌≢◌, ℕ, ◌+◌, ◌^◌, ◌<◌, ◌≤◌, ◌↔◌, IsTrue, IfSome, IsNone, length};
ghost use Rattle.seccompiler.specs.Machine.{IsFine, IsInRange, IsChecked, Does, Ends};
ghost use Rattle.seccompiler.specs.FirstUnfit.{IsFirstUnfit};

use crate::bpf::{
    BPF_MAX_LEN, BpfProgramRef, JUMP, JUMP_AT_LEAST, JUMP_EQUAL, JUMP_GREATER, LOAD, MASK, RETURN,
    sock_filter,
};
use crate::equality::EqualByParts;
use crate::record::{LAST_WORD_OFFSET, word_at};

/// How a run of a program ends.
#[derive(Clone, Copy, Debug, PartialEq, Eq)]
pub struct Outcome {
    /// The value that the program returns.
    pub word: u32,
    /// How many instructions are executed, the return included.
    pub steps: usize,
}

impl EqualByParts for Outcome {
    ghost use Rattle.std.specs.Prelude.{◌≡◌};
    ghost use Rattle.std.specs.Cmp.{unsigned_Decides};
    ghost use Rattle.std.proofs.Common.{ap};
    ghost use Rattle.std.proofs.lemmas.Bool.Decides.{Decides-and};

    ghost has_same_parts = { λ x y. x ≡ y };

    ghost decides = { λ x y. let parts = Decides-and _ _ (unsigned_Decides x.word y.word) (unsigned_Decides x.steps y.steps) in (λ same. let e = parts.0 same in λ i. record { word = e.0 i; steps = e.1 i }, λ e. parts.1 (ap (λ o. o.word) e, ap (λ o. o.steps) e)) };
}

/// Says whether a program may be run.
///
/// A program passes if it has 1 to 4096 instructions, each instruction is one of the seven that [`run`] knows,
/// each load reads 32 bits of the record at a multiple of 4, both targets of each jump are places of the
/// program, and the last instruction returns.
///
/// Fields that an instruction ignores may hold any number. A kernel also takes programs with other instructions
/// than these seven, which don't pass here.
///
/// ```
/// let program = [
///     bpf_stmt(BPF_LD | BPF_W | BPF_ABS, 62),
///     bpf_stmt(BPF_RET | BPF_K, 1),
/// ];
/// // Its load reads past the end of the record.
/// assert!(rt; !check(&program));
/// ```
pub fn check(prog: BpfProgramRef<'_>) -> bool
    ensures { IsTrue result ↔ IsChecked prog.now }
{
    first_unfit(prog).is_none()
}

/// Gives the first place of a program that keeps [`check`] from passing it, if there is one.
///
/// That is the place of the first instruction that isn't allowed there; or 4096, if there are
/// more and those before may; or the last place, if all may and the last instruction doesn't return.
/// Of no instructions it is 0.
///
/// ```
/// let program = [
///     bpf_stmt(BPF_RET | BPF_K, 1),
///     bpf_stmt(BPF_LD | BPF_W | BPF_ABS, 62),
///     bpf_stmt(BPF_RET | BPF_K, 1),
/// ];
/// assert!(rt; first_unfit(&program) == Some(1));
/// ```
pub fn first_unfit(prog: BpfProgramRef<'_>) -> Option<usize>
    ensures unfit { IfSome result (IsFirstUnfit prog.now) }
    ensures checked { IsNone result ↔ IsChecked prog.now }
{
    if prog.is_empty() {
        return Some(0);
    }
    for (place, instruction) in prog.iter().enumerate() {
        if place == BPF_MAX_LEN {
            return Some(place);
        }
        if !is_fine(*instruction, place, prog.len()) {
            return Some(place);
        }
    }
    if prog[prog.len() - 1].code == RETURN {
        None
    } else {
        Some(prog.len() - 1)
    }
}

/// Runs a program that passes [`check`] on the record of a system call.
///
/// The record is a `struct seccomp_data`, as `seccomp(2)` describes it: 64 bytes, little-endian.
/// The run starts at the first instruction with accumulator 0. It takes at most as many steps as
/// the program has instructions, since every jump leads forward.
///
/// ```
/// // Returns 1 for system call 39, and 0 for each other one.
/// let program = [
///     bpf_stmt(BPF_LD | BPF_W | BPF_ABS, 0),
///     bpf_jump(BPF_JMP | BPF_JEQ | BPF_K, 39, 0, 1),
///     bpf_stmt(BPF_RET | BPF_K, 1),
///     bpf_stmt(BPF_RET | BPF_K, 0),
/// ];
/// let mut call = [0; 64];
/// call[0] = 39;
/// assert!(rt; check(&program));
/// assert!(rt; run(&program, &call) == Outcome { word: 1, steps: 3 });
/// ```
pub fn run(prog: BpfProgramRef<'_>, call: &[u8; 64]) -> Outcome
    requires { IsChecked prog.now }
    ensures ends { Ends prog.now call.now result.steps result.word }
    ensures steps { result.steps ≤ length prog.now }

    // It ends in no other way.
    ensures only { (n w : ℕ) → Ends prog.now call.now n w → (n ≡ result.steps) × (w ≡ result.word) }
{
    let mut place = 0;
    let mut accumulator = 0;
    let mut steps = 0;
    while prog[place].code != RETURN {
        (place, accumulator) = step(prog[place], place, prog.len(), accumulator, call);
        steps += 1;
    }
    Outcome {
        word: prog[place].k,
        steps: steps + 1,
    }
}

// Whether an instruction may stand at a place of a program of this length.
fn is_fine(instruction: sock_filter, place: usize, length: usize) -> bool
    requires { place < length }
    ensures fine { IsTrue result ↔ IsFine instruction place length }
    ensures range { IsInRange instruction }
{
    let sock_filter { code, jt, jf, k } = instruction;
    // How many instructions follow: a jump may skip all of them but one.
    let room = length - place - 1;
    match code {
        LOAD => k % 4 == 0 && k <= LAST_WORD_OFFSET,
        MASK | RETURN => true,
        JUMP => (k as usize) < room,
        JUMP_EQUAL | JUMP_GREATER | JUMP_AT_LEAST => (jt as usize) < room && (jf as usize) < room,
        _ => false,
    }
}

// The place and the accumulator after an instruction that does not return.
fn step(
    instruction: sock_filter,
    place: usize,
    length: usize,
    accumulator: u32,
    call: &[u8; 64],
) -> (usize, u32)
    requires fine { IsFine instruction place length }
    requires goes_on { instruction.code ≢ RETURN }
    requires next { place + 1 < length }
    ensures does { Does instruction call.now place accumulator result.0 result.1 }
    ensures later { place < result.0 }
    ensures within { result.0 < length }
    ensures fits { result.1 < 2 ^ 32 }
{
    let sock_filter { code, jt, jf, k } = instruction;
    let next = place + 1;
    let holds = match code {
        LOAD => return (next, word_at(call, k as usize)),
        MASK => return (next, accumulator & k),
        JUMP => return (next + k as usize, accumulator),
        JUMP_EQUAL => accumulator == k,
        JUMP_GREATER => accumulator > k,
        _ => accumulator >= k,
    };
    let distance = if holds { jt } else { jf };
    (next + distance as usize, accumulator)
}
