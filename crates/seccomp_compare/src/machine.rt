//! The checker of programs of any compiler, and the machine that runs them on the record of a system call.

ghost use Rattle.std.specs.Prelude.{◌≡◌, ◌≢◌, ℕ, ◌+◌, ◌^◌, ◌<◌, ◌≤◌, ◌↔◌, All, IsTrue, IfSome, IsNone, length};
ghost use Rattle.seccompiler.specs.Machine as of_seven;
ghost use Rattle.seccompiler.specs.Machine.{IsInRange};
ghost use Rattle.seccomp_compare.specs.Machine.{IsFine, IsChecked, IsFirstUnfit, Does, Ends};

use seccompiler::bpf::{
    BPF_JMP, BPF_K, BPF_MAX_LEN, BpfProgramRef, JUMP, JUMP_AT_LEAST, JUMP_EQUAL, JUMP_GREATER,
    LOAD, MASK, RETURN, sock_filter,
};
use seccompiler::machine::Outcome;
use seccompiler::record::word_at;

/// A jump that tests whether the accumulator has one of the bits of the operand.
pub const BPF_JSET: u16 = 0x40;

/// The code that jumps over `jt` instructions if the accumulator has one of the bits of `k`, else over `jf`.
pub const JUMP_IF_SET: u16 = BPF_JMP | BPF_JSET | BPF_K;

const _: () = prove!(JUMP_IF_SET == 0x45);

/// Says whether a program may be run.
///
/// A program passes as it passes [`check`](seccompiler::machine::check) of `seccompiler`, except that it may
/// also contain `BPF_JMP | BPF_JSET | BPF_K`, which jumps if the accumulator has one of the bits of `k`. So the
/// programs of runc, minijail and Chromium pass.
///
/// ```
/// // Allows a call unless its number has the bit of x32.
/// let program = [
///     bpf_stmt(BPF_LD | BPF_W | BPF_ABS, 0),
///     bpf_jump(BPF_JMP | BPF_JSET | BPF_K, 0x4000_0000, 0, 1),
///     bpf_stmt(BPF_RET | BPF_K, 0x8000_0000),
///     bpf_stmt(BPF_RET | BPF_K, 0x7fff_0000),
/// ];
/// assert!(rt; check(&program));
/// ```
pub fn check(prog: BpfProgramRef<'_>) -> bool
    ensures checked { IsTrue result ↔ IsChecked prog.now }

    // A program without JSET passes if that of `seccompiler` takes it.
    ensures of_seven { All (λ i. i.code ≢ 0x45) prog.now → (IsTrue result ↔ of_seven.IsChecked prog.now) }
{
    first_unfit(prog).is_none()
}

/// Gives the first place of a program that keeps [`check`] from passing it, if there is one.
///
/// That is the place of the first instruction that isn't allowed there; or 4096, if there are
/// more and those before may; or the last place, if all may and the last instruction doesn't return.
/// Of no instructions it is 0.
pub fn first_unfit(prog: BpfProgramRef<'_>) -> Option<usize>
    ensures unfit { IfSome result (IsFirstUnfit prog.now) }
    ensures checked { IsNone result ↔ IsChecked prog.now }
{
    if prog.is_empty() {
        return Some(0);
    }
    for (place, instruction) in prog.iter().enumerate() {
        if place == BPF_MAX_LEN {
            return Some(place);
        }
        if !is_fine(*instruction, place, prog.len()) {
            return Some(place);
        }
    }
    if prog[prog.len() - 1].code == RETURN {
        None
    } else {
        Some(prog.len() - 1)
    }
}

/// Runs a program that passes [`check`] on the record of a system call, a `struct seccomp_data`.
///
/// The run starts at the first instruction with accumulator 0. It takes at most as many steps as
/// the program has instructions, since every jump leads forward.
pub fn run(prog: BpfProgramRef<'_>, call: &[u8; 64]) -> Outcome
    requires { IsChecked prog.now }
    ensures ends { Ends prog.now call.now result.steps result.word }
    ensures steps { result.steps ≤ length prog.now }

    // It ends in no other way.
    ensures only { (n w : ℕ) → Ends prog.now call.now n w → (n ≡ result.steps) × (w ≡ result.word) }

    // A program that `seccompiler` checks ends in its machine alike.
    ensures of_seven { of_seven.IsChecked prog.now → of_seven.Ends prog.now call.now result.steps result.word }
{
    let mut place = 0;
    let mut accumulator = 0;
    let mut steps = 0;
    while prog[place].code != RETURN {
        (place, accumulator) = step(prog[place], place, prog.len(), accumulator, call);
        steps += 1;
    }
    Outcome {
        word: prog[place].k,
        steps: steps + 1,
    }
}

// Whether an instruction may stand at a place of a program of this length.
fn is_fine(instruction: sock_filter, place: usize, length: usize) -> bool
    requires { place < length }
    ensures fine { IsTrue result ↔ IsFine instruction place length }
    ensures range { IsInRange instruction }
{
    let sock_filter { code, jt, jf, k } = instruction;
    // How many instructions follow: a jump may skip all of them but one.
    let room = length - place - 1;
    match code {
        LOAD => k % 4 == 0 && k <= 60,
        MASK | RETURN => true,
        JUMP => (k as usize) < room,
        JUMP_EQUAL | JUMP_GREATER | JUMP_AT_LEAST | JUMP_IF_SET => {
            (jt as usize) < room && (jf as usize) < room
        }
        _ => false,
    }
}

// The place and the accumulator after an instruction that does not return.
fn step(
    instruction: sock_filter,
    place: usize,
    length: usize,
    accumulator: u32,
    call: &[u8; 64],
) -> (usize, u32)
    requires fine { IsFine instruction place length }
    requires goes_on { instruction.code ≢ RETURN }
    requires next { place + 1 < length }
    ensures does { Does instruction call.now place accumulator result.0 result.1 }
    ensures later { place < result.0 }
    ensures within { result.0 < length }
    ensures fits { result.1 < 2 ^ 32 }
{
    let sock_filter { code, jt, jf, k } = instruction;
    let next = place + 1;
    let holds = match code {
        LOAD => return (next, word_at(call, k as usize)),
        MASK => return (next, accumulator & k),
        JUMP => return (next + k as usize, accumulator),
        JUMP_EQUAL => accumulator == k,
        JUMP_GREATER => accumulator > k,
        JUMP_AT_LEAST => accumulator >= k,
        _ => accumulator & k != 0,
    };
    let distance = if holds { jt } else { jf };
    (next + distance as usize, accumulator)
}
