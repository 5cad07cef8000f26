// Two programs that hold together, as one.

ghost use Rattle.std.specs.Prelude.{◌≡◌, ◌+◌, ◌*◌, ◌≤◌, ◌++◌, length, IfOk, IfErr};
ghost use Rattle.seccomp_compare.specs.Machine.{IsChecked};
ghost use Rattle.seccomp_stack.specs.Joined.{place_of, words_in, front, copy, joined, AreJoined, IsJoinRefusal};

use crate::{StackError, prevailing};
use seccomp_compare::machine::check;
use seccompiler::bpf::{BPF_MAX_LEN, BpfProgram, BpfProgramRef, JUMP, MASK, RETURN, bpf_stmt};
use std::alloc::{AllocError, Global};

/// The older program, and behind it the newer one once for each value that the older one returns.
///
/// A return of the older one jumps to the copy for its value; a return of that copy returns the one of
/// both values that prevails. The accumulator is cleared in front of each copy.
pub(crate) fn join(
    alloc: Global,
    older: BpfProgramRef<'_>,
    newer: BpfProgramRef<'_>,
) -> Result<BpfProgram, StackError>
    requires older { IsChecked older.now }
    requires newer { IsChecked newer.now }
    ensures joined { IfOk result (λ p. p.items ≡ joined older.now newer.now) }
    ensures are_joined { IfOk result (λ p. AreJoined older.now newer.now p.items) }
    ensures refused { IfErr result (IsJoinRefusal older.now newer.now) }
{
    let words = words_of(alloc, older)?;
    let size = newer.len() + 1;
    let length = older.len() + words.len() * size;
    if length > BPF_MAX_LEN {
        return Err(StackError::TooLong(length));
    }
    let mut program = front_of(alloc, older, &words, size)?;
    for word in &words {
        push_copy(&mut program, newer, *word)?;
    }
    // A program of two that may be run is unfit only if it is too long.
    if !check(&program) {
        return Err(StackError::TooLong(length));
    }
    Ok(program)
}

// The words that a program's returns have, each once, in the order in which they first appear.
fn words_of(alloc: Global, program: BpfProgramRef<'_>) -> Result<Vec<u32>, AllocError>
    ensures { IfOk result (λ words. words.items ≡ words_in program.now) }
{
    let mut words = Vec::new(alloc);
    for instruction in program {
        if instruction.code == RETURN && place_of(&words, instruction.k) == words.len() {
            words.push(instruction.k)?;
        }
    }
    Ok(words)
}

// The first place of a word among others, or how many they are if it is none of them.
fn place_of(words: &[u32], word: u32) -> usize
    ensures place { result ≡ place_of words.now word }
    ensures within { result ≤ length words.now }
{
    for (place, other) in words.iter().enumerate() {
        if *other == word {
            return place;
        }
    }
    words.len()
}

// The older program, with jumps to copies of this size in the place of its returns.
fn front_of(
    alloc: Global,
    older: BpfProgramRef<'_>,
    words: &[u32],
    size: usize,
) -> Result<BpfProgram, AllocError>
    requires { length older.now + length words.now * size ≤ BPF_MAX_LEN }
    ensures { IfOk result (λ p. p.items ≡ front words.now size older.now) }
{
    let mut program = Vec::with_capacity(alloc, older.len() + words.len() * size)?;
    for (place, instruction) in older.iter().enumerate() {
        if instruction.code == RETURN {
            let behind = older.len() - place - 1;
            let distance = behind + place_of(words, instruction.k) * size;
            program.push(bpf_stmt(JUMP, distance as u32))?;
        } else {
            program.push(*instruction)?;
        }
    }
    Ok(program)
}

// Appends the copy of the newer program for a word of the older one.
fn push_copy(
    program: &mut BpfProgram,
    newer: BpfProgramRef<'_>,
    word: u32,
) -> Result<(), AllocError>
    ensures { IfOk result (λ _. program.new.items ≡ program.old.items ++ copy newer.now word) }
{
    program.push(bpf_stmt(MASK, 0))?;
    for instruction in newer {
        if instruction.code == RETURN {
            program.push(bpf_stmt(RETURN, prevailing(word, instruction.k)))?;
        } else {
            program.push(*instruction)?;
        }
    }
    Ok(())
}
