// The program that is given, as bytes or as a text of C, and the first instruction that keeps it from being run.

pub mod fault;
pub mod initializers;

ghost use Rattle.std.specs.Prelude.{◌≡◌, ◌≤◌, length, map, All, IfOk, IfErr};
ghost use Rattle.std.specs.List.{concat};
ghost use Rattle.seccompiler.specs.Machine.{IsInRange};
ghost use Rattle.seccomp_compare.specs.Machine.{IsChecked};
ghost use Rattle.seccomp_answers.specs.Programs.{AreRefusedBytes, HasBytes, IsProgramOf, IsRefusedProgram};
ghost use Rattle.seccomp_answers.specs.ProgramFaults.{IsAmiss};
ghost use Rattle.seccomp_answers.specs.ProgramParts.{CantStand};
ghost use Rattle.seccomp_answers.specs.Compiled.{instruction_bytes};

use crate::error::AnswerError;
use crate::program::fault::{Amiss, ProgramFault};
use crate::program::initializers::{begins_as_initializers, bytes_of_initializers};
use seccomp_compare::machine::{JUMP_IF_SET, first_unfit};
use seccompiler::bpf::{
    BPF_MAX_LEN, JUMP, JUMP_AT_LEAST, JUMP_EQUAL, JUMP_GREATER, LOAD, MASK, RETURN,
};
use seccompiler::{BpfProgram, sock_filter};
use std::alloc::{AllocError, Global};

// The byte of a record at which its last word begins.
const LAST_WORD: u32 = 60;

/// The program of what is given, which may be run.
///
/// Each instruction is a `struct sock_filter` of 8 bytes, its numbers with the low byte first: code in 2, jt in 1, jf in 1, k
/// in 4. A text has [their initializers](bytes_of_initializers).
///
/// # Errors
///
/// `Program` with the first of [`ProgramFault`] that is so of it; `OutOfMemory` in its place if memory runs out.
pub fn program_of(alloc: Global, given: &[u8]) -> Result<BpfProgram, AnswerError>
    ensures program { IfOk result (λ read. IsProgramOf given.now read.items) }
    ensures checked { IfOk result (λ read. IsChecked read.items) }
    ensures refused { IfErr result (IsRefusedProgram given.now) }
{
    if begins_as_initializers(given) {
        let bytes = bytes_of_initializers(alloc, given)?;
        return program_of_bytes(alloc, &bytes);
    }
    program_of_bytes(alloc, given)
}

// The program of these bytes.
fn program_of_bytes(alloc: Global, bytes: &[u8]) -> Result<BpfProgram, AnswerError>
    ensures program { IfOk result (λ read. HasBytes bytes.now read.items) }
    ensures checked { IfOk result (λ read. IsChecked read.items) }
    ensures refused { IfErr result (AreRefusedBytes bytes.now) }
{
    let (pieces, rest) = bytes.as_chunks::<8>();
    if !rest.is_empty() {
        return Err(AnswerError::Program(ProgramFault::Short(rest.len())));
    }
    if pieces.is_empty() || pieces.len() > BPF_MAX_LEN {
        return Err(AnswerError::Program(ProgramFault::Length(pieces.len())));
    }
    let program = instructions(alloc, pieces)?;
    match first_unfit(&program) {
        None => Ok(program),
        Some(place) => Err(AnswerError::Program(ProgramFault::Unfit(
            place,
            amiss(program[place], place, program.len()),
        ))),
    }
}

// The instructions of these bytes.
fn instructions(alloc: Global, pieces: &[[u8; 8]]) -> Result<BpfProgram, AllocError>
    ensures bytes { IfOk result (λ program. map instruction_bytes program.items ≡ pieces.now) }
    ensures ranges { IfOk result (λ program. All IsInRange program.items) }
{
    let mut program = Vec::with_capacity(alloc, pieces.len())?;
    for piece in pieces {
        program.push(instruction(piece))?;
    }
    Ok(program)
}

// The instruction of these bytes.
fn instruction(bytes: &[u8; 8]) -> sock_filter
    ensures bytes { instruction_bytes result ≡ bytes.now }
    ensures range { IsInRange result }
{
    let [code0, code1, jt, jf, k0, k1, k2, k3] = *bytes;
    sock_filter {
        code: u16::from_le_bytes([code0, code1]),
        jt,
        jf,
        k: u32::from_le_bytes([k0, k1, k2, k3]),
    }
}

// Why an instruction may not stand at a place of a program of this length.
#[tactic(auto, using(crate::proofs::program::Misplaced::jump_behind, crate::proofs::program::Misplaced::test_behind, crate::proofs::program::Misplaced::at_end))]
fn amiss(instruction: sock_filter, place: usize, length: usize) -> Amiss
    requires { CantStand instruction place length }
    ensures { IsAmiss instruction place length result }
{
    let sock_filter { code, k, .. } = instruction;
    match code {
        LOAD if k % 4 != 0 || k > LAST_WORD => Amiss::Load,
        LOAD | MASK | RETURN => Amiss::End,
        JUMP | JUMP_EQUAL | JUMP_GREATER | JUMP_AT_LEAST | JUMP_IF_SET => Amiss::Jump,
        _ => Amiss::Operation(code),
    }
}
