// The program of a filter: the chains of its call numbers, one after the other.

ghost use Rattle.std.specs.Prelude.{◌≡◌, ◌≤◌, min, length, take};
ghost use Rattle.std.specs.BTreeMap.{keys};
ghost use Rattle.seccompiler.specs.Machine.{greatest_length};
ghost use Rattle.seccompiler.specs.Policy.{chains_of};
ghost use Rattle.seccompiler.specs.Layout.{chain_length, chains_length};
ghost use Rattle.seccompiler.specs.Compiled.{AreCallNumbers};
ghost use Rattle.seccompiler.specs.ChainCode.{IsChainCode, IsChainsCode};

use crate::backend::{BackendError, GUARD_LEN, arch_guard};
use crate::bpf::{
    BPF_MAX_LEN, BpfProgram, JUMP, JUMP_EQUAL, LOAD, RETURN, SECCOMP_DATA_NR_OFFSET, bpf_jump,
    bpf_stmt, sock_filter,
};
use crate::chain::{call_number, unfit_number, write_rules};
use crate::filter::SeccompFilter;
use crate::rule::SeccompRule;
use std::alloc::Global;
use std::collections::BTreeMap;

// The load of the call number after the guard, and the return at the end.
const PROGRAM_ENDS: usize = 2;

// The instructions of a chain without rules.
const EMPTY_CHAIN_LEN: usize = 5;

// The test in front of a chain's rules, and the return after them.
const CHAIN_ENDS: usize = 2;

impl SeccompFilter {
    ghost use Rattle.std.specs.Prelude.{◌≡◌, ◌≢◌, length, min, IfOk, IfErr, OnOk};
    ghost use Rattle.std.specs.List.Sorted.{IsStrictlySortedBy};
    ghost use Rattle.std.specs.Ordering.{int_cmp};
    ghost use Rattle.seccompiler.specs.declared.backend.BackendError.TheVariants.{OutOfMemory};
    ghost use Rattle.seccompiler.specs.Layout.{counted_length};
    ghost use Rattle.seccompiler.specs.Compiled.{IsCompiled, numbers_of, IsCompilable, IsRefusal};

    /// The filter's program.
    ///
    /// It has `program_len` instructions, passes `machine::check`, and returns for every call record, within as
    /// many steps as it has instructions, the value that `decide` gives. For a call of the filter's
    /// architecture without a chain, the filter's map alone determines the number of steps.
    ///
    /// # Errors
    ///
    /// `InvalidSyscallNumber` with the least key that lies outside 0 to 4294967295, if there is one; else
    /// `FilterTooLarge` with `program_len` if that is more than 4096; both take no memory. `OutOfMemory` if
    /// memory for the program runs out.
    ///
    /// # Examples
    ///
    /// ```
    /// let program = filter.to_bpf(alloc)?;
    /// assert!(rt; program.len() == filter.program_len());
    /// assert!(rt; check(&program));
    /// ```
    pub fn to_bpf(&self, alloc: Global) -> Result<BpfProgram, BackendError>
        ensures compiled { IfOk result (λ program. IsCompiled self.now program.items) }
        ensures compilable { OnOk result (IsCompilable self.now) }
        ensures refused { IfErr result (IsRefusal self.now) }
    {
        let length = self.compiled_len()?;
        let Ok(mut program) = vec![in alloc; bpf_stmt(RETURN, 0); length] else {
            return Err(BackendError::OutOfMemory);
        };
        self.write(&mut program);
        Ok(program)
    }

    /// How many instructions the filter's program takes, or `usize::MAX` if that is less.
    ///
    /// As for every map, the call numbers ascend, each once; so there is one chain under each.
    pub fn program_len(&self) -> usize
        ensures length { result ≡ min (counted_length self.now) usize.MAX }
        ensures ordered { IsStrictlySortedBy int_cmp (numbers_of self.now.chains) }
    {
        if self.rules.is_empty() {
            return GUARD_LEN + 1;
        }
        let mut length = GUARD_LEN + PROGRAM_ENDS;
        for chain in self.rules.values() {
            length = length.saturating_add(chain_len(chain));
        }
        length
    }

    /// How many instructions `to_bpf` gives, or why it gives none. Takes no memory.
    ///
    /// Who has a buffer of his own asks for the length here, and then has the program written into
    /// a part of that length by [`write`](SeccompFilter::write).
    ///
    /// # Errors
    ///
    /// Those of `to_bpf` but for `OutOfMemory`: `InvalidSyscallNumber` with the least key that lies
    /// outside 0 to 4294967295, if there is one; else `FilterTooLarge` with `program_len` if
    /// that is more than 4096.
    pub fn compiled_len(&self) -> Result<usize, BackendError>
        ensures length { IfOk result (λ n. n ≡ counted_length self.now) }
        ensures compilable { OnOk result (IsCompilable self.now) }
        ensures refused { IfErr result (λ e. (e ≢ OutOfMemory) × IsRefusal self.now e) }
    {
        if let Some(number) = unfit_number(&self.rules) {
            return Err(BackendError::InvalidSyscallNumber(number));
        }
        let length = self.program_len();
        if length > BPF_MAX_LEN {
            return Err(BackendError::FilterTooLarge(length));
        }
        Ok(length)
    }

    /// Fills the part with the filter's program, the one that `to_bpf` gives. Takes no memory.
    ///
    /// The filter must be one that `to_bpf` compiles, and the part have as many places as its
    /// program has instructions: [`compiled_len`](SeccompFilter::compiled_len) says both.
    ///
    /// # Examples
    ///
    /// ```
    /// let length = filter.compiled_len()?;
    /// if length <= buffer.len() {
    ///     filter.write(&mut buffer[..length]);
    /// }
    /// ```
    pub fn write(&self, program: &mut [sock_filter])
        requires compilable { IsCompilable self.now }
        requires room { length program.old ≡ counted_length self.now }
        ensures compiled { IsCompiled self.now program.new }
    {
        let mismatch = u32::from(self.mismatch_action);
        program[..GUARD_LEN].copy_from_slice(&arch_guard(self.target_arch));
        if self.rules.is_empty() {
            program[GUARD_LEN] = bpf_stmt(RETURN, mismatch);
            return;
        }
        program[GUARD_LEN] = bpf_stmt(LOAD, u32::from(SECCOMP_DATA_NR_OFFSET));
        let last = program.len() - 1;
        write_chains(
            &mut program[GUARD_LEN + 1..last],
            &self.rules,
            mismatch,
            self.match_action.into(),
        );
        program[last] = bpf_stmt(RETURN, mismatch);
    }
}

// How many instructions the chain takes, or `usize::MAX` if that is less.
fn chain_len(chain: &[SeccompRule]) -> usize
    ensures { result ≡ min (chain_length chain.now) usize.MAX }
{
    if chain.is_empty() {
        return EMPTY_CHAIN_LEN;
    }
    let mut length = CHAIN_ENDS;
    for rule in chain {
        length = length.saturating_add(rule.code_len()).saturating_add(1);
    }
    length
}

/// Fills the part with the code of the chains, in ascending order of call numbers.
pub(crate) fn write_chains(
    part: &mut [sock_filter],
    rules: &BTreeMap<i64, Vec<SeccompRule>>,
    mismatch: u32,
    matched: u32,
)
    requires numbers { AreCallNumbers (keys rules.now) }
    requires room { length part.old ≡ chains_length (chains_of rules.now.entries) }
    requires short { length part.old ≤ greatest_length }
    ensures code { IsChainsCode (chains_of rules.now.entries) mismatch matched part.new }
{
    let mut start = 0;
    for (number, chain) in rules {
        start += write_chain(
            &mut part[start..],
            call_number(number),
            chain,
            mismatch,
            matched,
        );
    }
}

// Fills the front of the part with the code of a chain: a test of the call number, the rules, and a return. Gives its
// length.
fn write_chain(
    part: &mut [sock_filter],
    number: u32,
    chain: &[SeccompRule],
    mismatch: u32,
    matched: u32,
) -> usize
    requires room { chain_length chain.now ≤ length part.old }
    requires short { length part.old ≤ greatest_length }
    ensures length { result ≡ chain_length chain.now }
    ensures code { IsChainCode number chain.now mismatch matched (take result part.new) }
{
    if chain.is_empty() {
        part[..EMPTY_CHAIN_LEN].copy_from_slice(&[
            bpf_jump(JUMP_EQUAL, number, 0, 1),
            bpf_stmt(JUMP, 1),
            bpf_stmt(JUMP, 2),
            bpf_stmt(RETURN, matched),
            bpf_stmt(RETURN, mismatch),
        ]);
        return EMPTY_CHAIN_LEN;
    }
    part[0] = bpf_jump(JUMP_EQUAL, number, 0, 1);
    let end = 1 + write_rules(&mut part[1..], chain, matched);
    part[end] = bpf_stmt(RETURN, mismatch);
    end + 1
}
