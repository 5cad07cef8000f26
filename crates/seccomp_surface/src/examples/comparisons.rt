// The examples of comparisons: of programs, of filters, and of sets of calls.

use seccomp_compare::machine::{BPF_JSET, check, first_unfit, run};
use seccomp_compare::{Calls, Comparison, Relation, compare, compare_filters};
use seccompiler::bpf::{
    BPF_ABS, BPF_JEQ, BPF_JMP, BPF_K, BPF_LD, BPF_RET, BPF_W, bpf_jump, bpf_stmt,
};
use seccompiler::machine::Outcome;
use seccompiler::{SeccompAction, SeccompFilter, TargetArch};
use std::alloc::Global;
use std::collections::BTreeMap;
use std::test::Fail;

#[test]
fn programs(rt: HostRuntime) -> Result<(), Fail> {
    let alloc = rt.alloc();
    // Allows system call 39, and kills the process at another one.
    let strict = [
        bpf_stmt(BPF_LD | BPF_W | BPF_ABS, 0),
        bpf_jump(BPF_JMP | BPF_JEQ | BPF_K, 39, 0, 1),
        bpf_stmt(BPF_RET | BPF_K, 0x7fff_0000),
        bpf_stmt(BPF_RET | BPF_K, 0x8000_0000),
    ];
    // Logs another one.
    let mut lax = strict;
    lax[3] = bpf_stmt(BPF_RET | BPF_K, 0x7ffc_0000);
    assert!(rt; check(&strict) && check(&lax));
    let (all, relation) = (Calls::all(), Relation::AtMostAsPermissive);
    let answer = compare(alloc, &strict, &lax, &all, relation, 1_000_000)?;
    assert!(rt; matches!(answer, Comparison::Holds));
    let answer = compare(alloc, &lax, &strict, &all, relation, 1_000_000)?;
    assert!(rt; matches!(answer, Comparison::Fails(_)));
    let only_39 = Calls::of_number(TargetArch::x86_64, 39);
    let answer = compare(alloc, &lax, &strict, &only_39, Relation::Alike, 1_000_000)?;
    assert!(rt; matches!(answer, Comparison::Holds));
    Ok(())
}

#[test]
fn a_program_with_jset(rt: HostRuntime) {
    // Allows a call unless its number has the bit of x32.
    let program = [
        bpf_stmt(BPF_LD | BPF_W | BPF_ABS, 0),
        bpf_jump(BPF_JMP | BPF_JSET | BPF_K, 0x4000_0000, 0, 1),
        bpf_stmt(BPF_RET | BPF_K, 0x8000_0000),
        bpf_stmt(BPF_RET | BPF_K, 0x7fff_0000),
    ];
    assert!(rt; check(&program));
    assert!(rt; first_unfit(&program[..2]) == Some(1));
    let mut call = [0; 64];
    let (steps, word) = (3, 0x7fff_0000);
    assert!(rt; run(&program, &call) == Outcome { word, steps });
    call[3] = 0x40;
    let word = 0x8000_0000;
    assert!(rt; run(&program, &call) == Outcome { word, steps });
}

// The filter that allows these calls of x86_64, and traps others.
pub(crate) fn allowed(alloc: Global, numbers: &[i64]) -> Result<SeccompFilter, Fail> {
    let mut rules = BTreeMap::new(alloc);
    for number in numbers {
        drop(rules.insert(*number, Vec::new(alloc))?);
    }
    let (trap, allow) = (SeccompAction::Trap, SeccompAction::Allow);
    Ok(SeccompFilter::new(rules, trap, allow, TargetArch::x86_64)?)
}

#[test]
fn filters(rt: HostRuntime) -> Result<(), Fail> {
    let alloc = rt.alloc();
    let old = allowed(alloc, &[39])?;
    let new = allowed(alloc, &[39, 110])?;
    // The new policy permits something of x86_64 that the old one doesn't.
    let calls = Calls::of_arch(TargetArch::x86_64);
    let relation = Relation::AtMostAsPermissive;
    let answer = compare_filters(alloc, &new, &old, &calls, relation, 1_000_000)?;
    assert!(rt; matches!(answer, Comparison::Fails(_)));
    Ok(())
}

#[test]
fn calls_without_a_name(rt: HostRuntime) -> Result<(), Fail> {
    let alloc = rt.alloc();
    let filter = allowed(alloc, &[39])?;
    let other = allowed(alloc, &[39, 335, 424])?;
    // x86_64 has no name for these numbers.
    let unnamed = Calls::of_numbers(TargetArch::x86_64, 336, 423);
    let (relation, most) = (Relation::Alike, 1_000_000);
    let answer = compare_filters(alloc, &filter, &other, &unnamed, relation, most)?;
    assert!(rt; matches!(answer, Comparison::Holds));
    Ok(())
}
