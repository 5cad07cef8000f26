// The examples of conditions, rules and filters.

use seccomp_tree::{Layout, to_bpf_in, to_tree_bpf};
use seccompiler::bpf::{BPF_K, BPF_RET, bpf_stmt};
use seccompiler::machine::{check, run};
use seccompiler::{
    SeccompAction, SeccompCmpArgLen, SeccompCmpOp, SeccompCondition, SeccompFilter, SeccompRule,
    TargetArch,
};
use std::alloc::Global;
use std::collections::BTreeMap;
use std::test::Fail;

#[test]
fn a_condition(rt: HostRuntime) -> Result<(), Fail> {
    // The low half of the second argument equals 2.
    let condition = SeccompCondition::new(1, SeccompCmpArgLen::Dword, SeccompCmpOp::Eq, 2)?;
    let mut call = [0; 64];
    call[24] = 2;
    assert!(rt; condition.holds(&call));
    Ok(())
}

#[test]
fn a_rule(rt: HostRuntime) -> Result<(), Fail> {
    let alloc = rt.alloc();
    // The first argument is from 16 to 31.
    let least = SeccompCondition::new(0, SeccompCmpArgLen::Qword, SeccompCmpOp::Ge, 16)?;
    let most = SeccompCondition::new(0, SeccompCmpArgLen::Qword, SeccompCmpOp::Le, 31)?;
    let rule = SeccompRule::new(vec![in alloc; least, most]?)?;
    let mut call = [0; 64];
    call[16] = 32;
    assert!(rt; !rule.holds(&call));
    Ok(())
}

#[test]
fn a_rule_in_a_buffer(rt: HostRuntime) -> Result<(), Fail> {
    let alloc = rt.alloc();
    let equal = SeccompCondition::new(0, SeccompCmpArgLen::Dword, SeccompCmpOp::Eq, 5)?;
    let rule = SeccompRule::new(vec![in alloc; equal]?)?;
    let word = SeccompAction::Allow.into();
    // The rule and a return after it, in a buffer of the caller's.
    let mut buffer = [bpf_stmt(BPF_RET | BPF_K, 0); 16];
    let end = rule.code_len();
    if end < buffer.len() {
        rule.write(&mut buffer[..end]);
        buffer[end] = bpf_stmt(BPF_RET | BPF_K, word);
    }
    assert!(rt; buffer[4].k == 0x7fff_0000, "the return behind the rule");
    Ok(())
}

#[test]
fn a_filter(rt: HostRuntime) -> Result<(), Fail> {
    let alloc = rt.alloc();
    // Allow `getpid`, with no rule that its arguments must meet, and trap any other call.
    let mut rules = BTreeMap::new(alloc);
    drop(rules.insert(39, Vec::new(alloc))?);
    let (trap, allow) = (SeccompAction::Trap, SeccompAction::Allow);
    let filter = SeccompFilter::new(rules, trap, allow, TargetArch::x86_64)?;
    assert!(rt; filter.program_len() == 10);
    Ok(())
}

// The filter that logs each call.
fn logging(alloc: Global) -> Result<SeccompFilter, Fail> {
    let (log, allow) = (SeccompAction::Log, SeccompAction::Allow);
    Ok(SeccompFilter::new(BTreeMap::new(alloc), log, allow, TargetArch::x86_64)?)
}

#[test]
fn a_program(rt: HostRuntime) -> Result<(), Fail> {
    let alloc = rt.alloc();
    let filter = logging(alloc)?;
    let program = filter.to_bpf(alloc)?;
    assert!(rt; program.len() == filter.program_len());
    assert!(rt; check(&program));
    Ok(())
}

#[test]
fn a_program_of_the_second_layout(rt: HostRuntime) -> Result<(), Fail> {
    let alloc = rt.alloc();
    let filter = logging(alloc)?;
    let program = to_tree_bpf(alloc, &filter)?;
    assert!(rt; check(&program));
    Ok(())
}

#[test]
fn a_decision(rt: HostRuntime) -> Result<(), Fail> {
    let alloc = rt.alloc();
    let filter = logging(alloc)?;
    // Call 39 of x86_64, with each argument 0.
    let mut call = [0; 64];
    call[..8].copy_from_slice(&[39, 0, 0, 0, 0x3e, 0, 0, 0xc0]);
    assert!(rt; filter.decide(&call) == u32::from(SeccompAction::Log));
    Ok(())
}

#[test]
fn a_program_in_either_layout(rt: HostRuntime) -> Result<(), Fail> {
    let alloc = rt.alloc();
    let filter = logging(alloc)?;
    let call = [0; 64];
    let linear = to_bpf_in(alloc, &filter, Layout::Linear)?;
    let tree = to_bpf_in(alloc, &filter, Layout::Tree)?;
    assert!(rt; run(&linear, &call).word == run(&tree, &call).word);
    Ok(())
}

#[test]
fn a_program_in_a_buffer(rt: HostRuntime) -> Result<(), Fail> {
    let filter = logging(rt.alloc())?;
    let mut buffer = [bpf_stmt(BPF_RET | BPF_K, 0); 16];
    let length = filter.compiled_len()?;
    if length <= buffer.len() {
        filter.write(&mut buffer[..length]);
    }
    assert!(rt;
        buffer[3].k == 0x7ffc_0000,
        "the return of the mismatch action"
    );
    Ok(())
}
