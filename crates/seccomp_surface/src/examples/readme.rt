// The example of docs/ARCHITECTURE.md.

use seccompiler::bpf::sock_filter;
use seccompiler::machine::{check, run};
use seccompiler::{
    BackendError, BpfProgram, SeccompAction, SeccompCmpArgLen, SeccompCmpOp, SeccompCondition,
    SeccompFilter, SeccompRule, TargetArch,
};
use std::alloc::Global;
use std::collections::BTreeMap;

/// Allows `fcntl` if its second argument is 2, and kills the process at any other call.
fn fcntl_alone(alloc: Global) -> Result<BpfProgram, BackendError> {
    let condition = SeccompCondition::new(1, SeccompCmpArgLen::Dword, SeccompCmpOp::Eq, 2)?;
    let rule = SeccompRule::new(vec![in alloc; condition]?)?;
    let mut rules = BTreeMap::new(alloc);
    drop(rules.insert(72, vec![in alloc; rule]?)?);
    let filter = SeccompFilter::new(
        rules,
        SeccompAction::KillProcess,
        SeccompAction::Allow,
        TargetArch::x86_64,
    )?;
    filter.to_bpf(alloc)
}

// The word of the program for a call of this number, whose second argument is this, where it passes the
// checker.
fn word(program: &[sock_filter], number: u32, argument: u64) -> Option<u32> {
    if !check(program) {
        return None;
    }
    let call = crate::builders::record_of(number, [0, argument, 0, 0, 0, 0]);
    Some(run(program, &call).word)
}

#[test]
fn fcntl_with_2_alone_is_allowed(rt: HostRuntime) -> Result<(), std::test::Fail> {
    let program = fcntl_alone(rt.alloc())?;
    assert!(rt; word(&program, 72, 2) == Some(0x7fff_0000));
    assert!(rt; word(&program, 72, 3) == Some(0x8000_0000));
    assert!(rt; word(&program, 73, 2) == Some(0x8000_0000));
    Ok(())
}
