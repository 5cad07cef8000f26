// The example at the head of the library's documentation.

use seccompiler::machine::{Outcome, run};
use seccompiler::{BackendError, SeccompAction, SeccompFilter, TargetArch};
use std::alloc::Global;
use std::collections::BTreeMap;

/// What the program of a policy that allows `getpid` alone returns for a call, and in how many steps.
fn answer(alloc: Global, call: &[u8; 64]) -> Result<Outcome, BackendError> {
    let mut chains = BTreeMap::new(alloc);
    // A chain without rules matches whatever the arguments.
    drop(chains.insert(39, Vec::new(alloc))?);
    let filter = SeccompFilter::new(
        chains,
        SeccompAction::Trap,
        SeccompAction::Allow,
        TargetArch::x86_64,
    )?;
    let program = filter.to_bpf(alloc)?;
    Ok(run(&program, call))
}

#[test]
fn getpid_alone_is_allowed(rt: HostRuntime) -> Result<(), std::test::Fail> {
    for (number, word) in &[(39, 0x7fff_0000), (40, 0x0003_0000)] {
        let call = crate::builders::record_of(*number, [0; 6]);
        let outcome = answer(rt.alloc(), &call)?;
        assert!(rt; outcome.word == *word, "call {number}");
    }
    Ok(())
}
