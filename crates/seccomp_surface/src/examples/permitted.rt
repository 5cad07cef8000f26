// The example at the head of the documentation of comparisons.

use seccomp_compare::{Calls, Comparison, Relation, compare_filters};
use seccompiler::{BackendError, SeccompFilter, TargetArch};
use std::alloc::Global;

/// Whether the new policy permits no call of x86_64 that the old one doesn't, as far as is found out.
fn permits_no_more(
    alloc: Global,
    new: &SeccompFilter,
    old: &SeccompFilter,
) -> Result<bool, BackendError> {
    let calls = Calls::of_arch(TargetArch::x86_64);
    let relation = Relation::AtMostAsPermissive;
    let answer = compare_filters(alloc, new, old, &calls, relation, 1_000_000)?;
    Ok(matches!(answer, Comparison::Holds))
}

#[test]
fn a_policy_of_a_call_more_permits_more(rt: HostRuntime) -> Result<(), std::test::Fail> {
    let alloc = rt.alloc();
    let old = super::comparisons::allowed(alloc, &[39])?;
    let new = super::comparisons::allowed(alloc, &[39, 110])?;
    assert!(rt; permits_no_more(alloc, &old, &new)?, "a call less");
    assert!(rt; !permits_no_more(alloc, &new, &old)?, "a call more");
    Ok(())
}
