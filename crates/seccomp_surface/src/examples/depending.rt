// The program of docs/DEPENDING.md.

use seccompiler::{SeccompAction, SeccompFilter, TargetArch};
use std::collections::BTreeMap;

fn main(rt: HostRuntime) -> anyhow::Result<()> {
    let alloc = rt.alloc();
    let mut rules = BTreeMap::new(alloc);
    drop(rules.insert(39, Vec::new(alloc))?);
    let (trap, allow) = (SeccompAction::Trap, SeccompAction::Allow);
    let filter = SeccompFilter::new(rules, trap, allow, TargetArch::x86_64)?;
    let program = filter.to_bpf(alloc)?;
    println!(rt; "{} instructions", program.len())?;
    Ok(())
}

#[test]
fn the_smallest_program_ends_well(rt: HostRuntime) -> anyhow::Result<()> {
    main(rt)
}
