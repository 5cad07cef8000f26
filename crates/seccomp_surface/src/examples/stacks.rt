// The examples of programs that hold together.

use seccomp_compare::machine;
use seccomp_stack::{run, stack};
use seccompiler::bpf::{
    BPF_ABS, BPF_JEQ, BPF_JMP, BPF_K, BPF_LD, BPF_RET, BPF_W, bpf_jump, bpf_stmt,
};
use std::test::Fail;

#[test]
fn one_program_of_two(rt: HostRuntime) -> Result<(), Fail> {
    let alloc = rt.alloc();
    // A container's program allows call 39 only, and gives errno 1 for any other.
    let container = vec![in alloc;
        bpf_stmt(BPF_LD | BPF_W | BPF_ABS, 0),
        bpf_jump(BPF_JMP | BPF_JEQ | BPF_K, 39, 0, 1),
        bpf_stmt(BPF_RET | BPF_K, 0x7fff_0000),
        bpf_stmt(BPF_RET | BPF_K, 0x0005_0001),
    ]?;
    // The process's own one kills it.
    let own = vec![in alloc; bpf_stmt(BPF_RET | BPF_K, 0x8000_0000); 1]?;
    let program = stack(alloc, &[container, own])?;
    assert!(rt; program.len() == 8);
    assert!(rt; machine::run(&program, &[0; 64]).word == 0x8000_0000);
    Ok(())
}

#[test]
fn which_of_two_decides(rt: HostRuntime) -> Result<(), Fail> {
    let alloc = rt.alloc();
    // The older program logs each call, and the newer one gives errno 1 for it.
    let log = vec![in alloc; bpf_stmt(BPF_RET | BPF_K, 0x7ffc_0000); 1]?;
    let refuse = vec![in alloc; bpf_stmt(BPF_RET | BPF_K, 0x0005_0001); 1]?;
    let decision = run(&[log, refuse], &[0; 64]);
    assert!(rt; decision.word == 0x0005_0001 && decision.place == Some(1) && decision.steps == 2);
    Ok(())
}

#[test]
fn no_programs(rt: HostRuntime) -> Result<(), Fail> {
    let program = stack(rt.alloc(), &[])?;
    assert!(rt; program.as_slice() == [bpf_stmt(BPF_RET | BPF_K, 0x7fff_0000)].as_slice());
    let decision = run(&[], &[0; 64]);
    assert!(rt; decision.word == 0x7fff_0000 && decision.place.is_none());
    Ok(())
}
