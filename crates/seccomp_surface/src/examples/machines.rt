// The examples of the checker and of runs, of architectures and of the tables of call names.

use seccompiler::bpf::{
    BPF_ABS, BPF_JEQ, BPF_JMP, BPF_K, BPF_LD, BPF_RET, BPF_W, bpf_jump, bpf_stmt,
};
use seccompiler::machine::{Outcome, check, first_unfit, run};
use seccompiler::record::word_at;
use seccompiler::{SyscallTable, TargetArch};
use std::test::Fail;

#[test]
fn a_checked_program(rt: HostRuntime) {
    let program = [
        bpf_stmt(BPF_LD | BPF_W | BPF_ABS, 62),
        bpf_stmt(BPF_RET | BPF_K, 1),
    ];
    // Its load reads past the end of the record.
    assert!(rt; !check(&program));
}

#[test]
fn the_first_place_that_is_unfit(rt: HostRuntime) {
    let program = [
        bpf_stmt(BPF_RET | BPF_K, 1),
        bpf_stmt(BPF_LD | BPF_W | BPF_ABS, 62),
        bpf_stmt(BPF_RET | BPF_K, 1),
    ];
    assert!(rt; first_unfit(&program) == Some(1));
}

#[test]
fn a_run(rt: HostRuntime) {
    // Returns 1 for system call 39, and 0 for each other one.
    let program = [
        bpf_stmt(BPF_LD | BPF_W | BPF_ABS, 0),
        bpf_jump(BPF_JMP | BPF_JEQ | BPF_K, 39, 0, 1),
        bpf_stmt(BPF_RET | BPF_K, 1),
        bpf_stmt(BPF_RET | BPF_K, 0),
    ];
    let mut call = [0; 64];
    call[0] = 39;
    assert!(rt; check(&program));
    assert!(rt; run(&program, &call) == Outcome { word: 1, steps: 3 });
}

#[test]
fn the_number_and_the_architecture_of_a_record(rt: HostRuntime) {
    let mut call = [0; 64];
    (call[0], call[4], call[7]) = (39, 0x3e, 0xc0);
    assert!(rt; word_at(&call, 0) == 39);
    assert!(rt; word_at(&call, 4) == 0xc000_003e);
}

#[test]
fn an_architecture(rt: HostRuntime) -> Result<(), Fail> {
    let alloc = rt.alloc();
    let arch = TargetArch::from_text(alloc, "X86_64")?;
    assert!(rt; arch == TargetArch::x86_64);
    Ok(())
}

#[test]
fn a_table(rt: HostRuntime) {
    // An aarch64 kernel has `close`, and no `open`.
    let table = SyscallTable::new(TargetArch::aarch64);
    assert!(rt; table.get_syscall_nr("close") == Some(57));
    assert!(rt; table.get_syscall_nr("open") == None);
}
