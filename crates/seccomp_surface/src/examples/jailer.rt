// The examples of installing.

use seccompiler::bpf::{BPF_K, BPF_RET, bpf_stmt};
use seccompiler::{BpfProgramRef, Kernel, SeccompAction, apply_filter, apply_filter_all_threads};

/// A kernel whose calls all succeed, and of whose calls no more is known.
#[derive(Drop)]
struct WillingKernel;

impl Kernel for WillingKernel {
    ghost use Rattle.std.specs.Prelude.{⊤};

    ghost no_new_privs = { λ before code number after. ⊤ };

    ghost mode_filter = { λ before flags program code number after. ⊤ };

    fn set_no_new_privs(&mut self) -> (i32, i32) {
        (0, 0)
    }

    fn set_mode_filter(&mut self, _flags: u64, _prog: BpfProgramRef<'_>) -> (i64, i32) {
        (0, 0)
    }
}

#[test]
fn a_filter_of_one_thread(rt: HostRuntime) {
    let mut kernel = WillingKernel;
    let program = [bpf_stmt(BPF_RET | BPF_K, SeccompAction::Allow.into())];
    assert!(rt; apply_filter(&mut kernel, &program).is_ok());
    // An empty program is refused, and the kernel is not asked.
    assert!(rt; apply_filter(&mut kernel, &[]).is_err());
}

#[test]
fn a_filter_of_all_threads(rt: HostRuntime) {
    let mut kernel = WillingKernel;
    let program = [bpf_stmt(BPF_RET | BPF_K, SeccompAction::Allow.into())];
    assert!(rt; apply_filter_all_threads(&mut kernel, &program).is_ok());
}
