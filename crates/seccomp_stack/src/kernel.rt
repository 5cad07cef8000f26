// What the kernel makes of a call for which several programs hold.

ghost use Rattle.std.specs.Prelude.{◌≡◌, ℕ, [], All, MatchOption, min};
ghost use Rattle.seccomp_compare.specs.Machine.{IsChecked};
ghost use Rattle.seccomp_stack.specs.Stack.{IsStackDecision, IsDecidedAt, HaveSteps};

use crate::{SECCOMP_RET_ALLOW, strictness};
use seccomp_compare::machine;
use seccompiler::bpf::BpfProgram;

/// What programs that hold together answer to a call.
#[derive(Clone, Copy, Debug)]
pub struct Decision {
    /// The value that the kernel takes. If all programs allow the call, it is that of the last one with its data, which
    /// has no effect and which the kernel leaves out.
    pub word: u32,
    /// The place in the list of the program that returned it, counted from 0; none of no programs.
    pub place: Option<usize>,
    /// How many instructions all of them took together, or `usize::MAX` if that is less.
    pub steps: usize,
}

/// Runs programs that hold together on the record of a system call, a `struct seccomp_data`.
///
/// The programs stand in the order in which they are installed, and must pass
/// [`machine::check`](seccomp_compare::machine::check). The kernel takes the value of the strictest action, and among
/// equal actions that of the program that was installed last, as [`stack`](crate::stack) says. Without any program it
/// allows the call.
///
/// # Examples
///
/// ```
/// // The older program logs each call, and the newer one gives errno 1 for it.
/// let log = vec![in alloc; bpf_stmt(BPF_RET | BPF_K, 0x7ffc_0000); 1]?;
/// let refuse = vec![in alloc; bpf_stmt(BPF_RET | BPF_K, 0x0005_0001); 1]?;
/// let decision = run(&[log, refuse], &[0; 64]);
/// assert!(rt; decision.word == 0x0005_0001 && decision.place == Some(1) && decision.steps == 2);
/// ```
pub fn run(programs: &[BpfProgram], call: &[u8; 64]) -> Decision
    requires { All (λ p. IsChecked p.items) programs.now }
    ensures word { IsStackDecision call.now programs.now result.word }
    ensures place { MatchOption result.place (programs.now ≡ []) (λ place. IsDecidedAt call.now programs.now place result.word) }
    ensures steps { (n : ℕ) × HaveSteps call.now programs.now n × (result.steps ≡ min n usize.MAX) }
{
    let mut word = SECCOMP_RET_ALLOW;
    let mut decided = None;
    let mut steps: usize = 0;
    for (place, program) in programs.iter().enumerate() {
        let outcome = machine::run(program, call);
        steps = steps.saturating_add(outcome.steps);
        if decided.is_none() || strictness(outcome.word) <= strictness(word) {
            word = outcome.word;
            decided = Some(place);
        }
    }
    Decision {
        word,
        place: decided,
        steps,
    }
}
