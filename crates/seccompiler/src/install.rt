// Installing programs by the two system calls of a kernel.

ghost use Rattle.std.specs.Prelude.{◌≤◌, length};
ghost use Rattle.seccompiler.specs.Install.{Applied};

use crate::bpf::BpfProgramRef;
use crate::error::{Error, Result};

// No flags: the filter is for the calling thread alone.
const NO_FLAGS: u64 = 0;

// Sets the filter of all threads of the process, as `linux/seccomp.h` has it.
const SECCOMP_FILTER_FLAG_TSYNC: u64 = 1;

/// A kernel that programs can be installed in: the two system calls that installing takes.
///
/// This crate makes no system call itself. The caller hands in a value that does, or a stand-in for a kernel,
/// as in a test.
///
/// Each call answers a code and an errno, as `prctl(2)` and `seccomp(2)` return a code and set `errno`. For
/// each call the trait names a relation between the kernel before it, its arguments, its answer and the kernel
/// after it; these two relations define what installing does.
///
/// ```
/// /// A kernel whose calls all succeed, and of whose calls no more is known.
/// #[derive(Drop)]
/// struct WillingKernel;
///
/// impl Kernel for WillingKernel {
///     ghost use Rattle.std.specs.Prelude.{⊤};
///
///     ghost no_new_privs = { λ before code number after. ⊤ };
///
///     ghost mode_filter = { λ before flags program code number after. ⊤ };
///
///     fn set_no_new_privs(&mut self) -> (i32, i32) {
///         (0, 0)
///     }
///
///     fn set_mode_filter(&mut self, _flags: u64, _prog: BpfProgramRef<'_>) -> (i64, i32) {
///         (0, 0)
///     }
/// }
/// ```
pub trait Kernel {
    ghost use Rattle.std.specs.Prelude.{◌≤◌, ℕ, ℤ, List, length};
    ghost use Rattle.seccompiler.specs.declared.bpf.sock_filter.{sock_filter};

    // What setting `no_new_privs` may do: the kernel before, the answer, the kernel after.
    ghost no_new_privs: { Self → ℤ → ℤ → Self → Type 0 };

    // What setting a filter may do: the kernel before, the flags, the program, the answer, the
    // kernel after.
    ghost mode_filter: { Self → ℕ → List sock_filter → ℤ → ℤ → Self → Type 0 };

    /// Sets the calling thread's `no_new_privs`, as `prctl(PR_SET_NO_NEW_PRIVS, 1, 0, 0, 0)`.
    ///
    /// The code is 0 if the call succeeded; else the errno says why it failed.
    fn set_no_new_privs(&mut self) -> (i32, i32)
        ensures { no_new_privs self.old result.0 result.1 self.new };

    /// Installs a filter, as `seccomp(SECCOMP_SET_MODE_FILTER, flags, program)`.
    ///
    /// The code is 0 if the filter is installed. It is negative if the call failed, and the
    /// errno then says why. It is positive if `flags` asked for all threads and some
    /// thread could not take the filter: that thread's id.
    ///
    /// The program has at most 65535 instructions, so that its length fits the 16 bits of
    /// `struct sock_fprog`.
    fn set_mode_filter(&mut self, flags: u64, prog: BpfProgramRef<'_>) -> (i64, i32)
        requires { length prog.now ≤ 65535 }
        ensures { mode_filter self.old flags prog.now result.0 result.1 self.new };
}

/// Installs a program for the calling thread.
///
/// Takes no memory, and neither owns nor changes the program: a kernel copies it.
///
/// The program has at most 65535 instructions; a kernel may take fewer, as Linux, which takes
/// [`BPF_MAX_LEN`](crate::bpf::BPF_MAX_LEN).
///
/// # Errors
///
/// `EmptyFilter` if the program has no instruction, and then no call is made. `Prctl` with the errno if setting
/// `no_new_privs` answers another code than 0, and then the filter is not installed. Else `Seccomp` with the
/// errno if installing the filter answers a negative code, and `ThreadSync` with the code if it is positive.
///
/// # Examples
///
/// ```
/// let mut kernel = WillingKernel;
/// let program = [bpf_stmt(BPF_RET | BPF_K, SeccompAction::Allow.into())];
/// assert!(rt; apply_filter(&mut kernel, &program).is_ok());
/// // An empty program is refused, and the kernel is not asked.
/// assert!(rt; apply_filter(&mut kernel, &[]).is_err());
/// ```
pub fn apply_filter<K: Kernel>(kernel: &mut K, prog: BpfProgramRef<'_>) -> Result<()>
    requires { length prog.now ≤ 65535 }
    ensures applied { Applied K.no_new_privs K.mode_filter kernel.old 0 prog.now kernel.new result }
{
    apply_filter_with_flags(kernel, NO_FLAGS, prog)
}

/// Installs a program for all threads of the process.
///
/// As [`apply_filter`], with the flag `SECCOMP_FILTER_FLAG_TSYNC` of `seccomp(2)`. If some thread
/// cannot take the filter, no thread has it, and `ThreadSync` holds that thread's id.
///
/// ```
/// let mut kernel = WillingKernel;
/// let program = [bpf_stmt(BPF_RET | BPF_K, SeccompAction::Allow.into())];
/// assert!(rt; apply_filter_all_threads(&mut kernel, &program).is_ok());
/// ```
pub fn apply_filter_all_threads<K: Kernel>(kernel: &mut K, prog: BpfProgramRef<'_>) -> Result<()>
    requires { length prog.now ≤ 65535 }
    ensures applied { Applied K.no_new_privs K.mode_filter kernel.old 1 prog.now kernel.new result }
{
    apply_filter_with_flags(kernel, SECCOMP_FILTER_FLAG_TSYNC, prog)
}

// Installs a program with these flags of `seccomp(2)`.
fn apply_filter_with_flags<K: Kernel>(
    kernel: &mut K,
    flags: u64,
    prog: BpfProgramRef<'_>,
) -> Result<()>
    requires { length prog.now ≤ 65535 }
    ensures applied { Applied K.no_new_privs K.mode_filter kernel.old flags prog.now kernel.new result }
{
    if prog.is_empty() {
        return Err(Error::EmptyFilter);
    }
    let (code, number) = kernel.set_no_new_privs();
    if code != 0 {
        return Err(Error::Prctl(number));
    }
    let (code, number) = kernel.set_mode_filter(flags, prog);
    if code < 0 {
        Err(Error::Seccomp(number))
    } else if code > 0 {
        Err(Error::ThreadSync(code))
    } else {
        Ok(())
    }
}
