// Calls that a filter may leave to its mismatch action.

/// A call that it matters of whether a filter has an entry for it.
#[derive(Clone, Copy)]
pub enum Unlisted {
    /// `exit`, by which a thread ends.
    Exit,
    /// `exit_group`, by which a process ends.
    ExitGroup,
    /// `rt_sigreturn`, by which a signal handler returns.
    RtSigreturn,
    /// `clone3`, which makes processes and threads, with flags that no filter sees.
    Clone3,
    /// `execve`, by which a program is started.
    Execve,
    /// `restart_syscall`, by which Linux goes on with a call after the process was stopped.
    RestartSyscall,
}

impl Unlisted {
    /// The call's name, the same on all architectures.
    pub fn name(self) -> &'static str {
        match self {
            Unlisted::Exit => "exit",
            Unlisted::ExitGroup => "exit_group",
            Unlisted::RtSigreturn => "rt_sigreturn",
            Unlisted::Clone3 => "clone3",
            Unlisted::Execve => "execve",
            Unlisted::RestartSyscall => "restart_syscall",
        }
    }
}
