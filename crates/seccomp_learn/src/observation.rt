// Calls as they were observed, and which of their arguments a policy keeps.

ghost use Rattle.std.specs.Prelude.{◌≡◌, option_map};
ghost use Rattle.seccompiler.specs.Policy.{part_of};
ghost use Rattle.seccomp_learn.specs.Observed.{value_at};

use seccompiler::SeccompCmpArgLen;

/// A call that a program made.
#[derive(Clone, Copy)]
pub struct Observation {
    /// The call's number.
    pub number: u32,
    /// What is known of its arguments.
    pub arguments: [Option<u64>; 6],
    /// Which of them are known in their low 32 bits alone: negative numbers of strace.
    pub short: [bool; 6],
}

/// An argument whose values a policy keeps.
#[derive(Clone, Copy)]
pub struct Kept {
    /// The number of the argument's call.
    pub number: u32,
    /// The argument's index, from 0.
    pub arg_index: u8,
    /// How much of it is kept.
    pub arg_len: SeccompCmpArgLen,
}

// What was seen of a kept argument: in as much of it as is kept.
pub(crate) fn seen_part(kept: &Kept, observation: &Observation) -> Option<u64>
    ensures { result ≡ option_map (part_of kept.now.arg_len) (value_at observation.now kept.now.arg_index) }
{
    let value = (*observation.arguments.get(usize::from(kept.arg_index))?)?;
    match kept.arg_len {
        SeccompCmpArgLen::Dword => Some(value % (1 << 32)),
        SeccompCmpArgLen::Qword => Some(value),
    }
}
