// Why there is no program.

ghost use Rattle.std.specs.Prelude.{◌≡◌, Some};
ghost use Rattle.seccomp_tree.specs.declared.error.FilterError.TheVariants as filter;
ghost use Rattle.seccomp_tree.specs.declared.error.TreeError.TheVariants as tree;

use seccompiler::BackendError;
use std::alloc::{AllocError, AllocFailed};
use std::{error, fmt};

/// Why decisions have no program.
#[derive(Clone, Copy, Debug, PartialEq, Eq)]
pub enum TreeError {
    /// The program would have more than 4096 instructions, which is what a kernel takes.
    TooLarge,
    /// Memory ran out.
    OutOfMemory,
}

impl From<AllocError> for TreeError {
    ghost from_gives = { λ _ e. e ≡ tree.OutOfMemory };

    fn from(_: AllocError) -> Self {
        TreeError::OutOfMemory
    }
}

/// Why a filter has no program in a layout.
#[derive(Clone, Copy, Debug, PartialEq, Eq)]
pub enum FilterError {
    /// This key of the filter's map lies outside 0 to 4294967295, and no lesser one does.
    InvalidSyscallNumber(i64),
    /// The linear program takes this many instructions, which is more than a program may have.
    FilterTooLarge(usize),
    /// The tree would have more instructions than a program may have.
    TreeTooLarge,
    /// Memory ran out.
    OutOfMemory,
}

/// The error's text.
impl fmt::Display for FilterError {
    ghost use Rattle.seccomp_tree.specs.Layouts.{filter_text};

    ghost output = { λ error. Some (filter_text error) };

    fn fmt<W: fmt::Write>(&self, f: &mut fmt::Formatter<W>) -> fmt::Result {
        match self {
            FilterError::InvalidSyscallNumber(number) => {
                BackendError::InvalidSyscallNumber(*number).fmt(f)
            }
            FilterError::FilterTooLarge(length) => BackendError::FilterTooLarge(*length).fmt(f),
            FilterError::TreeTooLarge => f.write_str(
                "The seccomp filter contains too many BPF instructions as a tree. Max length is 4096.",
            ),
            FilterError::OutOfMemory => BackendError::OutOfMemory.fmt(f),
        }
    }
}

impl error::Error for FilterError {}

impl From<AllocError> for FilterError {
    ghost from_gives = { λ _ e. e ≡ filter.OutOfMemory };

    fn from(_: AllocError) -> Self {
        FilterError::OutOfMemory
    }
}

impl<T: Drop> From<AllocFailed<T>> for FilterError {
    ghost from_gives = { λ _ e. e ≡ filter.OutOfMemory };

    fn from(_: AllocFailed<T>) -> Self {
        FilterError::OutOfMemory
    }
}
