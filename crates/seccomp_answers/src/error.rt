// Why there is no answer.

ghost use Rattle.seccomp_answers.specs.Errors.{IsAtPath, IsOfSecond};

use crate::program::fault::ProgramFault;
use seccomp_faults::{Fault, is_of_profile};
use seccomp_profiles::{Abi, CompileError};
use seccomp_stack::StackError;
use seccomp_text::readable::{TextKind, readable};
use seccomp_tree::FilterError;
use seccompiler::BackendError;
use seccompiler::json::JsonFrontendError;
use std::alloc::{AllocError, AllocFailed, Global};

/// Why there is no answer.
///
/// Running out of memory is `OutOfMemory` alone, and never inside another variant.
pub enum AnswerError {
    /// The library's error.
    Library(seccompiler::Error),
    /// No filter of the policy has this name.
    NoFilter(String),
    /// No filter is asked for, and the policy doesn't have one but these, by their names.
    Unchosen(String),
    /// The architecture has no call of this name or number.
    UnknownCall(String, Abi),
    /// The first one of what is read has this fault, or a value of an option.
    Fault(String),
    /// The second one of what is read has this fault.
    Second(String),
    /// This is wrong, and the text says where.
    Told(String),
    /// The policy or the profile has these faults, of which the one at this place comes first in the text.
    Placed(usize, Vec<Fault>),
    /// A filter would have more than 4096 instructions as a tree.
    TreeTooLarge,
    /// The program of all that hold together would have so many instructions, more than 4096.
    StackTooLong(usize),
    /// The program can't be read, or may not be run.
    Program(ProgramFault),
    /// The configuration of a container has no profile.
    NoProfile,
    /// A profile isn't compiled.
    Profile(CompileError),
    /// Memory ran out.
    OutOfMemory,
}

// By hand, so that wherever an error is dropped, that is one call, and not each variant written out.
impl Drop for AnswerError {
    fn drop(self) {
        match self {
            AnswerError::Library(error) => drop(error),
            AnswerError::Program(fault) => drop(fault),
            AnswerError::Profile(error) => drop(error),
            AnswerError::Placed(_, faults) => drop(faults),
            AnswerError::NoFilter(told)
            | AnswerError::Unchosen(told)
            | AnswerError::UnknownCall(told, _)
            | AnswerError::Fault(told)
            | AnswerError::Second(told)
            | AnswerError::Told(told) => drop(told),
            AnswerError::NoProfile
            | AnswerError::TreeTooLarge
            | AnswerError::StackTooLong(_)
            | AnswerError::OutOfMemory => {}
        }
    }
}

impl AnswerError {
    /// The error as one of the second of what is read, by its text; lack of memory stays that.
    pub fn in_second(alloc: Global, error: AnswerError) -> AnswerError
        ensures { IsOfSecond error result }
    {
        if let AnswerError::OutOfMemory = error {
            return AnswerError::OutOfMemory;
        }
        let told = error.told(alloc);
        drop(error);
        match told {
            Ok(told) => AnswerError::Second(told),
            Err(error) => error.into(),
        }
    }

    /// The error with the path of what it is about in front of its text; lack of memory stays that.
    pub fn at_path(alloc: Global, path: &str, error: AnswerError) -> AnswerError
        ensures { IsAtPath error result }
    {
        if let AnswerError::OutOfMemory = error {
            return AnswerError::OutOfMemory;
        }
        let told = match error.told(alloc) {
            Ok(told) => path_text(alloc, path, told.as_str()),
            Err(error) => Err(error),
        };
        drop(error);
        match told {
            Ok(told) => AnswerError::Told(told),
            Err(error) => error.into(),
        }
    }

    /// The error's text.
    pub fn told(&self, alloc: Global) -> Result<String, AllocError> {
        match self {
            AnswerError::Library(error) => error.to_string(alloc),
            AnswerError::Program(fault) => fault.told(alloc),
            AnswerError::Profile(error) => error.to_string(alloc),
            AnswerError::NoFilter(name) => format!(in alloc; "No filter has this name: {name}."),
            AnswerError::UnknownCall(call, abi) => {
                let arch = abi.name();
                format!(in alloc; "No call of {arch} has this name or number: {call}.")
            }
            AnswerError::Unchosen(names) if names.is_empty() => {
                String::from_str(alloc, "The policy has no filters.")
            }
            AnswerError::Unchosen(names) => format!(in alloc; "Name one of its filters: {names}."),
            AnswerError::Fault(told) | AnswerError::Second(told) | AnswerError::Told(told) => {
                told.clone()
            }
            AnswerError::Placed(first, faults) => match faults.get(*first) {
                Some(fault) => told_of(alloc, fault, faults.len().saturating_sub(1)),
                None => String::from_str(alloc, "The text has faults."),
            },
            AnswerError::NoProfile => String::from_str(
                alloc,
                "a container's configuration without a profile: missing \"linux.seccomp\"",
            ),
            AnswerError::TreeTooLarge => String::from_str(
                alloc,
                "A filter needs more than 4096 instructions in the tree layout.",
            ),
            AnswerError::StackTooLong(length) => {
                format!(in alloc;
                    "The program of all needs {length} instructions; 4096 fit. explain --after says what they decide together."
                )
            }
            AnswerError::OutOfMemory => String::from_str(alloc, "Out of memory."),
        }
    }
}

// What is told of a fault of a text that has so many more.
fn told_of(alloc: Global, fault: &Fault, more: usize) -> Result<String, AllocError> {
    let told = fault.text(alloc)?;
    match more {
        0 => Ok(told),
        _ if is_of_profile(fault.form) => Ok(told),
        1 => format!(in alloc; "{told} (1 more error; seccomptool check prints it)"),
        _ => format!(in alloc; "{told} ({more} more errors; seccomptool check prints them)"),
    }
}

/// What is wrong with what is at a path, after the path.
pub fn path_text(alloc: Global, path: &str, told: &str) -> Result<String, AllocError> {
    let front = front_of(alloc, path)?;
    format!(in alloc; "{front}{told}")
}

/// What stands in front of each line about what is at this path, of which `-` is standard input.
pub fn front_of(alloc: Global, path: &str) -> Result<String, AllocError> {
    if path == "-" {
        return String::from_str(alloc, "standard input: ");
    }
    let path = readable(alloc, path, TextKind::Name)?;
    format!(in alloc; "{path}: ")
}

/// The library's `OutOfMemory` is the program's.
impl From<seccompiler::Error> for AnswerError {
    ghost use Rattle.std.specs.Prelude.{◌≡◌};
    ghost use Rattle.seccomp_answers.specs.Errors.{from_library};

    ghost from_gives = { λ refusal error. error ≡ from_library refusal };

    fn from(refusal: seccompiler::Error) -> AnswerError {
        match refusal {
            seccompiler::Error::OutOfMemory => AnswerError::OutOfMemory,
            refusal => AnswerError::Library(refusal),
        }
    }
}

/// As the library's root answers it.
impl From<BackendError> for AnswerError {
    ghost use Rattle.std.specs.Prelude.{◌≡◌};
    ghost use Rattle.seccompiler.specs.Errors.{from_backend};
    ghost use Rattle.seccomp_answers.specs.Errors.{from_library};

    ghost from_gives = { λ refusal error. error ≡ from_library (from_backend refusal) };

    fn from(refusal: BackendError) -> AnswerError {
        seccompiler::Error::from(refusal).into()
    }
}

/// As the library's root answers it, but for a tree.
impl From<FilterError> for AnswerError {
    ghost use Rattle.std.specs.Prelude.{◌≡◌};
    ghost use Rattle.seccomp_answers.specs.Errors.{from_filter};

    ghost from_gives = { λ refusal error. error ≡ from_filter refusal };

    fn from(refusal: FilterError) -> AnswerError {
        match refusal {
            FilterError::InvalidSyscallNumber(number) => {
                BackendError::InvalidSyscallNumber(number).into()
            }
            FilterError::FilterTooLarge(length) => BackendError::FilterTooLarge(length).into(),
            FilterError::TreeTooLarge => AnswerError::TreeTooLarge,
            FilterError::OutOfMemory => AnswerError::OutOfMemory,
        }
    }
}

impl From<StackError> for AnswerError {
    ghost use Rattle.std.specs.Prelude.{◌≡◌};
    ghost use Rattle.seccomp_answers.specs.Errors.{from_stack};

    ghost from_gives = { λ refusal error. error ≡ from_stack refusal };

    fn from(refusal: StackError) -> AnswerError {
        match refusal {
            StackError::TooLong(length) => AnswerError::StackTooLong(length),
            StackError::OutOfMemory => AnswerError::OutOfMemory,
        }
    }
}

/// As the library's root answers it.
impl From<JsonFrontendError> for AnswerError {
    ghost use Rattle.std.specs.Prelude.{◌≡◌};
    ghost use Rattle.seccompiler.specs.Errors.{from_frontend};
    ghost use Rattle.seccomp_answers.specs.Errors.{from_library};

    ghost from_gives = { λ refusal error. error ≡ from_library (from_frontend refusal) };

    fn from(refusal: JsonFrontendError) -> AnswerError {
        seccompiler::Error::from(refusal).into()
    }
}

impl From<AllocError> for AnswerError {
    ghost use Rattle.std.specs.Prelude.{◌≡◌};
    ghost use Rattle.seccomp_answers.specs.declared.error.AnswerError.TheVariants.{OutOfMemory};

    ghost from_gives = { λ _ error. error ≡ OutOfMemory };

    fn from(_refused: AllocError) -> AnswerError {
        AnswerError::OutOfMemory
    }
}

impl<T: Drop> From<AllocFailed<T>> for AnswerError {
    ghost use Rattle.std.specs.Prelude.{◌≡◌};
    ghost use Rattle.seccomp_answers.specs.declared.error.AnswerError.TheVariants.{OutOfMemory};

    ghost from_gives = { λ _ error. error ≡ OutOfMemory };

    fn from(_failed: AllocFailed<T>) -> AnswerError {
        AnswerError::OutOfMemory
    }
}
