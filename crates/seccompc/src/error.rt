// Why a command isn't carried out.

use seccompiler::BackendError;
use std::alloc::{AllocError, AllocFailed};
use std::{fmt, io};

/// Why a command isn't carried out.
///
/// Running out of memory is `OutOfMemory` alone, and never inside another variant.
#[derive(Drop)]
pub(crate) enum ToolError {
    /// The library's error.
    Library(seccompiler::Error),
    /// The file that the command names can't be opened.
    Unopened,
    /// No filter of the policy has this name.
    NoFilter(String),
    /// The records end inside a record, after so many bytes of it, from 1 to 63.
    ShortRecord(usize),
    /// The records can't be read.
    Read(io::Error),
    /// The output can't be written; how much of it went out is not known.
    Write(io::Error),
    /// Memory ran out, here or in a reader.
    OutOfMemory,
}

/// The error's text.
impl fmt::Display for ToolError {
    ghost use Rattle.seccompc.specs.Errors.{tool_text};

    ghost output = { tool_text };

    fn fmt<W: fmt::Write>(&self, f: &mut fmt::Formatter<W>) -> fmt::Result {
        match self {
            ToolError::Library(error) => fmt::Display::fmt(error, f),
            ToolError::Unopened => f.write_str("Error opening the policy file."),
            ToolError::NoFilter(name) => write!(f, "No filter has this name: {name}."),
            ToolError::ShortRecord(rest) => {
                write!(
                    f,
                    "The input ends inside a record, after {rest} bytes of it."
                )
            }
            ToolError::Read(_) => f.write_str("Error reading input."),
            ToolError::Write(_) => f.write_str("Error writing output."),
            ToolError::OutOfMemory => f.write_str("Out of memory."),
        }
    }
}

/// The library's `OutOfMemory` is the program's.
impl From<seccompiler::Error> for ToolError {
    ghost use Rattle.std.specs.Prelude.{◌≡◌};
    ghost use Rattle.seccompc.specs.Errors.{from_library};

    ghost from_gives = { λ refusal error. error ≡ from_library refusal };

    fn from(refusal: seccompiler::Error) -> ToolError {
        match refusal {
            seccompiler::Error::OutOfMemory => ToolError::OutOfMemory,
            refusal => ToolError::Library(refusal),
        }
    }
}

/// As the library's root answers it.
impl From<BackendError> for ToolError {
    ghost use Rattle.std.specs.Prelude.{◌≡◌};
    ghost use Rattle.seccompiler.specs.Errors.{from_backend};
    ghost use Rattle.seccompc.specs.Errors.{from_library};

    ghost from_gives = { λ refusal error. error ≡ from_library (from_backend refusal) };

    fn from(refusal: BackendError) -> ToolError {
        seccompiler::Error::from(refusal).into()
    }
}

impl From<AllocError> for ToolError {
    ghost use Rattle.std.specs.Prelude.{◌≡◌};
    ghost use Rattle.seccompc.specs.declared.error.ToolError.TheVariants.{OutOfMemory};

    ghost from_gives = { λ _ error. error ≡ OutOfMemory };

    fn from(_refused: AllocError) -> ToolError {
        ToolError::OutOfMemory
    }
}

impl<T: Drop> From<AllocFailed<T>> for ToolError {
    ghost use Rattle.std.specs.Prelude.{◌≡◌};
    ghost use Rattle.seccompc.specs.declared.error.ToolError.TheVariants.{OutOfMemory};

    ghost from_gives = { λ _ error. error ≡ OutOfMemory };

    fn from(_refused: AllocFailed<T>) -> ToolError {
        ToolError::OutOfMemory
    }
}
