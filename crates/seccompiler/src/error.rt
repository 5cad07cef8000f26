// What the calls of the crate's root refuse.

use crate::backend::BackendError;
use crate::json::JsonFrontendError;
use std::alloc::AllocError;
use std::fmt;

/// Why a call of this crate fails.
///
/// Running out of memory is `OutOfMemory` alone, and never inside another variant.
#[derive(Drop)]
pub enum Error {
    /// The backend's error.
    Backend(BackendError),
    /// A program of no instructions was to be installed.
    EmptyFilter,
    /// The call that sets `no_new_privs` failed with this errno, as `prctl(2)` lists them.
    Prctl(i32),
    /// The call that installs a filter failed with this errno, as `seccomp(2)` lists them.
    Seccomp(i32),
    /// The thread of this id could not take the filter that all threads were to have.
    ThreadSync(i64),
    /// The JSON front end's error.
    JsonFrontend(JsonFrontendError),
    /// Memory ran out.
    OutOfMemory,
}

/// A result whose error is [`Error`].
pub type Result<T> = std::result::Result<T, Error>;

/// The error's text.
impl fmt::Display for Error {
    ghost use Rattle.std.specs.Fmt.{DisplaysOnOk};
    ghost use Rattle.seccompiler.specs.Errors.{error_text, IsErrorText};
    ghost use Rattle.seccompiler.specs.Texts.{WritesOne};

    ghost output = { error_text };

    fn fmt<W: fmt::Write>(&self, f: &mut fmt::Formatter<W>) -> fmt::Result
        ensures writes { DisplaysOnOk W.write_str_gives f.old result (error_text self.now) f.new }
        ensures text { WritesOne W.write_str_gives (IsErrorText self.now) f.old result f.new }
    {
        match self {
            Error::Backend(error) => write!(f, "Backend error: {error}"),
            Error::EmptyFilter => f.write_str("Cannot install empty filter."),
            Error::Prctl(number) => write!(f, "Error calling `prctl`: {number}"),
            Error::Seccomp(number) => write!(f, "Error calling `seccomp`: {number}"),
            Error::ThreadSync(thread) => write!(
                f,
                "Seccomp filter synchronization failed in thread `{thread}`"
            ),
            Error::JsonFrontend(error) => match f.write_str("Json Frontend error: ") {
                Ok(()) => fmt::Display::fmt(error, f),
                Err(refused) => Err(refused),
            },
            Error::OutOfMemory => f.write_str("Out of memory."),
        }
    }
}

/// The error's text too.
impl fmt::Debug for Error {
    fn fmt<W: fmt::Write>(&self, f: &mut fmt::Formatter<W>) -> fmt::Result {
        fmt::Display::fmt(self, f)
    }
}

impl std::error::Error for Error {}

/// The backend's `OutOfMemory` is the crate's; any other error stays the backend's.
impl From<BackendError> for Error {
    ghost use Rattle.std.specs.Prelude.{◌≡◌};
    ghost use Rattle.seccompiler.specs.Errors.{from_backend};

    ghost from_gives = { λ refusal error. error ≡ from_backend refusal };

    fn from(refusal: BackendError) -> Error {
        match refusal {
            BackendError::OutOfMemory => Error::OutOfMemory,
            refusal => Error::Backend(refusal),
        }
    }
}

/// The front end's `OutOfMemory` is the crate's; any other error stays the front end's.
impl From<JsonFrontendError> for Error {
    ghost use Rattle.std.specs.Prelude.{◌≡◌};
    ghost use Rattle.seccompiler.specs.Errors.{from_frontend};

    ghost from_gives = { λ refusal error. error ≡ from_frontend refusal };

    fn from(refusal: JsonFrontendError) -> Error {
        match refusal {
            JsonFrontendError::OutOfMemory => Error::OutOfMemory,
            refusal => Error::JsonFrontend(refusal),
        }
    }
}

/// A failed allocation is `OutOfMemory`.
impl From<AllocError> for Error {
    ghost use Rattle.std.specs.Prelude.{◌≡◌};
    ghost use Rattle.seccompiler.specs.declared.error.Error.TheVariants.{OutOfMemory};

    ghost from_gives = { λ _ error. error ≡ OutOfMemory };

    fn from(_refused: AllocError) -> Error {
        Error::OutOfMemory
    }
}
