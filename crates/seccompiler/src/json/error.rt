// Why a JSON text gives no filters.

use crate::backend::{BackendError, TargetArch};
use std::alloc::{AllocError, AllocFailed};
use std::fmt::InlineText;
use std::{error, fmt, io};

// More bytes than any error of `serde_json` says: at most 50, and a line and a column behind them.
const WORDS_CAPACITY: usize = 128;

/// Why the JSON front end fails.
///
/// If a text has several faults, the first of these is reported: the reader fails, the bytes are no JSON,
/// a name is repeated, the top is no object, a filter has a wrong shape, and then what building the filters
/// rejects.
#[derive(Drop)]
pub enum JsonFrontendError {
    /// The backend rejects a filter. No call gives it with `BackendError::OutOfMemory` inside.
    Backend(BackendError),
    /// The bytes are no JSON text in UTF-8, or nest too deep. No call gives it if memory runs out.
    SerdeJson(serde_json::Error),
    /// No system call of this architecture has this name.
    SyscallName(String, TargetArch),
    /// The reader failed. No call gives it if memory runs out.
    Read(io::Error),
    /// The text has more bytes `:` outside strings than the objects of its value have names, as one
    /// that writes a name of an object twice.
    RepeatedKey,
    /// The text is no object, so it names no filters.
    NotAnObject,
    /// The value of this name is no filter, and that of each lesser name, in byte order, is one.
    Shape(String),
    /// Memory ran out.
    OutOfMemory,
}

/// The error's text. That of `SerdeJson` is `Error parsing Json: `, and then what `serde_json` says.
impl fmt::Display for JsonFrontendError {
    ghost use Rattle.std.specs.Fmt.{DisplaysOnOk};
    ghost use Rattle.seccompiler.specs.Texts.{json_text, IsJsonText, WritesOne};

    ghost output = { json_text };

    fn fmt<W: fmt::Write>(&self, f: &mut fmt::Formatter<W>) -> fmt::Result
        ensures writes { DisplaysOnOk W.write_str_gives f.old result (json_text self.now) f.new }
        ensures text { WritesOne W.write_str_gives (IsJsonText self.now) f.old result f.new }
    {
        let text = match self {
            JsonFrontendError::Backend(error) => return fmt::Display::fmt(error, f),
            JsonFrontendError::SerdeJson(error) => {
                // They are put aside first, since no contract says what they leave of what a formatter has.
                let words = InlineText::<WORDS_CAPACITY>::of(error);
                return write!(f, "Error parsing Json: {}", words.as_str());
            }
            JsonFrontendError::SyscallName(name, arch) => {
                return write!(f, "Invalid syscall name: {name} for given arch: {arch}.");
            }
            JsonFrontendError::Read(_) => "Error reading Json.",
            JsonFrontendError::RepeatedKey => "Repeated key in Json.",
            JsonFrontendError::NotAnObject => "Json is not an object of filters.",
            JsonFrontendError::Shape(name) => {
                return write!(f, "Json filter has a wrong shape: {name}.");
            }
            JsonFrontendError::OutOfMemory => "Out of memory.",
        };
        f.write_str(text)
    }
}

/// The error's text too.
impl fmt::Debug for JsonFrontendError {
    fn fmt<W: fmt::Write>(&self, f: &mut fmt::Formatter<W>) -> fmt::Result {
        fmt::Display::fmt(self, f)
    }
}

impl error::Error for JsonFrontendError {}

impl From<AllocError> for JsonFrontendError {
    ghost use Rattle.std.specs.Prelude.{◌≡◌};
    ghost use Rattle.seccompiler.specs.declared.json.error.JsonFrontendError.TheVariants.{OutOfMemory};

    ghost from_gives = { λ _ e. e ≡ OutOfMemory };

    fn from(_refused: AllocError) -> JsonFrontendError {
        JsonFrontendError::OutOfMemory
    }
}

impl<T: Drop> From<AllocFailed<T>> for JsonFrontendError {
    ghost use Rattle.std.specs.Prelude.{◌≡◌};
    ghost use Rattle.seccompiler.specs.declared.json.error.JsonFrontendError.TheVariants.{OutOfMemory};

    ghost from_gives = { λ _ e. e ≡ OutOfMemory };

    fn from(_refused: AllocFailed<T>) -> JsonFrontendError {
        JsonFrontendError::OutOfMemory
    }
}

/// `OutOfMemory` stays so; every other error of the backend is `Backend`.
impl From<BackendError> for JsonFrontendError {
    ghost use Rattle.std.specs.Prelude.{◌≡◌};
    ghost use Rattle.seccompiler.specs.Errors.{frontend_refusal};

    ghost from_gives = { λ cause e. e ≡ frontend_refusal cause };

    fn from(error: BackendError) -> JsonFrontendError {
        match error {
            BackendError::OutOfMemory => JsonFrontendError::OutOfMemory,
            other => JsonFrontendError::Backend(other),
        }
    }
}
