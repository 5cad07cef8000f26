// Why a text is no profile.

use std::alloc::AllocError;
use std::fmt::InlineText;
use std::{error, fmt};

// More bytes than any error of `serde_json` says: at most 50, and a line and a column behind them.
const WORDS_CAPACITY: usize = 128;

/// Why a text is no profile.
#[derive(Debug, Drop)]
pub enum ProfileError {
    /// The bytes are no JSON text in UTF-8, or nest too deep. No call gives it if memory runs out.
    Json(serde_json::Error),
    /// The text's value is no profile, or it has a part that isn't supported.
    NotAProfile,
    /// Memory ran out.
    OutOfMemory,
}

/// The error's text. That of `Json` is `Error parsing Json: `, and then what `serde_json` says.
impl fmt::Display for ProfileError {
    ghost use Rattle.std.specs.Fmt.{DisplaysOnOk};
    ghost use Rattle.seccompiler.specs.Texts.{WritesOne};
    ghost use Rattle.seccomp_profiles.specs.ProfileText.{profile_error_text, IsProfileErrorText};

    ghost output = { profile_error_text };

    fn fmt<W: fmt::Write>(&self, f: &mut fmt::Formatter<W>) -> fmt::Result
        ensures writes { DisplaysOnOk W.write_str_gives f.old result (profile_error_text self.now) f.new }
        ensures text { WritesOne W.write_str_gives (IsProfileErrorText self.now) f.old result f.new }
    {
        match self {
            ProfileError::Json(error) => {
                // They are put aside first, since no contract says what they leave of what a formatter has.
                let words = InlineText::<WORDS_CAPACITY>::of(error);
                write!(f, "Error parsing Json: {}", words.as_str())
            }
            ProfileError::NotAProfile => f.write_str(
                "The JSON value isn't a seccomp profile, or a part of it isn't supported.",
            ),
            ProfileError::OutOfMemory => f.write_str("Out of memory."),
        }
    }
}

impl error::Error for ProfileError {}

impl From<AllocError> for ProfileError {
    ghost use Rattle.std.specs.Prelude.{◌≡◌};
    ghost use Rattle.seccomp_profiles.specs.declared.error.ProfileError.TheVariants.{OutOfMemory};

    ghost from_gives = { λ _ error. error ≡ OutOfMemory };

    fn from(_refused: AllocError) -> ProfileError {
        ProfileError::OutOfMemory
    }
}
