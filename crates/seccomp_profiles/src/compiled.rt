// From the text of a profile to its program.

ghost use Rattle.std.specs.Prelude.{◌≡◌, IfErr, IfOk};
ghost use Rattle.seccomp_profiles.specs.CompiledProfile.{IsCompileFault, IsCompiledProfile};
ghost use Rattle.seccomp_profiles.specs.Types.{AllOnArguments};

use crate::decisions::decisions_of_profile;
use crate::unknown::unknown_names;
use crate::{Container, Profile, ProfileError, profile_of};
use seccomp_tree::TreeError;
use seccompiler::{BpfProgram, TargetArch};
use std::alloc::{AllocError, Global};
use std::{error, fmt};

/// A profile that was read, and its program.
#[derive(Drop)]
pub struct CompiledProfile {
    /// The profile of the text. No program has its flags: who installs it chooses them.
    pub profile: Profile,
    /// The program: one tree. It returns what the profile decides of every call, and kills the process at one of another
    /// architecture.
    pub program: BpfProgram,
    /// The names, of entries that apply, that no call of the architecture has, in the order of the profile's text and as
    /// often as they stand there. The program gives their calls the default action, as all that no entry is for.
    pub left_out: Vec<String>,
}

/// Why the profile of a text isn't compiled.
#[derive(Debug, Drop)]
pub enum CompileError {
    /// The text is no profile.
    Profile(ProfileError),
    /// No call of the architecture has these names, and none are to be left out.
    UnknownNames(Vec<String>),
    /// The program would have more than 4096 instructions.
    TooLarge,
    /// Memory ran out.
    OutOfMemory,
}

/// Compiles the profile of a text, on an architecture and in a container, into one program, which returns what
/// the profile decides of every call.
///
/// It is the program of [`decisions_of_profile`](crate::decisions_of_profile). Entries that don't apply to the
/// container, `architectures`, `archMap`, `flags`, and names of calls that the architecture doesn't have add
/// nothing to it. `left_out` lists those names, as [`unknown_names`](crate::unknown_names) does; if `strict` is
/// set, they are an error.
///
/// # Errors
///
/// The first of these:
///
/// - `Profile` with the error of [`profile_of`](crate::profile_of), if the text is no profile;
/// - `UnknownNames` with the names that would be left out, if there are any and `strict` is set;
/// - `TooLarge` if the program would have more than 4096 instructions.
///
/// `OutOfMemory` may be returned instead of any answer, if memory runs out. No other error is returned, and `Profile` never
/// contains `OutOfMemory`.
pub fn compile_profile(
    alloc: Global,
    arch: TargetArch,
    container: &Container,
    strict: bool,
    text: &[u8],
) -> Result<CompiledProfile, CompileError>
    ensures compiled { IfOk result (IsCompiledProfile arch container.now strict text.now) }
    ensures fault { IfErr result (IsCompileFault arch container.now strict text.now) }
    ensures arguments { IfOk result (λ compiled. AllOnArguments compiled.profile.entries) }
{
    let profile = profile_of(alloc, text)?;
    let left_out = unknown_names(alloc, arch, container, &profile)?;
    if strict && !left_out.is_empty() {
        return Err(CompileError::UnknownNames(left_out));
    }
    let decisions = decisions_of_profile(alloc, arch, container, &profile)?;
    match decisions.to_bpf(alloc) {
        Ok(program) => Ok(CompiledProfile {
            profile,
            program,
            left_out,
        }),
        Err(TreeError::TooLarge) => Err(CompileError::TooLarge),
        Err(TreeError::OutOfMemory) => Err(CompileError::OutOfMemory),
    }
}

/// The error's text. That of `Profile` is what the profile's error says.
impl fmt::Display for CompileError {
    fn fmt<W: fmt::Write>(&self, f: &mut fmt::Formatter<W>) -> fmt::Result {
        match self {
            CompileError::Profile(error) => error.fmt(f),
            CompileError::UnknownNames(names) => {
                f.write_str("No system call of this architecture has these names")?;
                // They stand behind a colon, with a comma between each two.
                let mut sign = ": ";
                for name in names {
                    f.write_str(sign)?;
                    f.write_str(name.as_str())?;
                    sign = ", ";
                }
                f.write_str(".")
            }
            CompileError::TooLarge => {
                f.write_str("The profile's program needs more than 4096 instructions.")
            }
            CompileError::OutOfMemory => f.write_str("Out of memory."),
        }
    }
}

impl error::Error for CompileError {}

/// A failed allocation is `OutOfMemory`.
impl From<AllocError> for CompileError {
    ghost use Rattle.std.specs.Prelude.{◌≡◌};
    ghost use Rattle.seccomp_profiles.specs.declared.compiled.CompileError.TheVariants.{OutOfMemory};

    ghost from_gives = { λ _ error. error ≡ OutOfMemory };

    fn from(_refused: AllocError) -> CompileError {
        CompileError::OutOfMemory
    }
}

/// `OutOfMemory` stays so; every other error of a profile is `Profile`.
impl From<ProfileError> for CompileError {
    ghost use Rattle.std.specs.Prelude.{◌≡◌};
    ghost use Rattle.seccomp_profiles.specs.CompiledProfile.{from_profile};

    ghost from_gives = { λ cause error. error ≡ from_profile cause };

    fn from(error: ProfileError) -> CompileError {
        match error {
            ProfileError::OutOfMemory => CompileError::OutOfMemory,
            other => CompileError::Profile(other),
        }
    }
}
