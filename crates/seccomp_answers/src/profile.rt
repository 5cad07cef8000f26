// The program of a profile of a container runtime.

ghost use Rattle.std.specs.Prelude.{Bool, IfErr, IfOk};
ghost use Rattle.seccomp_profiles.specs.CompiledProfile.{IsCompiledProfile};
ghost use Rattle.seccomp_profiles.specs.Types.{AllOnArguments, Container};
ghost use Rattle.seccomp_profiles.specs.ProfileText.{IsProfileFault};
ghost use Rattle.seccomp_profiles.specs.declared.error.ProfileError.TheVariants.{NotAProfile};
ghost use Rattle.seccompiler.specs.declared.backend.TargetArch.{TargetArch};
ghost use Rattle.seccomp_answers.specs.Causes.{IsRefusedProfile};

use crate::error::AnswerError;
use crate::kind::lacks_profile;
use seccomp_faults::profile_faults;
use seccomp_profiles::{CompileError, CompiledProfile, Container, ProfileError, compile_profile};
use seccompiler::TargetArch;
use std::alloc::Global;

/// The program of a profile's text. If it isn't strict, names that no call of the architecture has are left out.
///
/// # Errors
///
/// `Placed` with its faults if the text's value is no profile, and else `Profile` with what [`compile_profile`] gives.
/// `OutOfMemory` if memory runs out.
pub fn compiled_of(
    alloc: Global,
    target: TargetArch,
    container: &Container,
    strict: bool,
    text: &[u8],
) -> Result<CompiledProfile, AnswerError>
    ensures compiled { IfOk result (IsCompiledProfile target container.now strict text.now) }
    ensures refused { IfErr result (IsRefusedProfile target container.now strict text.now) }
    ensures arguments { IfOk result (λ compiled. AllOnArguments compiled.profile.entries) }
{
    match compile_profile(alloc, target, container, strict, text) {
        Ok(compiled) => Ok(compiled),
        Err(CompileError::OutOfMemory) => Err(AnswerError::OutOfMemory),
        Err(CompileError::Profile(error)) => Err(unread(alloc, text, error)),
        Err(error) => Err(AnswerError::Profile(error)),
    }
}

/// Why a text is read as no profile: the error, or the faults of its value.
pub(crate) fn unread(alloc: Global, text: &[u8], error: ProfileError) -> AnswerError
    ensures { (target : TargetArch) (container : Container) (strict : Bool) → IsProfileFault text.now error
        → IsRefusedProfile target container strict text.now result }
{
    match error {
        ProfileError::NotAProfile => faulty(alloc, text),
        ProfileError::OutOfMemory => AnswerError::OutOfMemory,
        error => AnswerError::Profile(CompileError::Profile(error)),
    }
}

// The faults of a text whose value is no profile; or that a configuration has none, or that it is none, if no fault is found.
fn faulty(alloc: Global, text: &[u8]) -> AnswerError
    ensures { (target : TargetArch) (container : Container) (strict : Bool) → IsProfileFault text.now NotAProfile
        → IsRefusedProfile target container strict text.now result }
{
    match lacks_profile(alloc, text) {
        Ok(true) => return AnswerError::NoProfile,
        Ok(false) => {}
        Err(_) => return AnswerError::OutOfMemory,
    }
    let Ok(faults) = profile_faults(alloc, text) else {
        return AnswerError::OutOfMemory;
    };
    if faults.is_empty() {
        return AnswerError::Profile(CompileError::Profile(ProfileError::NotAProfile));
    }
    AnswerError::Placed(0, faults)
}
