// What a profile decides, as decisions.

ghost use Rattle.std.specs.Prelude.{IfOk};
ghost use Rattle.seccomp_profiles.specs.Lowered.{AreOwn};
ghost use Rattle.seccomp_profiles.specs.ProfileDecisions.{DecideAs};
ghost use Rattle.seccomp_profiles.specs.Types.{AllOnArguments};

use crate::lowered::lowered_profile;
use crate::{Container, Profile};
use seccomp_entries::decisions_of;
use seccomp_tree::Decisions;
use seccompiler::TargetArch;
use std::alloc::{AllocError, Global};

/// What a profile decides of each call of the architecture, in a container, as decisions.
///
/// A call of another architecture kills the process. Of each call those entries that concern it have a ruling for each of
/// their lists of conditions: first those of entries without conditions, then those of the strictest action, and so on; of
/// equally strict ones in the profile's order.
///
/// # Errors
///
/// An error is returned if memory runs out.
pub fn decisions_of_profile(
    alloc: Global,
    arch: TargetArch,
    container: &Container,
    profile: &Profile,
) -> Result<Decisions, AllocError>
    requires { AllOnArguments profile.now.entries }
    ensures decide { IfOk result (DecideAs arch container.now profile.now) }
    ensures own { IfOk result (AreOwn arch container.now profile.now) }
{
    let lowered = lowered_profile(alloc, arch, container, profile)?;
    let decisions = decisions_of(alloc, &lowered)?;
    Ok(decisions)
}
