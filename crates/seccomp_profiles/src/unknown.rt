// The names of a profile that no system call has.

ghost use Rattle.std.specs.Prelude.{IfOk, map, string_bytes};
ghost use Rattle.seccomp_profiles.specs.LeftOut.{AreLeftOut, AreUnknown};

use crate::scope::applies;
use crate::{Container, Profile};
use seccompiler::{SyscallTable, TargetArch};
use std::alloc::{AllocError, Global};

// Of the names, those that no call of the architecture has.
fn unknown_of(alloc: Global, arch: TargetArch, names: &[String]) -> Result<Vec<String>, AllocError>
    ensures { IfOk result (λ all. AreUnknown arch (map string_bytes names.now) (map string_bytes all.items)) }
{
    let mut unknown = Vec::new(alloc);
    for name in names {
        if SyscallTable::new(arch)
            .get_syscall_nr(name.as_str())
            .is_some()
        {
            continue;
        }
        unknown.push(String::from_str(alloc, name.as_str())?)?;
    }
    Ok(unknown)
}

/// The names, of those entries of a profile that apply, that no call of the architecture has.
///
/// They stand in the order of the profile's text, and as often as they stand there. Such a name may be that of another
/// architecture's call, or of one that is newer than the kernel whose names the library has.
///
/// # Errors
///
/// An error is returned if memory runs out.
pub fn unknown_names(
    alloc: Global,
    arch: TargetArch,
    container: &Container,
    profile: &Profile,
) -> Result<Vec<String>, AllocError>
    ensures { IfOk result (λ names. AreLeftOut arch container.now profile.now.entries (map string_bytes names.items)) }
{
    let entries = profile.entries.as_slice();
    let mut left_out = Vec::new(alloc);
    for entry in entries {
        if !applies(arch, container, entry) {
            continue;
        }
        let mut own = unknown_of(alloc, arch, entry.names.as_slice())?;
        left_out.append(&mut own)?;
    }
    Ok(left_out)
}
