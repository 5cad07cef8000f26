// What a profile decides where no entry matches.

ghost use Rattle.std.specs.Prelude.{◌≡◌, ◌↔◌, ◌<◌, ℕ, Any, IfOk, IfSome, IsTrue, map, string_bytes};
ghost use Rattle.seccomp_profiles.specs.Abis.{end_for};
ghost use Rattle.seccomp_entries.specs.Entries.{value_of};
ghost use Rattle.seccomp_tree.specs.Decided.{AscendFromZero, default_for};
ghost use Rattle.seccomp_profiles.specs.Decision.{IsAbove, IsDefault, IsNameOf, IsNamed, default_of, lets};
ghost use Rattle.seccomp_profiles.specs.Defaults.{IsGreatest, is_above};

use crate::abis::{applies_on, number_of};
use crate::{Abi, Container, Entry, Profile, Runtime};
use seccomp_entries::Action;
use seccomp_tree::DefaultValue;
use seccompiler::{SeccompAction, TargetArch};
use std::alloc::{AllocError, Global};

/// The default values, by ranges of numbers.
pub(crate) fn defaults_of(
    alloc: Global,
    abi: Abi,
    container: &Container,
    profile: &Profile,
) -> Result<Vec<DefaultValue>, AllocError>
    ensures ascend { IfOk result (λ defaults. AscendFromZero defaults.items) }
    ensures values { IfOk result (λ defaults. (n : ℕ) → (action : _) × IsDefault abi container.now profile.now n action × (default_for defaults.items n ≡ value_of action)) }
{
    let greatest = named_in(abi, container, profile);
    if !abi.is_listed(profile) {
        let killed = Action::Own(SeccompAction::KillThread);
        return Ok(vec![in alloc; from(0, killed)]?);
    }
    values_of(alloc, abi, profile.default, greatest)
}

// The default values, where numbers above the greatest are answered with ENOSYS.
fn values_of(
    alloc: Global,
    abi: Abi,
    default: Action,
    greatest: Option<u32>,
) -> Result<Vec<DefaultValue>, AllocError>
    requires { IfSome greatest (λ g. g < end_for abi) }
    ensures ascend { IfOk result (λ defaults. AscendFromZero defaults.items) }
    ensures values { IfOk result (λ defaults. (n : ℕ) → default_for defaults.items n ≡ value_of (default_of abi default (is_above greatest n) n)) }
{
    let own = from(0, default);
    let mut values = match greatest {
        Some(greatest) => vec![in alloc;
            own,
            from(greatest + 1, Action::Own(SeccompAction::Errno(38))),
        ]?,
        None => vec![in alloc; own]?,
    };
    if let Abi::Native(TargetArch::x86_64) = abi {
        values.push(from(0x4000_0000, Action::Own(SeccompAction::KillThread)))?;
        values.push(from(0xffff_ffff, default))?;
    }
    Ok(values)
}

// This action from a number on.
fn from(start: u32, action: Action) -> DefaultValue
    ensures { result ≡ record { start = start; value = value_of action } }
{
    let value = action.into();
    DefaultValue { start, value }
}

// The number above which runc answers with ENOSYS, if it does.
fn named_in(abi: Abi, container: &Container, profile: &Profile) -> Option<u32>
    ensures above { (n : ℕ) → IsTrue (is_above result n) ↔ IsAbove abi container.now profile.now n }
    ensures small { IfSome result (λ g. g < end_for abi) }
{
    let Runtime::Runc = container.runtime else {
        return None;
    };
    if lets(profile.default) {
        return None;
    }
    let greatest = greatest_in(abi, container, profile.entries.as_slice());
    if greatest == 0 {
        return None;
    }
    Some(greatest)
}

// Whether an action lets a call be made.
fn lets(action: Action) -> bool
    ensures { result ≡ lets action }
{
    matches!(
        action,
        Action::Own(SeccompAction::Allow | SeccompAction::Log | SeccompAction::Trace(_))
    )
}

// The greatest number that an entry names that applies; 0 where none names one.
fn greatest_in(abi: Abi, container: &Container, entries: &[Entry]) -> u32
    ensures { IsGreatest (end_for abi) (IsNamed abi container.now entries.now) result }
{
    let mut greatest: u32 = 0;
    for entry in entries {
        if !applies_on(abi, container, entry) {
            continue;
        }
        greatest = greatest.max(greatest_of(abi, entry.names.as_slice()));
    }
    greatest
}

// The greatest number of the names; 0 where none has one.
fn greatest_of(abi: Abi, names: &[String]) -> u32
    ensures { IsGreatest (end_for abi) (λ n. Any (IsNameOf abi n) (map string_bytes names.now)) result }
{
    let mut greatest: u32 = 0;
    for name in names {
        let Some(number) = number_of(abi, name.as_str()) else {
            continue;
        };
        greatest = greatest.max(number);
    }
    greatest
}
