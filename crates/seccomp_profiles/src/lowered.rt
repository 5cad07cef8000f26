// A profile as entries that have one number each.

ghost use Rattle.std.specs.Prelude.{◌≡◌, ◌+◌, ◌++◌, ◌<◌, All, IfOk, map};
ghost use Rattle.std.specs.List.{flat_map};
ghost use Rattle.seccomp_profiles.specs.Concerns.{AreAskedTo, AreLoweredTo, IsPushed, entries_for, entries_of_lists};
ghost use Rattle.seccomp_profiles.specs.Abis.{end_for};
ghost use Rattle.seccomp_profiles.specs.Lowered.{DecidesAs, DecidesOf, DecidesOn, IsLoweredOf, IsLoweredOn, IsLoweredProfile};
ghost use Rattle.seccomp_entries.specs.Rulings.{AreOfCalls};
ghost use Rattle.seccomp_profiles.specs.Types.{AllOnArguments};
ghost use Rattle.seccomp_tree.specs.Decided.{AscendFromZero};

use crate::concerns::{Concern, concerns_of};
use crate::defaults::defaults_of;
use crate::taken::taken;
use crate::{Abi, Container, Entry, Profile};
use seccomp_entries::{Action, Lowered};
use seccompiler::{SeccompCondition, TargetArch};
use std::alloc::{AllocError, Global};

/// A profile in one form, in a container on an architecture: for each of its entries, and each number of a call that it
/// concerns, an entry with its conditions, or one for each condition, if two are on one argument.
///
/// An entry without conditions is asked before all others, and of the others the strictest first.
///
/// Each condition is on an argument from 0 to 5, as in every profile that [`profile_of`](crate::profile_of)
/// gives.
///
/// # Errors
///
/// An error is returned if memory runs out.
pub fn lowered_profile(
    alloc: Global,
    arch: TargetArch,
    container: &Container,
    profile: &Profile,
) -> Result<Lowered, AllocError>
    requires { AllOnArguments profile.now.entries }
    ensures lowered { IfOk result (IsLoweredProfile arch container.now profile.now) }
    ensures decides { IfOk result (DecidesAs arch container.now profile.now) }
    ensures ascend { IfOk result (λ l. AscendFromZero l.defaults) }
    ensures of_calls { IfOk result (λ l. AreOfCalls l.entries) }
{
    let entries = profile.entries.as_slice();
    lowered_of(alloc, Abi::Native(arch), container, profile, entries)
}

/// The same for whosever calls: of 32-bit programs those entries that runtimes make of the profile's, if it lists their
/// architecture.
///
/// Their conditions compare the low 32 bits. On i386 an entry of a call of sockets or System V IPC is also one of `socketcall` or
/// `ipc`, with the call's number in place of conditions on argument 0; such entries stand behind those of the profile. If the
/// architecture isn't listed, each of its calls kills the thread. A record is decided as [`seen`](Abi::seen) gives it.
///
/// # Errors
///
/// An error is returned if memory runs out.
pub fn lowered_on(
    alloc: Global,
    abi: Abi,
    container: &Container,
    profile: &Profile,
) -> Result<Lowered, AllocError>
    requires { AllOnArguments profile.now.entries }
    ensures lowered { IfOk result (IsLoweredOn abi container.now profile.now) }
    ensures decides { IfOk result (DecidesOn abi container.now profile.now) }
    ensures ascend { IfOk result (λ l. AscendFromZero l.defaults) }
{
    let entries = profile.entries.as_slice();
    match abi {
        Abi::Native(_) => lowered_of(alloc, abi, container, profile, entries),
        Abi::I386 => {
            let own = taken(alloc, profile.lists_x86, true, entries)?;
            lowered_of(alloc, abi, container, profile, own.as_slice())
        }
        Abi::X32 => {
            let own = taken(alloc, profile.lists_x32, false, entries)?;
            lowered_of(alloc, abi, container, profile, own.as_slice())
        }
    }
}

// A profile in one form, by these entries.
fn lowered_of(
    alloc: Global,
    abi: Abi,
    container: &Container,
    profile: &Profile,
    own: &[Entry],
) -> Result<Lowered, AllocError>
    requires { AllOnArguments own.now }
    ensures lowered { IfOk result (IsLoweredOf abi container.now profile.now own.now) }
    ensures decides { IfOk result (DecidesOf abi container.now profile.now own.now) }
    ensures ascend { IfOk result (λ l. AscendFromZero l.defaults) }
    ensures below { IfOk result (λ l. All (λ e. e.number < end_for abi) l.entries) }
{
    let entries = entries_of(alloc, abi, container, profile.default, own)?;
    let defaults = defaults_of(alloc, abi, container, profile)?;
    Ok(Lowered {
        target_arch: abi.machine(),
        defaults,
        entries,
    })
}

// The entries of a profile of this default action, in the order in which they are asked.
fn entries_of(
    alloc: Global,
    abi: Abi,
    container: &Container,
    default: Action,
    entries: &[Entry],
) -> Result<Vec<seccomp_entries::Entry>, AllocError>
    requires { AllOnArguments entries.now }
    ensures { IfOk result (λ all. AreAskedTo abi container.now default entries.now 9 0 all.items) }
{
    let concerns = concerns_of(alloc, abi, container, default, entries)?;
    let mut all = Vec::new(alloc);
    for rank in 0..9u8 {
        push_rank(alloc, &mut all, concerns.as_slice(), rank)?;
    }
    Ok(all)
}

// Adds those of the entries of a rank.
fn push_rank(
    alloc: Global,
    all: &mut Vec<seccomp_entries::Entry>,
    concerns: &[Concern],
    rank: u8,
) -> Result<(), AllocError>
    ensures { IfOk result (λ _. AreLoweredTo concerns.now rank all.old.items → AreLoweredTo concerns.now (rank + 1) all.new.items) }
{
    for (place, concern) in concerns.iter().enumerate() {
        push_of_rank(alloc, all, place, concern, rank)?;
    }
    Ok(())
}

// Adds those of the entry at a place that says this, if it is of the rank.
fn push_of_rank(
    alloc: Global,
    all: &mut Vec<seccomp_entries::Entry>,
    place: usize,
    concern: &Concern,
    rank: u8,
) -> Result<(), AllocError>
    ensures { IfOk result (λ _. IsPushed place rank concern.now all.old.items all.new.items) }
{
    if concern.rank != rank {
        return Ok(());
    }
    push_concern(alloc, all, place, concern)
}

// Adds those of the entry at a place that says this.
fn push_concern(
    alloc: Global,
    all: &mut Vec<seccomp_entries::Entry>,
    place: usize,
    concern: &Concern,
) -> Result<(), AllocError>
    ensures { IfOk result (λ _. all.new.items ≡ all.old.items ++ entries_for place concern.now) }
{
    let Concern {
        numbers,
        action,
        alternatives,
        ..
    } = concern;
    push_numbers(
        alloc,
        all,
        place,
        *action,
        alternatives.as_slice(),
        numbers.as_slice(),
    )
}

// Adds those of these numbers.
fn push_numbers(
    alloc: Global,
    all: &mut Vec<seccomp_entries::Entry>,
    place: usize,
    action: Action,
    lists: &[Vec<SeccompCondition>],
    numbers: &[u32],
) -> Result<(), AllocError>
    ensures { IfOk result (λ _. all.new.items ≡ all.old.items ++ flat_map (entries_of_lists place action (map (λ cs. cs.items) lists.now)) numbers.now) }
{
    for number in numbers {
        push_lists(alloc, all, place, action, lists, *number)?;
    }
    Ok(())
}

// Adds one for each of the lists of conditions.
fn push_lists(
    alloc: Global,
    all: &mut Vec<seccomp_entries::Entry>,
    place: usize,
    action: Action,
    lists: &[Vec<SeccompCondition>],
    number: u32,
) -> Result<(), AllocError>
    ensures { IfOk result (λ _. all.new.items ≡ all.old.items ++ entries_of_lists place action (map (λ cs. cs.items) lists.now) number) }
{
    let is_alone = lists.len() > 1;
    for (index, list) in lists.iter().enumerate() {
        let conditions = list.as_slice().to_vec(alloc)?;
        all.push(seccomp_entries::Entry {
            place,
            alternative: is_alone.then_some(index),
            number,
            conditions,
            action,
        })?;
    }
    Ok(())
}
