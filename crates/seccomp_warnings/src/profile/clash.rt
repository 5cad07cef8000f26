// What libseccomp does to entries of a profile, and runc before it.

use crate::profile::added::{Rule, rules_on};
use crate::profile::lost::{Head, NONE, head_of, push_lost};
use crate::profile::miscompiled::push_miscompiled;
use crate::profile::rejected::push_rejected;
use seccomp_entries::{Action, Entry};
use seccomp_profiles::{Abi, Container, Profile, applies};
use seccompiler::TargetArch;
use std::alloc::{AllocError, Global};

// The number of a call that neither the architecture has nor i386.
const UNKNOWN: u32 = 0xffff_ffff;

/// What libseccomp does to an entry. Places are those of others in the profile, from 0.
#[derive(Clone, Copy)]
pub enum Effect {
    /// Its program may decide otherwise than the profile, or it may come to no end, since that one is beside it.
    Miscompiled { beside: usize },
    /// It rejects the entry, so that no container starts, since that one is in front of it.
    Rejected { beside: usize },
    /// It loses all entries of an architecture that hasn't the call, which stands first among those of the profile.
    Lost(Abi),
    /// The entry asks a supervisor about calls that the architecture hasn't, and the profile doesn't say where one listens. So runc starts
    /// no container.
    Unheard,
}

/// An entry to which libseccomp does this.
#[derive(Clone, Copy)]
pub struct Clash {
    /// What it does.
    pub effect: Effect,
    /// The place of the entry, from 0.
    pub place: usize,
    /// Whose calls has the call that it is about.
    pub abi: Abi,
    /// The number of the call there; 0xffffffff if it isn't known.
    pub number: u32,
}

/// What it does to the entries of a profile: it rejects some, it may lose all, and it may get some of the effective ones wrong.
pub(crate) fn clashes_of(
    alloc: Global,
    target: TargetArch,
    container: &Container,
    profile: &Profile,
    effective: &[Entry],
) -> Result<Vec<Clash>, AllocError> {
    let mut clashes = Vec::new(alloc);
    let native = Abi::Native(target);
    let own = rules_on(alloc, native, container, profile)?;
    push_rejected(alloc, &mut clashes, target, &own)?;
    let is_x86_64 = matches!(target, TargetArch::x86_64);
    let head = head_of(alloc, target, native, &own, NONE)?;
    if !is_x86_64 {
        push_lost(&mut clashes, head)?;
    }
    if is_x86_64 && profile.lists_x32 {
        push_beside(alloc, &mut clashes, Abi::X32, container, profile, head)?;
    }
    if is_x86_64 && profile.lists_x86 {
        push_beside(alloc, &mut clashes, Abi::I386, container, profile, NONE)?;
    }
    push_miscompiled(alloc, &mut clashes, target, effective)?;
    if !profile.has_listener && profile.default != Action::Notify {
        push_unheard(&mut clashes, target, container, profile)?;
    }
    Ok(clashes)
}

// Adds what it does to them for 32-bit programs on x86_64, whose calls come behind those of a list.
fn push_beside(
    alloc: Global,
    clashes: &mut Vec<Clash>,
    abi: Abi,
    container: &Container,
    profile: &Profile,
    front: Head,
) -> Result<(), AllocError> {
    let target = TargetArch::x86_64;
    let rules = rules_on(alloc, abi, container, profile)?;
    push_rejected(alloc, clashes, target, &rules)?;
    let head = head_of(alloc, target, abi, &rules, front)?;
    push_lost(clashes, head)
}

// Adds the entries that ask a supervisor about no call of the architecture, if none listens.
fn push_unheard(
    clashes: &mut Vec<Clash>,
    target: TargetArch,
    container: &Container,
    profile: &Profile,
) -> Result<(), AllocError> {
    let abi = Abi::Native(target);
    for (place, entry) in profile.entries.iter().enumerate() {
        let asks = entry.action == Action::Notify && applies(target, container, entry);
        let mut names = entry.names.iter();
        if asks
            && !entry.names.is_empty()
            && names.all(|it| abi.call_number(it.as_str()).is_none())
        {
            clashes.push(Clash {
                effect: Effect::Unheard,
                place,
                abi,
                number: UNKNOWN,
            })?;
        }
    }
    Ok(())
}

/// This effect on a rule's entry, at the call that it names.
pub(crate) fn called(effect: Effect, target: TargetArch, rule: &Rule<'_>) -> Clash {
    let (native, i386) = (Abi::Native(target), Abi::I386);
    let (abi, number) = match (native.call_number(rule.name), i386.call_number(rule.name)) {
        (Some(number), _) => (native, number),
        (None, Some(number)) => (i386, number),
        (None, None) => (native, UNKNOWN),
    };
    Clash {
        effect,
        place: rule.place,
        abi,
        number,
    }
}
