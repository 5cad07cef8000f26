// Calls of 32-bit programs by which a profile is evaded: x86_64's call is denied, and one of i386 or x32 that does the same is let through.

ghost use Rattle.std.specs.Prelude.{◌≡◌, All, IfOk, IfSome, IsTrue, length};
ghost use Rattle.seccomp_entries.specs.Drawers.{AreFiled};
ghost use Rattle.seccomp_profiles.specs.Types.{AllOnArguments};
ghost use Rattle.seccomp_warnings.specs.AbiEvasions as spec;
ghost use Rattle.seccomp_warnings.specs.AbiEvasions.{AreAbiEvasions, AreFiledSides, DoesSame, HaveSameArguments, IsAbiEvasion, IsBetween, StandsFor};

use crate::call::is_number_of;
use crate::candidate::{blank_call, edge_of, is_above, likely_call, put, with_argument};
use crate::code::{Code, is_among};
use crate::evasion::{Files, is_call_of, is_let_through};
use crate::profile::parts::{NUMBERS, Origin, origin_of};
use seccomp_entries::{Entry, Lowered, Reason, explain, filed};
use seccomp_names::CallTable;
use seccomp_profiles::{Abi, Container, Profile, lowered_on};
use seccompiler::record::word_at;
use seccompiler::{SeccompCmpOp, SeccompCondition, TargetArch};
use std::alloc::{AllocError, Global};

/// Two calls: one that a profile denies, and one that does the same and is let through to 32-bit programs of the same container.
#[derive(Clone, Copy)]
pub struct AbiEvasion {
    /// Whose call is let through.
    pub abi: Abi,
    /// Where the entry is from that denies the first call, or of which a condition doesn't hold; none if no entry is for it.
    pub origin: Option<Origin>,
    /// The record of the call that is denied.
    pub denied: [u8; 64],
    /// That of the call that is let through.
    pub passed: [u8; 64],
}

// A profile in one form for the calls of the machine, and for those of 32-bit programs, with the places of their entries.
#[derive(Clone, Copy)]
struct Sides<'a> {
    abi: Abi,
    own: &'a Lowered,
    own_files: &'a Files,
    others: &'a Lowered,
    other_files: &'a Files,
}

/// Calls of 32-bit programs by which a profile is evaded that has this form for the calls of the machine, except those of an allowed
/// code. What each says is so. Few calls are tried for each entry, so some are missing.
///
/// # Errors
///
/// An error is returned if memory runs out.
pub(crate) fn abi_evasions_of(
    alloc: Global,
    container: &Container,
    allowed: &[Code],
    profile: &Profile,
    own: &Lowered,
) -> Result<Vec<AbiEvasion>, AllocError>
    requires { AllOnArguments profile.now.entries }
    ensures { IfOk result (λ all. AreAbiEvasions allowed.now container.now profile.now own.now all.items) }
{
    if is_among(allowed, Code::AbiEvades) || !is_x86_64(own.target_arch) {
        return Ok(Vec::new(alloc));
    }
    let mut all = evasions_on(alloc, Abi::I386, container, profile, own)?;
    let mut more = evasions_on(alloc, Abi::X32, container, profile, own)?;
    all.append(&mut more)?;
    Ok(all)
}

fn is_x86_64(arch: TargetArch) -> bool
    ensures { IsTrue result → arch ≡ spec.machine }
{
    matches!(arch, TargetArch::x86_64)
}

// Those by the calls of these programs.
fn evasions_on(
    alloc: Global,
    abi: Abi,
    container: &Container,
    profile: &Profile,
    own: &Lowered,
) -> Result<Vec<AbiEvasion>, AllocError>
    requires { AllOnArguments profile.now.entries }
    ensures { IfOk result (λ all. All (IsAbiEvasion abi container.now profile.now own.now) all.items) }
{
    if !abi.is_listed(profile) {
        return Ok(Vec::new(alloc));
    }
    let others = lowered_on(alloc, abi, container, profile)?;
    let own_files = filed(alloc, &own.entries)?;
    let other_files = filed(alloc, &others.entries)?;
    let tried = tried_calls(alloc, own)?;
    let sides = Sides {
        abi,
        own,
        own_files: &own_files,
        others: &others,
        other_files: &other_files,
    };
    found_by(alloc, sides, &tried)
}

// Those that these calls show, which may be denied: one for each place.
fn found_by(
    alloc: Global,
    sides: Sides<'_>,
    tried: &[[u8; 64]],
) -> Result<Vec<AbiEvasion>, AllocError>
    requires { AreFiledSides sides }
    ensures { IfOk result (λ all. All (IsBetween sides.entry.abi sides.entry.own.now sides.entry.others.now) all.items) }
{
    let mut all = Vec::new(alloc);
    for denied in tried {
        if let Some(evasion) = shown_by(sides, denied) {
            if !is_told(&all, &evasion) {
                all.push(evasion)?;
            }
        }
    }
    Ok(all)
}

// Whether the last of these is of the same place.
fn is_told(all: &[AbiEvasion], evasion: &AbiEvasion) -> bool {
    let Some(last) = all.last() else {
        return false;
    };
    match (last.origin, evasion.origin) {
        (Some(one), Some(other)) => one.entry == other.entry && one.condition == other.condition,
        (None, None) => true,
        _ => false,
    }
}

// What a call shows, which may be denied.
fn shown_by(sides: Sides<'_>, denied: &[u8; 64]) -> Option<AbiEvasion>
    requires { AreFiledSides sides }
    ensures { IfSome result (IsBetween sides.entry.abi sides.entry.own.now sides.entry.others.now) }
{
    let own = sides.own;
    if is_let_through(own, sides.own_files, denied) {
        return None;
    }
    let name = Abi::Native(own.target_arch).name_of(word_at(denied, 0))?;
    let named = named_call(sides.abi, name, denied);
    let socketcall = shared_call(sides.abi, CallTable::Socketcall, "socketcall", name, denied);
    let ipc = shared_call(sides.abi, CallTable::Ipc, "ipc", name, denied);
    let by_name = evasion_by(sides, name, denied, named);
    if by_name.is_some() {
        return by_name;
    }
    let by_socketcall = evasion_by(sides, name, denied, socketcall);
    if by_socketcall.is_some() {
        return by_socketcall;
    }
    evasion_by(sides, name, denied, ipc)
}

// What these two calls show, of which the first has this name, if there is the second one.
fn evasion_by(
    sides: Sides<'_>,
    name: &str,
    denied: &[u8; 64],
    passed: Option<[u8; 64]>,
) -> Option<AbiEvasion>
    requires { AreFiledSides sides }
    ensures { IfSome result (IsBetween sides.entry.abi sides.entry.own.now sides.entry.others.now) }
{
    let Sides { abi, own, .. } = sides;
    let passed = passed?;
    let (arch, number) = (own.target_arch, word_at(denied, 0));
    if !is_number_of(arch, name, number)
        || !is_call_of(arch, number, denied)
        || !abi.is_of(&passed)
        || !does_same(abi, name, denied, &passed)
        || is_let_through(own, sides.own_files, denied)
        || !is_let_through(sides.others, sides.other_files, &abi.seen(&passed))
    {
        return None;
    }
    Some(AbiEvasion {
        abi,
        origin: origin_in(&own.entries, explain(own, denied).reason),
        denied: *denied,
        passed,
    })
}

// Where the entry of a reason is from, and its condition that doesn't hold.
fn origin_in(entries: &[Entry], reason: Reason) -> Option<Origin>
    ensures { result ≡ spec.origin_in entries.now reason }
{
    match reason {
        Reason::Entry { index, .. } => Some(origin_of(entries.get(index)?)),
        Reason::NoMatch { nearest, .. } => {
            let entry = entries.get(nearest.entry)?;
            Some(Origin {
                entry: entry.place,
                condition: Some(entry.alternative.unwrap_or(nearest.condition)),
                number: entry.number,
            })
        }
        Reason::AnotherArchitecture | Reason::NoEntry { .. } => None,
    }
}

// Whether the second call does what the first one does, which has this name.
fn does_same(abi: Abi, name: &str, denied: &[u8; 64], passed: &[u8; 64]) -> bool
    ensures { IsTrue result → DoesSame abi name.now denied.now passed.now }
{
    is_named(abi, name, passed) && have_same_arguments(denied, passed)
        || is_i386(abi)
            && (stands_for(CallTable::Socketcall, "socketcall", name, passed)
                || stands_for(CallTable::Ipc, "ipc", name, passed))
}

fn is_i386(abi: Abi) -> bool
    ensures { IsTrue result → abi ≡ spec.i386 }
{
    matches!(abi, Abi::I386)
}

// Whether the call has this name.
fn is_named(abi: Abi, name: &str, call: &[u8; 64]) -> bool
    ensures { IsTrue result → spec.IsNamed abi name.now call.now }
{
    abi.call_number(name) == Some(word_at(call, 0))
}

// Whether both have the same arguments, of 32 bits each.
fn have_same_arguments(denied: &[u8; 64], passed: &[u8; 64]) -> bool
    ensures { IsTrue result → HaveSameArguments denied.now passed.now }
{
    for index in 0..6usize {
        let at = 16 + 8 * index;
        if word_at(passed, at) != word_at(denied, at)
            || word_at(passed, at + 4) != 0
            || word_at(denied, at + 4) != 0
        {
            return false;
        }
    }
    true
}

// Whether the call of i386 has this name, and stands for the call of the other one by its first argument.
fn stands_for(table: CallTable, call: &str, name: &str, passed: &[u8; 64]) -> bool
    ensures { IsTrue result → StandsFor table call.now name.now passed.now }
{
    is_named(Abi::I386, call, passed)
        && table.number_of(name) == Some(word_at(passed, 16))
        && word_at(passed, 20) == 0
}

// The calls that are tried: of each entry one that likely meets it, and of each of its conditions one that likely misses it, and one with the
// low half of its value; and one of each number.
fn tried_calls(alloc: Global, own: &Lowered) -> Result<Vec<[u8; 64]>, AllocError> {
    let arch = own.target_arch;
    let mut calls = Vec::new(alloc);
    for entry in &own.entries {
        let call = likely_call(arch, entry.number, &entry.conditions);
        calls.push(call)?;
        for condition in &entry.conditions {
            let index = condition.arg_index();
            calls.push(with_argument(&call, index, unlikely(condition)))?;
            let low = condition.value() % 0x1_0000_0000;
            calls.push(with_argument(&call, index, low))?;
        }
    }
    for number in 0..NUMBERS {
        calls.push(blank_call(arch, number))?;
    }
    Ok(calls)
}

// A number for which the condition doesn't hold, if it doesn't for any.
fn unlikely(condition: &SeccompCondition) -> u64 {
    let edge = edge_of(condition);
    match condition.operator() {
        SeccompCmpOp::MaskedEq(mask) => edge ^ (mask & mask.wrapping_neg()),
        operator if is_above(operator) => edge,
        _ => edge.wrapping_add(1),
    }
}

// The same call of these programs, if they have one of the name.
fn named_call(abi: Abi, name: &str, denied: &[u8; 64]) -> Option<[u8; 64]> {
    let mut call = *denied;
    put(&mut call, 0, &abi.call_number(name)?.to_le_bytes());
    put(&mut call, 4, &abi.audit_value().to_le_bytes());
    Some(call)
}

// The call of i386 that stands for the call of this name, if one does.
fn shared_call(
    abi: Abi,
    table: CallTable,
    call: &str,
    name: &str,
    denied: &[u8; 64],
) -> Option<[u8; 64]> {
    if !is_i386(abi) {
        return None;
    }
    let number = table.number_of(name)?;
    let own = named_call(abi, call, denied)?;
    Some(with_argument(&own, 0, u64::from(number)))
}
