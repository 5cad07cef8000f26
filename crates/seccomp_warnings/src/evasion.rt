// Evasions: two calls of which one is denied and the other let through, though they differ in what changes nothing of what is denied, or
// the same can be done by the second.

ghost use Rattle.std.specs.Prelude.{◌≡◌, ◌≤◌, ◌+◌, ◌*◌, ◌↔◌, Any, IfOk, IfSome, IsFalse, IsTrue, OnOk, length, map};
ghost use Rattle.seccomp_entries.specs.Drawers.{AreFiled};
ghost use Rattle.seccomp_warnings.specs.Evasions as spec;
ghost use Rattle.seccomp_warnings.specs.Evasions.{AreEvasions, AreSameBut, DeniesCall, IsApart, IsDecidedBy, IsDetour, IsDetoured, IsEvasion, IsFlag, IsFlagApart, IsPermitting, IsSaid, LetsThrough};

use crate::call::is_number_of;
use crate::candidate::{Pair, pairs_of};
use crate::code::{Code, is_among};
use crate::condition::comparison_at;
use crate::tables::{DETOURS, Detour, FLAGS, Flag};
use crate::warning::Comparison;
use seccomp_entries::{Drawer, Entry, Lowered, decided, filed};
use seccompiler::record::word_at;
use seccompiler::{SeccompCondition, TargetArch};
use std::alloc::{AllocError, Global};
use std::collections::BTreeMap;

// The places of entries, by their drawers.
pub(crate) type Files = BTreeMap<Drawer, Vec<usize>>;

/// A condition, and two calls of which one is denied and the other let through, although they differ in what changes nothing of
/// what is denied, or the same can be done by the other.
#[derive(Clone, Copy)]
pub struct Evasion {
    /// The code of the warning: in what the calls differ.
    pub code: Code,
    /// The condition that they differ by, and where it stands among all entries.
    pub comparison: Comparison,
    /// The record of the call that is denied.
    pub denied: [u8; 64],
    /// That of the call that is let through.
    pub passed: [u8; 64],
}

/// Evasions of entries and defaults, in the order of the entries, but for those of the allowed codes. What each says is so: both calls are
/// decided as it says, and they differ as its code says. Few pairs of calls are tried for each condition, so some are missing.
///
/// # Errors
///
/// An error is returned if memory runs out.
pub fn evasions_of(
    alloc: Global,
    lowered: &Lowered,
    allowed: &[Code],
) -> Result<Vec<Evasion>, AllocError>
    ensures { IfOk result (λ found. AreEvasions allowed.now lowered.now found.items) }
{
    let files = filed(alloc, &lowered.entries)?;
    let mut found = Vec::new(alloc);
    for (place, entry) in lowered.entries.iter().enumerate() {
        let pairs = pairs_of(alloc, lowered.target_arch, entry)?;
        push_shown(&mut found, lowered, &files, allowed, place, &pairs)?;
    }
    Ok(found)
}

// Adds those of these pairs of calls of an entry that show an evasion whose code isn't allowed.
fn push_shown(
    found: &mut Vec<Evasion>,
    lowered: &Lowered,
    files: &Files,
    allowed: &[Code],
    entry: usize,
    pairs: &[Pair],
) -> Result<(), AllocError>
    requires { AreFiled lowered.now.entries (length lowered.now.entries) files.now }
    ensures { OnOk result (AreEvasions allowed.now lowered.now found.old.items → AreEvasions allowed.now lowered.now found.new.items) }
{
    for pair in pairs {
        if is_among(allowed, pair.code) || is_told(found, entry, pair) {
            continue;
        }
        if let Some(evasion) = evasion_by(lowered, files, entry, pair) {
            found.push(evasion)?;
        }
    }
    Ok(())
}

// Whether the last evasion is by the high half of the same condition: one is enough.
fn is_told(found: &[Evasion], entry: usize, pair: &Pair) -> bool {
    match (pair.code, found.last()) {
        (Code::HighHalfEvades, Some(last)) => {
            let Comparison {
                entry: at,
                place,
                ..
            } = last.comparison;
            matches!(last.code, Code::HighHalfEvades) && at == entry && place == pair.place
        }
        _ => false,
    }
}

// The evasion of an entry that a pair of calls shows, if it does.
fn evasion_by(lowered: &Lowered, files: &Files, entry: usize, pair: &Pair) -> Option<Evasion>
    requires { AreFiled lowered.now.entries (length lowered.now.entries) files.now }
    ensures evasion { IfSome result (IsEvasion lowered.now) }
    ensures code { IfSome result (λ v. v.code ≡ pair.now.code) }
{
    let own = lowered.entries.get(entry)?;
    let condition = own.conditions.get(pair.place)?;
    let arch = lowered.target_arch;
    let (denied, passed) = (&pair.denied, &pair.passed);
    if !is_call_of(arch, own.number, denied)
        || is_let_through(lowered, files, denied)
        || !is_let_through(lowered, files, passed)
        || !is_said(pair.code, arch, own, condition, denied, passed)
    {
        return None;
    }
    Some(Evasion {
        code: pair.code,
        comparison: comparison_at(entry, pair.place, condition),
        denied: pair.denied,
        passed: pair.passed,
    })
}

// Whether the record is of a call of this number on the architecture.
pub(crate) fn is_call_of(arch: TargetArch, number: u32, call: &[u8; 64]) -> bool
    ensures { IsTrue result → spec.IsCallOf arch number call.now }
{
    word_at(call, 4) == arch.get_audit_value() && word_at(call, 0) == number
}

// Whether the call is let through.
pub(crate) fn is_let_through(lowered: &Lowered, files: &Files, call: &[u8; 64]) -> bool
    requires { AreFiled lowered.now.entries (length lowered.now.entries) files.now }
    ensures through { IsTrue result → LetsThrough lowered.now call.now }
    ensures denied { IsFalse result → DeniesCall lowered.now call.now }
{
    is_permitting(decided(lowered, files, call))
}

// Whether a return value lets a call through.
pub(crate) fn is_permitting(word: u32) -> bool
    ensures { IsTrue result ↔ IsPermitting word }
{
    word == 0x7fff_0000 || word == 0x7ffc_0000
}

// Whether two calls differ as a code says of a condition of an entry.
fn is_said(
    code: Code,
    arch: TargetArch,
    own: &Entry,
    condition: &SeccompCondition,
    denied: &[u8; 64],
    passed: &[u8; 64],
) -> bool
    ensures { IsTrue result → IsSaid code arch own.now condition.now denied.now passed.now }
{
    let index = condition.arg_index();
    match code {
        Code::HighHalfEvades => {
            is_apart(condition, denied, passed)
                && are_same_but(5 + 2 * usize::from(index), denied, passed)
        }
        Code::FlagEvades => {
            is_apart(condition, denied, passed)
                && are_same_but(4 + 2 * usize::from(index), denied, passed)
                && is_flag_apart(arch, own.number, index, denied, passed)
        }
        Code::ConditionEvaded => {
            is_decided_by(own, condition, denied)
                && is_detoured(arch, own.number, index, denied, passed)
        }
        _ => false,
    }
}

// Whether the condition holds for one of two calls alone.
fn is_apart(condition: &SeccompCondition, denied: &[u8; 64], passed: &[u8; 64]) -> bool
    ensures { IsTrue result → IsApart condition.now denied.now passed.now }
{
    if condition.holds(denied) {
        !condition.holds(passed)
    } else {
        condition.holds(passed)
    }
}

// Whether the entry decides a call by the condition.
fn is_decided_by(own: &Entry, condition: &SeccompCondition, call: &[u8; 64]) -> bool
    ensures { IsTrue result → IsDecidedBy own.now condition.now call.now }
{
    if is_permitting(u32::from(own.action)) {
        !condition.holds(call)
    } else {
        condition.holds(call)
    }
}

// Whether two records have the same words, but for this one.
fn are_same_but(word: usize, denied: &[u8; 64], passed: &[u8; 64]) -> bool
    ensures { IsTrue result → AreSameBut word denied.now passed.now }
{
    for at in 0..16 {
        if at != word && word_at(passed, 4 * at) != word_at(denied, 4 * at) {
            return false;
        }
    }
    true
}

// Whether the argument of this index has a flag of the call of this number more or less.
fn is_flag_apart(
    arch: TargetArch,
    number: u32,
    index: u8,
    denied: &[u8; 64],
    passed: &[u8; 64],
) -> bool
    requires { index ≤ 5 }
    ensures { IsTrue result → IsFlagApart arch number index denied.now passed.now }
{
    let at = 16 + 8 * usize::from(index);
    let (before, after) = (word_at(denied, at), word_at(passed, at));
    has_flag(arch, number, index, before, after, &FLAGS)
}

// Whether by one of these rows the second number is the first but for a flag of the argument of this index of the call.
fn has_flag(
    arch: TargetArch,
    number: u32,
    index: u8,
    before: u32,
    after: u32,
    rows: &[Flag],
) -> bool
    ensures { IsTrue result → Any (IsFlag arch number index before after) (map (λ row. (row.0.now, row.1, row.2)) rows.now) }
{
    for row in rows {
        if is_flag(arch, number, index, before, after, row) {
            return true;
        }
    }
    false
}

// Whether it is by this row.
fn is_flag(arch: TargetArch, number: u32, index: u8, before: u32, after: u32, row: &Flag) -> bool
    ensures { IsTrue result → IsFlag arch number index before after (row.now.0.now, row.now.1, row.now.2) }
{
    let (name, at, flag, _) = *row;
    at == index && u64::from(after) == u64::from(before) ^ flag && is_number_of(arch, name, number)
}

// Whether by the table the second call can do what the first one asks for by the argument of this index.
fn is_detoured(
    arch: TargetArch,
    number: u32,
    index: u8,
    denied: &[u8; 64],
    passed: &[u8; 64],
) -> bool
    requires { index ≤ 5 }
    ensures { IsTrue result → IsDetoured arch number index denied.now passed.now }
{
    has_detour(arch, number, index, denied, passed, &DETOURS)
}

// Whether it can by one of these rows.
fn has_detour(
    arch: TargetArch,
    number: u32,
    index: u8,
    denied: &[u8; 64],
    passed: &[u8; 64],
    rows: &[Detour],
) -> bool
    requires { index ≤ 5 }
    ensures { IsTrue result → Any (IsDetour arch number index denied.now passed.now) (map (λ row. (row.0.now, row.1, row.3.now, row.4, row.5)) rows.now) }
{
    for row in rows {
        if is_detour(arch, number, index, denied, passed, row) {
            return true;
        }
    }
    false
}

// Whether it can by this row.
fn is_detour(
    arch: TargetArch,
    number: u32,
    index: u8,
    denied: &[u8; 64],
    passed: &[u8; 64],
    row: &Detour,
) -> bool
    requires { index ≤ 5 }
    ensures { IsTrue result → IsDetour arch number index denied.now passed.now (row.now.0.now, row.now.1, row.now.3.now, row.now.4, row.now.5) }
{
    let (name, asking, _, other, taking, kept) = *row;
    asking == index
        && taking <= 5
        && argument_of(passed, taking) == argument_of(denied, index) & kept
        && is_number_of(arch, name, number)
        && is_number_of(arch, other, word_at(passed, 0))
}

// The argument of this index: its low half, and its high half.
pub(crate) fn argument_of(call: &[u8; 64], index: u8) -> u64
    requires { index ≤ 5 }
    ensures { result ≡ spec.argument_of call.now index }
{
    let at = 16 + 8 * usize::from(index);
    u64::from(word_at(call, at)) + 0x1_0000_0000 * u64::from(word_at(call, at + 4))
}
