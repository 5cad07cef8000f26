// Whether rules hold wherever another one does, with a call that shows it.

ghost use Rattle.std.specs.Prelude.{◌≡◌, ◌≢◌, ℕ, ◌^◌, ◌<◌, ◌++◌, ◌∷◌, ◌↔◌, [], List, Contains, IfNone, IfOk, IfSome, IsTrue, OnOk, map};
ghost use Rattle.seccompiler.specs.Architecture.{audit_word};
ghost use Rattle.seccompiler.specs.Machine.{IsRecord, argument_at, word_at};
ghost use Rattle.seccompiler.specs.Policy.{Rule, RuleHolds};
ghost use Rattle.seccomp_compare.specs.Cover.{AddsHalves, Covers, IsNext, IsUnknownAt, KnowsFixed, KnowsMore, OnRule, OnRules};
ghost use Rattle.seccomp_compare.specs.Known.{AreKept, HasBits, HasKnown, KeepsBits};
ghost use Rattle.seccomp_compare.specs.Spans.{HoldsFor};

use crate::known::{ANY, Known, halves, holds_for, unknown_bit, with_bits};
use crate::sets::write_word;
use crate::spans::span_of;
use seccompiler::{SeccompCmpOp, SeccompCondition, TargetArch};
use std::alloc::{AllocError, Global};

/// Whether other rules hold wherever one does.
#[derive(Clone, Copy, Debug)]
pub enum Cover {
    /// The rule holds for this call, and none of the others does.
    Escapes([u8; 64]),
    /// For each call for which the rule holds another one does.
    Covered,
    /// There are more sets of calls than were looked at.
    Undecided,
}

// What is seen of rules on those calls with known bits for which a rule holds: that one holds for each of them, that none holds for any, or
// a bit of an argument that it depends on.
#[derive(Clone, Copy)]
pub(crate) enum Seen {
    Holds,
    Fails,
    Open(usize, u32),
}

// What is left to do of a set of calls.
#[derive(Clone, Copy)]
enum Next {
    // For each of them for which the rule holds another one does.
    Done,
    // The rule holds for each, and no other one for any.
    Escapes,
    // They are to be parted by this bit of this argument.
    Open(usize, u32),
}

/// Whether other rules hold wherever the rule `own` does, for calls of a number of an architecture; if not, with a call that shows it.
///
/// The calls are split by single bits of arguments into sets, of which no more than `most` are looked at. It is undecided only if there
/// are more: if the rules compare so many bits that `own` leaves open that these have at least half as many values. Bits that one of
/// its equalities or masks fixes aren't open.
///
/// # Errors
///
/// An error is returned if memory runs out.
pub fn cover_of(
    alloc: Global,
    arch: TargetArch,
    number: u32,
    own: &[SeccompCondition],
    others: &[&[SeccompCondition]],
    most: usize,
) -> Result<Cover, AllocError>
    ensures { IfOk result (Covers arch number own.now (map (λ q. q.now) others.now) most) }
{
    let Some(part) = part_of(own) else {
        return Ok(Cover::Covered);
    };
    let mut left = Vec::new(alloc);
    left.push(part)?;
    for looked in 0..most {
        let Some(part) = left.pop() else {
            return Ok(Cover::Covered);
        };
        match next_of(&part, own, others) {
            Next::Done => {}
            Next::Escapes => return Ok(Cover::Escapes(record_of(arch, number, &part))),
            Next::Open(index, place) => push_halves(&mut left, &part, index, place)?,
        }
    }
    if left.is_empty() {
        Ok(Cover::Covered)
    } else {
        Ok(Cover::Undecided)
    }
}

// The bits that equalities and masks of a rule fix; none if they contradict each other.
fn part_of(own: &[SeccompCondition]) -> Option<[Known; 6]>
    ensures some { IfSome result (λ part. (r : List ℕ) → IsRecord r → RuleHolds own.now r → HasKnown part r) }
    ensures kept { IfSome result AreKept }
    ensures fixed { IfSome result (KnowsFixed own.now) }
    ensures none { IfNone result ((r : List ℕ) → IsRecord r → RuleHolds own.now r → ⊥) }
{
    let mut part = [ANY; 6];
    for condition in own {
        let index = usize::from(condition.arg_index());
        part[index] = with_condition(part[index], condition)?;
    }
    Some(part)
}

// What is known of the numbers that have these bits and for which a condition holds.
fn with_condition(known: Known, condition: &SeccompCondition) -> Option<Known>
    requires kept { KeepsBits known }
    ensures some { IfSome result (λ more. (x : ℕ) → x < 2 ^ 64 → HasBits known x → HoldsFor condition.now x → HasBits more x) }
    ensures kept { IfSome result KeepsBits }
    ensures fixed { IfSome result (KnowsMore known condition.now) }
    ensures none { IfNone result ((x : ℕ) → x < 2 ^ 64 → HasBits known x → HoldsFor condition.now x → ⊥) }
{
    let is_equality = matches!(
        condition.operator(),
        SeccompCmpOp::Eq | SeccompCmpOp::MaskedEq(_)
    );
    if !is_equality {
        return Some(known);
    }
    let span = span_of(condition);
    with_bits(known, span.mask, span.least)
}

// What comes of a set of calls.
fn next_of(part: &[Known; 6], own: &[SeccompCondition], others: &[&[SeccompCondition]]) -> Next
    ensures { IsNext part.now own.now (map (λ q. q.now) others.now) result }
{
    match on_rule(part, &[], own) {
        Seen::Fails => Next::Done,
        Seen::Holds => match on_rules(part, own, others) {
            Seen::Holds => Next::Done,
            Seen::Fails => Next::Escapes,
            Seen::Open(index, place) => Next::Open(index, place),
        },
        Seen::Open(index, place) => match on_rules(part, own, others) {
            Seen::Holds => Next::Done,
            Seen::Fails => Next::Open(index, place),
            Seen::Open(index, place) => Next::Open(index, place),
        },
    }
}

// What is seen of rules where the rule `own` holds.
fn on_rules(part: &[Known; 6], own: &[SeccompCondition], others: &[&[SeccompCondition]]) -> Seen
    ensures { OnRules part.now own.now (map (λ q. q.now) others.now) result }
{
    let mut seen = Seen::Fails;
    for rule in others {
        seen = with_rule(part, own, seen, rule);
    }
    seen
}

// What is seen of rules and one more.
fn with_rule(
    part: &[Known; 6],
    own: &[SeccompCondition],
    seen: Seen,
    rule: &[SeccompCondition],
) -> Seen
    ensures { (front : List Rule) → OnRules part.now own.now front seen → OnRules part.now own.now (front ++ rule.now ∷ []) result }
{
    if let Seen::Holds = seen {
        return Seen::Holds;
    }
    match (on_rule(part, own, rule), seen) {
        (Seen::Holds, _) => Seen::Holds,
        (open, Seen::Fails) => open,
        _ => seen,
    }
}

// What is seen of a rule.
fn on_rule(part: &[Known; 6], own: &[SeccompCondition], rule: &[SeccompCondition]) -> Seen
    ensures { OnRule part.now own.now rule.now result }
{
    let mut seen = Seen::Holds;
    for condition in rule {
        seen = with_next(part, own, seen, condition);
    }
    seen
}

// What is seen of conditions and one more.
fn with_next(
    part: &[Known; 6],
    own: &[SeccompCondition],
    seen: Seen,
    condition: &SeccompCondition,
) -> Seen
    ensures { (front : Rule) → OnRule part.now own.now front seen → OnRule part.now own.now (front ++ condition.now ∷ []) result }
{
    if let Seen::Fails = seen {
        return Seen::Fails;
    }
    match (on_condition(part, own, condition), seen) {
        (Seen::Fails, _) => Seen::Fails,
        (open, Seen::Holds) => open,
        _ => seen,
    }
}

// What is seen of a condition: that it holds too if the rule has it, and known bits don't decide it.
fn on_condition(part: &[Known; 6], own: &[SeccompCondition], condition: &SeccompCondition) -> Seen
    ensures { OnRule part.now own.now (condition.now ∷ []) result }
{
    let seen = by_bits(part, condition);
    if let Seen::Open(..) = seen
        && stands_in(condition, own)
    {
        return Seen::Holds;
    }
    seen
}

// What is seen of a condition by known bits.
fn by_bits(part: &[Known; 6], condition: &SeccompCondition) -> Seen
    ensures { OnRule part.now [] (condition.now ∷ []) result }
{
    let index = usize::from(condition.arg_index());
    let known = part[index];
    match holds_for(known, condition) {
        Some(true) => Seen::Holds,
        Some(false) => Seen::Fails,
        None => Seen::Open(index, unknown_bit(known, span_of(condition).mask)),
    }
}

/// Whether a condition is one of a rule's.
pub(crate) fn stands_in(condition: &SeccompCondition, rule: &[SeccompCondition]) -> bool
    ensures { IsTrue result ↔ Contains rule.now condition.now }
{
    rule.contains(condition)
}

// Adds the two halves of a set, by a bit.
fn push_halves(
    left: &mut Vec<[Known; 6]>,
    part: &[Known; 6],
    index: usize,
    place: u32,
) -> Result<(), AllocError>
    requires index { index < 6 }
    requires place { place < 64 }
    requires kept { AreKept part.now }
    requires unknown { IsUnknownAt part.now index place }
    ensures { OnOk result (AddsHalves part.now index place left.old.items left.new.items) }
{
    let (mut low, mut high) = (*part, *part);
    let (zero, one) = halves(part[index], place);
    low[index] = zero;
    high[index] = one;
    left.push(high)?;
    left.push(low)?;
    Ok(())
}

// A call of these arguments, of which the bits that aren't known are 0.
fn record_of(arch: TargetArch, number: u32, part: &[Known; 6]) -> [u8; 64]
    requires { AreKept part.now }
    ensures is { IsRecord result }
    ensures arch { word_at result 4 ≡ audit_word arch }
    ensures number { word_at result 0 ≡ number }
    ensures known { HasKnown part.now result }
{
    let mut call = [0; 64];
    write_word(&mut call, 0, number);
    write_word(&mut call, 1, arch.get_audit_value());
    for (index, known) in part.iter().enumerate() {
        write_argument(&mut call, index, known.value);
    }
    call
}

// Writes an argument of a record.
fn write_argument(call: &mut [u8; 64], index: usize, value: u64)
    requires index { index < 6 }
    requires record_was { IsRecord call.old }
    ensures record_is { IsRecord call.new }
    ensures here { argument_at call.new index ≡ value }
    ensures others { (i : ℕ) → i ≢ index → argument_at call.new i ≡ argument_at call.old i }
    ensures number { word_at call.new 0 ≡ word_at call.old 0 }
    ensures arch { word_at call.new 4 ≡ word_at call.old 4 }
{
    write_word(call, 4 + 2 * index, (value % 0x1_0000_0000) as u32);
    write_word(call, 5 + 2 * index, (value / 0x1_0000_0000) as u32);
}
