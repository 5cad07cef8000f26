// Pairs of calls that may show that a condition is evaded. No contract says which these are: each is held against the filter.

ghost use Rattle.std.specs.Prelude.{◌+◌, ◌≤◌, length};

use crate::call::is_number_of;
use crate::code::Code;
use crate::condition::part_of;
use crate::evasion::{argument_of, is_permitting};
use crate::tables::{DETOURS, Detour, FLAGS, Flag};
use seccomp_compare::{Cover, cover_of};
use seccomp_entries::Entry;
use seccompiler::{SeccompCmpArgLen, SeccompCmpOp, SeccompCondition, SyscallTable, TargetArch};
use std::alloc::{AllocError, Global};

// How many sets of calls are looked at for one that meets conditions.
const MOST_SETS: usize = 1_000;

// The low half of an argument.
const LOW_HALF: u64 = 0xffff_ffff;

// A pair of calls of a condition of an entry.
#[derive(Clone, Copy)]
pub(crate) struct Pair {
    // In what they differ.
    pub(crate) code: Code,
    // The place of the condition among the entry's.
    pub(crate) place: usize,
    // The call that may be denied.
    pub(crate) denied: [u8; 64],
    // The call that may be let through.
    pub(crate) passed: [u8; 64],
}

// What pairs are looked for.
#[derive(Clone, Copy)]
struct Search<'a> {
    arch: TargetArch,
    own: &'a Entry,
    // Whether the entry lets calls through.
    permits: bool,
    // A call that likely meets the entry.
    call: [u8; 64],
    // A condition of the entry, and its place.
    condition: &'a SeccompCondition,
    place: usize,
}

// The pairs of an entry: of each condition two by the high half, one for each flag, and one for each other call.
pub(crate) fn pairs_of(
    alloc: Global,
    arch: TargetArch,
    own: &Entry,
) -> Result<Vec<Pair>, AllocError> {
    let call = likely_call(arch, own.number, &own.conditions);
    let permits = is_permitting(u32::from(own.action));
    let mut pairs = Vec::new(alloc);
    for (place, condition) in own.conditions.iter().enumerate() {
        let search = Search {
            arch,
            own,
            permits,
            call,
            condition,
            place,
        };
        push_high(alloc, &mut pairs, &search)?;
        push_flags(&mut pairs, &search)?;
        push_detours(&mut pairs, &search)?;
    }
    Ok(pairs)
}

// Adds the pairs that differ in the high half of the condition's argument: by its number, and by a call that meets the entry.
fn push_high(alloc: Global, pairs: &mut Vec<Pair>, search: &Search<'_>) -> Result<(), AllocError> {
    let bits = high_bits(search.condition);
    if bits == 0 {
        return Ok(());
    }
    pairs.push(search.pair_by(Code::HighHalfEvades, bits))?;
    let Some(call) = search.met_call(alloc, bits)? else {
        return Ok(());
    };
    let index = search.condition.arg_index();
    let other = with_argument(&call, index, argument_of(&call, index) ^ bits);
    let (denied, passed) = if search.permits {
        (other, call)
    } else {
        (call, other)
    };
    pairs.push(search.pair(Code::HighHalfEvades, denied, passed))?;
    Ok(())
}

// Adds those that differ in a flag of the argument.
fn push_flags(pairs: &mut Vec<Pair>, search: &Search<'_>) -> Result<(), AllocError> {
    for flag in &FLAGS {
        let (name, index, _, _) = *flag;
        if search.is_about(name, index) {
            let bits = flag_bits(search.condition, flag);
            pairs.push(search.pair_by(Code::FlagEvades, bits))?;
        }
    }
    Ok(())
}

// Adds those whose second call is another one.
fn push_detours(pairs: &mut Vec<Pair>, search: &Search<'_>) -> Result<(), AllocError> {
    for detour in &DETOURS {
        if let Some(pair) = search.pair_to(detour) {
            pairs.push(pair)?;
        }
    }
    Ok(())
}

impl Search<'_> {
    // Whether the condition is on the argument of this index of the call of this name.
    fn is_about(&self, name: &str, index: u8) -> bool {
        let own = self.own;
        self.condition.arg_index() == index && is_number_of(self.arch, name, own.number)
    }

    // These two calls.
    fn pair(&self, code: Code, denied: [u8; 64], passed: [u8; 64]) -> Pair {
        Pair {
            code,
            place: self.place,
            denied,
            passed,
        }
    }

    // The likely call with the number of the condition, and with these bits of it changed.
    fn pair_by(&self, code: Code, bits: u64) -> Pair {
        let index = self.condition.arg_index();
        let edge = edge_of(self.condition);
        let denied = with_argument(&self.call, index, edge);
        let passed = with_argument(&self.call, index, edge ^ bits);
        self.pair(code, denied, passed)
    }

    // A call that meets the entry. If that lets calls through, it has these high bits, and without them the condition doesn't hold.
    fn met_call(&self, alloc: Global, bits: u64) -> Result<Option<[u8; 64]>, AllocError> {
        let (own, condition) = (self.own, self.condition);
        if self.permits != is_above(condition.operator()) {
            return Ok(None);
        }
        let mut asked = own.conditions.as_slice().to_vec(alloc)?;
        if self.permits {
            let (index, value) = (condition.arg_index(), condition.value());
            let unmet = unmet_by(condition.operator());
            let high = SeccompCmpOp::MaskedEq(!LOW_HALF);
            push_condition(&mut asked, index, SeccompCmpArgLen::Dword, unmet, value)?;
            push_condition(&mut asked, index, SeccompCmpArgLen::Qword, high, bits)?;
        }
        met_call(alloc, self.arch, own.number, &asked)
    }

    // The call of a detour's first name with what is asked for, and the other one with what it takes of that: if the condition is on what
    // says so, and the other call can do it. Of an entry that denies calls, it takes some of what is asked for.
    fn pair_to(&self, detour: &Detour) -> Option<Pair> {
        let (name, index, bits, other_name, other_index, kept) = *detour;
        if !self.is_about(name, index) {
            return None;
        }
        let asked = self.asked_by(bits);
        let taken = if kept == 0 { asked } else { asked & kept };
        if !self.permits && taken == 0 {
            return None;
        }
        let number = SyscallTable::new(self.arch).get_syscall_nr(other_name)?;
        let other = blank_call(self.arch, number as u32);
        let denied = with_argument(&self.call, index, asked);
        let passed = with_argument(&other, other_index, asked & kept);
        Some(self.pair(Code::ConditionEvaded, denied, passed))
    }

    // What is asked for by a call that the condition denies: of an entry that lets calls through, with the bits that ask for more if it can.
    fn asked_by(&self, bits: u64) -> u64 {
        if !self.permits {
            return likely(self.condition);
        }
        let edge = edge_of(self.condition);
        if is_above(self.condition.operator()) {
            edge
        } else {
            edge | bits
        }
    }
}

/// A call of this number that meets these conditions, if one is found.
pub(crate) fn met_call(
    alloc: Global,
    arch: TargetArch,
    number: u32,
    conditions: &[SeccompCondition],
) -> Result<Option<[u8; 64]>, AllocError> {
    match cover_of(alloc, arch, number, conditions, &[], MOST_SETS)? {
        Cover::Escapes(call) => Ok(Some(call)),
        Cover::Covered | Cover::Undecided => Ok(None),
    }
}

// Adds a condition.
fn push_condition(
    conditions: &mut Vec<SeccompCondition>,
    index: u8,
    length: SeccompCmpArgLen,
    operator: SeccompCmpOp,
    value: u64,
) -> Result<(), AllocError> {
    if let Ok(condition) = SeccompCondition::new(index, length, operator, value) {
        conditions.push(condition)?;
    }
    Ok(())
}

// High bits of an argument that a condition of 64 bits may compare.
fn high_bits(condition: &SeccompCondition) -> u64 {
    let value = condition.value();
    match (condition.arg_len(), condition.operator()) {
        (SeccompCmpArgLen::Qword, SeccompCmpOp::MaskedEq(mask)) if value & mask <= LOW_HALF => mask
            & !LOW_HALF,
        (SeccompCmpArgLen::Qword, SeccompCmpOp::MaskedEq(_)) => 0,
        (SeccompCmpArgLen::Qword, _) if value <= LOW_HALF => 0x1_0000_0000,
        _ => 0,
    }
}

// The flag, unless the condition is about it alone: it is the mask, or the number and no flag that closes on exec.
fn flag_bits(condition: &SeccompCondition, flag: &Flag) -> u64 {
    let (_, _, bit, is_closing) = *flag;
    let is_alone = match condition.operator() {
        SeccompCmpOp::MaskedEq(mask) => mask == bit,
        _ => edge_of(condition) == bit && !is_closing,
    };
    if is_alone { 0 } else { bit }
}

// The number that the condition compares with; of an order the greatest below its border.
pub(crate) fn edge_of(condition: &SeccompCondition) -> u64 {
    let value = part_of(condition.arg_len(), condition.value());
    match condition.operator() {
        SeccompCmpOp::Ge | SeccompCmpOp::Lt => value.saturating_sub(1),
        SeccompCmpOp::MaskedEq(mask) => value & mask,
        SeccompCmpOp::Eq | SeccompCmpOp::Ne | SeccompCmpOp::Gt | SeccompCmpOp::Le => value,
    }
}

// Whether conditions with the operator hold above that number, and not for it.
pub(crate) fn is_above(operator: SeccompCmpOp) -> bool {
    matches!(
        operator,
        SeccompCmpOp::Ge | SeccompCmpOp::Gt | SeccompCmpOp::Ne
    )
}

// The operator that holds where such an operator doesn't.
fn unmet_by(operator: SeccompCmpOp) -> SeccompCmpOp {
    match operator {
        SeccompCmpOp::Ge => SeccompCmpOp::Lt,
        SeccompCmpOp::Gt => SeccompCmpOp::Le,
        _ => SeccompCmpOp::Eq,
    }
}

// A number for which the condition holds, if it does for any.
fn likely(condition: &SeccompCondition) -> u64 {
    let edge = edge_of(condition);
    if is_above(condition.operator()) {
        edge.wrapping_add(1)
    } else {
        edge
    }
}

// The call of this number that likely meets the conditions.
pub(crate) fn likely_call(
    arch: TargetArch,
    number: u32,
    conditions: &[SeccompCondition],
) -> [u8; 64] {
    let mut call = blank_call(arch, number);
    for condition in conditions {
        call = with_argument(&call, condition.arg_index(), likely(condition));
    }
    call
}

// The call of this number whose arguments are 0.
pub(crate) fn blank_call(arch: TargetArch, number: u32) -> [u8; 64] {
    let mut call = [0; 64];
    put(&mut call, 0, &number.to_le_bytes());
    put(&mut call, 4, &arch.get_audit_value().to_le_bytes());
    call
}

// The same call with this argument. None has an index above 5.
pub(crate) fn with_argument(call: &[u8; 64], index: u8, argument: u64) -> [u8; 64] {
    let mut other = *call;
    if index <= 5 {
        let at = 16 + 8 * usize::from(index);
        put(&mut other, at, &argument.to_le_bytes());
    }
    other
}

// Replaces the bytes from this one on.
pub(crate) fn put(call: &mut [u8; 64], at: usize, bytes: &[u8])
    requires { at + length bytes.now ≤ 64 }
{
    call[at..at + bytes.len()].copy_from_slice(bytes);
}
