// What is so of a condition.

ghost use Rattle.std.specs.Prelude.{◌≡◌, ◌↔◌, IsTrue};
ghost use Rattle.seccompiler.specs.Policy.{part_of};
ghost use Rattle.seccomp_warnings.specs.AnyArgument.{HoldsFor, HoldsForAll, HoldsForNone, comparison_at, condition_in, last_of};
ghost use Rattle.seccomp_warnings.specs.Warnings.{IsSoOfCondition};

use crate::code::Code;
use crate::warning::Comparison;
use seccompiler::{SeccompCmpArgLen, SeccompCmpOp, SeccompCondition};

// The greatest number of 32 bits.
const LOW_HALF: u64 = 0xffff_ffff;

// The condition at a place of the entry at a place.
pub(crate) fn comparison_at(entry: usize, place: usize, condition: &SeccompCondition) -> Comparison
    ensures { result ≡ comparison_at entry place condition.now }
{
    Comparison {
        entry,
        place,
        arg_index: condition.arg_index(),
        arg_len: condition.arg_len(),
        operator: condition.operator(),
        value: condition.value(),
    }
}

// What a length compares of a number.
pub(crate) fn part_of(length: SeccompCmpArgLen, number: u64) -> u64
    ensures { result ≡ part_of length number }
{
    match length {
        SeccompCmpArgLen::Dword => number & LOW_HALF,
        SeccompCmpArgLen::Qword => number,
    }
}

// Whether the condition holds for a number. Which argument that is plays no part, and what the length compares counts alone, of the number,
// the value and a mask.
fn holds_for(comparison: Comparison, number: u64) -> bool
    ensures { IsTrue result ↔ HoldsFor (condition_in comparison) number }
{
    let length = comparison.arg_len;
    let (number, value) = (part_of(length, number), part_of(length, comparison.value));
    match comparison.operator {
        SeccompCmpOp::Eq => number == value,
        SeccompCmpOp::Ne => number != value,
        SeccompCmpOp::Ge => number >= value,
        SeccompCmpOp::Gt => number > value,
        SeccompCmpOp::Le => number <= value,
        SeccompCmpOp::Lt => number < value,
        SeccompCmpOp::MaskedEq(mask) => {
            let mask = part_of(length, mask);
            number & mask == value & mask
        }
    }
}

// The number for which a condition with the operator holds last: the mask, or the greatest.
fn last_of(operator: SeccompCmpOp) -> u64
    ensures { result ≡ last_of operator }
{
    match operator {
        SeccompCmpOp::MaskedEq(mask) => mask,
        _ => u64::MAX,
    }
}

// Whether the condition holds for the numbers that tell whether it holds for all.
fn holds_at(comparison: Comparison, last: u64) -> bool
    ensures { IsTrue result ↔ (HoldsFor (condition_in comparison) 0 × HoldsFor (condition_in comparison) 1 × HoldsFor (condition_in comparison) comparison.value × HoldsFor (condition_in comparison) last) }
{
    holds_for(comparison, 0)
        && holds_for(comparison, 1)
        && holds_for(comparison, comparison.value)
        && holds_for(comparison, last)
}

// Whether the condition holds for every argument.
fn always_holds(comparison: Comparison) -> bool
    ensures { IsTrue result ↔ HoldsForAll (condition_in comparison) }
{
    holds_at(comparison, last_of(comparison.operator))
}

// Whether the condition fails for the numbers that tell whether it holds for none.
fn fails_at(comparison: Comparison, last: u64) -> bool
    ensures { IsTrue result ↔ ((HoldsFor (condition_in comparison) 0 → ⊥) × (HoldsFor (condition_in comparison) 1 → ⊥) × (HoldsFor (condition_in comparison) comparison.value → ⊥) × (HoldsFor (condition_in comparison) last → ⊥)) }
{
    !holds_for(comparison, 0)
        && !holds_for(comparison, 1)
        && !holds_for(comparison, comparison.value)
        && !holds_for(comparison, last)
}

// Whether the condition holds for no argument. `MaskedEq` cuts its value by its mask too. So an argument that is the value meets it,
// whatever bits the value has outside the mask.
fn never_holds(comparison: Comparison) -> bool
    ensures { IsTrue result ↔ HoldsForNone (condition_in comparison) }
{
    fails_at(comparison, u64::MAX)
}

// Whether what a code says is so of a condition.
pub(crate) fn is_so_of_condition(code: Code, comparison: Comparison) -> bool
    ensures { IsTrue result ↔ IsSoOfCondition code comparison }
{
    match code {
        // The value has bits in the high half, which isn't compared.
        Code::HighHalfIgnored => match comparison.arg_len {
            SeccompCmpArgLen::Dword => comparison.value > LOW_HALF,
            SeccompCmpArgLen::Qword => false,
        },
        // The value has bits that what is compared of the mask doesn't have.
        Code::ValueOutsideMask => match comparison.operator {
            SeccompCmpOp::MaskedEq(mask) => {
                comparison.value & part_of(comparison.arg_len, mask) != comparison.value
            }
            _ => false,
        },
        Code::AlwaysHolds => always_holds(comparison),
        Code::NeverHolds => never_holds(comparison),
        _ => false,
    }
}
