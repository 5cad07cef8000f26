// Arguments of which some bits are known, and what conditions say of them.

ghost use Rattle.std.specs.Prelude.{◌≡◌, ◌≢◌, ℕ, ◌^◌, ◌<◌, ◌≤◌, ◌↔◌, ◌⊎◌, IfNone, IfSome, IsTrue, bit_and, bit_or};
ghost use Rattle.std.specs.Int.{bit_at};
ghost use Rattle.seccomp_compare.specs.Cover.{compared};
ghost use Rattle.seccomp_compare.specs.Known.{HasBits, KeepsBits};
ghost use Rattle.seccomp_compare.specs.Spans.{HoldsFor, LiesWithin, Says};

use crate::spans::{Span, span_of};
use seccompiler::SeccompCondition;

/// Numbers of 64 bits of which some bits are known.
#[derive(Clone, Copy)]
pub struct Known {
    /// The bits that are known.
    pub mask: u64,
    /// Their values; the other bits are 0.
    pub value: u64,
}

/// All numbers.
pub const ANY: Known = Known { mask: 0, value: 0 };

/// Whether a condition holds for each of these numbers, or for none; none if it may hold for some of them.
pub(crate) fn holds_for(known: Known, condition: &SeccompCondition) -> Option<bool>
    ensures some { IfSome result (λ holds. (x : ℕ) → x < 2 ^ 64 → HasBits known x → (IsTrue holds ↔ HoldsFor condition.now x)) }
    ensures open { IfNone result (bit_and (compared condition.now) known.mask ≢ compared condition.now) }
{
    let span = span_of(condition);
    let lies = lies_within(known, span)?;
    Some(lies != span.is_outside)
}

// Whether each of them lies within the bounds of a span, or none does.
fn lies_within(known: Known, span: Span) -> Option<bool>
    ensures some { IfSome result (λ lies. (x : ℕ) → x < 2 ^ 64 → HasBits known x → (IsTrue lies ↔ LiesWithin span x)) }
    ensures open { IfNone result (bit_and span.mask known.mask ≢ span.mask) }
{
    let least = known.value & span.mask;
    let most = most_under(known, span.mask);
    if span.least <= least && most <= span.most {
        return Some(true);
    }
    if most < span.least || span.most < least {
        return Some(false);
    }
    if span.least == span.most && span.least & known.mask != least {
        return Some(false);
    }
    None
}

// The greatest of them under a mask.
fn most_under(known: Known, mask: u64) -> u64
    ensures above { (x : ℕ) → x < 2 ^ 64 → HasBits known x → bit_and x mask ≤ result }
    ensures known { bit_and mask known.mask ≡ mask → result ≡ bit_and known.value mask }
{
    let unknown = mask - (mask & known.mask);
    unknown.saturating_add(known.value & mask)
}

/// The numbers that also have these bits of this mask; none if their known bits are others.
pub(crate) fn with_bits(known: Known, mask: u64, value: u64) -> Option<Known>
    requires kept { KeepsBits known }
    ensures some { IfSome result (λ more. (x : ℕ) → HasBits known x → bit_and x mask ≡ value → HasBits more x) }
    ensures kept { IfSome result KeepsBits }
    ensures mask { IfSome result (λ more. more.mask ≡ bit_or known.mask mask) }
    ensures none { IfNone result ((x : ℕ) → HasBits known x → bit_and x mask ≡ value → ⊥) }
{
    if value & mask != value || known.value & mask != value & known.mask {
        return None;
    }
    Some(Known {
        mask: known.mask | mask,
        value: known.value | value,
    })
}

/// The highest bit of a mask that isn't known.
pub(crate) fn unknown_bit(known: Known, mask: u64) -> u32
    requires { bit_and mask known.mask ≢ mask }
    ensures within { result < 64 }
    ensures unknown { bit_at known.mask result ≡ 0 }
    ensures of_mask { bit_at mask result ≡ 1 }
{
    let unknown = mask ^ (mask & known.mask);
    63u32.saturating_sub(unknown.leading_zeros())
}

/// Those of which a bit is 0, and those of which it is 1.
pub(crate) fn halves(known: Known, place: u32) -> (Known, Known)
    requires place { place < 64 }
    requires unknown { bit_at known.mask place ≡ 0 }
    requires kept { KeepsBits known }
    ensures cover { (x : ℕ) → HasBits known x → HasBits result.0 x ⊎ HasBits result.1 x }
    ensures low { KeepsBits result.0 }
    ensures high { KeepsBits result.1 }
    ensures low_mask { result.0.mask ≡ bit_or known.mask (2 ^ place) }
    ensures high_mask { result.1.mask ≡ bit_or known.mask (2 ^ place) }
{
    let bit = 1 << place;
    let (mask, value) = (known.mask | bit, known.value);
    (
        Known { mask, value },
        Known {
            mask,
            value: value | bit,
        },
    )
}
