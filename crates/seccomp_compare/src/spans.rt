// What conditions say of arguments, in one form: that bits of an argument lie within bounds, or that they don't.

ghost use Rattle.std.specs.Prelude.{◌≡◌, ℕ, ◌^◌, ◌<◌, ◌↔◌, IsTrue, bit_and};
ghost use Rattle.seccompiler.specs.Policy.{part_of};
ghost use Rattle.seccomp_compare.specs.Cover.{compared, is_equality};
ghost use Rattle.seccomp_compare.specs.Spans.{HoldsFor, IsPoint, Says};

use seccompiler::{SeccompCmpArgLen, SeccompCmpOp, SeccompCondition};

/// Numbers of an argument: those whose bits under a mask lie within bounds; or, of a span that is outside, all others.
#[derive(Clone, Copy)]
pub struct Span {
    /// The bits that the bounds speak of.
    pub mask: u64,
    /// The least number under that mask.
    pub least: u64,
    /// The greatest number under that mask.
    pub most: u64,
    /// Whether these are the numbers that don't lie within the bounds.
    pub is_outside: bool,
}

/// The numbers at which a condition holds, by the bounds that the operator names.
pub(crate) fn span_of(condition: &SeccompCondition) -> Span
    ensures mask { result.mask ≡ compared condition.now }
    ensures point { IsTrue (is_equality condition.now.operator) → IsPoint result }
    ensures same { (x : ℕ) → x < 2 ^ 64 → (Says result x ↔ HoldsFor condition.now x) }
{
    let size = size_of(condition.arg_len());
    let value = condition.value() & size;
    match condition.operator() {
        SeccompCmpOp::Eq => spanning(size, value, value, false),
        SeccompCmpOp::Ne => spanning(size, value, value, true),
        SeccompCmpOp::Ge => spanning(size, value, size, false),
        SeccompCmpOp::Lt => spanning(size, value, size, true),
        SeccompCmpOp::Gt => spanning(size, 0, value, true),
        SeccompCmpOp::Le => spanning(size, 0, value, false),
        SeccompCmpOp::MaskedEq(mask) => {
            let mask = mask & size;
            spanning(mask, value & mask, value & mask, false)
        }
    }
}

// The span of these parts.
fn spanning(mask: u64, least: u64, most: u64, is_outside: bool) -> Span
    ensures { result ≡ record { mask = mask; least = least; most = most; is_outside = is_outside } }
{
    Span {
        mask,
        least,
        most,
        is_outside,
    }
}

// The bits that are compared.
fn size_of(length: SeccompCmpArgLen) -> u64
    ensures all { result ≡ part_of length 0xffff_ffff_ffff_ffff }
    ensures cuts { (x : ℕ) → x < 2 ^ 64 → bit_and x result ≡ part_of length x }
{
    match length {
        SeccompCmpArgLen::Dword => 0xffff_ffff,
        SeccompCmpArgLen::Qword => u64::MAX,
    }
}
