// Sets of 32-bit words, by bits that are known and by bounds, and what a test says of them.

ghost use Rattle.std.specs.Prelude.{◌≡◌, ◌≢◌, ℕ, ◌^◌, ◌<◌, ◌≤◌, ◌↔◌, ◌⊎◌, IfSome, MatchOption, IsTrue, bit_and, bit_or};
ghost use Rattle.seccomp_compare.specs.WordSets.{HasValue, KeepsKnown, AreSame, AreHalves, IsTight, IsTest, Passes};

use crate::machine::JUMP_IF_SET;
use seccompiler::bpf::{JUMP_AT_LEAST, JUMP_EQUAL, JUMP_GREATER, sock_filter};

/// Numbers of 32 bits of which some bits are known, within bounds under a mask.
#[derive(Clone, Copy)]
pub struct Values {
    /// The bits that are known.
    pub known: u32,
    /// Their values; the other bits are 0.
    pub value: u32,
    /// The bits that the bounds speak of.
    pub mask: u32,
    /// The least number under that mask.
    pub least: u32,
    /// The greatest number under that mask.
    pub most: u32,
}

/// All numbers.
pub const ALL: Values = Values {
    known: 0,
    value: 0,
    mask: u32::MAX,
    least: 0,
    most: u32::MAX,
};

// Whether a mask has each bit from one place on, and no other: words under it are in the same order.
fn keeps_order(mask: u32) -> bool
    ensures { IsTrue result → (x y : ℕ) → x ≤ y → y < 2 ^ 32 → bit_and x mask ≤ bit_and y mask }
{
    let lowest = 1 << mask.trailing_zeros().min(31);
    mask == u32::MAX - (lowest - 1)
}

// A mask over what the mask of bounds leaves that leaves the same as this one, and keeps the order; if there is one.
fn order_mask(bounds: u32, mask: u32) -> Option<u32>
    ensures same { IfSome result (λ order. (x : ℕ) → x < 2 ^ 32 → bit_and (bit_and x bounds) order ≡ bit_and x mask) }
    ensures order { IfSome result (λ order. (x y : ℕ) → x ≤ y → y < 2 ^ 32 → bit_and x order ≤ bit_and y order) }
{
    if mask & bounds != mask {
        return None;
    }
    let order = mask | !bounds;
    if !keeps_order(order) {
        return None;
    }
    Some(order)
}

// A number that none of them is below, under a mask.
fn least_under(values: Values, mask: u32) -> u32
    ensures { (x : ℕ) → x < 2 ^ 32 → HasValue values x → result ≤ bit_and x mask }
{
    let by_bits = values.value & mask;
    match order_mask(values.mask, mask) {
        Some(order) => by_bits.max(values.least & order),
        None => by_bits,
    }
}

// A number that no word with their known bits is above, under a mask.
fn most_by_bits(values: Values, mask: u32) -> u32
    ensures { (x : ℕ) → x < 2 ^ 32 → bit_and x values.known ≡ values.value → bit_and x mask ≤ result }
{
    let unknown = mask - (values.known & mask);
    unknown.saturating_add(values.value & mask)
}

// The same by their bounds as well.
fn most_under(values: Values, mask: u32) -> u32
    ensures { (x : ℕ) → x < 2 ^ 32 → HasValue values x → bit_and x mask ≤ result }
{
    let by_bits = most_by_bits(values, mask);
    match order_mask(values.mask, mask) {
        Some(order) => by_bits.min(values.most & order),
        None => by_bits,
    }
}

// Whether each of them is k under the mask, or none is.
fn is_equal(values: Values, mask: u32, k: u32) -> Option<bool>
    ensures { IfSome result (λ holds. (x : ℕ) → x < 2 ^ 32 → HasValue values x → (IsTrue holds ↔ bit_and x mask ≡ k)) }
{
    let least = least_under(values, mask);
    let most = most_under(values, mask);
    if k < least || most < k {
        return Some(false);
    }
    if k & values.known != values.value & mask {
        return Some(false);
    }
    (least == most).then_some(true)
}

// Whether each of them is above k under the mask, or none is.
fn is_greater(values: Values, mask: u32, k: u32) -> Option<bool>
    ensures { IfSome result (λ holds. (x : ℕ) → x < 2 ^ 32 → HasValue values x → (IsTrue holds ↔ k < bit_and x mask)) }
{
    if k < least_under(values, mask) {
        Some(true)
    } else if most_under(values, mask) <= k {
        Some(false)
    } else {
        None
    }
}

// Whether each of them is k at least under the mask, or none is.
fn is_at_least(values: Values, mask: u32, k: u32) -> Option<bool>
    ensures { IfSome result (λ holds. (x : ℕ) → x < 2 ^ 32 → HasValue values x → (IsTrue holds ↔ k ≤ bit_and x mask)) }
{
    if k <= least_under(values, mask) {
        Some(true)
    } else if most_under(values, mask) < k {
        Some(false)
    } else {
        None
    }
}

// Whether each of them has one of the bits of k under the mask, or none has.
fn has_bits(values: Values, mask: u32, k: u32) -> Option<bool>
    ensures { IfSome result (λ holds. (x : ℕ) → x < 2 ^ 32 → HasValue values x → (IsTrue holds ↔ bit_and (bit_and x mask) k ≢ 0)) }
{
    let is_zero = is_equal(values, mask & k, 0)?;
    Some(!is_zero)
}

// What the test of an instruction says of each of them under the mask, if it says one thing.
pub(crate) fn outcome(values: Values, mask: u32, test: sock_filter) -> Option<bool>
    requires { IsTest test }
    ensures { IfSome result (λ holds. (x : ℕ) → x < 2 ^ 32 → HasValue values x → Passes test (bit_and x mask) holds) }
{
    match test.code {
        JUMP_EQUAL => is_equal(values, mask, test.k),
        JUMP_GREATER => is_greater(values, mask, test.k),
        JUMP_AT_LEAST => is_at_least(values, mask, test.k),
        _ => has_bits(values, mask, test.k),
    }
}

// Those of which this bit is 0, and those of which it is 1, if it isn't known.
fn by_bit(values: Values, place: u32) -> (Values, Values)
    requires place { place < 32 }
    requires kept { KeepsKnown values }
    ensures halves { AreHalves values result.0 result.1 }
    ensures lower { KeepsKnown result.0 }
    ensures upper { KeepsKnown result.1 }
{
    let bit = 1 << place;
    if values.known & bit != 0 {
        return (values, values);
    }
    let known = values.known | bit;
    let value = values.value | bit;
    (
        Values { known, ..values },
        Values {
            known,
            value,
            ..values
        },
    )
}

// Those up to this word, and those above it.
fn by_order(values: Values, last: u32) -> (Values, Values)
    requires { KeepsKnown values }
    ensures halves { AreHalves values result.0 result.1 }
    ensures lower { KeepsKnown result.0 }
    ensures upper { KeepsKnown result.1 }
{
    let most = last.min(values.most);
    let least = last.saturating_add(1).max(values.least);
    (Values { most, ..values }, Values { least, ..values })
}

// A greater number that none of those is below which have these bits, given one which has one of them wrong: they lie
// after the next number in which the highest such bit is right.
fn raised(known: u32, value: u32, least: u32) -> Option<u32>
    requires kept { bit_and value known ≡ value }
    requires wrong { bit_and least known ≢ value }
    ensures behind { MatchOption result
        ((u : ℕ) → u < 2 ^ 32 → bit_and u known ≡ value → least ≤ u → ⊥)
        (λ next. (u : ℕ) → u < 2 ^ 32 → bit_and u known ≡ value → least ≤ u → next ≤ u) }
    ensures greater { IfSome result (λ next. least < next) }
{
    let wrong = (least & known) ^ value;
    let bit = 1 << 31u32.saturating_sub(wrong.leading_zeros());
    (least - least % bit).checked_add(bit)
}

// The same words from this one on, which none of them is below under the mask and which agrees with the known bits; the
// mask's bits are known if the bounds leave one word.
fn from(values: Values, least: u32) -> Values
    requires kept { KeepsKnown values }
    requires within { bit_and least values.mask ≡ least }
    requires bits { bit_and least values.known ≡ bit_and values.value values.mask }
    requires later { values.least ≤ least }
    requires first { (x : ℕ) → x < 2 ^ 32 → HasValue values x → least ≤ bit_and x values.mask }
    ensures same { AreSame values result }
    ensures tight { IsTight result }
{
    if least == values.most {
        return Values {
            known: values.known | values.mask,
            value: values.value | least,
            least,
            ..values
        };
    }
    Values { least, ..values }
}

// The same words, of which the least bound with the known bits is one; or, if there are none, with bounds that leave
// none.
fn tightened(values: Values) -> Values
    requires { KeepsKnown values }
    ensures same { AreSame values result }
    ensures tight { IsTight result }
{
    // What is known under the mask: the known bits, and that no other is set.
    let known = values.known | !values.mask;
    let value = values.value & values.mask;
    let mut least = values.least;
    while least & known != value {
        let Some(next) = raised(known, value, least) else {
            return Values {
                least: 1,
                most: 0,
                ..values
            };
        };
        least = next;
    }
    from(values, least)
}

/// Two halves of them, by what the test of an instruction depends on under a mask.
pub(crate) fn halves(values: Values, mask: u32, test: sock_filter) -> (Values, Values)
    requires { HasValue values (bit_or values.least values.value) }
    ensures halves { AreHalves values result.0 result.1 }
    ensures lower { IsTight result.0 }
    ensures upper { IsTight result.1 }
{
    let (mask, test) = compared(mask, test);
    let (lower, upper) = raw_halves(bounded(values, mask), mask, test);
    (tightened(lower), tightened(upper))
}

// The bits that a test looks at, and what it compares them with: JSET says whether those of k are 0.
fn compared(mask: u32, test: sock_filter) -> (u32, sock_filter) {
    if test.code == JUMP_IF_SET {
        let zero = sock_filter {
            code: JUMP_EQUAL,
            k: 0,
            ..test
        };
        (mask & test.k, zero)
    } else {
        (mask, test)
    }
}

// The same words, with bounds under this mask if their own bounds say no more than the known bits, and more than one
// bit under the mask is unknown.
fn bounded(values: Values, mask: u32) -> Values
    requires { KeepsKnown values }
    ensures same { AreSame values result }
    ensures kept { KeepsKnown result }
{
    if order_mask(values.mask, mask).is_some() || (mask & !values.known).count_ones() < 2 {
        return values;
    }
    if values.least > values.value & values.mask
        || values.most < most_by_bits(values, values.mask)
    {
        return values;
    }
    Values {
        mask,
        least: 0,
        most: u32::MAX,
        ..values
    }
}

// The same halves, with bounds as they come.
fn raw_halves(values: Values, mask: u32, test: sock_filter) -> (Values, Values)
    requires { KeepsKnown values }
    ensures halves { AreHalves values result.0 result.1 }
    ensures lower { KeepsKnown result.0 }
    ensures upper { KeepsKnown result.1 }
{
    let Some(order) = order_mask(values.mask, mask) else {
        let unknown = mask & !values.known;
        return by_bit(values, 31u32.saturating_sub(unknown.leading_zeros()));
    };
    let is_above = test.code == JUMP_GREATER
        || test.code == JUMP_EQUAL && test.k <= values.least & order;
    let border = if is_above {
        test.k
    } else {
        test.k.saturating_sub(1)
    };
    // The greatest word that isn't above the border under the mask.
    by_order(values, border | !order)
}

/// The numbers from `least` to `most`, both included.
pub(crate) fn between(least: u32, most: u32) -> Values
    ensures words { (x : ℕ) → x < 2 ^ 32 → (HasValue result x ↔ ((least ≤ x) × (x ≤ most))) }
    ensures tight { IsTight result }
{
    Values { least, most, ..ALL }
}
