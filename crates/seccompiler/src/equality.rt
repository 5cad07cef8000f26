// What `==` tells of the values of this crate's types.

/// A type whose `==` compares values part by part: it answers yes exactly if two values have the
/// same parts, texts by their bytes.
///
/// Each type of this crate with `PartialEq` is one, so that code over such a type, generic code too,
/// can rest on it.
pub trait EqualByParts: PartialEq {
    ghost use Rattle.std.specs.Prelude.{◌↔◌, IsTrue};

    // When two values have the same parts: if they are one value, or differ in no more than the
    // room that their texts and maps take.
    ghost has_same_parts: { Self → Self → Type 0 };

    ghost decides: { (x y : Self) → IsTrue (Self.eq x y) ↔ has_same_parts x y };
}
