// From the items of JSON arrays to lists of a profile's parts.

ghost use Rattle.std.specs.Prelude.{ℕ, List, map, option_map, string_bytes, IfOk, IfSome, IfNone};
ghost use Rattle.serde_json.specs.Data.{Data};
ghost use Rattle.serde_json.specs.View.{view, items_view};
ghost use Rattle.seccompiler.specs.JsonShape.{OneByOne};
ghost use Rattle.seccomp_profiles.specs.Shape.{IsText, IsListed, IsArgument, IsFlag};

use crate::members::items_of;
use crate::parts::{read_argument, read_flag};
use crate::types::{Argument, Flag};
use serde_json::Value;
use std::alloc::{AllocError, Global};

/// What an item of an array may be.
pub(crate) trait Part: Drop + Sized {
    ghost is: { Data → Self → Type 0 };

    /// The part that a value is, or `None` if it is none. An error is returned if memory runs out.
    fn read(alloc: Global, value: &Value) -> Result<Option<Self>, AllocError>
        ensures found { IfOk result (λ o. IfSome o (is (view value.now))) }
        ensures none { IfOk result (λ o. IfNone o ((part : Self) → is (view value.now) part → ⊥)) };
}

impl Part for Argument {
    ghost is = { IsArgument };

    fn read(_alloc: Global, value: &Value) -> Result<Option<Argument>, AllocError> {
        Ok(read_argument(value))
    }
}

impl Part for Flag {
    ghost is = { IsFlag };

    fn read(_alloc: Global, value: &Value) -> Result<Option<Flag>, AllocError> {
        Ok(read_flag(value))
    }
}

fn read_parts<T: Part>(alloc: Global, items: &[Value]) -> Result<Option<Vec<T>>, AllocError>
    ensures found { IfOk result (λ o. IfSome o (λ all. OneByOne T.is (items_view items.now) all.items)) }
    ensures none { IfOk result (λ o. IfNone o ((all : List T) → OneByOne T.is (items_view items.now) all → ⊥)) }
{
    let mut found = Vec::with_capacity(alloc, items.len())?;
    for item in items {
        match T::read(alloc, item)? {
            Some(part) => found.push(part)?,
            None => return Ok(None),
        }
    }
    Ok(Some(found))
}

/// The parts of an array, in its order: none if nothing stands there, or null.
///
/// `None` if an array has another item, or if something else stands there. An error is returned if memory runs out.
pub(crate) fn parts_under<T: Part>(
    alloc: Global,
    value: Option<&Value>,
) -> Result<Option<Vec<T>>, AllocError>
    ensures found { IfOk result (λ o. IfSome o (λ all. IsListed T.is (option_map (λ v. view v.now) value.entry) all.items)) }
    ensures none { IfOk result (λ o. IfNone o
        ((all : List T) → IsListed T.is (option_map (λ v. view v.now) value.entry) all → ⊥)) }
{
    match items_of(value) {
        Some(items) => read_parts(alloc, items),
        None => Ok(None),
    }
}

fn read_text(alloc: Global, value: &Value) -> Result<Option<String>, AllocError>
    ensures found { IfOk result (λ o. IfSome o (λ text. IsText (view value.now) (string_bytes text))) }
    ensures none { IfOk result (λ o. IfNone o ((text : List ℕ) → IsText (view value.now) text → ⊥)) }
{
    match value {
        Value::String(text) => Ok(Some(String::from_str(alloc, text.as_str())?)),
        _ => Ok(None),
    }
}

fn read_texts(alloc: Global, items: &[Value]) -> Result<Option<Vec<String>>, AllocError>
    ensures found { IfOk result
        (λ o. IfSome o (λ all. OneByOne IsText (items_view items.now) (map string_bytes all.items))) }
    ensures none { IfOk result (λ o. IfNone o
        ((all : List (List ℕ)) → OneByOne IsText (items_view items.now) all → ⊥)) }
{
    let mut found = Vec::with_capacity(alloc, items.len())?;
    for item in items {
        match read_text(alloc, item)? {
            Some(text) => found.push(text)?,
            None => return Ok(None),
        }
    }
    Ok(Some(found))
}

/// The texts of an array, in its order, as [`parts_under`] gives parts.
pub(crate) fn texts_under(
    alloc: Global,
    value: Option<&Value>,
) -> Result<Option<Vec<String>>, AllocError>
    ensures found { IfOk result (λ o. IfSome o
        (λ all. IsListed IsText (option_map (λ v. view v.now) value.entry) (map string_bytes all.items))) }
    ensures none { IfOk result (λ o. IfNone o
        ((all : List (List ℕ)) → IsListed IsText (option_map (λ v. view v.now) value.entry) all → ⊥)) }
{
    match items_of(value) {
        Some(items) => read_texts(alloc, items),
        None => Ok(None),
    }
}
