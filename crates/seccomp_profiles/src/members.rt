// What the readers of a JSON object share: its names, its numbers, its lists and its comment.

ghost use Rattle.std.specs.Prelude.{◌≡◌, ◌↔◌, ℕ, IsTrue, IfSome, IfNone, Some, map, option_map};
ghost use Rattle.std.specs.List.{list_any};
ghost use Rattle.std.specs.Str.{bytes_eq};
ghost use Rattle.serde_json.specs.Data.{no_items, object};
ghost use Rattle.serde_json.specs.View.{view, items_view, members_view};
ghost use Rattle.seccompiler.specs.JsonShape.{HasOnly, IsWhole, IsCommented};
ghost use Rattle.seccomp_profiles.specs.Shape.{IsAbsent, IsWholeOr, items_of};

use serde_json::Value;
use serde_json::value::Map;

/// Whether the name is one of these.
pub(crate) fn is_among(name: &str, names: &[&str]) -> bool
    ensures { result ≡ list_any (bytes_eq name.now) (map (λ n. n.now) names.now) }
{
    for one in names {
        if name == *one {
            return true;
        }
    }
    false
}

/// Whether each name of the object is one of these.
pub(crate) fn has_only_names(members: &Map<String, Value>, names: &[&str]) -> bool
    ensures { IsTrue result
        ↔ HasOnly (object (members_view members.now.entries)) (map (λ n. n.now) names.now) }
{
    for (name, _) in members.iter() {
        if !is_among(name.as_str(), names) {
            return false;
        }
    }
    true
}

/// Whether the value is an object, and each of its names is one of these.
pub(crate) fn is_object_of(value: &Value, names: &[&str]) -> bool
    ensures { IsTrue result ↔ HasOnly (view value.now) (map (λ n. n.now) names.now) }
{
    match value {
        Value::Object(members) => has_only_names(members, names),
        _ => false,
    }
}

/// A whole number of at most `most`.
pub(crate) fn whole_of(most: u64, value: &Value) -> Option<u64>
    ensures found { IfSome result (IsWhole most (view value.now)) }
    ensures none { IfNone result ((n : ℕ) → IsWhole most (view value.now) n → ⊥) }
{
    let number = value.as_u64()?;
    if number <= most { Some(number) } else { None }
}

/// What stands there as a whole number of at most `most`; `otherwise` if nothing stands there, or null.
pub fn whole_or(otherwise: u64, most: u64, value: Option<&Value>) -> Option<u64>
    ensures found { IfSome result (IsWholeOr otherwise most (option_map (λ v. view v.now) value.entry)) }
    ensures none { IfNone result ((n : ℕ) → IsWholeOr otherwise most (option_map (λ v. view v.now) value.entry) n → ⊥) }
{
    match value {
        None | Some(Value::Null) => Some(otherwise),
        Some(value) => whole_of(most, value),
    }
}

/// Whether nothing stands there, or null.
pub(crate) fn is_absent(value: Option<&Value>) -> bool
    ensures { IsTrue result ↔ IsAbsent (option_map (λ v. view v.now) value.entry) }
{
    match value {
        None | Some(Value::Null) => true,
        Some(_) => false,
    }
}

/// The items that stand there: none if nothing stands there, or null.
pub fn items_of(value: Option<&Value>) -> Option<&[Value]>
    ensures { option_map (λ items. items_view items.now) result ≡ items_of (option_map (λ v. view v.now) value.entry) }
{
    match value {
        None | Some(Value::Null) => Some(&[]),
        Some(Value::Array(items)) => Some(items.as_slice()),
        Some(_) => None,
    }
}

/// Whether no items stand there: an empty array, null or nothing.
pub(crate) fn has_no_items(value: Option<&Value>) -> bool
    ensures { IsTrue result ↔ (items_of (option_map (λ v. view v.now) value.entry) ≡ Some no_items) }
{
    match value {
        None | Some(Value::Null) => true,
        Some(Value::Array(items)) => are_none(items.as_slice()),
        Some(_) => false,
    }
}

fn are_none(items: &[Value]) -> bool
    ensures { IsTrue result ↔ (items_view items.now ≡ no_items) }
{
    items.is_empty()
}

/// Whether an object's comment is as it may be.
pub(crate) fn is_commented(value: &Value) -> bool
    ensures { IsTrue result ↔ IsCommented (view value.now) }
{
    match value.get("comment") {
        None | Some(Value::Null | Value::String(_)) => true,
        Some(_) => false,
    }
}
