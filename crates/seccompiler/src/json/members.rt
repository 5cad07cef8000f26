// What the readers of a JSON object share: its members, its numbers and its comment.

ghost use Rattle.std.specs.Prelude.{◌≡◌, ◌↔◌, ◌≤◌, ℕ, [], ◌∷◌, false, codes, IsTrue, IsSome, IfSome, IfNone, List, MatchOption, take, option_map};
ghost use Rattle.std.specs.List.{AllZip, list_any, position_or_len};
ghost use Rattle.std.specs.Str.{bytes_eq};
ghost use Rattle.serde_json.specs.Data.{Data};
ghost use Rattle.serde_json.specs.Find.{get};
ghost use Rattle.serde_json.specs.View.{view};
ghost use Rattle.seccompiler.specs.JsonShape.{AreApart, HasOnly, IsWhole, IsNumbered, IsComment, Under};

use serde_json::Value;

// The first place of a name among five, or 5.
#[inline(always)]
fn place_among(name: &str, names: (&str, &str, &str, &str, &str)) -> usize
    ensures { result ≡ position_or_len (λ n. bytes_eq n name.now) (names.entry.0.now ∷ names.entry.1.now ∷ names.entry.2.now ∷ names.entry.3.now ∷ names.entry.4.now ∷ []) }
{
    if names.0 == name {
        0
    } else if names.1 == name {
        1
    } else if names.2 == name {
        2
    } else if names.3 == name {
        3
    } else if names.4 == name {
        4
    } else {
        5
    }
}

type Found<'v> = Option<&'v Value>;

/// What an object has under five names, if each name that it has is one of the first `count`. It goes
/// through the members once.
#[inline(always)]
pub fn members_under<'v>(
    value: &'v Value,
    names: (&str, &str, &str, &str, &str),
    count: usize,
) -> Option<(Found<'v>, Found<'v>, Found<'v>, Found<'v>, Found<'v>)>
    requires count { count ≤ 5 }
    requires apart { AreApart (names.0.now ∷ names.1.now ∷ names.2.now ∷ names.3.now ∷ names.4.now ∷ []) }
    ensures names { IsSome result → HasOnly (view value.now) (take count (names.entry.0.now ∷ names.entry.1.now ∷ names.entry.2.now ∷ names.entry.3.now ∷ names.entry.4.now ∷ [])) }
    ensures found { IfSome result (λ o. AllZip (λ member name. option_map (λ v. view v.now) member ≡ get name (view value.now)) (o.0 ∷ o.1 ∷ o.2 ∷ o.3 ∷ o.4 ∷ []) (names.entry.0.now ∷ names.entry.1.now ∷ names.entry.2.now ∷ names.entry.3.now ∷ names.entry.4.now ∷ [])) }
    ensures none { IfNone result (HasOnly (view value.now) (take count (names.entry.0.now ∷ names.entry.1.now ∷ names.entry.2.now ∷ names.entry.3.now ∷ names.entry.4.now ∷ [])) → ⊥) }
{
    let Value::Object(members) = value else {
        return None;
    };
    let mut found: [Found<'v>; 5] = [None; 5];
    for (name, member) in members.iter() {
        let place = place_among(name.as_str(), names);
        if place >= count {
            return None;
        }
        found[place] = found[place].or(Some(member));
    }
    let [first, second, third, fourth, fifth] = found;
    Some((first, second, third, fourth, fifth))
}

/// Whether this is what an object may have under `comment`.
pub fn is_comment(found: Option<&Value>) -> bool
    ensures { IsTrue result ↔ IsComment (option_map (λ v. view v.now) found.entry) }
{
    match found {
        None => true,
        Some(value) => value.is_null() || value.is_string(),
    }
}

/// The number that was found under a name, if serde_json holds it as a whole one, at most `most`.
pub fn whole_number(found: Option<&Value>, most: u64) -> Option<u64>
    ensures { (d : Data) (name : List ℕ) → option_map (λ v. view v.now) found.entry ≡ get name d
        → MatchOption result ((n : ℕ) → Under d name (λ v. IsWhole most v n) → ⊥) (λ n. Under d name (λ v. IsWhole most v n)) }
{
    let Some(value) = found else {
        return None;
    };
    match value.as_u64() {
        Some(number) if number <= most => Some(number),
        _ => None,
    }
}

/// The number of an object of this one name, if serde_json holds it as a whole one, at most `most`.
pub fn number_alone(value: &Value, name: &str, most: u64) -> Option<u64>
    ensures found { IfSome result (IsNumbered most name.now (view value.now)) }
    ensures none { IfNone result ((n : ℕ) → IsNumbered most name.now (view value.now) n → ⊥) }
{
    let Value::Object(members) = value else {
        return None;
    };
    if members.len() != 1 {
        return None;
    }
    whole_number(value.get(name), most)
}
