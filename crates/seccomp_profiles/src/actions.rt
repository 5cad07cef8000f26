// Actions, and the numbers that stand beside them.

ghost use Rattle.std.specs.Prelude.{ℕ, IfSome, IfNone, option_map};
ghost use Rattle.serde_json.specs.View.{view};
ghost use Rattle.seccomp_entries.specs.declared.entry.Action.{Action};
ghost use Rattle.seccomp_profiles.specs.Actions.{IsActionUnder, IsBeside, IsNamedOr, IsNamedText, IsNumberOr, NamesError};

use crate::members::whole_of;
use crate::parts::read_action;
use crate::version::number_of;
use seccomp_entries::Action;
use seccomp_names::error_number;
use serde_json::Value;

// The errno that a text gives, by name or by number.
fn error_of(text: &str) -> Option<u32>
    ensures found { IfSome result (NamesError text.now) }
    ensures none { IfNone result ((n : ℕ) → NamesError text.now n → ⊥) }
{
    if let Some(number) = error_number(text) {
        return Some(number);
    }
    let number = number_of(text)?;
    if number <= 65535 { Some(number) } else { None }
}

// The errno that a text gives, if it isn't empty.
fn named_text(text: &str) -> Option<Option<u32>>
    ensures found { IfSome result (IsNamedText text.now) }
    ensures none { IfNone result ((o : _) → IsNamedText text.now o → ⊥) }
{
    if text.is_empty() {
        return Some(None);
    }
    match error_of(text) {
        Some(number) => Some(Some(number)),
        None => None,
    }
}

/// The errno that stands there as a text, if one does; `None` if something else stands there.
pub fn named_number(name: Option<&Value>) -> Option<Option<u32>>
    ensures found { IfSome result (IsNamedOr (option_map (λ v. view v.now) name.entry)) }
    ensures none { IfNone result ((o : _) → IsNamedOr (option_map (λ v. view v.now) name.entry) o → ⊥) }
{
    match name {
        None | Some(Value::Null) => Some(None),
        Some(Value::String(text)) => named_text(text.as_str()),
        Some(_) => None,
    }
}

// The number that stands there, if one does; `None` where something else stands there.
fn number_beside(number: Option<&Value>) -> Option<Option<u32>>
    ensures found { IfSome result (IsNumberOr (option_map (λ v. view v.now) number.entry)) }
    ensures none { IfNone result ((o : _) → IsNumberOr (option_map (λ v. view v.now) number.entry) o → ⊥) }
{
    match number {
        None | Some(Value::Null) => Some(None),
        Some(value) => match whole_of(65535, value) {
            Some(number) => Some(u32::try_from(number).ok()),
            None => None,
        },
    }
}

// What stands beside an action, if anything; `None` where something else stands there.
fn beside(value: &Value, number: &str, name: &str) -> Option<Option<u32>>
    ensures found { IfSome result (IsBeside (view value.now) number.now name.now) }
    ensures none { IfNone result ((o : _) → IsBeside (view value.now) number.now name.now o → ⊥) }
{
    let own = number_beside(value.get(number))?;
    let named = named_number(value.get(name))?;
    Some(named.or(own))
}

/// The action that stands under a key, with the number that stands beside it under the others, by itself or by name. `None`
/// if none is there. It takes no memory.
pub(crate) fn action_under(value: &Value, action: &str, number: &str, name: &str) -> Option<Action>
    ensures found { IfSome result (IsActionUnder (view value.now) action.now number.now name.now) }
    ensures none { IfNone result ((a : Action) → IsActionUnder (view value.now) action.now number.now name.now a → ⊥) }
{
    let beside = beside(value, number, name)?;
    read_action(value.get(action)?, beside)
}
