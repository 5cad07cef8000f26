// Which values are of which form.

ghost use Rattle.std.specs.Prelude.{◌≡◌, ◌↔◌, ℕ, IsTrue, IfSome, IfNone, map};
ghost use Rattle.serde_json.specs.Data.{array, no_items};
ghost use Rattle.serde_json.specs.View.{view};
ghost use Rattle.seccompiler.specs.JsonShape.{IsObject, IsWhole};
ghost use Rattle.seccomp_faults.specs.Forms.{IsArray, IsOf, Misses};

use crate::table::{Form, is_of_profile, wider};
use seccomp_profiles::readers;
use seccompiler::json::{read_action, read_arg_len, read_operator};
use seccompiler::{SyscallTable, TargetArch};
use serde_json::Value;
use std::alloc::{AllocError, Global};

// A number that serde_json holds as a whole one, if it is at most `most`.
fn whole_of(value: &Value, most: u64) -> Option<u64>
    ensures found { IfSome result (IsWhole most (view value.now)) }
    ensures none { IfNone result ((n : ℕ) → IsWhole most (view value.now) n → ⊥) }
{
    let number = value.as_u64()?;
    if number > most {
        return None;
    }
    Some(number)
}

fn is_object(value: &Value) -> bool
    ensures { IsTrue result ↔ IsObject (view value.now) }
{
    matches!(value, Value::Object(_))
}

fn is_array(value: &Value) -> bool
    ensures { IsTrue result ↔ IsArray (view value.now) }
{
    matches!(value, Value::Array(_))
}

// Whether the value is an array without values.
fn is_empty(value: &Value) -> bool
    ensures { IsTrue result ↔ (view value.now ≡ array no_items) }
{
    match value {
        Value::Array(items) => items.is_empty(),
        _ => false,
    }
}

/// Whether the value is of the form.
pub(crate) fn is_of(target: TargetArch, form: Form, value: &Value) -> bool
    ensures { IsTrue result ↔ IsOf target form (view value.now) }
{
    match form {
        Form::Policy | Form::Filter | Form::Entry | Form::Condition => is_object(value),
        Form::Action => read_action(value).is_some(),
        Form::Entries => is_array(value),
        Form::Name => matches!(value, Value::String(_)),
        Form::Call => match value {
            Value::String(text) => SyscallTable::new(target).get_syscall_nr(text).is_some(),
            _ => false,
        },
        Form::Comment => matches!(value, Value::Null | Value::String(_)),
        Form::Conditions => matches!(value, Value::Null) || is_array(value),
        Form::SomeConditions => !is_empty(value),
        Form::Index => whole_of(value, 255).is_some(),
        Form::Argument => whole_of(value, 5).is_some(),
        Form::Length => read_arg_len(value).is_some(),
        Form::Operator => read_operator(value).is_some(),
        Form::ActionNumber => whole_of(value, 4294967295).is_some(),
        Form::Number => whole_of(value, u64::MAX).is_some(),
        Form::Profile | Form::ProfileEntry | Form::Comparison => is_object(value),
        Form::Criteria => matches!(value, Value::Null) || is_object(value),
        Form::ProfileAction => readers::read_action(value, None).is_some(),
        Form::ErrnoNumber => readers::whole_or(1, 65535, Some(value)).is_some(),
        Form::ErrnoName => readers::named_number(Some(value)).is_some(),
        Form::List | Form::Flags | Form::Texts | Form::ProfileEntries | Form::Comparisons => {
            readers::items_of(Some(value)).is_some()
        }
        Form::Flag => readers::read_flag(value).is_some(),
        Form::Text => matches!(value, Value::String(_)),
        Form::TextOrNull => matches!(value, Value::Null | Value::String(_)),
        Form::ProfileIndex => whole_of(value, 5).is_some(),
        Form::ProfileNumber => whole_of(value, u64::MAX).is_some(),
        Form::NumberOrNull => readers::whole_or(0, u64::MAX, Some(value)).is_some(),
        Form::ProfileOperator => readers::read_operator(value).is_some(),
        Form::Version => readers::kernel_under(Some(value)).is_some(),
    }
}

/// The form of which the value is not: the wider one, or this one.
pub(crate) fn missed(target: TargetArch, form: Form, value: &Value) -> Option<Form>
    ensures missed { IfSome result (λ missed. Misses target form missed (view value.now)) }
    ensures none { IfNone result (IsOf target form (view value.now)) }
{
    if let Some(wider) = wider(form)
        && !is_of(target, wider, value)
    {
        return Some(wider);
    }
    if is_of(target, form, value) {
        return None;
    }
    Some(form)
}

// The most bytes of a value that are shown whole.
const LONGEST: usize = 80;

// Whether a value is a number from 0 to 2^64, written with a point or an exponent, where a whole number is expected.
fn is_no_whole(form: Form, value: &Value) -> bool {
    match form {
        Form::Argument | Form::Index | Form::ActionNumber | Form::Number => {}
        Form::ErrnoNumber | Form::ProfileIndex | Form::ProfileNumber | Form::NumberOrNull => {}
        _ => return false,
    }
    value.as_u64().is_none()
        && value.as_i64().is_none()
        && matches!(value.as_f64(), Some(number) if 0.0 <= number && number < 18446744073709551616.0)
}

// The front of a long text, in whole characters, and how many bytes it has.
fn cut(alloc: Global, told: &String) -> Result<String, AllocError> {
    let mut front = "";
    // Of four neighbours one is no byte inside of a character.
    for at in 57usize..61 {
        if told.is_char_boundary(at) {
            front = &told.as_str()[..at];
            break;
        }
    }
    format!(in alloc; "{front} .. ({} bytes)", told.len())
}

/// The text that shows a value, which isn't of the form: JSON, with a remark, or cut if it is long. A profile's is shown in fewer words.
pub(crate) fn shown(alloc: Global, form: Form, value: &Value) -> Result<String, AllocError> {
    let is_of_profile = is_of_profile(form);
    let told = match value {
        Value::Object(_) => String::from_str(alloc, "an object")?,
        Value::Array(_) if is_of_profile => String::from_str(alloc, "an array")?,
        Value::String(text) if is_of_profile && text.len() > LONGEST => {
            format!(in alloc; "a string of {} bytes", text.len())?
        }
        Value::Array(items) => match items.len() {
            0 => String::from_str(alloc, "an empty array")?,
            1 => String::from_str(alloc, "an array of 1 value")?,
            length => format!(in alloc; "an array of {length} values")?,
        },
        _ => value.to_string(alloc)?,
    };
    if is_no_whole(form, value) {
        return format!(in alloc; "{told}, which isn't written as a whole number");
    }
    if is_of_profile || told.len() <= LONGEST {
        return Ok(told);
    }
    cut(alloc, &told)
}
