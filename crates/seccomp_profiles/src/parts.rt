// From JSON values to the parts of a profile. A value that is no such part gives `None`.
//
// Each reader has two clauses: what it gives is what the value is (`found`), and where it gives
// nothing, the value is no such part (`none`).

ghost use Rattle.std.specs.Prelude.{◌≡◌, ℕ, codes, IfSome, IfNone};
ghost use Rattle.serde_json.specs.Data.{string};
ghost use Rattle.serde_json.specs.View.{view};
ghost use Rattle.seccomp_entries.specs.declared.entry.Action.{Action};
ghost use Rattle.seccompiler.specs.JsonShape.{IsWhole};
ghost use Rattle.seccomp_profiles.specs.declared.types.Operator.{Operator};
ghost use Rattle.seccomp_profiles.specs.declared.types.Argument.{Argument};
ghost use Rattle.seccomp_profiles.specs.declared.types.Flag.{Flag};
ghost use Rattle.seccomp_profiles.specs.Shape.{IsAction, IsOperator, IsArgument, IsFlag};

use crate::members::{is_object_of, whole_of, whole_or};
use crate::types::{Argument, Flag, Operator};
use seccomp_entries::Action;
use seccompiler::SeccompAction;
use serde_json::Value;

// An action that has no number.
fn read_plain_action(text: &str, number: Option<u32>) -> Option<Action>
    requires plain { codes "SCMP_ACT_ERRNO" ≡ text.now → ⊥ }
    requires other { codes "SCMP_ACT_TRACE" ≡ text.now → ⊥ }
    ensures found { IfSome result (IsAction (string text.now) number) }
    ensures none { IfNone result ((a : Action) → IsAction (string text.now) number a → ⊥) }
{
    if number.is_some() {
        return None;
    }
    match text {
        "SCMP_ACT_ALLOW" => Some(Action::Own(SeccompAction::Allow)),
        "SCMP_ACT_KILL" | "SCMP_ACT_KILL_THREAD" => Some(Action::Own(SeccompAction::KillThread)),
        "SCMP_ACT_KILL_PROCESS" => Some(Action::Own(SeccompAction::KillProcess)),
        "SCMP_ACT_LOG" => Some(Action::Own(SeccompAction::Log)),
        "SCMP_ACT_NOTIFY" => Some(Action::Notify),
        "SCMP_ACT_TRAP" => Some(Action::Own(SeccompAction::Trap)),
        _ => None,
    }
}

/// The action that a JSON value is, with this number beside it; `None` if it is none.
///
/// `SCMP_ACT_ERRNO` and `SCMP_ACT_TRACE` take a number; if none is given, it is 1, which is `EPERM`. Beside any other action
/// none may stand. `SCMP_ACT_KILL` is `SCMP_ACT_KILL_THREAD`. It takes no memory.
pub fn read_action(value: &Value, number: Option<u32>) -> Option<Action>
    ensures found { IfSome result (IsAction (view value.now) number) }
    ensures none { IfNone result ((a : Action) → IsAction (view value.now) number a → ⊥) }
{
    let text = value.as_str()?;
    if text == "SCMP_ACT_ERRNO" {
        return Some(Action::Own(SeccompAction::Errno(number.unwrap_or(1))));
    }
    if text == "SCMP_ACT_TRACE" {
        return Some(Action::Own(SeccompAction::Trace(number.unwrap_or(1))));
    }
    read_plain_action(text, number)
}

/// The operator that a JSON value is, or `None` if it is none.
pub fn read_operator(value: &Value) -> Option<Operator>
    ensures found { IfSome result (IsOperator (view value.now)) }
    ensures none { IfNone result ((o : Operator) → IsOperator (view value.now) o → ⊥) }
{
    match value.as_str()? {
        "SCMP_CMP_NE" => Some(Operator::Ne),
        "SCMP_CMP_LT" => Some(Operator::Lt),
        "SCMP_CMP_LE" => Some(Operator::Le),
        "SCMP_CMP_EQ" => Some(Operator::Eq),
        "SCMP_CMP_GE" => Some(Operator::Ge),
        "SCMP_CMP_GT" => Some(Operator::Gt),
        "SCMP_CMP_MASKED_EQ" => Some(Operator::MaskedEq),
        _ => None,
    }
}

// The index of an argument, from 0 to 5.
fn read_index(value: &Value) -> Option<u8>
    ensures found { IfSome result (IsWhole 5 (view value.now)) }
    ensures none { IfNone result ((n : ℕ) → IsWhole 5 (view value.now) n → ⊥) }
{
    u8::try_from(whole_of(5, value)?).ok()
}

/// The condition on an argument that a JSON value is, or `None` if it is none.
///
/// It is an object of `index`, from 0 to 5, `value`, `op` and, if it likes, `valueTwo`, and has no other
/// name. Both numbers are whole ones of 64 bits. It takes no memory.
pub(crate) fn read_argument(value: &Value) -> Option<Argument>
    ensures found { IfSome result (IsArgument (view value.now)) }
    ensures none { IfNone result ((a : Argument) → IsArgument (view value.now) a → ⊥) }
{
    if !is_object_of(value, &["index", "value", "valueTwo", "op"]) {
        return None;
    }
    let index = read_index(value.get("index")?)?;
    let operator = read_operator(value.get("op")?)?;
    let value_two = whole_or(0, u64::MAX, value.get("valueTwo"))?;
    let value = whole_of(u64::MAX, value.get("value")?)?;
    Some(Argument {
        index,
        value,
        value_two,
        operator,
    })
}

/// The flag that a JSON value is, or `None` if it is none of those that leave decisions as they are.
///
/// It takes no memory.
pub fn read_flag(value: &Value) -> Option<Flag>
    ensures found { IfSome result (IsFlag (view value.now)) }
    ensures none { IfNone result ((f : Flag) → IsFlag (view value.now) f → ⊥) }
{
    match value.as_str()? {
        "SECCOMP_FILTER_FLAG_TSYNC" => Some(Flag::Tsync),
        "SECCOMP_FILTER_FLAG_LOG" => Some(Flag::Log),
        "SECCOMP_FILTER_FLAG_SPEC_ALLOW" => Some(Flag::SpecAllow),
        "SECCOMP_FILTER_FLAG_WAIT_KILLABLE_RECV" => Some(Flag::WaitKillableRecv),
        _ => None,
    }
}
