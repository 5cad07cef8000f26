// From JSON values to the parts of a filter. A value that is no such part gives `None`.
//
// What each reader gives is what the value is, and where it gives nothing, the value is no such part.

ghost use Rattle.std.specs.Prelude.{List, Option, option_map, IfOk, IfSome, IfNone, MatchOption};
ghost use Rattle.serde_json.specs.View.{view};
ghost use Rattle.seccompiler.specs.JsonShape.{IsAction, IsOperator, IsArgLen, IsCondition, IsListOf, IsArgs, IsEntry, IsOneAction, IsFilter};
ghost use Rattle.seccompiler.specs.declared.backend.SeccompAction.{SeccompAction};
ghost use Rattle.seccompiler.specs.declared.backend.SeccompCmpOp.{SeccompCmpOp};
ghost use Rattle.seccompiler.specs.declared.backend.SeccompCmpArgLen.{SeccompCmpArgLen};
ghost use Rattle.seccompiler.specs.declared.json.types.JsonCondition.{JsonCondition};
ghost use Rattle.seccompiler.specs.JsonTypes.{JsonRule, JsonFilter};

use crate::backend::{SeccompAction, SeccompCmpArgLen, SeccompCmpOp};
use crate::json::lent::{LentFilter, LentRule};
use crate::json::members::{is_comment, members_under, number_alone, whole_number};
use crate::json::types::JsonCondition;
use serde_json::Value;
use std::alloc::{AllocError, Global};

// The greatest number of an action, and of an argument's index.
const GREATEST_DATA: u64 = 0xffff_ffff;

const GREATEST_INDEX: u64 = 0xff;

/// The action that a JSON value is, or `None` if it is none.
///
/// An action is one of the texts `"allow"`, `"kill_thread"`, `"kill_process"`, `"log"` and `"trap"`, or
/// an object of the one name `errno` or `trace`, whose value is a whole number up to 4294967295.
/// Nothing else is one. It takes no memory.
///
/// # Examples
///
/// ```
/// let value = Value::from_str(alloc, r#"{"errno": 1}"#)?;
/// assert!(rt; read_action(&value) == Some(SeccompAction::Errno(1)));
/// let value = Value::from_str(alloc, r#""errno""#)?;
/// assert!(rt; read_action(&value).is_none());
/// ```
pub fn read_action(value: &Value) -> Option<SeccompAction>
    ensures found { IfSome result (IsAction (view value.now)) }
    ensures none { IfNone result ((a : SeccompAction) → IsAction (view value.now) a → ⊥) }
{
    let Value::String(text) = value else {
        if let Some(number) = number_alone(value, "errno", GREATEST_DATA) {
            return Some(SeccompAction::Errno(number as u32));
        }
        if let Some(number) = number_alone(value, "trace", GREATEST_DATA) {
            return Some(SeccompAction::Trace(number as u32));
        }
        return None;
    };
    match text.as_str() {
        "allow" => Some(SeccompAction::Allow),
        "kill_thread" => Some(SeccompAction::KillThread),
        "kill_process" => Some(SeccompAction::KillProcess),
        "log" => Some(SeccompAction::Log),
        "trap" => Some(SeccompAction::Trap),
        _ => None,
    }
}

/// The length of an argument that a JSON value is, or `None` if it is none.
///
/// A length is one of the texts `"dword"` and `"qword"`, and nothing else. It takes no memory.
pub fn read_arg_len(value: &Value) -> Option<SeccompCmpArgLen>
    ensures found { IfSome result (IsArgLen (view value.now)) }
    ensures none { IfNone result ((l : SeccompCmpArgLen) → IsArgLen (view value.now) l → ⊥) }
{
    let Value::String(text) = value else {
        return None;
    };
    match text.as_str() {
        "dword" => Some(SeccompCmpArgLen::Dword),
        "qword" => Some(SeccompCmpArgLen::Qword),
        _ => None,
    }
}

/// The operator that a JSON value is, or `None` if it is none.
///
/// An operator is one of the texts `"eq"`, `"ge"`, `"gt"`, `"le"`, `"lt"` and `"ne"`, or an object of
/// the one name `masked_eq`, whose value is a mask: a whole number up to 18446744073709551615. Nothing
/// else is one. It takes no memory.
///
/// # Examples
///
/// ```
/// let value = Value::from_str(alloc, r#"{"masked_eq": 255}"#)?;
/// assert!(rt; read_operator(&value) == Some(SeccompCmpOp::MaskedEq(255)));
/// let value = Value::from_str(alloc, r#""masked_eq""#)?;
/// assert!(rt; read_operator(&value).is_none());
/// ```
pub fn read_operator(value: &Value) -> Option<SeccompCmpOp>
    ensures found { IfSome result (IsOperator (view value.now)) }
    ensures none { IfNone result ((op : SeccompCmpOp) → IsOperator (view value.now) op → ⊥) }
{
    let Value::String(text) = value else {
        let Some(mask) = number_alone(value, "masked_eq", u64::MAX) else {
            return None;
        };
        return Some(SeccompCmpOp::MaskedEq(mask));
    };
    match text.as_str() {
        "eq" => Some(SeccompCmpOp::Eq),
        "ge" => Some(SeccompCmpOp::Ge),
        "gt" => Some(SeccompCmpOp::Gt),
        "le" => Some(SeccompCmpOp::Le),
        "lt" => Some(SeccompCmpOp::Lt),
        "ne" => Some(SeccompCmpOp::Ne),
        _ => None,
    }
}

fn read_condition(value: &Value) -> Option<JsonCondition>
    ensures { MatchOption result ((c : JsonCondition) → IsCondition (view value.now) c → ⊥) (IsCondition (view value.now)) }
{
    let names = ("index", "type", "op", "val", "comment");
    let Some((index, arg_len, operator, value, comment)) = members_under(value, names, 5) else {
        return None;
    };
    if !is_comment(comment) {
        return None;
    }
    let Some(arg_index) = whole_number(index, GREATEST_INDEX) else {
        return None;
    };
    let Some(arg_len) = arg_len else {
        return None;
    };
    let Some(arg_len) = read_arg_len(arg_len) else {
        return None;
    };
    let Some(operator) = operator else {
        return None;
    };
    let Some(operator) = read_operator(operator) else {
        return None;
    };
    let Some(value) = whole_number(value, u64::MAX) else {
        return None;
    };
    Some(JsonCondition {
        arg_index: arg_index as u8,
        arg_len,
        operator,
        value,
    })
}

// What stands under `args`: no conditions where it is absent or null.
fn read_args(
    alloc: Global,
    args: Option<&Value>,
) -> Result<Option<Option<Vec<JsonCondition>>>, AllocError>
    ensures { IfOk result (λ o. MatchOption o
        ((c : Option (List JsonCondition)) → IsArgs (option_map (λ v. view v.now) args.entry) c → ⊥)
        (λ c. IsArgs (option_map (λ v. view v.now) args.entry) (option_map (λ v. v.items) c))) }
{
    let Some(value) = args else {
        return Ok(Some(None));
    };
    let items = match value {
        Value::Array(items) => items,
        Value::Null => return Ok(Some(None)),
        _ => return Ok(None),
    };
    let Ok(mut found) = Vec::with_capacity(alloc, items.len()) else {
        return Err(AllocError);
    };
    for item in items {
        match read_condition(item) {
            Some(condition) => found.push_reserved(condition),
            None => return Ok(None),
        }
    }
    Ok(Some(Some(found)))
}

fn read_entry(alloc: Global, value: &Value) -> Result<Option<LentRule<'_>>, AllocError>
    ensures { IfOk result (λ o. MatchOption o ((r : JsonRule) → IsEntry (view value.now) r → ⊥) (IsEntry (view value.now))) }
{
    // An entry has the first three.
    let names = ("syscall", "args", "comment", "op", "val");
    let Some((syscall, args, comment, _, _)) = members_under(value, names, 3) else {
        return Ok(None);
    };
    if !is_comment(comment) {
        return Ok(None);
    }
    let Some(syscall) = syscall else {
        return Ok(None);
    };
    let Value::String(syscall) = syscall else {
        return Ok(None);
    };
    match read_args(alloc, args) {
        Ok(Some(conditions)) => Ok(Some(LentRule {
            syscall: syscall.as_str(),
            conditions,
        })),
        Ok(None) => Ok(None),
        Err(error) => Err(error),
    }
}

fn read_rules(alloc: Global, value: &Value) -> Result<Option<Vec<LentRule<'_>>>, AllocError>
    ensures { IfOk result (λ o. MatchOption o
        ((all : List JsonRule) → IsListOf IsEntry (view value.now) all → ⊥)
        (λ all. IsListOf IsEntry (view value.now) all.items)) }
{
    let Value::Array(items) = value else {
        return Ok(None);
    };
    let Ok(mut found) = Vec::with_capacity(alloc, items.len()) else {
        return Err(AllocError);
    };
    for item in items {
        match read_entry(alloc, item) {
            Ok(Some(rule)) => found.push_reserved(rule),
            Ok(None) => return Ok(None),
            Err(error) => return Err(error),
        }
    }
    Ok(Some(found))
}

// The action under the one of two names that is there. Both together are a fault.
fn read_one_action(first: Option<&Value>, second: Option<&Value>) -> Option<SeccompAction>
    ensures { let IsOne : SeccompAction → Type 0 = IsOneAction (option_map (λ v. view v.now) first.entry)
        (option_map (λ v. view v.now) second.entry) in MatchOption result ((a : SeccompAction) → IsOne a → ⊥) IsOne }
{
    match (first, second) {
        (Some(value), None) | (None, Some(value)) => read_action(value),
        _ => None,
    }
}

/// The filter that the value is, or `None` if it is none; an error only if memory runs out.
pub fn read_filter(alloc: Global, value: &Value) -> Result<Option<LentFilter<'_>>, AllocError>
    ensures { IfOk result (λ o. MatchOption o ((f : JsonFilter) → IsFilter (view value.now) f → ⊥) (IsFilter (view value.now))) }
{
    let names = (
        "mismatch_action",
        "default_action",
        "match_action",
        "filter_action",
        "filter",
    );
    let Some((mismatch, default, matched, filter, rules)) = members_under(value, names, 5) else {
        return Ok(None);
    };
    let Some(rules) = rules else {
        return Ok(None);
    };
    let Some(mismatch_action) = read_one_action(mismatch, default) else {
        return Ok(None);
    };
    let Some(match_action) = read_one_action(matched, filter) else {
        return Ok(None);
    };
    match read_rules(alloc, rules) {
        Ok(Some(rules)) => Ok(Some(LentFilter {
            mismatch_action,
            match_action,
            rules,
        })),
        Ok(None) => Ok(None),
        Err(error) => Err(error),
    }
}
