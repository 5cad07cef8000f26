// What the table of a form says of an object: what is wrong with it, or is to be looked at inside.

ghost use Rattle.std.specs.Prelude.{◌≡◌, Contains, IsTrue, IfOk, IfSome, Some, option_map};
ghost use Rattle.serde_json.specs.Data.{Data};
ghost use Rattle.serde_json.specs.Find.{get};
ghost use Rattle.serde_json.specs.View.{view};
ghost use Rattle.seccompiler.specs.JsonShape.{IsObject, IsOneAction};
ghost use Rattle.seccompiler.specs.declared.backend.TargetArch.{TargetArch};
ghost use Rattle.seccomp_faults.specs.declared.table.Form.{Form};
ghost use Rattle.seccomp_faults.specs.Faults.{IsGiven, IsPart, NamesNone};
ghost use Rattle.seccomp_faults.specs.Table.{IsUnder, actions_differ, has_key, must, names, none_beside, not_both, one_of, row_of, rows_of};

use crate::fault::Problem;
use crate::form::missed;
use crate::table::{Form, Rule, is_closed, member_of, rules_of};
use seccomp_text::steps::Step;
use seccompiler::json::read_action;
use seccompiler::{SeccompAction, TargetArch};
use serde_json::Value;
use std::alloc::{AllocError, Global};

/// A part of what is looked at.
#[derive(Drop)]
pub(crate) enum Part<'v> {
    /// This is wrong with the value itself.
    Broken(Problem),
    /// The step leads to this value inside, which has to be of this form.
    Inner(Step, Form, &'v Value),
}

// Whether the rule is about this key.
fn gives(rule: Rule, key: &str) -> bool
    ensures { result ≡ names key.now (row_of rule) }
{
    match rule {
        Rule::May(own, _) | Rule::Must(own, _) => own == key,
        Rule::OneOf(own, other, _) => own == key || other == key,
        Rule::ActionsDiffer | Rule::NoneBeside(_, _) | Rule::NotBoth(_, _) => false,
    }
}

// Whether an object of this form may have the key.
fn is_key(form: Form, key: &str) -> bool
    ensures { result ≡ has_key form key.now }
{
    for rule in rules_of(form) {
        if gives(*rule, key) {
            return true;
        }
    }
    false
}

// The value under a key, to be looked at; none, if it is as it has to be and nothing is inside.
fn under<'v>(
    alloc: Global,
    target: TargetArch,
    key: &str,
    form: Form,
    value: &'v Value,
) -> Result<Option<Part<'v>>, AllocError>
    ensures { (outer : Form) (d : Data) → IsUnder outer key.now form → get key.now d ≡ Some (view value.now)
        → IfOk result (λ part. IfSome part (IsPart target outer d)) }
{
    let is_scalar = !matches!(value, Value::Object(_) | Value::Array(_));
    if is_scalar && missed(target, form, value).is_none() {
        return Ok(None);
    }
    let key = String::from_str(alloc, key)?;
    Ok(Some(Part::Inner(Step::Key(key), form, value)))
}

// What is under one of two keys; or that nothing is, or something under both.
fn under_one_of<'v>(
    alloc: Global,
    target: TargetArch,
    key: &'static str,
    other: &'static str,
    form: Form,
    value: &'v Value,
) -> Result<Option<Part<'v>>, AllocError>
    ensures { (outer : Form) → Contains (rows_of outer) (one_of key.now other.now form) → IsObject (view value.now)
        → IfOk result (λ part. IfSome part (IsPart target outer (view value.now))) }
{
    match (value.get(key), value.get(other)) {
        (Some(_), Some(_)) => Ok(Some(Part::Broken(Problem::Both(key, other)))),
        (None, None) => Ok(Some(Part::Broken(Problem::Neither(key, other)))),
        (Some(inner), None) => under(alloc, target, key, form, inner),
        (None, Some(inner)) => under(alloc, target, other, form, inner),
    }
}

// The action under the one of two keys that is there.
fn one_action(first: Option<&Value>, second: Option<&Value>) -> Option<SeccompAction>
    ensures found { IfSome result (IsOneAction (option_map (λ v. view v.now) first.entry) (option_map (λ v. view v.now) second.entry)) }
{
    match (first, second) {
        (Some(value), None) | (None, Some(value)) => read_action(value),
        _ => None,
    }
}

// That the filter's two actions are the same, if they are.
fn same_actions<'v>(value: &'v Value) -> Option<Part<'v>>
    ensures { (target : TargetArch) (outer : Form) → Contains (rows_of outer) actions_differ → IfSome result (IsPart target outer (view value.now)) }
{
    let mismatch = one_action(value.get("mismatch_action"), value.get("default_action"));
    let matching = one_action(value.get("match_action"), value.get("filter_action"));
    match (mismatch, matching) {
        (Some(mismatch), Some(matching)) if mismatch == matching => {
            Some(Part::Broken(Problem::SameActions))
        }
        _ => None,
    }
}

// Whether under a key is a text that names no action with a number.
fn takes_none(value: Option<&Value>) -> bool
    ensures { IsTrue result → NamesNone (option_map (λ v. view v.now) value.entry) }
{
    match value {
        Some(Value::String(text)) => text.as_str() != "SCMP_ACT_ERRNO"
            && text.as_str() != "SCMP_ACT_TRACE",
        _ => false,
    }
}

// Whether something stands there that isn't null and no empty text.
fn is_given(value: Option<&Value>) -> bool
    ensures { IsTrue result → IsGiven (option_map (λ v. view v.now) value.entry) }
{
    match value {
        None | Some(Value::Null) => false,
        Some(Value::String(text)) => !text.is_empty(),
        Some(_) => true,
    }
}

// That something stands beside an action that takes no number, if so.
fn beside<'v>(action: &str, key: &'static str, value: &'v Value) -> Option<Part<'v>>
    ensures { (target : TargetArch) (outer : Form) → Contains (rows_of outer) (none_beside action.now key.now)
        → IfSome result (IsPart target outer (view value.now)) }
{
    if !takes_none(value.get(action)) || !is_given(value.get(key)) {
        return None;
    }
    Some(Part::Broken(Problem::Beside(key)))
}

// That a list that isn't empty stands beside a text that isn't, if so.
fn list_and_text<'v>(key: &'static str, other: &'static str, value: &'v Value) -> Option<Part<'v>>
    ensures { (target : TargetArch) (outer : Form) → Contains (rows_of outer) (not_both key.now other.now)
        → IfSome result (IsPart target outer (view value.now)) }
{
    let (Some(list), Some(name)) = (value.get(key), value.get(other)) else {
        return None;
    };
    let is_list = matches!(list, Value::Array(items) if !items.is_empty());
    let is_named = matches!(name, Value::String(text) if !text.is_empty());
    if !is_list || !is_named {
        return None;
    }
    Some(Part::Broken(Problem::Both(key, other)))
}

/// What a rule says of an object.
pub(crate) fn by_rule<'v>(
    alloc: Global,
    target: TargetArch,
    rule: Rule,
    value: &'v Value,
) -> Result<Option<Part<'v>>, AllocError>
    ensures { (outer : Form) → Contains (rows_of outer) (row_of rule) → IsObject (view value.now)
        → IfOk result (λ part. IfSome part (IsPart target outer (view value.now))) }
{
    match rule {
        Rule::May(key, form) => match value.get(key) {
            Some(inner) => under(alloc, target, key, form, inner),
            None => Ok(None),
        },
        Rule::Must(key, form) => match value.get(key) {
            Some(inner) => under(alloc, target, key, form, inner),
            None => Ok(Some(Part::Broken(Problem::Missing(key)))),
        },
        Rule::OneOf(key, other, form) => under_one_of(alloc, target, key, other, form, value),
        Rule::ActionsDiffer => Ok(same_actions(value)),
        Rule::NoneBeside(action, key) => Ok(beside(action, key, value)),
        Rule::NotBoth(key, other) => Ok(list_and_text(key, other, value)),
    }
}

/// What a member of an object is: to be looked at, as each of a policy; or wrong, as a key that none of this form has.
pub(crate) fn by_key<'v>(
    alloc: Global,
    target: TargetArch,
    form: Form,
    key: &str,
    value: &'v Value,
) -> Result<Option<Part<'v>>, AllocError>
    ensures { (d : Data) → get key.now d ≡ Some (view value.now) → IfOk result (λ part. IfSome part (IsPart target form d)) }
{
    if let Some(inner) = member_of(form) {
        return under(alloc, target, key, inner, value);
    }
    if !is_closed(form) || is_key(form, key) {
        return Ok(None);
    }
    let key = String::from_str(alloc, key)?;
    Ok(Some(Part::Broken(Problem::Strange(key))))
}
