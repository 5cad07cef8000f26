// What is to be told of a value itself, and what is to be looked at inside it.

ghost use Rattle.std.specs.Prelude.{◌≡◌, All, IfOk, IfSome, OnOk, Some};
ghost use Rattle.serde_json.specs.Data.{Data, array, object, string};
ghost use Rattle.serde_json.specs.View.{view, items_view, members_view};
ghost use Rattle.seccompiler.specs.JsonShape.{IsObject};
ghost use Rattle.seccompiler.specs.declared.backend.TargetArch.{TargetArch};
ghost use Rattle.seccomp_faults.specs.declared.table.Form.{Form};
ghost use Rattle.seccomp_faults.specs.Faults.{IsPart};
ghost use Rattle.seccomp_faults.specs.Forms.{IsCallOf, Misses};
ghost use Rattle.seccomp_faults.specs.Table as spec;

use crate::fault::Problem;
use crate::form::{missed, shown};
use crate::near::near_name;
use crate::part::{Part, by_key, by_rule};
use crate::table::{Form, is_object, item_of, rules_of};
use seccomp_text::steps::Step;
use seccompiler::TargetArch;
use serde_json::Value;
use serde_json::value::Map;
use std::alloc::{AllocError, Global};

// Adds a part, if there is one.
fn add<'v>(parts: &mut Vec<Part<'v>>, part: Option<Part<'v>>) -> Result<(), AllocError>
    ensures { (target : TargetArch) (form : Form) (d : Data) → IfSome part.entry (IsPart target form d) → All (IsPart target form d) parts.old.items
        → OnOk result (All (IsPart target form d) parts.new.items) }
{
    match part {
        Some(part) => Ok(parts.push(part)?),
        None => Ok(()),
    }
}

// Adds what is told of the members of an object.
fn add_members<'v>(
    parts: &mut Vec<Part<'v>>,
    alloc: Global,
    target: TargetArch,
    form: Form,
    members: &'v Map<String, Value>,
) -> Result<(), AllocError>
    ensures { let d = object (members_view members.now.entries) in All (IsPart target form d) parts.old.items
        → OnOk result (All (IsPart target form d) parts.new.items) }
{
    for (key, inner) in members.iter() {
        add(parts, by_key(alloc, target, form, key.as_str(), inner)?)?;
    }
    Ok(())
}

// Adds what the rules of the form say of an object.
fn add_rules<'v>(
    parts: &mut Vec<Part<'v>>,
    alloc: Global,
    target: TargetArch,
    form: Form,
    value: &'v Value,
) -> Result<(), AllocError>
    ensures { IsObject (view value.now) → All (IsPart target form (view value.now)) parts.old.items
        → OnOk result (All (IsPart target form (view value.now)) parts.new.items) }
{
    for rule in rules_of(form) {
        add(parts, by_rule(alloc, target, *rule, value)?)?;
    }
    Ok(())
}

// Adds what is to be told of an object and looked at in it. An action or an operator is an object of one key.
fn add_object<'v>(
    parts: &mut Vec<Part<'v>>,
    alloc: Global,
    target: TargetArch,
    form: Form,
    value: &'v Value,
) -> Result<(), AllocError>
    ensures { All (IsPart target form (view value.now)) parts.old.items
        → OnOk result (All (IsPart target form (view value.now)) parts.new.items) }
{
    match value {
        Value::Object(members) if is_object(form) || members.len() == 1 => {
            add_members(parts, alloc, target, form, members)?;
            add_rules(parts, alloc, target, form, value)
        }
        _ => Ok(()),
    }
}

// Adds the items of an array.
fn add_items<'v>(
    parts: &mut Vec<Part<'v>>,
    form: Form,
    items: &'v Vec<Value>,
) -> Result<(), AllocError>
    ensures { (target : TargetArch) (outer : Form) → spec.item_of outer ≡ Some form → let d = array (items_view items.now.items) in
        All (IsPart target outer d) parts.old.items → OnOk result (All (IsPart target outer d) parts.new.items) }
{
    for (place, item) in items.iter().enumerate() {
        add(parts, Some(Part::Inner(Step::Item(place), form, item)))?;
    }
    Ok(())
}

// Adds the items of a value, if it is an array and the form has some.
fn add_array<'v>(parts: &mut Vec<Part<'v>>, form: Form, value: &'v Value) -> Result<(), AllocError>
    ensures { (target : TargetArch) → All (IsPart target form (view value.now)) parts.old.items
        → OnOk result (All (IsPart target form (view value.now)) parts.new.items) }
{
    match (value, item_of(form)) {
        (Value::Array(items), Some(inner)) => add_items(parts, inner, items),
        _ => Ok(()),
    }
}

// That a value isn't of this form.
fn broken<'v>(
    alloc: Global,
    target: TargetArch,
    suggests: bool,
    missed: Form,
    value: &'v Value,
) -> Result<Option<Part<'v>>, AllocError>
    ensures { (form : Form) → Misses target form missed (view value.now) → IfOk result (λ part. IfSome part (IsPart target form (view value.now))) }
{
    let shown = shown(alloc, missed, value)?;
    match (missed, value) {
        (Form::Call, Value::String(name)) if suggests => {
            let near = near_name(alloc, target, name.as_str())?;
            Ok(Some(Part::Broken(Problem::UnknownCall(shown, target, near))))
        }
        (Form::Call, _) => Ok(Some(Part::Broken(Problem::UnknownCall(shown, target, None)))),
        _ => Ok(Some(Part::Broken(Problem::Stands(shown, missed)))),
    }
}

// Adds that a value isn't of the form, if it isn't and nothing else was found.
fn add_missed<'v>(
    parts: &mut Vec<Part<'v>>,
    alloc: Global,
    target: TargetArch,
    suggests: bool,
    form: Form,
    value: &'v Value,
) -> Result<(), AllocError>
    ensures { All (IsPart target form (view value.now)) parts.old.items → OnOk result (All (IsPart target form (view value.now)) parts.new.items) }
{
    if !parts.is_empty() {
        return Ok(());
    }
    match missed(target, form, value) {
        Some(missed) => add(parts, broken(alloc, target, suggests, missed, value)?),
        None => Ok(()),
    }
}

/// What is wrong with a value itself, which has to be of the form, and what is to be looked at inside it, in order.
pub(crate) fn level<'v>(
    alloc: Global,
    target: TargetArch,
    suggests: bool,
    form: Form,
    value: &'v Value,
) -> Result<Vec<Part<'v>>, AllocError>
    ensures { IfOk result (λ parts. All (IsPart target form (view value.now)) parts.items) }
{
    let mut parts = Vec::new(alloc);
    add_object(&mut parts, alloc, target, form, value)?;
    add_array(&mut parts, form, value)?;
    add_missed(&mut parts, alloc, target, suggests, form, value)?;
    Ok(parts)
}
