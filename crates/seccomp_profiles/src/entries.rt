// From JSON values to entries of a profile.

ghost use Rattle.std.specs.Prelude.{ℕ, List, map, option_map, string_bytes, IfOk, IfSome, IfNone};
ghost use Rattle.serde_json.specs.View.{view};
ghost use Rattle.seccomp_profiles.specs.ProfileShape.{AreNames, AreCriteria, AreCriteriaOr, IsEntry};
ghost use Rattle.seccomp_profiles.specs.Types.{Criteria};

use crate::actions::action_under;
use crate::lists::{Part, parts_under, texts_under};
use crate::members::{has_no_items, is_absent, is_commented, is_object_of};
use crate::types::{Criteria, Entry};
use crate::version::kernel_under;
use serde_json::Value;
use std::alloc::{AllocError, Global};

// The names under `names`, or the one under `name`.
fn read_names(
    alloc: Global,
    names: Option<&Value>,
    name: Option<&Value>,
) -> Result<Option<Vec<String>>, AllocError>
    ensures found { IfOk result (λ o. IfSome o
        (λ all. AreNames (option_map (λ v. view v.now) names.entry) (option_map (λ v. view v.now) name.entry) (map string_bytes all.items))) }
    ensures none { IfOk result (λ o. IfNone o
        ((all : List (List ℕ)) → AreNames (option_map (λ v. view v.now) names.entry) (option_map (λ v. view v.now) name.entry) all → ⊥)) }
{
    match name {
        None | Some(Value::Null) => texts_under(alloc, names),
        Some(Value::String(text)) if text.is_empty() => texts_under(alloc, names),
        Some(Value::String(text)) => {
            if !has_no_items(names) {
                return Ok(None);
            }
            let text = String::from_str(alloc, text.as_str())?;
            Ok(Some(vec![in alloc; text]?))
        }
        Some(_) => Ok(None),
    }
}

fn read_criteria(alloc: Global, value: &Value) -> Result<Option<Criteria>, AllocError>
    ensures found { IfOk result (λ o. IfSome o (AreCriteria (view value.now))) }
    ensures none { IfOk result (λ o. IfNone o ((c : Criteria) → AreCriteria (view value.now) c → ⊥)) }
{
    if !is_object_of(value, &["caps", "arches", "minKernel"]) {
        return Ok(None);
    }
    let Some(caps) = texts_under(alloc, value.get("caps"))? else {
        return Ok(None);
    };
    let Some(arches) = texts_under(alloc, value.get("arches"))? else {
        return Ok(None);
    };
    let Some(min_kernel) = kernel_under(value.get("minKernel")) else {
        return Ok(None);
    };
    Ok(Some(Criteria {
        caps,
        arches,
        min_kernel,
    }))
}

// The criteria that stand there: empty ones where nothing stands there, or null.
fn criteria_under(alloc: Global, value: Option<&Value>) -> Result<Option<Criteria>, AllocError>
    ensures found { IfOk result (λ o. IfSome o (AreCriteriaOr (option_map (λ v. view v.now) value.entry))) }
    ensures none { IfOk result (λ o. IfNone o
        ((c : Criteria) → AreCriteriaOr (option_map (λ v. view v.now) value.entry) c → ⊥)) }
{
    if is_absent(value) {
        return Ok(Some(Criteria {
            caps: Vec::new(alloc),
            arches: Vec::new(alloc),
            min_kernel: None,
        }));
    }
    match value {
        Some(value) => read_criteria(alloc, value),
        None => Ok(None),
    }
}

impl Part for Entry {
    ghost is = { IsEntry };

    fn read(alloc: Global, value: &Value) -> Result<Option<Entry>, AllocError> {
        let names = [
            "names", "name", "action", "errnoRet", "errno", "args", "includes", "excludes",
            "comment",
        ];
        if !is_object_of(value, &names) || !is_commented(value) {
            return Ok(None);
        }
        let Some(action) = action_under(value, "action", "errnoRet", "errno") else {
            return Ok(None);
        };
        let Some(names) = read_names(alloc, value.get("names"), value.get("name"))? else {
            return Ok(None);
        };
        let Some(args) = parts_under(alloc, value.get("args"))? else {
            return Ok(None);
        };
        let Some(includes) = criteria_under(alloc, value.get("includes"))? else {
            return Ok(None);
        };
        let Some(excludes) = criteria_under(alloc, value.get("excludes"))? else {
            return Ok(None);
        };
        Ok(Some(Entry {
            names,
            action,
            args,
            includes,
            excludes,
        }))
    }
}
