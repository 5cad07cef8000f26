// The filters of a JSON value. docs/JSON.md has the format.

ghost use Rattle.std.specs.Prelude.{◌≡◌, IfOk, IfErr, MatchResult, string_cmp};
ghost use Rattle.std.specs.List.Sorted.{IsStrictlySortedBy};
ghost use Rattle.std.specs.Map.{keys_of};
ghost use Rattle.serde_json.specs.Data.{Data};
ghost use Rattle.serde_json.specs.View.{view};
ghost use Rattle.seccompiler.specs.JsonFilters.{AreFound, IsReadBack, under};
ghost use Rattle.seccompiler.specs.JsonSteps.{AreFilters, IsShapeRefusal};
ghost use Rattle.seccompiler.specs.JsonShape.{IsFilter};
ghost use Rattle.seccompiler.specs.JsonTypes.{JsonFilter};

use crate::json::error::JsonFrontendError;
use crate::json::lent::{LentFilter, owned};
use crate::json::parts::read_filter;
use crate::json::types::JsonFilterMap;
use serde_json::Value;
use std::alloc::Global;

/// Reads a JSON value as filters under their names.
///
/// The value has to be an object. Each of its names is a filter's name, whichever text it is, and
/// each of its values a filter. On `Ok` the map has exactly these names, each with its filter.
///
/// # Errors
///
/// - `NotAnObject` if the value is no object.
/// - `Shape` with the least name, in byte order, whose value is no filter.
/// - `OutOfMemory` if memory runs out, in place of any answer.
///
/// # Examples
///
/// ```text
/// let value = Value::from_str(alloc, text)?;
/// let filters = read_filters(alloc, &value)?;
/// let main_thread = filters.0.get("main_thread");
/// ```
pub fn read_filters(alloc: Global, value: &Value) -> Result<JsonFilterMap, JsonFrontendError>
    ensures filters { IfOk result (AreFilters (view value.now)) }
    ensures read_back { IfOk result (λ filters. (d : Data) → AreFilters d filters → IsReadBack IsFilter filters.0 d) }
    ensures refusal { IfErr result (IsShapeRefusal (view value.now)) }

    // A value is at most one filter.
    ensures one_filter { (d : Data) (f g : JsonFilter) → IsFilter d f → IsFilter d g → f ≡ g }
{
    let filters = lent_filters(alloc, value)?;
    let Ok(mut found) = Vec::with_capacity(alloc, filters.len()) else {
        return Err(JsonFrontendError::OutOfMemory);
    };
    for (name, filter) in filters {
        let Ok(filter) = owned(alloc, filter) else {
            return Err(JsonFrontendError::OutOfMemory);
        };
        found.push_reserved((name, filter));
    }
    match found.into_iter().collect(alloc) {
        Ok(filters) => Ok(JsonFilterMap(filters)),
        Err(_) => Err(JsonFrontendError::OutOfMemory),
    }
}

/// The same, in the order of their names, with the names of calls that the value has.
pub fn lent_filters(
    alloc: Global,
    value: &Value,
) -> Result<Vec<(String, LentFilter<'_>)>, JsonFrontendError>
    ensures { MatchResult result
        (λ filters. IsStrictlySortedBy string_cmp (keys_of filters.items) × AreFound IsFilter (under filters.items) (view value.now))
        (IsShapeRefusal (view value.now)) }
{
    let Value::Object(members) = value else {
        return Err(JsonFrontendError::NotAnObject);
    };
    let Ok(mut found) = Vec::with_capacity(alloc, members.len()) else {
        return Err(JsonFrontendError::OutOfMemory);
    };
    for (key, member) in members.iter() {
        let Ok(name) = key.clone() else {
            return Err(JsonFrontendError::OutOfMemory);
        };
        match read_filter(alloc, member) {
            Ok(Some(filter)) => found.push_reserved((name, filter)),
            Ok(None) => return Err(JsonFrontendError::Shape(name)),
            Err(_) => return Err(JsonFrontendError::OutOfMemory),
        }
    }
    Ok(found)
}
