// Policies that are written as text, and read back.

ghost use Rattle.std.specs.Prelude.{◌≡◌, IfErr, IfOk, IfSome};
ghost use Rattle.seccompiler.specs.JsonSteps.{IsBeforePolicies, IsNoFailedRead};
ghost use Rattle.seccomp_learn.specs.Written.{HasFilters, beside, found_in};

use crate::text::policy_text;
use seccompiler::json::filters_of;
use seccompiler::{JsonFilter, JsonFilterMap, JsonFrontendError};
use std::alloc::Global;

/// The text of a policy that has this filter under this name, and the others under theirs, in the format of `docs/JSON.md`. The text
/// is read back, and given only if it has exactly these filters.
///
/// # Errors
///
/// What [`filters_of`] rejects the text for, or `Shape` with the name if a filter isn't there; neither was ever seen.
/// `OutOfMemory` if memory runs out.
///
/// [`filters_of`]: seccompiler::json::filters_of
pub fn written_policy(
    alloc: Global,
    others: &JsonFilterMap,
    name: &str,
    filter: &JsonFilter,
) -> Result<Vec<u8>, JsonFrontendError>
    ensures written { IfOk result (λ text. HasFilters text.items (beside (found_in others.now) name.now filter.now)) }
    ensures refused { IfErr result (λ e. IsBeforePolicies e × IsNoFailedRead e) }
{
    let text = policy_text(alloc, others, name, filter)?;
    let mut read = filters_of(alloc, &text)?;
    match take_filter(&mut read, name) {
        Some(found) if found == *filter && read == *others => Ok(text),
        _ => Err(JsonFrontendError::Shape(String::from_str(alloc, name)?)),
    }
}

/// Takes the filter of this name out of a policy's filters, if there is one. The others stay.
pub fn take_filter(filters: &mut JsonFilterMap, name: &str) -> Option<JsonFilter>
    ensures there { result ≡ found_in filters.old name.now }
    ensures taken { IfSome result (λ filter. found_in filters.old ≡ beside (found_in filters.new) name.now filter) }
{
    filters.0.remove(name)
}
