// Programs that would be too long.

ghost use Rattle.std.specs.Prelude.{All, IfOk, IfSome};
ghost use Rattle.serde_json.specs.Data.{Data};
ghost use Rattle.serde_json.specs.View.{view};
ghost use Rattle.seccompiler.specs.JsonFilters.{IsReadBack};
ghost use Rattle.seccompiler.specs.JsonShape.{IsFilter};
ghost use Rattle.seccomp_faults.specs.declared.table.Form.TheVariants as form;
ghost use Rattle.seccomp_faults.specs.Faults.{IsBroken, IsFault};

use crate::fault::{Fault, Problem};
use crate::table::Form;
use seccomp_text::steps::Step;
use seccomp_tree::{FilterError, to_tree_bpf};
use seccompiler::json::{JsonCompiler, JsonFilter, JsonFilterMap, JsonFrontendError, read_filters};
use seccompiler::{BackendError, TargetArch};
use serde_json::Value;
use std::alloc::{AllocError, Global};

// That the filter's program is too long, if it is.
fn too_long(
    alloc: Global,
    target: TargetArch,
    filter: &JsonFilter,
) -> Result<Option<Problem>, AllocError>
    ensures { (d : Data) → IsFilter d filter.now → IfOk result (λ found. IfSome found (IsBroken target form.Filter d)) }
{
    match JsonCompiler::new(target).make_seccomp_filter(alloc, filter) {
        Ok(policy) => match policy.to_bpf(alloc) {
            Err(BackendError::FilterTooLarge(length)) => match to_tree_bpf(alloc, &policy) {
                Ok(tree) => Ok(Some(Problem::TooLong(length, Some(tree.len()), target))),
                Err(FilterError::TreeTooLarge) => {
                    Ok(Some(Problem::TooLong(length, None, target)))
                }
                Err(_) => Err(AllocError),
            },
            Err(BackendError::OutOfMemory) => Err(AllocError),
            _ => Ok(None),
        },
        Err(JsonFrontendError::OutOfMemory) => Err(AllocError),
        Err(_) => Ok(None),
    }
}

// The filters whose programs would be too long, in byte order of their names.
fn all_too_long(
    alloc: Global,
    target: TargetArch,
    filters: &JsonFilterMap,
) -> Result<Vec<Fault>, AllocError>
    ensures { (d : Data) → IsReadBack IsFilter filters.now.0 d → IfOk result (λ all. All (IsFault target form.Policy d) all.items) }
{
    let mut found = Vec::new(alloc);
    for (name, filter) in &filters.0 {
        if let Some(problem) = too_long(alloc, target, filter)? {
            let step = Step::Key(name.clone()?);
            found.push(Fault {
                path: vec![in alloc; step]?,
                form: Form::Filter,
                problem,
            })?;
        }
    }
    Ok(found)
}

/// The filters of a policy whose programs would be too long; none if some filter isn't made as it has to be.
pub(crate) fn lengths(
    alloc: Global,
    target: TargetArch,
    value: &Value,
) -> Result<Vec<Fault>, AllocError>
    ensures { IfOk result (λ all. All (IsFault target form.Policy (view value.now)) all.items) }
{
    match read_filters(alloc, value) {
        Ok(filters) => all_too_long(alloc, target, &filters),
        Err(JsonFrontendError::OutOfMemory) => Err(AllocError),
        _ => Ok(Vec::new(alloc)),
    }
}
