// The conditions that hold where a call is as it was observed.

ghost use Rattle.std.specs.Prelude.{◌≡◌, ◌↔◌, ℕ, List, All, IfOk, IfSome, IfNone, option_map};
ghost use Rattle.seccompiler.specs.JsonEntries.{ConditionsHold};
ghost use Rattle.seccompiler.specs.JsonPolicyOf.{condition_of};
ghost use Rattle.seccompiler.specs.Policy.{Holds};
ghost use Rattle.seccomp_learn.specs.Observed.{HasSeenValue};

use crate::observation::{Kept, Observation, seen_part};
use seccompiler::{JsonCondition, SeccompCmpOp};
use std::alloc::{AllocError, Global};

// The conditions on the arguments that are kept and known; no list of them where there are none.
pub(crate) fn conditions_of(
    alloc: Global,
    kept: &[Kept],
    observation: &Observation,
) -> Result<Option<Vec<JsonCondition>>, AllocError>
    ensures { IfOk result (λ conditions. (r : List ℕ) → ConditionsHold r (option_map (λ all. all.items) conditions) ↔ All (HasSeenValue r observation.now) kept.now) }
{
    let mut conditions = Vec::new(alloc);
    for each in kept {
        match condition_of(each, observation) {
            Some(condition) => conditions.push(condition)?,
            None => {}
        }
    }
    if conditions.is_empty() {
        return Ok(None);
    }
    Ok(Some(conditions))
}

// The condition on an argument that is kept, where it is one of the call and its value is known.
fn condition_of(kept: &Kept, observation: &Observation) -> Option<JsonCondition>
    ensures some { IfSome result (λ condition. (r : List ℕ) → Holds (condition_of condition) r ↔ HasSeenValue r observation.now kept.now) }
    ensures none { IfNone result ((r : List ℕ) → HasSeenValue r observation.now kept.now) }
{
    if kept.number != observation.number {
        return None;
    }
    let value = seen_part(kept, observation)?;
    Some(JsonCondition {
        arg_index: kept.arg_index,
        arg_len: kept.arg_len,
        operator: SeccompCmpOp::Eq,
        value,
    })
}
