// The code of a rule that a caller asks for by its conditions.

ghost use Rattle.std.specs.Prelude.{◌≡◌, map, IfOk, IfErr};
ghost use Rattle.seccompiler_c.specs.Arrays.{condition_of};
ghost use Rattle.seccompiler_c.specs.RuleCode.{AreOfRule, AreOfNoRule};

use crate::arrays::{rule_of, seccompiler_condition};
use crate::arrays_fault::ArraysFault;
use crate::demands::{have_arguments, have_lengths, have_operators};
use seccompiler::SeccompRule;
use std::alloc::Global;

// The rule of these conditions, if they are those of one.
pub(crate) fn rule_in(
    alloc: Global,
    conditions: &[seccompiler_condition],
) -> Result<SeccompRule, ArraysFault>
    ensures rule { IfOk result (λ rule. AreOfRule conditions.now × (rule ≡ map condition_of conditions.now)) }
    ensures refused { IfErr result (AreOfNoRule conditions.now) }
{
    if !have_arguments(conditions) {
        return Err(ArraysFault::Argument);
    }
    if !have_lengths(conditions) {
        return Err(ArraysFault::Length);
    }
    if !have_operators(conditions) {
        return Err(ArraysFault::Operator);
    }
    if conditions.is_empty() {
        return Err(ArraysFault::EmptyRule);
    }
    match rule_of(alloc, conditions) {
        Ok(rule) => Ok(rule),
        Err(_) => Err(ArraysFault::OutOfMemory),
    }
}
