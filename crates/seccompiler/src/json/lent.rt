// JSON filters as a value has them: the names of their calls are the value's own. In a contract they are those
// that they stand for.

ghost use Rattle.std.specs.Prelude.{◌≡◌, IfOk};

use crate::backend::SeccompAction;
use crate::json::types::{JsonCondition, JsonFilter, JsonRule};
use std::alloc::{AllocError, Global};
use std::marker::Model;

/// An entry, as [`JsonRule`].
#[derive(Drop)]
pub struct LentRule<'v> {
    pub syscall: &'v str,
    pub conditions: Option<Vec<JsonCondition>>,
}

impl<'v> Model for LentRule<'v> {
    ghost use Rattle.std.specs.Prelude.{option_map};
    ghost use Rattle.seccompiler.specs.JsonTypes.{JsonRule};

    ghost Value = { JsonRule };

    ghost view = { λ entry. record { syscall = entry.syscall.now; conditions = option_map (λ all. all.items) entry.conditions } };
}

/// A filter, as [`JsonFilter`].
#[derive(Drop)]
pub struct LentFilter<'v> {
    pub mismatch_action: SeccompAction,
    pub match_action: SeccompAction,
    pub rules: Vec<LentRule<'v>>,
}

impl<'v> Model for LentFilter<'v> {
    ghost use Rattle.seccompiler.specs.JsonTypes.{JsonFilter};

    ghost Value = { JsonFilter };

    ghost view = { λ f. record { mismatch_action = f.mismatch_action; match_action = f.match_action; rules = f.rules.items } };
}

/// The same filter, with names of its own.
pub fn owned(alloc: Global, filter: LentFilter<'_>) -> Result<JsonFilter, AllocError>
    ensures { IfOk result (λ f. f ≡ filter.entry) }
{
    let Ok(mut rules) = Vec::with_capacity(alloc, filter.rules.len()) else {
        return Err(AllocError);
    };
    for rule in filter.rules {
        let Ok(syscall) = String::from_str(alloc, rule.syscall) else {
            return Err(AllocError);
        };
        rules.push_reserved(JsonRule {
            syscall,
            conditions: rule.conditions,
        });
    }
    Ok(JsonFilter {
        mismatch_action: filter.mismatch_action,
        match_action: filter.match_action,
        rules,
    })
}

/// The same filter, with names that it lends.
pub fn lent(alloc: Global, filter: &JsonFilter) -> Result<LentFilter<'_>, AllocError>
    ensures { IfOk result (λ f. f ≡ filter.now) }
{
    let Ok(mut rules) = Vec::with_capacity(alloc, filter.rules.len()) else {
        return Err(AllocError);
    };
    for rule in &filter.rules {
        let Ok(conditions) = rule.conditions.clone() else {
            return Err(AllocError);
        };
        rules.push_reserved(LentRule {
            syscall: rule.syscall.as_str(),
            conditions,
        });
    }
    Ok(LentFilter {
        mismatch_action: filter.mismatch_action,
        match_action: filter.match_action,
        rules,
    })
}
