// Comparisons of two programs.

ghost use Rattle.std.specs.Prelude.{◌≡◌, ◌↔◌, ℕ, List, IsTrue, IfOk, IfErr, IfSome, IfNone, MatchOption};
ghost use Rattle.seccomp_compare.specs.Compare.{IsCallOf, AnswersRelated, AnswersUnrelated};
ghost use Rattle.seccompiler_c.specs.Comparisons.{relation_number, IsNoRelation, IsAsked, AreNoCalls, OfRelation, IsUncompared};

use crate::arguments::architecture_of;
use crate::code::Code;
use crate::codes::{SECCOMPILER_ALIKE, SECCOMPILER_ALL_CALLS, SECCOMPILER_AT_MOST_AS_PERMISSIVE};
use seccomp_compare::machine::check;
use seccomp_compare::{Calls, Comparison, Relation, compare};
use seccompiler::sock_filter;
use std::alloc::Global;

/// The calls that are asked about.
#[derive(Clone, Copy)]
pub(crate) struct Asked {
    /// The architecture's `AUDIT_ARCH_*` value; or 0, for all calls.
    pub architecture: u32,
    /// The least number.
    pub least: u32,
    /// The greatest number.
    pub greatest: u32,
}

// The relation of a number.
fn relation_of(number: u32) -> Option<Relation>
    ensures found { IfSome result (λ relation. number ≡ relation_number relation) }
    ensures not_found { IfNone result (IsNoRelation number) }
{
    match number {
        SECCOMPILER_ALIKE => Some(Relation::Alike),
        SECCOMPILER_AT_MOST_AS_PERMISSIVE => Some(Relation::AtMostAsPermissive),
        _ => None,
    }
}

// The set of the calls that are asked about.
fn calls_of(asked: Asked) -> Option<Calls>
    ensures found { IfSome result (λ calls. (r : List ℕ) → (IsCallOf calls r ↔ IsAsked asked r)) }
    ensures some { IfSome result (λ calls. AreNoCalls asked → ⊥) }
    ensures not_found { IfNone result (AreNoCalls asked) }
{
    if asked.architecture == SECCOMPILER_ALL_CALLS {
        return Some(Calls::all());
    }
    match architecture_of(asked.architecture) {
        Some(target) => Some(Calls::of_numbers(target, asked.least, asked.greatest)),
        None => None,
    }
}

// Compares two programs: gives a record for which the relation doesn't hold, if there is one.
pub(crate) fn compare_programs(
    alloc: Global,
    program: &[sock_filter],
    other: &[sock_filter],
    relation: u32,
    asked: Asked,
    most: usize,
) -> Result<Option<[u8; 64]>, Code>
    ensures compared { IfOk result (λ answer. OfRelation (record { program = program.now; other = other.now; relation = relation; calls = asked }) (λ related. MatchOption answer ((r : List ℕ) → IsAsked asked r → AnswersRelated related program.now other.now r) (λ r. IsAsked asked r × AnswersUnrelated related program.now other.now r))) }
    ensures uncompared { IfErr result (IsUncompared (record { program = program.now; other = other.now; relation = relation; calls = asked })) }
{
    let Some(calls) = calls_of(asked) else {
        return Err(Code::UnknownArchitecture);
    };
    let Some(relation) = relation_of(relation) else {
        return Err(Code::UnknownRelation);
    };
    if !check(program) || !check(other) {
        return Err(Code::NotChecked);
    }
    match compare(alloc, program, other, &calls, relation, most) {
        Ok(Comparison::Holds) => Ok(None),
        Ok(Comparison::Fails(record)) => Ok(Some(record)),
        Ok(Comparison::Undecided) => Err(Code::Undecided),
        Err(_) => Err(Code::OutOfMemory),
    }
}
