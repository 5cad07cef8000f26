// On which calls a new side rules otherwise than an old one, or permits more.

ghost use Rattle.std.specs.Prelude.{◌≡◌, IfErr, IfOk, IfSome, Some, option_map};
ghost use Rattle.std.specs.BTreeMap.{get_by_text};
ghost use Rattle.seccomp_answers.specs.Diff as spec;
ghost use Rattle.seccomp_answers.specs.Diff.{AreFoundUnder, IsByName, IsDiff, IsFoundOf, IsOfPair};
ghost use Rattle.seccomp_answers.specs.Causes.{AreUnfitting, IsOfEither, IsUndiffed, IsUnfittingFilter, IsUnfittingIn, IsUnfittingUnder, IsUnruled};

use crate::error::AnswerError;
use crate::findings::pieces::found_on;
use crate::findings::{Filters, Finding, Part, Progress, Terms, Verdict, findings_of, verdict_of};
use crate::kind::Subject;
use crate::policy::policies_in;
use crate::sides::{Ruled, Side, program_in, ruled_like};
use seccomp_tree::fitting_bpf;
use seccompiler::bpf::LOAD;
use seccompiler::{BpfProgramRef, SeccompFilter};
use std::alloc::Global;
use std::collections::BTreeMap;

/// What is found under a name.
#[derive(Drop)]
pub enum Found {
    /// The old policy alone has the name.
    OnlyOld,
    /// The new policy alone has the name.
    OnlyNew,
    /// What is found on parts of the calls: nothing on those on which the relation holds.
    Both(Vec<Finding>),
}

/// A name, and what is found under it.
#[derive(Drop)]
pub struct NamedFound {
    pub name: String,
    pub found: Found,
}

/// Which calls count for the verdict on a pair of sides.
#[derive(Clone, Copy)]
pub enum Scope {
    /// Those of the architecture: numbers with a name, and numbers without one.
    Named,
    /// Those of other architectures too.
    All,
}

/// What is found of a pair of sides, and the names of their programs.
#[derive(Drop)]
pub struct Pair {
    pub old_name: String,
    pub new_name: String,
    /// Whether one of the programs loads the instruction pointer, on which what it decides may depend then.
    pub loads_pointer: bool,
    /// What is found on the calls of the architecture, and on those of others: nothing on those on which the relation holds.
    pub own: Vec<Finding>,
    pub others: Vec<Finding>,
}

/// What a comparison of two sides finds.
#[derive(Drop)]
pub enum Diff {
    /// Of two policies, name by name: the old one's names in byte order, and then those that the new one alone has.
    ByName(Vec<NamedFound>),
    /// Of one thing on each side.
    OfPair(Pair),
}

/// Compares two sides: two policies name by name, if no filter is asked for; else what is asked for, or the only filter of a policy.
///
/// What is compared are programs, each of which is made once: that of a filter as a tree if that fits, else in the linear
/// layout; that of [`compile_profile`](seccomp_profiles::compile_profile), without the names that no call of the architecture
/// has; and those that are given. Of calls of other architectures a profile says nothing.
///
/// `progress` gets how many sets of records were looked at without an answer, part by part. If it shows them, a part is tried
/// with few sets first and with twice as many each time, up to `terms.most`. No answer depends on it.
///
/// # Errors
///
/// Those of [`ruled_like`](crate::sides::ruled_like), of the old side first; `Library` with `FilterTooLarge` of a filter that
/// both policies have and that is too large in both layouts.
pub fn diff_of(
    alloc: Global,
    terms: Terms,
    old: Side<'_>,
    new: Side<'_>,
    progress: &mut impl Progress,
) -> Result<Diff, AnswerError>
    ensures diff { IfOk result (IsDiff terms.target terms.relation old.entry new.entry) }
    ensures cause { IfErr result (IsUndiffed terms.target old.entry new.entry) }
{
    match (old.kind, old.filter, new.kind, new.filter) {
        (Subject::Policy, None, Subject::Policy, None) => {
            diff_policies(alloc, terms, old.given, new.given, progress)
        }
        _ => diff_pair(alloc, terms, old, new, progress),
    }
}

impl Diff {
    /// The verdict: on the architecture's calls, or on all.
    pub fn verdict(&self, scope: Scope) -> Verdict
        ensures { result ≡ spec.verdict_in scope self.now }
    {
        match self {
            Diff::ByName(all) => {
                let mut verdict = Verdict::Same;
                for named in all {
                    verdict = verdict.worse(match &named.found {
                        Found::Both(findings) => verdict_of(findings),
                        _ => Verdict::Different,
                    });
                }
                verdict
            }
            Diff::OfPair(pair) => {
                let own = verdict_of(&pair.own);
                match scope {
                    Scope::Named => own,
                    Scope::All => own.worse(verdict_of(&pair.others)),
                }
            }
        }
    }
}

fn diff_pair(
    alloc: Global,
    terms: Terms,
    old: Side<'_>,
    new: Side<'_>,
    progress: &mut impl Progress,
) -> Result<Diff, AnswerError>
    ensures pair { IfOk result (IsOfPair terms.target terms.relation old.entry new.entry) }
    ensures cause { IfErr result (IsOfEither (IsUnruled terms.target old.entry) (IsUnruled terms.target new.entry)) }
{
    let like_old = program_in(alloc, old);
    let like_new = program_in(alloc, new);
    let by_old = ruled_like(alloc, terms.target, old, &like_new)?;
    let by_new = match ruled_like(alloc, terms.target, new, &like_old) {
        Ok(by_new) => by_new,
        Err(error) => return Err(AnswerError::in_second(alloc, error)),
    };
    let filters = filters_of(&by_new, &by_old);
    let new: BpfProgramRef<'_> = &by_new.program;
    let old: BpfProgramRef<'_> = &by_old.program;
    let own = findings_of(alloc, terms, new, old, filters, progress)?;
    // The calls of the architectures with a lesser word than this one, and of those with a greater one.
    let word = terms.target.get_audit_value();
    let lesser = Part::Elsewhere {
        least: 0,
        greatest: word - 1,
    };
    let greater = Part::Elsewhere {
        least: word + 1,
        greatest: u32::MAX,
    };
    let others = found_on(
        alloc,
        terms,
        &[lesser, greater],
        new,
        old,
        filters,
        progress,
    )?;
    let loads_pointer = loads_pointer(old) || loads_pointer(new);
    Ok(Diff::OfPair(Pair {
        old_name: by_old.name,
        new_name: by_new.name,
        loads_pointer,
        own,
        others,
    }))
}

// The filters that two sides rule by, if both do.
fn filters_of<'a>(by_new: &'a Ruled, by_old: &'a Ruled) -> Option<Filters<'a>>
    ensures { IfSome result (λ filters. (by_new.now.filter ≡ Some filters.new.now) × (by_old.now.filter ≡ Some filters.old.now)) }
{
    let new = by_new.filter.as_ref()?;
    let old = by_old.filter.as_ref()?;
    Some(Filters { new, old })
}

// Whether a program loads a word of the instruction pointer.
fn loads_pointer(program: BpfProgramRef<'_>) -> bool {
    for instruction in program {
        if instruction.code == LOAD && (instruction.k == 8 || instruction.k == 12) {
            return true;
        }
    }
    false
}

fn diff_policies(
    alloc: Global,
    terms: Terms,
    old: &[u8],
    new: &[u8],
    progress: &mut impl Progress,
) -> Result<Diff, AnswerError>
    ensures by_name { IfOk result (IsByName terms.target terms.relation old.now new.now) }
    ensures cause { IfErr result (IsOfEither (AreUnfitting terms.target old.now) (AreUnfitting terms.target new.now)) }
{
    let old = policies_in(alloc, terms.target, old)?;
    let new = match policies_in(alloc, terms.target, new) {
        Ok(new) => new,
        Err(error) => return Err(AnswerError::in_second(alloc, error)),
    };
    let found = found_by_name(alloc, terms, &old, &new, progress)?;
    Ok(Diff::ByName(found))
}

// What is found under all names of both policies.
fn found_by_name(
    alloc: Global,
    terms: Terms,
    old: &BTreeMap<String, SeccompFilter>,
    new: &BTreeMap<String, SeccompFilter>,
    progress: &mut impl Progress,
) -> Result<Vec<NamedFound>, AnswerError>
    ensures found { IfOk result (λ all. AreFoundUnder terms.target terms.relation (get_by_text old.now) (get_by_text new.now) all.items) }
    ensures cause { IfErr result (IsOfEither (IsUnfittingIn (get_by_text old.now)) (IsUnfittingIn (get_by_text new.now))) }
{
    let mut all = Vec::new(alloc);
    for (name, filter) in old {
        let copy = name.clone()?;
        let found = found_of(alloc, terms, filter, new.get(name.as_str()), progress)?;
        all.push(NamedFound { name: copy, found })?;
    }
    for (name, _) in new {
        match old.get(name.as_str()) {
            Some(_) => {}
            None => all.push(NamedFound {
                name: name.clone()?,
                found: Found::OnlyNew,
            })?,
        }
    }
    Ok(all)
}

// What is found of a filter of the old policy and of the one that the new policy has under its name, each compiled once.
fn found_of(
    alloc: Global,
    terms: Terms,
    old: &SeccompFilter,
    new: Option<&SeccompFilter>,
    progress: &mut impl Progress,
) -> Result<Found, AnswerError>
    ensures found { IfOk result (IsFoundOf terms.target terms.relation (Some old.now) (option_map (λ f. f.now) new.entry)) }
    ensures cause { IfErr result (IsOfEither (IsUnfittingFilter old.now) (IsUnfittingUnder (option_map (λ f. f.now) new.entry))) }
{
    let Some(new) = new else {
        return Ok(Found::OnlyOld);
    };
    let by_old = fitting_bpf(alloc, old)?;
    let by_new = match fitting_bpf(alloc, new) {
        Ok(by_new) => by_new,
        Err(error) => return Err(AnswerError::in_second(alloc, error.into())),
    };
    let filters = Some(Filters { new, old });
    let findings = findings_of(alloc, terms, &by_new, &by_old, filters, progress)?;
    Ok(Found::Both(findings))
}
