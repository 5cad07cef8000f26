// What a comparison of two programs finds, on each set of calls.

pub mod parts;
pub(crate) mod pieces;

ghost use Rattle.std.specs.Prelude.{◌≡◌, ℕ, List, ◌↔◌, IfOk, IfSome, IsTrue};
ghost use Rattle.seccompiler.specs.declared.backend.TargetArch.{TargetArch};
ghost use Rattle.seccompiler.specs.declared.bpf.sock_filter.{sock_filter};
ghost use Rattle.seccomp_compare.specs.declared.Comparison.TheVariants as comparison;
ghost use Rattle.seccomp_compare.specs.declared.Relation.{Relation};
ghost use Rattle.seccomp_answers.specs.declared.findings.Answer.TheVariants.{Holds};
ghost use Rattle.seccomp_compare.specs.Compare.{AnswersUnrelated, IsCallOf};
ghost use Rattle.seccomp_compare.specs.Machine.{Ends, IsChecked};
ghost use Rattle.seccomp_answers.specs.Findings.{AreReturned, IsFound, IsInPart, worse, verdict_of};
ghost use Rattle.seccomp_answers.specs.Rulings.{AreFindingsOf, AreOf, Ruling, StandsFor};

use crate::findings::parts::parts;
use crate::findings::pieces::found_on;
use seccomp_compare::{
    Calls, Comparison, End, Relation, compare, compare_to_end, is_related_on, machine,
};
use seccompiler::bpf::{RETURN, sock_filter};
use seccompiler::{BpfProgramRef, SeccompFilter, TargetArch};
use std::alloc::{AllocError, Global};

// So many sets of records are looked at in the first of several tries.
pub(crate) const FIRST: usize = 10_000;

// So many of each program are, to see whether it returns one value throughout.
const MOST_THROUGHOUT: usize = 1_000;

// So many sets of calls are looked at of each rule before programs are searched, as a rule in two parts by a border takes, and after the
// first search.
const FIRST_BY_RULES: usize = 200;

const MOST_BY_RULES: usize = 10_000;

/// Who hears how far a comparison is. No answer depends on it.
pub trait Progress {
    /// So many more sets of calls of a part were looked at without an answer.
    fn looked_at(&mut self, target: TargetArch, part: Part, sets: usize);
}

/// On which terms two sides are compared.
#[derive(Clone, Copy)]
pub struct Terms {
    /// The architecture.
    pub target: TargetArch,
    /// What is asked of the two values for a call, the new one first.
    pub relation: Relation,
    /// How many sets of records are looked at, at most, for each part.
    pub most: usize,
}

/// Two filters of which programs are made.
#[derive(Clone, Copy)]
pub struct Filters<'a> {
    pub new: &'a SeccompFilter,
    pub old: &'a SeccompFilter,
}

/// A set of calls that is compared by itself.
#[derive(Clone, Copy)]
pub enum Part {
    /// The calls of a number of the architecture that has a name.
    Named { number: u32 },
    /// The calls of these numbers of the architecture, none of which has a name.
    Unnamed { least: u32, greatest: u32 },
    /// The calls of other architectures, by their `AUDIT_ARCH_*` values.
    Elsewhere { least: u32, greatest: u32 },
}

/// What a comparison finds on a part.
#[derive(Clone, Copy)]
pub enum Answer {
    /// The relation holds for every call of the part.
    Holds,
    /// It doesn't for the call of this record, for which the sides have these values; and for each call of the part, if that is seen.
    Fails {
        call: [u8; 64],
        old: u32,
        new: u32,
        throughout: bool,
    },
    /// As many sets of records were looked at as was allowed, and neither was found. The call of this record is of a set that is left,
    /// where the sides' programs come to these instructions, from 0.
    Undecided {
        call: [u8; 64],
        old: usize,
        new: usize,
    },
}

/// A part, and what a comparison finds on it.
#[derive(Clone, Copy)]
pub struct Finding {
    pub part: Part,
    pub answer: Answer,
}

/// What a comparison comes to.
#[derive(Clone, Copy)]
pub enum Verdict {
    /// The relation holds for every call.
    Same,
    /// There is a call for which it doesn't.
    Different,
    /// None was found, and some part is undecided.
    Undecided,
}

impl Verdict {
    /// The verdict of two together.
    pub fn worse(self, other: Verdict) -> Verdict
        ensures { result ≡ worse self other }
    {
        match (self, other) {
            (Verdict::Same, _) | (Verdict::Undecided, Verdict::Different) => other,
            _ => self,
        }
    }
}

/// The verdict of what is found on all parts.
pub fn verdict_of(findings: &[Finding]) -> Verdict
    ensures { result ≡ verdict_of findings.now }
{
    let mut verdict = Verdict::Same;
    for finding in findings {
        verdict = verdict.worse(match finding.answer {
            Answer::Holds => Verdict::Same,
            Answer::Fails { .. } => Verdict::Different,
            Answer::Undecided { .. } => Verdict::Undecided,
        });
    }
    verdict
}

// The calls of a part.
fn calls_of(target: TargetArch, part: Part) -> Calls
    ensures { (r : List ℕ) → (IsCallOf result r ↔ IsInPart target part r) }
{
    match part {
        Part::Named { number } => Calls::of_number(target, number),
        Part::Unnamed { least, greatest } => Calls::of_numbers(target, least, greatest),
        Part::Elsewhere { least, greatest } => Calls::of_arch_words(least, greatest),
    }
}

// Whether the relation is seen to hold of what both filters decide for each call of a part, rule by rule, by looking at so many sets of
// arguments for each rule.
fn holds_by_rules(
    alloc: Global,
    terms: Terms,
    part: Part,
    filters: Option<Filters<'_>>,
    most: usize,
) -> Result<bool, AllocError>
    ensures { IfOk result (λ holds. IsTrue holds → (new old : List sock_filter) → IfSome filters.entry (AreOf terms.target new old) → IsFound terms.target terms.relation (AreReturned new old) part Holds) }
{
    let Part::Named { number } = part else {
        return Ok(false);
    };
    let Some(filters) = filters else {
        return Ok(false);
    };
    let relation = terms.relation;
    is_related_on(alloc, relation, filters.new, filters.old, number, most)
}

/// What is found of two programs, of these filters if there are any, on the architecture's calls: nothing of parts on which the relation
/// holds.
pub(crate) fn findings_of(
    alloc: Global,
    terms: Terms,
    new: BpfProgramRef<'_>,
    old: BpfProgramRef<'_>,
    filters: Option<Filters<'_>>,
    progress: &mut impl Progress,
) -> Result<Vec<Finding>, AllocError>
    requires new_checked { IsChecked new.now }
    requires old_checked { IsChecked old.now }
    requires filters { IfSome filters (AreOf terms.target new.now old.now) }
    // Of whatever the programs stand for.
    ensures { IfOk result (λ findings. (by_new by_old : Ruling) → StandsFor terms.target by_new new.now → StandsFor terms.target by_old old.now → AreFindingsOf terms.target terms.relation by_new by_old findings.items) }
{
    let parts = parts(alloc, terms.target)?;
    found_on(alloc, terms, &parts, new, old, filters, progress)
}

/// Whether two programs have the same instructions.
pub(crate) fn are_same(new: BpfProgramRef<'_>, old: BpfProgramRef<'_>) -> bool
    ensures { IsTrue result → new.now ≡ old.now }
{
    new == old
}

/// What is found of two programs on the calls of a part; of programs that are the same without a search. It tries by
/// the rules of the filters first if the programs are of these, then with few sets, by the rules again, and then with four times as many
/// sets each time.
pub(crate) fn answer_on(
    alloc: Global,
    terms: Terms,
    part: Part,
    new: BpfProgramRef<'_>,
    old: BpfProgramRef<'_>,
    is_same: bool,
    filters: Option<Filters<'_>>,
    progress: &mut impl Progress,
) -> Result<Answer, AllocError>
    requires new_checked { IsChecked new.now }
    requires old_checked { IsChecked old.now }
    requires same { IsTrue is_same → new.now ≡ old.now }
    requires filters { IfSome filters (AreOf terms.target new.now old.now) }
    ensures { IfOk result (IsFound terms.target terms.relation (AreReturned new.now old.now) part) }
{
    if is_same {
        return Ok(Answer::Holds);
    }
    if holds_by_rules(alloc, terms, part, filters, FIRST_BY_RULES)? {
        return Ok(Answer::Holds);
    }
    let calls = calls_of(terms.target, part);
    let mut sets = FIRST.min(terms.most);
    loop {
        match compare_to_end(alloc, new, old, &calls, terms.relation, sets) {
            Ok(End::Holds) => return Ok(Answer::Holds),
            Ok(End::Fails(call)) => {
                return answer_at(alloc, terms, part, new, old, call);
            }
            Ok(End::Stops(stop)) => {
                progress.looked_at(terms.target, part, sets);
                if sets <= FIRST && holds_by_rules(alloc, terms, part, filters, MOST_BY_RULES)? {
                    return Ok(Answer::Holds);
                }
                if sets >= terms.most {
                    let call = stop.call;
                    let (old, new) = (stop.other_place, stop.place);
                    return Ok(Answer::Undecided { call, old, new });
                }
            }
            // It fails for want of memory alone.
            Err(error) => {
                drop(error);
                return Err(AllocError);
            }
        }
        sets = sets.saturating_mul(4).min(terms.most);
    }
}

// What the programs return for a call on which the relation doesn't hold, and whether they are seen to do so for each call of the part.
fn answer_at(
    alloc: Global,
    terms: Terms,
    part: Part,
    new: BpfProgramRef<'_>,
    old: BpfProgramRef<'_>,
    call: [u8; 64],
) -> Result<Answer, AllocError>
    requires new_checked { IsChecked new.now }
    requires old_checked { IsChecked old.now }
    requires within { IsInPart terms.target part call }
    requires unrelated { AnswersUnrelated terms.relation new.now old.now call }
    ensures { IfOk result (IsFound terms.target terms.relation (AreReturned new.now old.now) part) }
{
    let by_old = machine::run(old, &call).word;
    let by_new = machine::run(new, &call).word;
    let throughout = return_both(alloc, terms.target, part, new, old, by_new, by_old)?;
    Ok(Answer::Fails {
        call,
        old: by_old,
        new: by_new,
        throughout,
    })
}

// Whether two programs are seen to return these words for each call of a part.
fn return_both(
    alloc: Global,
    target: TargetArch,
    part: Part,
    new: BpfProgramRef<'_>,
    old: BpfProgramRef<'_>,
    by_new: u32,
    by_old: u32,
) -> Result<bool, AllocError>
    requires new_checked { IsChecked new.now }
    requires old_checked { IsChecked old.now }
    ensures { IfOk result (λ are. IsTrue are → (r : List ℕ) → IsInPart target part r → AreReturned new.now old.now r by_new by_old) }
{
    if !returns(alloc, target, part, new, by_new)? {
        return Ok(false);
    }
    returns(alloc, target, part, old, by_old)
}

// Whether a program is seen to return this word for each call of a part.
fn returns(
    alloc: Global,
    target: TargetArch,
    part: Part,
    program: BpfProgramRef<'_>,
    word: u32,
) -> Result<bool, AllocError>
    requires { IsChecked program.now }
    ensures { IfOk result (λ is. IsTrue is → (r : List ℕ) → IsInPart target part r → (steps : ℕ) × Ends program.now r steps word) }
{
    let only = [sock_filter {
        code: RETURN,
        jt: 0,
        jf: 0,
        k: word,
    }];
    let calls = calls_of(target, part);
    match compare(
        alloc,
        program,
        &only,
        &calls,
        Relation::Alike,
        MOST_THROUGHOUT,
    ) {
        Ok(answer) => Ok(does_hold(answer)),
        // It fails for want of memory alone.
        Err(error) => {
            drop(error);
            Err(AllocError)
        }
    }
}

// Whether the relation is seen to hold.
fn does_hold(answer: Comparison) -> bool
    ensures { IsTrue result → answer ≡ comparison.Holds }
{
    matches!(answer, Comparison::Holds)
}
