// The warnings of a part, in the order of its entries.

ghost use Rattle.std.specs.Prelude.{◌≡◌, ◌↔◌, [], ◌∷◌, ◌++◌, List, IfErr, IfOk, OnOk, IsTrue};
ghost use Rattle.seccompiler.specs.JsonPolicyOf.{IsPolicyOf};
ghost use Rattle.seccompiler.specs.JsonSteps.{IsPolicyRefusal};
ghost use Rattle.seccompiler.specs.Policy.{Filter};
ghost use Rattle.seccomp_entries.specs.Verdicts.{AreVerdicts};
ghost use Rattle.seccomp_warnings.specs.Warnings as spec;
ghost use Rattle.seccomp_warnings.specs.Warnings.{AreGiven, AreTrueWarnings, AreWarned, IsGiven, IsSoOf, subjects_at, subjects_in};
ghost use Rattle.seccomp_warnings.specs.declared.warning.Subject.{Subject as SubjectValue};

use crate::action::{is_so_of_action, is_so_of_both, is_so_of_default};
use crate::argument::is_so_of_argument;
use crate::call::{is_judged, is_so_at, is_so_of_unlisted};
use crate::code::{Code, is_among};
use crate::condition::{comparison_at, is_so_of_condition};
use crate::evasion::evasions_of;
use crate::part::Part;
use crate::unlisted::Unlisted;
use crate::warning::{Actions, FilterWarned, Subject, Warned, Warning};
use seccomp_entries::{Action, Entry, Verdict, lowered_policy, verdicts_of};
use seccompiler::{JsonFilter, JsonFrontendError, TargetArch};
use std::alloc::{AllocError, Global};

/// The warnings of a filter of a policy: those of its part, and its evasions.
///
/// # Errors
///
/// Those of [`lowered_policy`].
pub fn policy_warnings_of(
    alloc: Global,
    target: TargetArch,
    filter: &JsonFilter,
    allowed: &[Code],
) -> Result<FilterWarned, JsonFrontendError>
    ensures warnings { IfOk result (AreTrueWarnings target allowed.now filter.now) }
    ensures policy { OnOk result ((policy : Filter) × IsPolicyOf target filter.now policy) }
    ensures refusal { IfErr result (IsPolicyRefusal target filter.now) }
{
    let lowered = lowered_policy(alloc, target, filter)?;
    let evasions = evasions_of(alloc, &lowered, allowed)?;
    let part = Part {
        target_arch: target,
        actions: Actions {
            mismatch: Action::Own(filter.mismatch_action),
            matching: Action::Own(filter.match_action),
        },
        entries: lowered.entries,
    };
    let of_part = warnings_of(alloc, &part, allowed)?;
    Ok(FilterWarned {
        part,
        of_part,
        evasions,
    })
}

/// The warnings of a part: exactly those that are true of it and whose codes aren't allowed, and the verdict of each of its entries.
///
/// Warnings come in this order: those of the mismatch action, with its calls that no entry is for; those of the match action; then,
/// entry by entry, those of the entry and of its conditions. Those of one place are in the order of `Code::all`.
///
/// # Errors
///
/// An error is returned if memory runs out.
pub fn warnings_of(alloc: Global, part: &Part, allowed: &[Code]) -> Result<Warned, AllocError>
    ensures { IfOk result (AreWarned allowed.now part.now) }
{
    let verdicts = verdicts_at(alloc, part)?;
    let subjects = subjects_of(alloc, part)?;
    let mut warnings = Vec::new(alloc);
    for subject in subjects.iter() {
        push_given(&mut warnings, allowed, &verdicts, part, *subject)?;
    }
    Ok(Warned { verdicts, warnings })
}

// The verdicts of the entries of a part.
fn verdicts_at(alloc: Global, part: &Part) -> Result<Vec<Verdict>, AllocError>
    ensures { IfOk result (λ verdicts. AreVerdicts part.now.target_arch part.now.entries verdicts.items) }
{
    verdicts_of(alloc, part.target_arch, part.entries.as_slice())
}

// Adds the warnings about a subject that are true and whose codes aren't allowed.
fn push_given(
    warnings: &mut Vec<Warning>,
    allowed: &[Code],
    verdicts: &[Verdict],
    part: &Part,
    subject: Subject,
) -> Result<(), AllocError>
    ensures { OnOk result ((front : List SubjectValue) → AreGiven allowed.now verdicts.now part.now front warnings.old.items → AreGiven allowed.now verdicts.now part.now (front ++ subject ∷ []) warnings.new.items) }
{
    for code in codes_about(subject) {
        let warning = Warning {
            code: *code,
            subject,
        };
        if is_given(allowed, verdicts, part, warning) {
            warnings.push(warning)?;
        }
    }
    Ok(())
}

// The codes of what may be said of a subject, in the order of `Code::all`.
fn codes_about(subject: Subject) -> &'static [Code]
    ensures { result.now ≡ spec.codes_about subject }
{
    match subject {
        Subject::MismatchAction(_) | Subject::MatchAction(_) => &[
            Code::FakeSuccess,
            Code::ErrnoTooLarge,
            Code::EndlessRetry,
            Code::TraceWithoutTracer,
            Code::AllowsByDefault,
            Code::DeniesEverything,
        ],
        Subject::MismatchCall(_) => &[
            Code::KillsExit,
            Code::CloneByClone3,
            Code::NoExecve,
            Code::NoRestart,
        ],
        Subject::Entry(_) => &[
            Code::KillsExit,
            Code::CloneByClone3,
            Code::SiblingAllowed,
            Code::CrateDiffers,
            Code::UnreachableEntry,
            Code::RedundantEntry,
            Code::UndecidedEntry,
        ],
        Subject::Condition(_) => &[
            Code::HighHalfIgnored,
            Code::ValueOutsideMask,
            Code::AlwaysHolds,
            Code::NeverHolds,
            Code::PointerCompared,
            Code::SignedCompared,
        ],
    }
}

// Whether a warning is true, and its code isn't allowed.
fn is_given(allowed: &[Code], verdicts: &[Verdict], part: &Part, warning: Warning) -> bool
    ensures { IsTrue result ↔ IsGiven allowed.now verdicts.now part.now warning }
{
    !is_among(allowed, warning.code) && is_so_of(warning.code, verdicts, part, warning.subject)
}

// Whether what a code says of a subject is so.
fn is_so_of(code: Code, verdicts: &[Verdict], part: &Part, subject: Subject) -> bool
    ensures { IsTrue result ↔ IsSoOf code verdicts.now part.now subject }
{
    match subject {
        Subject::MismatchAction(action) => {
            is_so_of_action(code, action) || is_so_of_default(code, action)
        }
        Subject::MismatchCall(call) => is_so_of_unlisted(code, part, call),
        Subject::MatchAction(action) => {
            is_so_of_action(code, action) || is_so_of_both(code, part.actions)
        }
        Subject::Entry(place) => { is_judged(code, verdicts, place) || is_so_at(code, part, place) }
        Subject::Condition(comparison) => {
            is_so_of_condition(code, comparison) || is_so_of_argument(code, part, comparison)
        }
    }
}

// What warnings of a part are about, in their order.
fn subjects_of(alloc: Global, part: &Part) -> Result<Vec<Subject>, AllocError>
    ensures { IfOk result (λ subjects. subjects.items ≡ subjects_in part.now) }
{
    let mut subjects = vec![in alloc;
        Subject::MismatchAction(part.actions.mismatch),
        Subject::MismatchCall(Unlisted::Exit),
        Subject::MismatchCall(Unlisted::ExitGroup),
        Subject::MismatchCall(Unlisted::RtSigreturn),
        Subject::MismatchCall(Unlisted::Clone3),
        Subject::MismatchCall(Unlisted::Execve),
        Subject::MismatchCall(Unlisted::RestartSyscall),
        Subject::MatchAction(part.actions.matching),
    ]?;
    for (place, entry) in part.entries.iter().enumerate() {
        push_entry(&mut subjects, place, entry)?;
    }
    Ok(subjects)
}

// Adds the entry at a place, and its conditions.
fn push_entry(subjects: &mut Vec<Subject>, place: usize, own: &Entry) -> Result<(), AllocError>
    ensures { OnOk result (subjects.new.items ≡ subjects.old.items ++ subjects_at (place, own.now)) }
{
    subjects.push(Subject::Entry(place))?;
    for (nth, condition) in own.conditions.iter().enumerate() {
        subjects.push(Subject::Condition(comparison_at(place, nth, condition)))?;
    }
    Ok(())
}
