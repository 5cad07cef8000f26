// A side of a comparison: what it rules, and a program that stands for it.

ghost use Rattle.std.specs.Prelude.{IfErr, IfOk, IfSome};
ghost use Rattle.seccomp_compare.specs.Machine.{IsChecked};
ghost use Rattle.seccomp_tree.specs.Layouts.{IsFittingRefusal};
ghost use Rattle.seccomp_answers.specs.Chosen.{text_of};
ghost use Rattle.seccomp_answers.specs.Sides.{IsFilterFor, IsProgramFor, IsSideOf};
ghost use Rattle.seccomp_answers.specs.Rulings.{StandsFor, of_filter};
ghost use Rattle.seccompiler.specs.declared.backend.TargetArch.{TargetArch};
ghost use Rattle.seccomp_answers.specs.Causes.{IsUnruled};

use crate::chosen::{chosen_filter, refuse_name};
use crate::error::AnswerError;
use crate::kind::{Reading, Subject, subject_of};
use crate::profile::compiled_of;
use crate::program::program_of;
use seccomp_tree::fitting_bpf;
use seccompiler::{BackendError, BpfProgram, BpfProgramRef, SeccompFilter, TargetArch};
use std::alloc::{AllocError, Global};

/// A side of a comparison.
#[derive(Clone, Copy)]
pub struct Side<'a> {
    /// What it is.
    pub kind: Subject<'a>,
    /// The filter that is asked for, of a policy; its only one if none is.
    pub filter: Option<&'a str>,
    /// Its bytes.
    pub given: &'a [u8],
}

/// The side that is given in these bytes, and of which this filter is asked for.
pub fn side_of<'a>(
    alloc: Global,
    reading: &'a Reading,
    filter: Option<&'a str>,
    given: &'a [u8],
) -> Result<Side<'a>, AllocError>
    ensures { IfOk result (IsSideOf reading.now filter.entry given.now) }
{
    let kind = subject_of(alloc, reading, given)?;
    Ok(Side {
        kind,
        filter,
        given,
    })
}

/// What a side rules by.
#[derive(Drop)]
pub struct Ruled {
    /// The name of its program.
    pub name: String,
    /// Its program.
    pub program: BpfProgram,
    /// Its filter, if it is a policy.
    pub filter: Option<SeccompFilter>,
}

/// The program of a side, and its name: that of a policy's filter, the one that is asked for or the only one; `profile`; or
/// `program`, which may be of any compiler, if `machine::check` passes it.
///
/// # Errors
///
/// `Library` with what is at fault in a policy; `NoFilter` with the name if no filter has the one that is asked for; `Unchosen`
/// if no filter is asked for and the policy doesn't have exactly one; `Library` with `FilterTooLarge` if the filter is too large in
/// both layouts; `Profile` with what is at fault in a profile; `Program` with the first fault of a program. `OutOfMemory` if
/// memory runs out.
pub fn ruled_by(alloc: Global, target: TargetArch, side: Side<'_>) -> Result<Ruled, AnswerError>
    ensures ruled { IfOk result (λ ruled. IsProgramFor target side.entry.kind (text_of side.entry.filter) side.entry.given.now ruled.program.items) }
    ensures checked { IfOk result (λ ruled. IsChecked ruled.program.items) }
    ensures cause { IfErr result (IsUnruled target side.entry) }
{
    ruled_like(alloc, target, side, &[])
}

/// The same, with the linear program of a policy's filter if that is this one.
pub(crate) fn ruled_like(
    alloc: Global,
    target: TargetArch,
    side: Side<'_>,
    like: BpfProgramRef<'_>,
) -> Result<Ruled, AnswerError>
    ensures ruled { IfOk result (λ ruled. IsProgramFor target side.entry.kind (text_of side.entry.filter) side.entry.given.now ruled.program.items) }
    ensures checked { IfOk result (λ ruled. IsChecked ruled.program.items) }
    ensures filter { IfOk result (λ ruled. IfSome ruled.filter (IsFilterFor target side.entry.kind (text_of side.entry.filter) side.entry.given.now ruled.program.items)) }
    ensures cause { IfErr result (IsUnruled target side.entry) }
{
    match side.kind {
        Subject::Policy => {
            let (name, filter) = chosen_filter(alloc, target, side.filter, side.given)?;
            let program = program_like(alloc, &filter, like)?;
            Ok(Ruled {
                name,
                program,
                filter: Some(filter),
            })
        }
        Subject::Profile(container) => {
            refuse_name(alloc, side.filter)?;
            let name = String::from_str(alloc, "profile")?;
            let compiled = compiled_of(alloc, target, container, false, side.given)?;
            Ok(Ruled {
                name,
                program: compiled.program,
                filter: None,
            })
        }
        Subject::Program => {
            refuse_name(alloc, side.filter)?;
            Ok(Ruled {
                name: String::from_str(alloc, "program")?,
                program: program_of(alloc, side.given)?,
                filter: None,
            })
        }
    }
}

// The filter's linear program if it is this one, else the one that fits.
fn program_like(
    alloc: Global,
    filter: &SeccompFilter,
    like: BpfProgramRef<'_>,
) -> Result<BpfProgram, BackendError>
    ensures stands { IfOk result (λ program. (target : TargetArch) → StandsFor target (of_filter filter.now) program.items) }
    ensures refused { IfErr result (IsFittingRefusal filter.now) }
{
    if !like.is_empty()
        && let Ok(linear) = filter.to_bpf(alloc)
        && linear.as_slice() == like
    {
        return Ok(linear);
    }
    fitting_bpf(alloc, filter)
}

/// The program that a side is, if it is one; else none, of no instructions.
pub(crate) fn program_in(alloc: Global, side: Side<'_>) -> BpfProgram {
    if let Subject::Program = side.kind
        && let Ok(program) = program_of(alloc, side.given)
    {
        return program;
    }
    Vec::new(alloc)
}
