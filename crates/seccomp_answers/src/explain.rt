// What a filter of a policy, a profile or a program decides on records, and why.

ghost use Rattle.std.specs.Prelude.{◌≡◌, IfErr, IfOk, false, option_map};
ghost use Rattle.std.specs.List.{AllZip};
ghost use Rattle.seccomp_compare.specs.Machine.{IsChecked};
ghost use Rattle.seccomp_answers.specs.Check.{IsRefusal};
ghost use Rattle.seccomp_answers.specs.Causes.{IsRefusedProfile, IsUndecided, IsUnexplainedFilter};
ghost use Rattle.seccomp_answers.specs.Chosen.{text_of};
ghost use Rattle.seccomp_answers.specs.Explain.{Explains, IsExplainedBy, IsExplainedOn, IsOfPolicy, IsOfProfile, IsReturned};
ghost use Rattle.seccomp_profiles.specs.Abis.{machine_of};

use crate::calls::number_on;
use crate::chosen::{chosen_name, refuse_name};
use crate::error::AnswerError;
use crate::kind::{Reading, Subject, subject_of};
use crate::policy::{MOST, filters_in, rejected};
use crate::profile::unread;
use crate::program::program_of;
use seccomp_compare::machine;
use seccomp_entries::{Lowered, Reason, explain, lowered_policy};
use seccomp_faults::check;
use seccomp_profiles::{Abi, Container, lowered_on, places_on, profile_of};
use seccompiler::bpf::BPF_MAX_LEN;
use seccompiler::machine::Outcome;
use seccompiler::{BpfProgramRef, JsonCompiler, JsonFilterMap, JsonFrontendError, TargetArch};
use std::alloc::{AllocError, Global};

/// Why a record is decided as it is.
#[derive(Clone, Copy)]
pub enum Why {
    /// By the entries of a policy or of a profile, for this reason.
    Entries(Reason),
    /// By a program.
    Program {
        /// The number of the record's call, if it is of the architecture.
        number: Option<u32>,
        /// How many steps the program takes.
        steps: usize,
    },
    /// By one of several programs that hold together.
    Layer {
        /// The number of the record's call, if it is of the architecture.
        number: Option<u32>,
        /// The place of the program that decides, from 0, that which was installed first; none of no programs.
        place: Option<usize>,
        /// How many steps all of them take.
        steps: usize,
    },
}

/// What is decided on a record, and why.
#[derive(Clone, Copy)]
pub struct Explained {
    /// The value that is returned.
    pub word: u32,
    /// Why.
    pub why: Why,
}

/// What is decided on records, and why.
#[derive(Drop)]
pub struct Explanation {
    /// The name of the filter that decides; none of a profile or a program.
    pub name: Option<String>,
    /// The value of a profile's default action; none of a policy or a program.
    pub default: Option<u32>,
    /// The entries that decide, of which the reasons have the indices; none of a program.
    pub entries: Vec<seccomp_entries::Entry>,
    /// By places of these, those of a profile's entries that they are of, for the calls of 32-bit programs; else empty.
    pub places: Vec<usize>,
    /// What is decided on each record, in order.
    pub records: Vec<Explained>,
}

/// What is decided on these records, and why, by what is given in these bytes. A record of whosever calls is of those of `abi`;
/// a policy decides those of the machine itself.
///
/// # Errors
///
/// Those of [`explain_policy`] and [`explain_profile`]; `NoFilter` with the name that is asked for, if what is given has no filters;
/// `Program` with the first fault of a program. `OutOfMemory` if memory runs out.
pub fn explanation_of(
    alloc: Global,
    abi: Abi,
    reading: &Reading,
    asked: Option<&str>,
    given: &[u8],
    records: &[[u8; 64]],
) -> Result<Explanation, AnswerError>
    ensures explained { IfOk result (Explains abi reading.now (text_of asked.entry) given.now records.now) }
    ensures cause { IfErr result (IsUndecided (machine_of abi) reading.now (text_of asked.entry) given.now) }
{
    match subject_of(alloc, reading, given)? {
        Subject::Policy => explain_policy(alloc, abi.machine(), asked, given, records),
        Subject::Profile(container) => {
            refuse_name(alloc, asked)?;
            explain_profile(alloc, abi, container, given, records)
        }
        Subject::Program => {
            refuse_name(alloc, asked)?;
            let program = program_of(alloc, given)?;
            let records = returned(alloc, abi, &program, records)?;
            Ok(Explanation {
                name: None,
                default: None,
                entries: Vec::new(alloc),
                places: Vec::new(alloc),
                records,
            })
        }
    }
}

/// Explains what a filter of a policy decides, the one that is asked for or the only one.
///
/// # Errors
///
/// `Library` with what `compile_from_json` rejects the policy for, whichever filter has the fault; `Unchosen`
/// if no filter is asked for and the policy doesn't have exactly one; `NoFilter` with the name if no filter has
/// it. `OutOfMemory` if memory runs out.
pub fn explain_policy(
    alloc: Global,
    target: TargetArch,
    asked: Option<&str>,
    text: &[u8],
    records: &[[u8; 64]],
) -> Result<Explanation, AnswerError>
    ensures explained { IfOk result (IsOfPolicy target (option_map (λ name. name.now) asked.entry) text.now records.now) }
    ensures cause { IfErr result (IsUnexplainedFilter target (text_of asked.entry) text.now) }
{
    let filters = filters_in(alloc, target, text)?;
    let name = chosen_name(alloc, asked, &filters.0)?;
    refuse_faulty(alloc, target, &filters, text)?;
    let Some(filter) = filters.0.get(name.as_str()) else {
        return Err(AnswerError::NoFilter(name));
    };
    // The policy is taken, so that each of its filters is one of the architecture: an error is want of memory.
    let lowered = match lowered_policy(alloc, target, filter) {
        Ok(lowered) => lowered,
        Err(_) => return Err(AnswerError::OutOfMemory),
    };
    let records = explain_each(alloc, &lowered, records)?;
    Ok(Explanation {
        name: Some(name),
        default: None,
        entries: lowered.entries,
        places: Vec::new(alloc),
        records,
    })
}

// That each of a text's filters has a program, or else the first fault, as the library tells it.
fn refuse_faulty(
    alloc: Global,
    target: TargetArch,
    filters: &JsonFilterMap,
    text: &[u8],
) -> Result<(), AnswerError>
    ensures { IfErr result (IsRefusal target text.now) }
{
    if let Ok(true) = are_short(alloc, target, filters) {
        return Ok(());
    }
    match check(alloc, target, MOST, text) {
        // Memory that was lacking is there again.
        Ok(_filters) => Err(AnswerError::OutOfMemory),
        Err(rejection) => Err(rejected(alloc, text, rejection)),
    }
}

// Whether none of the filters' programs is too long, if each filter has a policy.
fn are_short(
    alloc: Global,
    target: TargetArch,
    filters: &JsonFilterMap,
) -> Result<bool, JsonFrontendError> {
    let compiler = JsonCompiler::new(target);
    for (_name, filter) in &filters.0 {
        let policy = compiler.make_seccomp_filter(alloc, filter)?;
        if policy.program_len() > BPF_MAX_LEN {
            return Ok(false);
        }
    }
    Ok(true)
}

/// Explains what a profile decides: the action, by which of its entries.
///
/// # Errors
///
/// Those of [`compiled_of`](crate::profile::compiled_of), but for names of calls, and for a program that is too large.
pub fn explain_profile(
    alloc: Global,
    abi: Abi,
    container: &Container,
    text: &[u8],
    records: &[[u8; 64]],
) -> Result<Explanation, AnswerError>
    ensures explained { IfOk result (IsOfProfile abi container.now text.now records.now) }
    ensures cause { IfErr result (IsRefusedProfile (machine_of abi) container.now false text.now) }
{
    let profile = match profile_of(alloc, text) {
        Ok(profile) => profile,
        Err(error) => return Err(unread(alloc, text, error)),
    };
    let lowered = lowered_on(alloc, abi, container, &profile)?;
    let records = explain_seen(alloc, abi, &lowered, records)?;
    Ok(Explanation {
        name: None,
        default: Some(profile.default.into()),
        entries: lowered.entries,
        places: places_on(alloc, abi, &profile)?,
        records,
    })
}

// What entries decide on each of these records, as they are seen on the machine.
fn explain_seen(
    alloc: Global,
    abi: Abi,
    lowered: &Lowered,
    records: &[[u8; 64]],
) -> Result<Vec<Explained>, AllocError>
    ensures { IfOk result (λ all. AllZip (IsExplainedOn abi lowered.now) records.now all.items) }
{
    let mut all = Vec::with_capacity(alloc, records.len())?;
    for call in records {
        all.push(explain_one(abi, lowered, call))?;
    }
    Ok(all)
}

// What they decide on a record.
fn explain_one(abi: Abi, lowered: &Lowered, call: &[u8; 64]) -> Explained
    ensures { IsExplainedOn abi lowered.now call.now result }
{
    let seccomp_entries::Explained { word, reason } = explain(lowered, &abi.seen(call));
    Explained {
        word,
        why: Why::Entries(reason),
    }
}

// What entries decide on each of these records.
fn explain_each(
    alloc: Global,
    lowered: &Lowered,
    records: &[[u8; 64]],
) -> Result<Vec<Explained>, AllocError>
    ensures { IfOk result (λ all. AllZip (IsExplainedBy lowered.now) records.now all.items) }
{
    let mut all = Vec::with_capacity(alloc, records.len())?;
    for call in records {
        let seccomp_entries::Explained { word, reason } = explain(lowered, call);
        let why = Why::Entries(reason);
        all.push(Explained { word, why })?;
    }
    Ok(all)
}

/// What a program returns for records, and in how many steps, one for each, in order.
///
/// The program may be of any compiler, if `machine::check` of `seccomp_compare` passes it; that takes fewer instructions than
/// a kernel does.
pub fn returned(
    alloc: Global,
    abi: Abi,
    program: BpfProgramRef<'_>,
    records: &[[u8; 64]],
) -> Result<Vec<Explained>, AllocError>
    requires { IsChecked program.now }
    ensures { IfOk result (λ all. AllZip (IsReturned abi program.now) records.now all.items) }
{
    let mut all = Vec::new(alloc);
    for call in records {
        let Outcome { word, steps } = machine::run(program, call);
        let number = number_on(abi, call);
        let why = Why::Program { number, steps };
        all.push(Explained { word, why })?;
    }
    Ok(all)
}
