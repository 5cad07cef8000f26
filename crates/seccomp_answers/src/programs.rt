// The programs of a policy.

ghost use Rattle.std.specs.Prelude.{IfErr, IfOk};
ghost use Rattle.std.specs.BTreeMap.{get_by_text};
ghost use Rattle.std.specs.List.{AllZip};
ghost use Rattle.seccompiler.specs.JsonAnswers.{OfValue};
ghost use Rattle.seccomp_answers.specs.Causes.{AreUncompiledIn, IsUnfitAmong};
ghost use Rattle.seccomp_answers.specs.Chosen.{text_of};
ghost use Rattle.seccomp_answers.specs.Compiled.{ArePrograms, IsCompiledAs};

use crate::chosen::refuse_missing;
use crate::error::AnswerError;
use crate::measures::{Measure, measure_of};
use crate::policy::policies_in;
use seccomp_tree::{FilterError, Layout, to_bpf_in};
use seccompiler::{BpfProgram, SeccompFilter, TargetArch};
use std::alloc::Global;
use std::collections::BTreeMap;

/// The program of a filter.
#[derive(Drop)]
pub struct NamedProgram {
    /// The filter's name.
    pub name: String,
    /// The program.
    pub program: BpfProgram,
    /// How long it is, and how many steps it takes.
    pub measure: Measure,
}

/// The programs of all filters of a policy's text, in byte order of the filters' names.
///
/// # Errors
///
/// `Placed` or `Library` with what is at fault in the text; `NoFilter` with the name if a filter is asked for and none has it; `Library` with
/// `FilterTooLarge`, or `TreeTooLarge`, of the first filter that is too large in the layout. `OutOfMemory` if memory runs out.
pub fn programs_in(
    alloc: Global,
    target: TargetArch,
    layout: Layout,
    asked: Option<&str>,
    text: &[u8],
) -> Result<Vec<NamedProgram>, AnswerError>
    ensures programs { IfOk result (λ programs. OfValue text.now (λ d. ArePrograms layout target d programs.items)) }
    ensures cause { IfErr result (AreUncompiledIn target layout (text_of asked.entry) text.now) }
{
    let filters = policies_in(alloc, target, text)?;
    refuse_missing(alloc, asked, &filters)?;
    let programs = compiled_in(alloc, target, layout, &filters)?;
    Ok(programs)
}

/// The programs of filters, in byte order of their names.
pub(crate) fn compiled_in(
    alloc: Global,
    target: TargetArch,
    layout: Layout,
    filters: &BTreeMap<String, SeccompFilter>,
) -> Result<Vec<NamedProgram>, FilterError>
    ensures programs { IfOk result (λ programs. AllZip (IsCompiledAs layout) filters.now.entries programs.items) }
    ensures refused { IfErr result (IsUnfitAmong layout (get_by_text filters.now)) }
{
    let mut programs = Vec::new(alloc);
    for (name, filter) in filters {
        let program = to_bpf_in(alloc, filter, layout)?;
        let measure = measure_of(alloc, target, &program)?;
        let name = name.clone()?;
        programs.push(NamedProgram {
            name,
            program,
            measure,
        })?;
    }
    Ok(programs)
}
