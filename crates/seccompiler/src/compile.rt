// From a JSON text to programs.

ghost use Rattle.std.specs.Prelude.{◌≡◌, ℕ, List, IfSome, IfOk, IfErr, MatchResult, string_cmp};
ghost use Rattle.std.specs.BTreeMap as tree;
ghost use Rattle.std.specs.HashMap as hash;
ghost use Rattle.std.specs.List.Sorted.{IsStrictlySortedBy};
ghost use Rattle.std.specs.Map.{keys_of};
ghost use Rattle.serde_json.specs.Data.{Data};
ghost use Rattle.serde_json.specs.View.{view};
ghost use Rattle.seccompiler.specs.Machine.{IsChecked};
ghost use Rattle.seccompiler.specs.Errors.{IsNoMemoryInside, IsNoReader};
ghost use Rattle.seccompiler.specs.JsonAnswers.{OfEachText, OfValue};
ghost use Rattle.seccompiler.specs.JsonFilters.{IsReadBack, under};
ghost use Rattle.seccompiler.specs.JsonPrograms.{AreProgramsOf, IsProgramOf, TellsFirstFault};
ghost use Rattle.seccompiler.specs.Reads.{Reads};

use crate::backend::TargetArch;
use crate::bpf::BpfProgram;
use crate::error::{Error, Result};
use crate::json::{listed_policies, value_from, value_of};
use serde_json::Value;
use std::alloc::Global;
use std::collections::{BTreeMap, HashMap};
use std::io::Read;

/// Programs under the names of their filters.
pub type BpfMap = HashMap<String, BpfProgram>;

/// Reads a text of JSON filters to its end, and compiles each filter for an architecture.
///
/// The map has the text's names, each with its filter's program, as `SeccompFilter::to_bpf` gives it.
/// The text is what the reader gives, which the contract names if the reader's type says what it reads, as
/// a slice does. For a reader whose type doesn't, as a file, it says that there is a
/// text of which all this holds.
///
/// # Errors
///
/// The first of these that is there:
///
/// - `JsonFrontend` with what `JsonCompiler::compile` rejects the text for;
/// - `Backend(FilterTooLarge(n))` for the least name, in byte order, whose filter's program would have
///   more than 4096 instructions. `n` is how many, or `usize::MAX` if that is less.
///
/// `OutOfMemory` may be returned instead of both, if memory runs out, in the reader too.
///
/// # Examples
///
/// ```
/// let text = r#"{"main": {"mismatch_action": "trap", "match_action": "allow", "filter": []}}"#;
/// let programs = compile_from_json(alloc, text.as_bytes(), TargetArch::x86_64)?;
/// let program = programs.get("main").ok_or("no filter has this name")?;
/// assert!(rt; program.len() == 4);
/// ```
pub fn compile_from_json<R: Read + Drop>(
    alloc: Global,
    reader: R,
    arch: TargetArch,
) -> Result<BpfMap>
    ensures programs { IfOk result (λ m. Reads (R.remaining reader) (λ text. OfValue text (AreProgramsOf arch (hash.get_by_text m)))) }
    ensures checked { IfOk result (λ m. (name : List ℕ) → IfSome (hash.get_by_text m name) (λ program. IsChecked program.items)) }
    ensures fault { IfErr result (λ e. Reads (R.remaining reader) (λ text. TellsFirstFault arch text e)) }
    ensures memory { IfErr result IsNoMemoryInside }
{
    let value = value_from(alloc, reader)?;
    let programs = listed_programs(alloc, &value, arch)?;
    match programs.into_iter().collect(alloc) {
        Ok(programs) => Ok(programs),
        Err(_) => Err(Error::OutOfMemory),
    }
}

/// Compiles each filter of a text for an architecture, as [`compile_from_json`] does with what a reader
/// gives, with the names in byte order.
///
/// # Errors
///
/// Those of [`compile_from_json`], in the same order, but for `Read`, as there is no reader.
///
/// # Examples
///
/// ```
/// let text = br#"{"main": {"mismatch_action": "trap", "match_action": "allow", "filter": []}}"#;
/// let programs = programs_of(alloc, text, TargetArch::x86_64)?;
/// let program = programs.get("main").ok_or("no filter has this name")?;
/// assert!(rt; program.len() == 4);
/// ```
pub fn programs_of(
    alloc: Global,
    text: &[u8],
    arch: TargetArch,
) -> Result<BTreeMap<String, BpfProgram>>
    ensures programs { IfOk result (λ m. OfValue text.now (AreProgramsOf arch (tree.get_by_text m))) }
    ensures read_back { IfOk result (λ m. (d : Data) → AreProgramsOf arch (tree.get_by_text m) d → IsReadBack (λ value program. IsProgramOf arch value program.items) m d) }
    ensures checked { IfOk result (λ m. (name : List ℕ) → IfSome (tree.get_by_text m name) (λ program. IsChecked program.items)) }
    ensures fault { IfErr result (TellsFirstFault arch text.now) }
    ensures no_reader { IfErr result IsNoReader }
    ensures memory { IfErr result IsNoMemoryInside }
{
    let value = value_of(alloc, text)?;
    programs_in(alloc, &value, arch)
}

/// Compiles each filter of a text's value, as [`programs_of`] does of the text: for whoever has read it by
/// [`value_of`].
///
/// # Errors
///
/// Those of [`programs_of`], in the same order, but for those of a text that has no value.
pub fn programs_in(
    alloc: Global,
    value: &Value,
    arch: TargetArch,
) -> Result<BTreeMap<String, BpfProgram>>
    ensures programs { IfOk result (λ m. AreProgramsOf arch (tree.get_by_text m) (view value.now)) }
    ensures read_back { IfOk result (λ m. (d : Data) → AreProgramsOf arch (tree.get_by_text m) d → IsReadBack (λ value program. IsProgramOf arch value program.items) m d) }
    ensures checked { IfOk result (λ m. (name : List ℕ) → IfSome (tree.get_by_text m name) (λ program. IsChecked program.items)) }
    ensures fault { IfErr result (λ e. OfEachText (view value.now) (λ text. TellsFirstFault arch text e)) }
    ensures no_reader { IfErr result IsNoReader }
    ensures memory { IfErr result IsNoMemoryInside }
{
    let programs = listed_programs(alloc, value, arch)?;
    match programs.into_iter().collect(alloc) {
        Ok(programs) => Ok(programs),
        Err(_) => Err(Error::OutOfMemory),
    }
}

// The same in the order of their names.
fn listed_programs(
    alloc: Global,
    value: &Value,
    arch: TargetArch,
) -> Result<Vec<(String, BpfProgram)>>
    ensures programs { MatchResult result
        (λ made. IsStrictlySortedBy string_cmp (keys_of made.items) × AreProgramsOf arch (under made.items) (view value.now))
        (λ e. OfEachText (view value.now) (λ text. TellsFirstFault arch text e)) }
    ensures no_reader { IfErr result IsNoReader }
    ensures memory { IfErr result IsNoMemoryInside }
{
    let policies = listed_policies(alloc, value, arch)?;
    let Ok(mut programs) = Vec::with_capacity(alloc, policies.len()) else {
        return Err(Error::OutOfMemory);
    };
    for (name, policy) in policies {
        match policy.to_bpf(alloc) {
            Ok(program) => programs.push_reserved((name, program)),
            Err(error) => return Err(Error::from(error)),
        }
    }
    Ok(programs)
}
