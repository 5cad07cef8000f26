// From what a reader gives to a text, and from a text to its filters.

ghost use Rattle.std.specs.Prelude.{◌≡◌, ℕ, List, IfOk, IfErr, IfSome, MatchResult};
ghost use Rattle.serde_json.specs.Data.{Data};
ghost use Rattle.serde_json.specs.View.{view};
ghost use Rattle.seccompiler.specs.Errors.{IsNoMemoryInFrontend};
ghost use Rattle.seccompiler.specs.JsonAnswers.{IsValueOf, OfValue, TellsFrontendFault};
ghost use Rattle.seccompiler.specs.JsonFilters.{IsReadBack};
ghost use Rattle.seccompiler.specs.JsonShape.{IsFilter};
ghost use Rattle.seccompiler.specs.JsonSteps.{AreFilters, IsBeforePolicies, IsNoFailedRead};
ghost use Rattle.seccompiler.specs.JsonTypes.{JsonFilter};
ghost use Rattle.seccompiler.specs.Reads.{Reads};
ghost use Rattle.seccompiler.specs.declared.backend.TargetArch.{TargetArch};

use crate::json::error::JsonFrontendError;
use crate::json::filter_map::read_filters;
use crate::json::repeats::repeats_key;
use crate::json::types::JsonFilterMap;
use serde_json::Value;
use std::alloc::Global;
use std::io::{ErrorKind, Read};

/// Reads all that a reader gives, to its end.
///
/// The reader is dropped, and after an error any part of it may have been read.
///
/// # Errors
///
/// `Read` if the reader fails; `OutOfMemory` if memory runs out, in the reader too. No other error
/// comes.
pub fn text_of<R: Read + Drop>(alloc: Global, mut reader: R) -> Result<Vec<u8>, JsonFrontendError>
    ensures text { IfOk result (λ text. IfSome (R.remaining reader) (λ known. text.items ≡ known)) }
    // Of whichever text, on whichever architecture.
    ensures fault { IfErr result (λ e. (arch : TargetArch) (text : List ℕ) → TellsFrontendFault arch text e) }
    ensures memory { IfErr result IsNoMemoryInFrontend }
{
    let mut text = Vec::new(alloc);
    match reader.read_to_end(&mut text) {
        Ok(_) => Ok(text),
        Err(error) if error.kind() == ErrorKind::OutOfMemory => Err(JsonFrontendError::OutOfMemory),
        Err(error) => Err(JsonFrontendError::Read(error)),
    }
}

/// Reads a text of JSON filters.
///
/// On `Ok` the map has exactly the text's names, each with its filter as the text has it. No call's name
/// is looked up, and no filter made: [`JsonCompiler::make_seccomp_filter`] does that with one of them, for
/// an architecture, and [`JsonCompiler::policies_of`] with all of a text.
///
/// [`JsonCompiler::make_seccomp_filter`]: crate::json::JsonCompiler::make_seccomp_filter
/// [`JsonCompiler::policies_of`]: crate::json::JsonCompiler::policies_of
///
/// # Errors
///
/// The first of these that is there:
///
/// - `SerdeJson` if the bytes are no JSON text;
/// - `RepeatedKey` if `repeats_key` finds that a name is repeated;
/// - `NotAnObject` if the text is no object;
/// - `Shape` with the least name, in byte order, whose value is no filter.
///
/// `OutOfMemory` may be returned instead of any answer, if memory runs out. No other error is returned: as
/// there is no reader, none is `Read`.
///
/// # Examples
///
/// ```
/// let text = br#"{"main": {"mismatch_action": "trap", "match_action": "allow", "filter": []}}"#;
/// let filters = filters_of(alloc, text)?;
/// assert!(rt; filters.0.contains_key("main"));
/// ```
pub fn filters_of(alloc: Global, text: &[u8]) -> Result<JsonFilterMap, JsonFrontendError>
    ensures filters { IfOk result (λ filters. OfValue text.now (λ d. AreFilters d filters)) }
    ensures read_back { IfOk result (λ filters. (d : Data) → AreFilters d filters → IsReadBack IsFilter filters.0 d) }
    // On whichever architecture.
    ensures fault { IfErr result (λ e. (arch : TargetArch) → TellsFrontendFault arch text.now e) }
    ensures cause { IfErr result IsBeforePolicies }
    ensures no_reader { IfErr result IsNoFailedRead }
    ensures memory { IfErr result IsNoMemoryInFrontend }

    // A value is at most one filter.
    ensures one_filter { (d : Data) (f g : JsonFilter) → IsFilter d f → IsFilter d g → f ≡ g }
{
    let value = value_of(alloc, text)?;
    let filters = read_filters(alloc, &value);
    drop(value);
    filters
}

/// The value of a text that repeats no name, for whoever asks more than one thing of it: [`read_filters`] and
/// [`policies_in`] take it, and [`programs_in`].
///
/// # Errors
///
/// The first of these that is there: `SerdeJson` if the bytes are no JSON text; `RepeatedKey` if `repeats_key` finds
/// that a name is repeated. `OutOfMemory` may be returned instead of any answer, if memory runs out.
///
/// [`policies_in`]: crate::json::policies_in
/// [`programs_in`]: crate::compile::programs_in
pub fn value_of(alloc: Global, text: &[u8]) -> Result<Value, JsonFrontendError>
    ensures { MatchResult result (λ value. IsValueOf text.now (view value)) (λ e. ((arch : TargetArch) → TellsFrontendFault arch text.now e)
        × IsBeforePolicies e × IsNoFailedRead e × IsNoMemoryInFrontend e) }
{
    match Value::from_slice(alloc, text) {
        Ok(value) if repeats_key(text, &value) => Err(JsonFrontendError::RepeatedKey),
        Ok(value) => Ok(value),
        Err(error) if error.is_memory() => Err(JsonFrontendError::OutOfMemory),
        Err(error) => Err(JsonFrontendError::SerdeJson(error)),
    }
}

/// The value of the text that a reader gives. The text is dropped first, and the value last of all that is made of it, as it is
/// many small pieces of memory: an allocator joins those that were given back whenever a large one is asked for or given back.
pub(crate) fn value_from<R: Read + Drop>(
    alloc: Global,
    reader: R,
) -> Result<Value, JsonFrontendError>
    ensures value { IfOk result (λ value. Reads (R.remaining reader) (λ text. IsValueOf text (view value))) }
    ensures fault { IfErr result (λ e. Reads (R.remaining reader) (λ text. (arch : TargetArch) → TellsFrontendFault arch text e)) }
    ensures memory { IfErr result IsNoMemoryInFrontend }
{
    let text = text_of(alloc, reader)?;
    value_of(alloc, text.as_slice())
}
