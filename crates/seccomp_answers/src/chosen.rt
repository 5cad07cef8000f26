// The filter of a policy that is asked for.

ghost use Rattle.std.specs.Prelude.{◌≡◌, ℤ, IfErr, IfOk, None, OnOk, string_bytes};
ghost use Rattle.std.specs.BTreeMap.{get_by_text};
ghost use Rattle.seccomp_answers.specs.Chosen.{HasNamed, IsChosen, IsNamed, text_of};
ghost use Rattle.seccomp_answers.specs.Sides.{IsFilterOf};
ghost use Rattle.seccompiler.specs.Compiled.{IsLeastUnfit, numbers_of};
ghost use Rattle.seccompiler.specs.JsonAnswers.{OfValue};
ghost use Rattle.seccompiler.specs.JsonFilters.{AreFound};
ghost use Rattle.seccompiler.specs.JsonShape.{IsFilter};
ghost use Rattle.seccomp_answers.specs.Causes.{IsMissingIn, IsOfName, IsUnchosenIn, IsUnpicked};

use crate::error::AnswerError;
use crate::policy::{filters_in, policies_in};
use seccomp_text::readable::{TextKind, push_readable};
use seccompiler::{JsonFilterMap, SeccompFilter, TargetArch};
use std::alloc::{AllocError, Global};
use std::collections::BTreeMap;

// The name that is asked for, or that of the only filter.
pub(crate) fn chosen_name<V>(
    alloc: Global,
    asked: Option<&str>,
    filters: &BTreeMap<String, V>,
) -> Result<String, AnswerError>
    ensures named { IfOk result (λ name. IsNamed (text_of asked.entry) (get_by_text filters.now) (string_bytes name)) }
    ensures cause { IfErr result (IsUnchosenIn (text_of asked.entry) (get_by_text filters.now)) }
{
    if let Some(name) = asked {
        return Ok(String::from_str(alloc, name)?);
    }
    if filters.len() == 1 {
        if let Some((name, _)) = filters.first_key_value() {
            return Ok(name.clone()?);
        }
    }
    Err(AnswerError::Unchosen(names_of(alloc, filters)?))
}

// The names, an empty one in quotes.
fn names_of<V>(alloc: Global, filters: &BTreeMap<String, V>) -> Result<String, AllocError> {
    let mut names = Vec::new(alloc);
    for (name, _) in filters {
        if !names.is_empty() {
            names.extend_from_slice(b", ")?;
        }
        let name = if name.is_empty() { "''" } else { name.as_str() };
        push_readable(&mut names, name, TextKind::Name)?;
    }
    String::from_utf8_lossy(alloc, &names)
}

/// The filter of a policy's text that is asked for, or the only one, and its name.
///
/// # Errors
///
/// `Placed` or `Library` with what is at fault in the policy; `NoFilter` with the name if no filter has the one that is asked for; `Unchosen` if
/// none is asked for and the policy doesn't have exactly one. `OutOfMemory` if memory runs out.
pub fn chosen_filter(
    alloc: Global,
    target: TargetArch,
    asked: Option<&str>,
    text: &[u8],
) -> Result<(String, SeccompFilter), AnswerError>
    ensures chosen { IfOk result (λ one. IsFilterOf target (text_of asked.entry) text.now one.1) }
    ensures fits { IfOk result (λ one. (n : ℤ) → IsLeastUnfit (numbers_of one.1.chains) n → ⊥) }
    ensures cause { IfErr result (IsUnpicked target (text_of asked.entry) text.now) }
{
    let mut filters = policies_in(alloc, target, text)?;
    let name = chosen_name(alloc, asked, &filters)?;
    match filters.remove(name.as_str()) {
        Some(filter) => Ok((name, filter)),
        None => Err(AnswerError::NoFilter(name)),
    }
}

/// The filters of a policy's text, before any is compiled, and the name of the one that is asked for, or of the only one.
///
/// # Errors
///
/// Those of [`chosen_filter`], but for what is at fault in filters alone.
pub fn named_filters(
    alloc: Global,
    target: TargetArch,
    asked: Option<&str>,
    text: &[u8],
) -> Result<(JsonFilterMap, String), AnswerError>
    ensures filters { IfOk result (λ of. OfValue text.now (AreFound IsFilter (get_by_text of.0.0))) }
    ensures chosen { IfOk result (λ of. IsChosen text.now (text_of asked.entry) (string_bytes of.1)) }
    ensures there { IfOk result (λ of. HasNamed text.now (get_by_text of.0.0) (string_bytes of.1)) }
    ensures cause { IfErr result (IsUnpicked target (text_of asked.entry) text.now) }
{
    let filters = filters_in(alloc, target, text)?;
    let name = chosen_name(alloc, asked, &filters.0)?;
    match filters.0.get(name.as_str()) {
        Some(_) => Ok((filters, name)),
        None => Err(AnswerError::NoFilter(name)),
    }
}

// That there is a filter of the name that is asked for, if one is.
pub(crate) fn refuse_missing<V>(
    alloc: Global,
    asked: Option<&str>,
    filters: &BTreeMap<String, V>,
) -> Result<(), AnswerError>
    ensures { IfErr result (IsMissingIn (text_of asked.entry) (get_by_text filters.now)) }
{
    let Some(name) = asked else {
        return Ok(());
    };
    match filters.get(name) {
        Some(_) => Ok(()),
        None => Err(AnswerError::NoFilter(String::from_str(alloc, name)?)),
    }
}

/// That no filter is asked for, where there is none.
pub fn refuse_name(alloc: Global, asked: Option<&str>) -> Result<(), AnswerError>
    ensures unasked { OnOk result (asked.entry ≡ None) }
    ensures cause { IfErr result (IsOfName (text_of asked.entry)) }
{
    match asked {
        Some(name) => Err(AnswerError::NoFilter(String::from_str(alloc, name)?)),
        None => Ok(()),
    }
}
