// What the filters of one text mean for the warnings of each other.

ghost use Rattle.std.specs.Prelude.{◌≡◌, ◌↔◌, ◌⊎◌, Any, Contains, IfOk, IsTrue, OnOk, map};
ghost use Rattle.seccomp_warnings.specs.Beside.{AreCodesBeside, DoesMore, HasArgs, HidesAlone, HidesByEntry, HidesClone3, IsBeside, NamesClone3};
ghost use Rattle.seccomp_warnings.specs.declared.code.Code.{Code as CodeValue};

use crate::action::permits;
use crate::code::Code;
use seccomp_entries::Action;
use seccompiler::{JsonFilter, JsonFilterMap, JsonRule};
use std::alloc::{AllocError, Global};

// The return value that fails a call with errno 38, ENOSYS.
const ERRNO_ENOSYS: u32 = 0x0005_0026;

/// What is so of some filter of a text.
#[derive(Clone, Copy)]
pub struct Beside {
    /// It answers each `clone3` by errno 38, `ENOSYS`.
    pub hides_clone3: bool,
    /// It does more than this, or doesn't do it.
    pub does_more: bool,
}

// Whether an entry is for clone3.
fn names_clone3(rule: &JsonRule) -> bool
    ensures { IsTrue result ↔ NamesClone3 rule.now }
{
    rule.syscall.as_str() == "clone3"
}

// Whether an entry has conditions.
fn has_args(rule: &JsonRule) -> bool
    ensures { IsTrue result ↔ HasArgs rule.now }
{
    match &rule.conditions {
        Some(conditions) => !conditions.is_empty(),
        None => false,
    }
}

// Whether the entries of a filter match each clone3, and it answers what they match by errno 38.
fn hides_by_entry(filter: &JsonFilter) -> bool
    ensures { IsTrue result ↔ HidesByEntry filter.now }
{
    let mut rules = filter.rules.iter();
    u32::from(filter.match_action) == ERRNO_ENOSYS
        && rules.any(|rule| names_clone3(rule) && !has_args(rule))
}

/// Whether a filter answers each `clone3` by errno 38, `ENOSYS`, as a kernel that hasn't the call: by an entry without
/// conditions, or since no entry is for it.
pub fn hides_clone3(filter: &JsonFilter) -> bool
    ensures { IsTrue result ↔ HidesClone3 filter.now }
{
    if hides_by_entry(filter) {
        return true;
    }
    u32::from(filter.mismatch_action) == ERRNO_ENOSYS && !filter.rules.iter().any(names_clone3)
}

// Whether a filter answers each clone3 by errno 38, and lets all other calls through.
fn hides_alone(filter: &JsonFilter) -> bool
    ensures { IsTrue result ↔ HidesAlone filter.now }
{
    hides_by_entry(filter)
        && permits(Action::Own(filter.mismatch_action))
        && filter.rules.iter().all(names_clone3)
}

/// What is so of some filter of a text.
pub fn beside_of(filters: &JsonFilterMap) -> Beside
    ensures { IsBeside filters.now.0.entries result }
{
    Beside {
        hides_clone3: some_hides(filters),
        does_more: some_does_more(filters),
    }
}

fn some_hides(filters: &JsonFilterMap) -> bool
    ensures { IsTrue result ↔ Any HidesClone3 (map (λ named. named.1) filters.now.0.entries) }
{
    filters.0.values().any(|filter| hides_clone3(filter))
}

fn some_does_more(filters: &JsonFilterMap) -> bool
    ensures { IsTrue result ↔ Any DoesMore (map (λ named. named.1) filters.now.0.entries) }
{
    filters.0.values().any(|filter| !hides_alone(filter))
}

// Adds a code if something is so.
fn push_if(codes: &mut Vec<Code>, is_so: bool, code: Code) -> Result<(), AllocError>
    ensures { OnOk result ((kind : CodeValue) → Contains codes.new.items kind ↔ (Contains codes.old.items kind ⊎ ((kind ≡ code) × IsTrue is_so))) }
{
    if is_so {
        codes.push(code)?;
    }
    Ok(())
}

/// The codes of which a filter has no warning, in a text of which this is so: the allowed ones;
/// [`CloneByClone3`](Code::CloneByClone3), if a filter of the text answers each `clone3` by errno 38; and
/// [`AllowsByDefault`](Code::AllowsByDefault) of a filter that does this and nothing else, if another one of the text doesn't.
///
/// # Errors
///
/// An error is returned if memory runs out.
pub fn codes_beside(
    alloc: Global,
    allowed: &[Code],
    beside: Beside,
    filter: &JsonFilter,
) -> Result<Vec<Code>, AllocError>
    ensures { IfOk result (λ codes. AreCodesBeside allowed.now beside filter.now codes.items) }
{
    let mut codes = allowed.to_vec(alloc)?;
    push_if(&mut codes, beside.hides_clone3, Code::CloneByClone3)?;
    let of_pair = beside.does_more && hides_alone(filter);
    push_if(&mut codes, of_pair, Code::AllowsByDefault)?;
    Ok(codes)
}
