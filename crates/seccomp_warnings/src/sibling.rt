// Calls by which the same can be done.

ghost use Rattle.std.specs.Prelude.{◌↔◌, Any, IsTrue, map};
ghost use Rattle.seccomp_warnings.specs.CallWarnings.{IsDeniedAlone, IsOpen, IsUndone, IsUnnamed};

use crate::action::permits;
use crate::call::{has_no_args, is_number_of, names_call};
use crate::part::Part;
use crate::tables::SIBLINGS;
use seccomp_entries::Entry;
use seccompiler::SyscallTable;

/// The first call of the table by which the same can be done as by those of an entry of a part, and which is let through, as no entry is for
/// it; none if there is none, or the part has no entry at the place.
pub fn sibling_of(part: &Part, place: usize) -> Option<&'static str> {
    let entry = part.entries.get(place)?;
    for row in &SIBLINGS {
        if is_open(part, entry, row.0, row.1) {
            return Some(row.1);
        }
    }
    None
}

// Whether the entry denies each of its calls, and there is such a call.
pub(crate) fn is_undone(part: &Part, entry: &Entry) -> bool
    ensures { IsTrue result ↔ IsUndone part.now entry.now }
{
    is_denied_alone(part, entry) && has_open(part, entry, &SIBLINGS)
}

// Whether calls that an entry matches are denied and the others let through, and this entry matches each of its calls.
fn is_denied_alone(part: &Part, entry: &Entry) -> bool
    ensures { IsTrue result ↔ IsDeniedAlone part.now entry.now }
{
    !permits(part.actions.matching) && permits(part.actions.mismatch) && has_no_args(entry)
}

// Whether of one of these pairs the first call is the entry's, and the second is unnamed.
fn has_open(part: &Part, entry: &Entry, rows: &[(&str, &str)]) -> bool
    ensures { IsTrue result ↔ Any (IsOpen part.now entry.now) (map (λ row. (row.0.now, row.1.now)) rows.now) }
{
    is_listed(part, entry, rows)
}

// The same, said of the rows as they are lent.
fn is_listed(part: &Part, entry: &Entry, rows: &[(&str, &str)]) -> bool
    ensures { IsTrue result ↔ Any (λ row. IsOpen part.now entry.now (row.0.now, row.1.now)) rows.now }
{
    rows.iter().any(|row| is_open(part, entry, row.0, row.1))
}

// Whether the first call is the entry's, and the second is unnamed.
fn is_open(part: &Part, entry: &Entry, name: &str, other: &str) -> bool
    ensures { IsTrue result ↔ IsOpen part.now entry.now (name.now, other.now) }
{
    is_number_of(part.target_arch, name, entry.number) && is_unnamed(part, other)
}

// Whether the architecture has the call, and no entry is for it.
fn is_unnamed(part: &Part, name: &str) -> bool
    ensures { IsTrue result ↔ IsUnnamed part.now name.now }
{
    SyscallTable::new(part.target_arch)
        .get_syscall_nr(name)
        .is_some()
        && !names_call(part, name)
}
