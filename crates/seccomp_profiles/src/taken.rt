// The entries of a profile as they are taken for the calls of 32-bit programs.

ghost use Rattle.std.specs.Prelude.{◌≡◌, ◌++◌, ◌∷◌, [], IfOk, if◌then◌else◌, map, string_bytes};
ghost use Rattle.std.specs.List.{flat_map};
ghost use Rattle.seccomp_profiles.specs.Taken.{asked_by, cut, cut_entry, entries_by, entries_for_name, entries_for_names, taken, with_parts};

use crate::concerns::share_argument;
use crate::{Abi, Argument, Criteria, Entry, Operator, Profile};
use seccomp_names::CallTable;
use std::alloc::{AllocError, Global};

/// The entries that count: none if the architecture isn't listed. If calls are shared, as on i386, those of `socketcall` and
/// `ipc` come behind all others.
pub(crate) fn taken(
    alloc: Global,
    is_listed: bool,
    are_shared: bool,
    entries: &[Entry],
) -> Result<Vec<Entry>, AllocError>
    ensures { IfOk result (λ all. all.items ≡ (if is_listed then taken are_shared entries.now else [])) }
{
    let mut all = Vec::new(alloc);
    if !is_listed {
        return Ok(all);
    }
    for entry in entries {
        all.push(cut_entry(alloc, entry)?)?;
    }
    if are_shared {
        push_shared(alloc, &mut all, entries)?;
    }
    Ok(all)
}

/// By places of the entries that count for these calls the places of the profile's entries that they are of; none if they are the
/// same.
///
/// # Errors
///
/// An error is returned if memory runs out.
pub fn places_on(alloc: Global, abi: Abi, profile: &Profile) -> Result<Vec<usize>, AllocError> {
    let (mut places, mut behind) = (Vec::new(alloc), Vec::new(alloc));
    if let Abi::I386 = abi {
        for (place, entry) in profile.entries.iter().enumerate() {
            places.push(place)?;
            for name in &entry.names {
                let number = CallTable::Socketcall.number_of(name.as_str());
                if number.or(CallTable::Ipc.number_of(name.as_str())).is_none() {
                    continue;
                }
                // An entry of its own for each condition, if one is enough.
                let args = entry.args.as_slice();
                let rules = if share_argument(args) { args.len() } else { 1 };
                for _ in 0..rules {
                    behind.push(place)?;
                }
            }
        }
    }
    places.append(&mut behind)?;
    Ok(places)
}

// Adds those of calls that share another one.
fn push_shared(alloc: Global, all: &mut Vec<Entry>, entries: &[Entry]) -> Result<(), AllocError>
    ensures { IfOk result (λ _. all.new.items ≡ all.old.items ++ flat_map entries_for_names entries.now) }
{
    for entry in entries {
        push_for_names(alloc, all, entry)?;
    }
    Ok(())
}

// Adds those of an entry's names.
fn push_for_names(alloc: Global, all: &mut Vec<Entry>, entry: &Entry) -> Result<(), AllocError>
    ensures { IfOk result (λ _. all.new.items ≡ all.old.items ++ entries_for_names entry.now) }
{
    push_for_each(alloc, all, entry, entry.names.as_slice())
}

// Adds those of these names.
fn push_for_each(
    alloc: Global,
    all: &mut Vec<Entry>,
    entry: &Entry,
    names: &[String],
) -> Result<(), AllocError>
    ensures { IfOk result (λ _. all.new.items ≡ all.old.items ++ flat_map (entries_for_name entry.now) (map string_bytes names.now)) }
{
    for name in names {
        push_for_name(alloc, all, entry, name.as_str())?;
    }
    Ok(())
}

// Adds those of a name.
fn push_for_name(
    alloc: Global,
    all: &mut Vec<Entry>,
    entry: &Entry,
    name: &str,
) -> Result<(), AllocError>
    ensures { IfOk result (λ _. all.new.items ≡ all.old.items ++ entries_for_name entry.now name.now) }
{
    let socketcall = CallTable::Socketcall.number_of(name);
    push_by(alloc, all, "socketcall", entry, socketcall)?;
    let ipc = CallTable::Ipc.number_of(name);
    push_by(alloc, all, "ipc", entry, ipc)
}

// Adds those for the call of this name, if it stands for the call of a number.
fn push_by(
    alloc: Global,
    all: &mut Vec<Entry>,
    call: &str,
    entry: &Entry,
    number: Option<u32>,
) -> Result<(), AllocError>
    ensures { IfOk result (λ _. all.new.items ≡ all.old.items ++ entries_by call.now entry.now number) }
{
    let Some(number) = number else {
        return Ok(());
    };
    let args = cut_all(alloc, entry.args.as_slice())?;
    let args = args.as_slice();
    if share_argument(args) {
        return push_each(alloc, all, call, entry, number, args);
    }
    push_asked(alloc, all, call, entry, number, args)
}

// Adds one for each of these conditions.
fn push_each(
    alloc: Global,
    all: &mut Vec<Entry>,
    call: &str,
    entry: &Entry,
    number: u32,
    args: &[Argument],
) -> Result<(), AllocError>
    ensures { IfOk result (λ _. all.new.items ≡ all.old.items ++ map (λ args. with_parts entry.now (call.now ∷ []) (asked_by number args)) (map (λ a. a ∷ []) args.now)) }
{
    for argument in args {
        push_asked(alloc, all, call, entry, number, &[*argument])?;
    }
    Ok(())
}

// Adds the one of these conditions.
fn push_asked(
    alloc: Global,
    all: &mut Vec<Entry>,
    call: &str,
    entry: &Entry,
    number: u32,
    args: &[Argument],
) -> Result<(), AllocError>
    ensures { IfOk result (λ _. all.new.items ≡ all.old.items ++ with_parts entry.now (call.now ∷ []) (asked_by number args.now) ∷ []) }
{
    let names = vec![in alloc; String::from_str(alloc, call)?]?;
    let args = asked_by(alloc, number, args)?;
    all.push(with_parts(alloc, entry, names, args)?)?;
    Ok(())
}

// The conditions of a call that another one stands for.
fn asked_by(alloc: Global, number: u32, args: &[Argument]) -> Result<Vec<Argument>, AllocError>
    ensures { IfOk result (λ all. all.items ≡ asked_by number args.now) }
{
    let mut all = vec![in alloc;
        Argument {
            index: 0,
            value: u64::from(number),
            value_two: 0,
            operator: Operator::Eq,
        },
    ]?;
    for argument in args {
        if argument.index != 0 {
            all.push(*argument)?;
        }
    }
    Ok(all)
}

// The entry with the low 32 bits of the numbers of its conditions.
fn cut_entry(alloc: Global, entry: &Entry) -> Result<Entry, AllocError>
    ensures { IfOk result (λ own. own ≡ cut_entry entry.now) }
{
    let names = copies(alloc, entry.names.as_slice())?;
    let args = cut_all(alloc, entry.args.as_slice())?;
    with_parts(alloc, entry, names, args)
}

// The conditions with the low 32 bits of their numbers.
fn cut_all(alloc: Global, args: &[Argument]) -> Result<Vec<Argument>, AllocError>
    ensures { IfOk result (λ all. all.items ≡ map cut args.now) }
{
    let mut all = Vec::with_capacity(alloc, args.len())?;
    for argument in args {
        all.push(cut(argument))?;
    }
    Ok(all)
}

// The condition with the low 32 bits of its numbers.
fn cut(argument: &Argument) -> Argument
    ensures { result ≡ cut argument.now }
{
    Argument {
        index: argument.index,
        value: argument.value % (1 << 32),
        value_two: argument.value_two % (1 << 32),
        operator: argument.operator,
    }
}

// The entry with these names and conditions.
fn with_parts(
    alloc: Global,
    entry: &Entry,
    names: Vec<String>,
    args: Vec<Argument>,
) -> Result<Entry, AllocError>
    ensures { IfOk result (λ own. own ≡ with_parts entry.now (map string_bytes names.items) args.items) }
{
    Ok(Entry {
        names,
        action: entry.action,
        args,
        includes: copy_of(alloc, &entry.includes)?,
        excludes: copy_of(alloc, &entry.excludes)?,
    })
}

// The same criteria.
fn copy_of(alloc: Global, criteria: &Criteria) -> Result<Criteria, AllocError>
    ensures { IfOk result (λ copy. copy ≡ criteria.now) }
{
    Ok(Criteria {
        caps: copies(alloc, criteria.caps.as_slice())?,
        arches: copies(alloc, criteria.arches.as_slice())?,
        min_kernel: criteria.min_kernel,
    })
}

// The same texts.
fn copies(alloc: Global, texts: &[String]) -> Result<Vec<String>, AllocError>
    ensures { IfOk result (λ all. map string_bytes all.items ≡ map string_bytes texts.now) }
{
    let mut all = Vec::with_capacity(alloc, texts.len())?;
    for text in texts {
        all.push(String::from_str(alloc, text.as_str())?)?;
    }
    Ok(all)
}
