// The names of numbers.

ghost use Rattle.std.specs.Prelude.{◌≡◌, Some, pos, IfSome, IfNone};
ghost use Rattle.seccompiler.specs.Architecture.{table_of};
ghost use Rattle.seccompiler.specs.SyscallTable.{number_of};
ghost use Rattle.seccomp_learn.specs.Observed.{HasName};

use seccompiler::{SyscallTable, TargetArch};

// More than the greatest number of a call.
pub(crate) const NUMBERS: usize = 512;

/// Where each number stands in the table of an architecture.
pub(crate) fn places_of(arch: TargetArch) -> [usize; NUMBERS] {
    let mut places = [0; NUMBERS];
    for (place, number) in SyscallTable::new(arch).numbers().iter().enumerate() {
        if let Ok(number) = usize::try_from(*number) {
            places[number % NUMBERS] = place;
        }
    }
    places
}

/// The same as [`name_of`], which goes over the whole table; from these places, where the number most likely stands.
pub(crate) fn name_by(
    places: &[usize; NUMBERS],
    arch: TargetArch,
    number: u32,
) -> Option<&'static str>
    ensures name { IfSome result (λ name. number_of (table_of arch) name.now ≡ Some (pos number)) }
    ensures none { IfNone result (HasName arch number → ⊥) }
{
    let table = SyscallTable::new(arch);
    let numbers = table.numbers();
    let wanted = i64::from(number);
    let place = places[number as usize % NUMBERS];
    if place < numbers.len() && numbers[place] == wanted {
        let name = table.name(place);
        if table.get_syscall_nr(name) == Some(wanted) {
            return Some(name);
        }
    }
    name_of(arch, number)
}

/// The name of the call of this number, if the architecture has one.
pub fn name_of(arch: TargetArch, number: u32) -> Option<&'static str>
    ensures name { IfSome result (λ name. number_of (table_of arch) name.now ≡ Some (pos number)) }
    ensures none { IfNone result (HasName arch number → ⊥) }
{
    let table = SyscallTable::new(arch);
    let numbers = table.numbers();
    let wanted = i64::from(number);
    for place in 0..numbers.len() {
        if numbers[place] == wanted {
            let name = table.name(place);
            if table.get_syscall_nr(name) == Some(wanted) {
                return Some(name);
            }
        }
    }
    None
}
