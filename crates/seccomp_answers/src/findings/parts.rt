// The parts of an architecture's calls: one for each number that has a name, and one for each range of numbers
// between these. x32's numbers are a range of their own.

ghost use Rattle.std.specs.Prelude.{◌≡◌, ◌^◌, ◌<◌, ℕ, IfOk, false, option_map, slice_index_or};
ghost use Rattle.std.specs.Option.{is_some};
ghost use Rattle.seccompiler.specs.Architecture.{table_of};
ghost use Rattle.seccomp_answers.specs.Findings as spec;
ghost use Rattle.seccomp_answers.specs.Findings.{ArePartsBelow};

use crate::findings::Part;
use seccompiler::{SyscallTable, TargetArch};
use std::alloc::{AllocError, Global};

// More than the greatest number that has a name.
const END: u32 = 463;

// More than the greatest number that has a name, for arrays by numbers.
const NUMBERS: usize = 512;

/// x32's numbers begin here (`__X32_SYSCALL_BIT` of asm/unistd.h).
pub const X32: u32 = 0x4000_0000;

/// The parts, in ascending order of their numbers.
pub fn parts(alloc: Global, target: TargetArch) -> Result<Vec<Part>, AllocError>
    ensures { IfOk result (λ parts. ArePartsBelow (table_of target) parts.items (2 ^ 32)) }
{
    // Its table has no number from the end on.
    let _table = SyscallTable::new(target);
    let named = are_named(target);
    let (mut parts, mut least) = (Vec::new(alloc), 0);
    for number in 0..END {
        if named[number as usize] {
            if least < number {
                parts.push(Part::Unnamed {
                    least,
                    greatest: number - 1,
                })?;
            }
            parts.push(Part::Named { number })?;
            least = number + 1;
        }
    }
    parts.push(Part::Unnamed {
        least,
        greatest: X32 - 1,
    })?;
    parts.push(Part::Unnamed {
        least: X32,
        greatest: u32::MAX,
    })?;
    Ok(parts)
}

// Whether each of so many numbers has a name.
fn are_named(target: TargetArch) -> [bool; NUMBERS]
    ensures { (n : ℕ) → n < NUMBERS → slice_index_or result n false ≡ is_some (spec.name_of (table_of target) n) }
{
    let mut named = [false; NUMBERS];
    for number in SyscallTable::new(target).numbers() {
        let Ok(number) = usize::try_from(*number) else {
            continue;
        };
        named[number] = true;
    }
    named
}

/// The first name of a number, in byte order.
pub fn name_of(target: TargetArch, number: u32) -> Option<&'static str>
    ensures { option_map (λ name. name.now) result ≡ spec.name_of (table_of target) number }
{
    let table = SyscallTable::new(target);
    let numbers = table.numbers();
    for place in 0..numbers.len() {
        if numbers[place] == i64::from(number) {
            return Some(table.name(place));
        }
    }
    None
}
