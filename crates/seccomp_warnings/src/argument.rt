// What is so of the arguments of calls.

ghost use Rattle.std.specs.Prelude.{◌≡◌, ◌↔◌, Any, IsSomeAnd, IsTrue, map, slice_get};
ghost use Rattle.seccomp_warnings.specs.CallWarnings.{HasRow, IsNumberOf, IsSoOfArgument};

use crate::call::is_number_of;
use crate::code::Code;
use crate::part::Part;
use crate::tables::{ADDRESSES, SIGNED};
use crate::warning::Comparison;
use seccompiler::{SeccompCmpOp, TargetArch};

// Whether one of the rows has the argument of this index of the call of this number.
fn has_row(arch: TargetArch, number: u32, index: u8, rows: &[(&str, u8)]) -> bool
    ensures { IsTrue result ↔ HasRow arch number index (map (λ row. (row.0.now, row.1)) rows.now) }
{
    is_listed(arch, number, index, rows)
}

// The same, said of the rows as they are lent.
fn is_listed(arch: TargetArch, number: u32, index: u8, rows: &[(&str, u8)]) -> bool
    ensures { IsTrue result ↔ Any (λ row. IsNumberOf arch row.0.now number × (row.1 ≡ index)) rows.now }
{
    rows.iter()
        .any(|row| row.1 == index && is_number_of(arch, row.0, number))
}

// Whether what a code says is so of a condition on an argument of the call of this number.
fn is_so_of_call(code: Code, arch: TargetArch, number: u32, comparison: Comparison) -> bool
    ensures { IsTrue result ↔ IsSoOfArgument code arch number comparison }
{
    let index = comparison.arg_index;
    match code {
        Code::PointerCompared => {
            comparison.value != 0 && has_row(arch, number, index, &ADDRESSES)
        }
        // The operator asks for the order of numbers.
        Code::SignedCompared => match comparison.operator {
            SeccompCmpOp::Ge | SeccompCmpOp::Gt | SeccompCmpOp::Le | SeccompCmpOp::Lt => {
                has_row(arch, number, index, &SIGNED)
            }
            _ => false,
        },
        _ => false,
    }
}

// The same of a condition of a part, on an argument of its entry's call.
pub(crate) fn is_so_of_argument(code: Code, part: &Part, comparison: Comparison) -> bool
    ensures { IsTrue result ↔ IsSomeAnd (slice_get part.now.entries comparison.entry) (λ e. IsSoOfArgument code part.now.target_arch e.number comparison) }
{
    match part.entries.get(comparison.entry) {
        Some(entry) => is_so_of_call(code, part.target_arch, entry.number, comparison),
        None => false,
    }
}
