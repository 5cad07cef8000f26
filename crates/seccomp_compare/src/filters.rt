// Comparisons of filters with filters and with programs, by the filters' programs.

ghost use Rattle.std.specs.Prelude.{IfOk, IfErr, OnOk};
ghost use Rattle.seccomp_compare.specs.CompareFilters.{ComparesFilters, IsCompilableInSome, IsComparisonRefusal, ComparesProgram};
ghost use Rattle.seccomp_tree.specs.Layouts.{IsFittingRefusal};
ghost use Rattle.seccomp_compare.specs.Machine.{IsChecked};

use crate::{Calls, Comparison, Relation, compare};
use seccomp_tree::fitting_bpf;
use seccompiler::bpf::BpfProgramRef;
use seccompiler::{BackendError, SeccompFilter};
use std::alloc::Global;

/// Compares what two filters decide, for each call of a set.
///
/// `Holds` says that on every call of the set the value that [`decide`](SeccompFilter::decide) gives for
/// `filter` is related to the one it gives for `other`; `Fails` has a call of the set on which it isn't. To ask
/// whether a new policy permits nothing that the old one doesn't, give the new one as `filter`, the old one as
/// `other`, and `AtMostAsPermissive`.
///
/// It compares the programs of [`fitting_bpf`](seccomp_tree::fitting_bpf) as [`compare`](crate::compare) does:
/// trees if they fit, else linear programs. It looks at no more than `most` sets of records.
///
/// # Errors
///
/// Those of `filter`, then those of `other`: `InvalidSyscallNumber` with the least key that lies outside 0 to
/// 4294967295; `FilterTooLarge` with `program_len` if neither layout fits 4096 instructions. `OutOfMemory` if
/// memory runs out.
///
/// # Examples
///
/// ```
/// // The new policy permits something of x86_64 that the old one doesn't.
/// let calls = Calls::of_arch(TargetArch::x86_64);
/// let relation = Relation::AtMostAsPermissive;
/// let answer = compare_filters(alloc, &new, &old, &calls, relation, 1_000_000)?;
/// assert!(rt; matches!(answer, Comparison::Fails(_)));
/// ```
pub fn compare_filters(
    alloc: Global,
    filter: &SeccompFilter,
    other: &SeccompFilter,
    calls: &Calls,
    relation: Relation,
    most: usize,
) -> Result<Comparison, BackendError>
    ensures compares { IfOk result (λ answer. ComparesFilters calls.now relation filter.now other.now answer) }
    ensures compilable { OnOk result (IsCompilableInSome filter.now × IsCompilableInSome other.now) }
    ensures refused { IfErr result (IsComparisonRefusal filter.now other.now) }
{
    let program = fitting_bpf(alloc, filter)?;
    let other_program = fitting_bpf(alloc, other)?;
    compare(alloc, &program, &other_program, calls, relation, most)
}

/// Compares what a program returns with what the filter decides, for each call of a set.
///
/// `Holds` says that on every call of the set the value that the program returns is related to the one that
/// [`decide`](SeccompFilter::decide) gives; `Fails` has a call of the set on which it isn't. The program must
/// pass [`machine::check`](crate::machine::check), and may be of any compiler. `AtMostAsPermissive` asks
/// whether it permits nothing that the policy doesn't.
///
/// The filter's own program is made as [`compare_filters`] makes it, and the comparison looks at no more than
/// `most` sets of records.
///
/// # Errors
///
/// `InvalidSyscallNumber` with the least key that lies outside 0 to 4294967295; `FilterTooLarge` with
/// `program_len` if neither layout fits 4096 instructions. `OutOfMemory` if memory runs out.
pub fn compare_program(
    alloc: Global,
    program: BpfProgramRef<'_>,
    filter: &SeccompFilter,
    calls: &Calls,
    relation: Relation,
    most: usize,
) -> Result<Comparison, BackendError>
    requires { IsChecked program.now }
    ensures compares { IfOk result (λ answer. ComparesProgram calls.now relation program.now filter.now answer) }
    ensures compilable { OnOk result (IsCompilableInSome filter.now) }
    ensures refused { IfErr result (IsFittingRefusal filter.now) }
{
    let own = fitting_bpf(alloc, filter)?;
    compare(alloc, program, &own, calls, relation, most)
}
