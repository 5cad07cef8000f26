// The two layouts of a filter's program.

ghost use Rattle.std.specs.Prelude.{IfOk, IfErr, OnOk};
ghost use Rattle.seccompiler.specs.Compiled.{AreCallNumbers, numbers_of};
ghost use Rattle.seccompiler.specs.Machine.{IsChecked};
ghost use Rattle.seccomp_tree.specs.declared.layout.Layout.TheVariants.{Tree};
ghost use Rattle.seccomp_tree.specs.Layouts.{AgreesInAll, Decides, IsCompiledIn, IsFitting, IsFittingRefusal, IsRefusalIn};

use crate::decisions::Decisions;
use crate::error::{FilterError, TreeError};
use seccompiler::{BackendError, BpfProgram, SeccompFilter};
use std::alloc::Global;

/// How a filter's program finds the rules of a call number.
///
/// In both layouts a program passes `machine::check`, and returns for every call record the value that
/// [`SeccompFilter::decide`](seccompiler::SeccompFilter::decide) gives. They differ in length and in steps.
#[derive(Clone, Copy, Debug, PartialEq, Eq)]
pub enum Layout {
    /// One chain after the other, in ascending order of call numbers, as the Rust crate lays programs
    /// out. A call's number is compared with each number in front of its own.
    Linear,
    /// A tree of tests over ranges of call numbers. A call's number is found by halving, and so is an
    /// argument if neighbouring rules compare it alone.
    Tree,
}

/// The filter's program in a layout: that of [`to_bpf`](seccompiler::SeccompFilter::to_bpf), or that of
/// [`to_tree_bpf`]. Both return the same value for every call record.
///
/// # Errors
///
/// Those of the layout's own call, in the same order. `FilterTooLarge` with `program_len` comes from the linear
/// layout, `TreeTooLarge` from the tree.
///
/// # Examples
///
/// ```
/// let linear = to_bpf_in(alloc, &filter, Layout::Linear)?;
/// let tree = to_bpf_in(alloc, &filter, Layout::Tree)?;
/// assert!(rt; run(&linear, &call).word == run(&tree, &call).word);
/// ```
pub fn to_bpf_in(
    alloc: Global,
    filter: &SeccompFilter,
    layout: Layout,
) -> Result<BpfProgram, FilterError>
    ensures compiled { IfOk result (λ program. IsCompiledIn layout filter.now program.items) }
    ensures agrees { IfOk result (λ program. AgreesInAll filter.now program.items) }

    // In either layout it may be run, and decides as the filter does.
    ensures checked { IfOk result (λ program. IsChecked program.items) }
    ensures decides { IfOk result (λ program. Decides filter.now program.items) }
    ensures numbers { OnOk result (AreCallNumbers (numbers_of filter.now.chains)) }
    ensures refused { IfErr result (IsRefusalIn layout filter.now) }
{
    match layout {
        Layout::Linear => match filter.to_bpf(alloc) {
            Ok(program) => Ok(program),
            Err(BackendError::InvalidSyscallNumber(number)) => {
                Err(FilterError::InvalidSyscallNumber(number))
            }
            Err(BackendError::FilterTooLarge(length)) => Err(FilterError::FilterTooLarge(length)),
            Err(_) => Err(FilterError::OutOfMemory),
        },
        Layout::Tree => to_tree_bpf(alloc, filter),
    }
}

/// The filter's program as one tree of tests: that of its [decisions](Decisions::of_filter).
///
/// It passes `machine::check`, and returns for every call record, within as many steps as it has instructions,
/// the value that [`decide`](seccompiler::SeccompFilter::decide) gives. A call that has no rules of its own, or
/// is of another architecture, is answered within `4 + 2 * k` steps, if `2^k` is at least the number of ranges
/// of call numbers that are answered alike.
///
/// # Errors
///
/// `InvalidSyscallNumber` with the least key that lies outside 0 to 4294967295, if there is one, which takes no
/// memory; `TreeTooLarge` if the program would have more than 4096 instructions, and only if the bound on its
/// length is more than that too; `OutOfMemory` if memory runs out.
///
/// # Examples
///
/// ```
/// let program = to_tree_bpf(alloc, &filter)?;
/// assert!(rt; check(&program));
/// ```
pub fn to_tree_bpf(alloc: Global, filter: &SeccompFilter) -> Result<BpfProgram, FilterError>
    ensures compiled { IfOk result (λ program. IsCompiledIn Tree filter.now program.items) }
    ensures numbers { OnOk result (AreCallNumbers (numbers_of filter.now.chains)) }
    ensures refused { IfErr result (IsRefusalIn Tree filter.now) }
{
    let decisions = Decisions::of_filter(alloc, filter)?;
    match decisions.to_bpf(alloc) {
        Ok(program) => Ok(program),
        Err(TreeError::TooLarge) => Err(FilterError::TreeTooLarge),
        Err(TreeError::OutOfMemory) => Err(FilterError::OutOfMemory),
    }
}

/// The filter's program as a [tree](to_tree_bpf) if that fits, else in the
/// [linear layout](seccompiler::SeccompFilter::to_bpf).
///
/// # Errors
///
/// `InvalidSyscallNumber` with the least key that lies outside 0 to 4294967295, if there is one;
/// `FilterTooLarge` with `program_len` if neither layout fits; `OutOfMemory` if memory runs out.
pub fn fitting_bpf(alloc: Global, filter: &SeccompFilter) -> Result<BpfProgram, BackendError>
    ensures fitting { IfOk result (λ program. IsFitting filter.now program.items) }
    ensures checked { IfOk result (λ program. IsChecked program.items) }
    ensures decides { IfOk result (λ program. Decides filter.now program.items) }
    ensures numbers { OnOk result (AreCallNumbers (numbers_of filter.now.chains)) }
    ensures refused { IfErr result (IsFittingRefusal filter.now) }
{
    match to_tree_bpf(alloc, filter) {
        Ok(program) => Ok(program),
        Err(FilterError::TreeTooLarge) => filter.to_bpf(alloc),
        Err(FilterError::InvalidSyscallNumber(number)) => {
            Err(BackendError::InvalidSyscallNumber(number))
        }
        Err(_) => Err(BackendError::OutOfMemory),
    }
}
