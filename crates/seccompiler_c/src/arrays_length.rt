// How long the program of a filter of arrays is; the linear one, whether or not it may be compiled.

ghost use Rattle.std.specs.Prelude.{◌≡◌, min, ℕ, IfOk, IfErr};
ghost use Rattle.seccompiler.specs.Compiled.{numbers_of, AreCallNumbers};
ghost use Rattle.seccompiler_c.specs.ArraysLengths.{IsLengthIn, IsNoLength, IsUnmeasured};
ghost use Rattle.seccompiler_c.specs.ArraysPrograms.{OfFilter};

use crate::arrays::{seccompiler_chain, seccompiler_condition, seccompiler_rule};
use crate::arrays_fault::ArraysFault;
use crate::arrays_program::{Words, filter_in_layout};
use seccomp_tree::{FilterError, Layout, to_tree_bpf};
use seccompiler::SeccompFilter;
use std::alloc::Global;

// How many instructions the program of the filter of arrays has in the layout, or `usize::MAX` if that is
// less.
pub(crate) fn length_of_arrays(
    alloc: Global,
    chains: &[seccompiler_chain],
    rules: &[seccompiler_rule],
    conditions: &[seccompiler_condition],
    words: Words,
) -> Result<usize, ArraysFault>
    ensures length { IfOk result (λ found. OfFilter (record { chains = chains.now; rules = rules.now; conditions = conditions.now; words = words; capacity = 0 }) (λ layout filter. (n : ℕ) × IsLengthIn layout filter n × (found ≡ min n usize.MAX))) }
    ensures refused { IfErr result (IsNoLength (record { chains = chains.now; rules = rules.now; conditions = conditions.now; words = words; capacity = 0 })) }
{
    let (filter, layout) = filter_in_layout(alloc, chains, rules, conditions, words)?;
    length_in(alloc, layout, &filter)
}

// How many instructions a filter's program has in a layout, or `usize::MAX` if that is less.
fn length_in(alloc: Global, layout: Layout, filter: &SeccompFilter) -> Result<usize, ArraysFault>
    requires numbers { AreCallNumbers (numbers_of filter.now.chains) }
    ensures length { IfOk result (λ found. (n : ℕ) × IsLengthIn layout filter.now n × (found ≡ min n usize.MAX)) }
    ensures refused { IfErr result (IsUnmeasured layout filter.now) }
{
    match layout {
        Layout::Linear => Ok(filter.program_len()),
        Layout::Tree => match to_tree_bpf(alloc, filter) {
            Ok(program) => Ok(program.len()),
            Err(FilterError::TreeTooLarge) => Err(ArraysFault::TooLarge),
            Err(_) => Err(ArraysFault::OutOfMemory),
        },
    }
}
