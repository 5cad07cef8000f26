// The program that a caller asks for.

ghost use Rattle.std.specs.Prelude.{◌≡◌, ◌≤◌, length, IfOk, IfErr};
ghost use Rattle.seccompiler_c.specs.Programs.{OfProgram, IsRefusal};

use crate::arguments::{architecture_of, layout_of};
use crate::fault::Fault;
use crate::policy::policy_of;
use seccomp_tree::to_bpf_in;
use seccompiler::BpfProgram;
use std::alloc::Global;

// The program of the filter of a name in a text, for the architecture of a word, in the layout of a
// number, if it has at most so many instructions.
pub(crate) fn program_of(
    alloc: Global,
    text: &[u8],
    architecture: u32,
    name: &[u8],
    layout: u32,
    capacity: usize,
) -> Result<BpfProgram, Fault>
    ensures program { IfOk result (λ found. OfProgram (record { text = text.now; architecture = architecture; name = name.now; layout = layout; capacity = capacity }) (λ program. program ≡ found.items)) }
    ensures fits { IfOk result (λ found. length found.items ≤ capacity) }
    ensures refused { IfErr result (IsRefusal (record { text = text.now; architecture = architecture; name = name.now; layout = layout; capacity = capacity })) }
{
    let Some(target) = architecture_of(architecture) else {
        return Err(Fault::UnknownArchitecture);
    };
    let Some(layout) = layout_of(layout) else {
        return Err(Fault::UnknownLayout);
    };
    let policy = policy_of(alloc, text, target, name)?;
    let program = to_bpf_in(alloc, &policy, layout)?;
    if program.len() > capacity {
        return Err(Fault::NoRoom(program.len()));
    }
    Ok(program)
}
