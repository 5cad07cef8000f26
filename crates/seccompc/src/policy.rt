// A policy's programs.

ghost use Rattle.std.specs.Prelude.{ℕ, List, IfOk, IfErr, IfSome};
ghost use Rattle.std.specs.BTreeMap.{get_by_text};
ghost use Rattle.seccompiler.specs.Machine.{IsChecked};
ghost use Rattle.seccompiler.specs.Errors.{IsNoMemoryInside};
ghost use Rattle.seccompiler.specs.JsonAnswers.{OfValue};
ghost use Rattle.seccompiler.specs.JsonPrograms.{TellsFirstFault};
ghost use Rattle.seccompiler.specs.Reads.{Reads};
ghost use Rattle.seccompc.specs.EngineSteps.{HasPrograms};
ghost use Rattle.seccompc.specs.Faults.{OfPolicy, IsRefusedPolicy};

use crate::architecture::architecture_of;
use crate::error::ToolError;
use seccompiler::json::text_of;
use seccompiler::{BpfProgram, TargetArch, programs_of};
use std::alloc::Global;
use std::collections::BTreeMap;
use std::io::Read;

// The programs of a policy on the architecture of this name, which is looked at first, in byte order of
// the filters' names.
pub(crate) fn compiled<P: Read + Drop>(
    alloc: Global,
    arch: &str,
    policy: P,
) -> Result<BTreeMap<String, BpfProgram>, ToolError>
    ensures programs { IfOk result (λ programs. OfPolicy arch.now (P.remaining policy) (λ target. HasPrograms target programs)) }
    ensures checked { IfOk result (λ programs. (name : List ℕ) → IfSome (get_by_text programs name) (λ program. IsChecked program.items)) }
    ensures refused { IfErr result (IsRefusedPolicy arch.now (P.remaining policy)) }
{
    let target = architecture_of(alloc, arch)?;
    Ok(programs_in(alloc, policy, target)?)
}

// The programs of a policy on an architecture, in byte order of the filters' names.
fn programs_in<P: Read + Drop>(
    alloc: Global,
    policy: P,
    target: TargetArch,
) -> seccompiler::Result<BTreeMap<String, BpfProgram>>
    ensures programs { IfOk result (λ programs. Reads (P.remaining policy) (λ text. OfValue text (HasPrograms target programs))) }
    ensures checked { IfOk result (λ programs. (name : List ℕ) → IfSome (get_by_text programs name) (λ program. IsChecked program.items)) }
    ensures fault { IfErr result (λ e. Reads (P.remaining policy) (λ text. TellsFirstFault target text e)) }
    ensures memory { IfErr result IsNoMemoryInside }
{
    let text = text_of(alloc, policy)?;
    programs_of(alloc, text.as_slice(), target)
}
