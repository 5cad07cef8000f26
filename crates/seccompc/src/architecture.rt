// The architecture that a word names.

ghost use Rattle.std.specs.Prelude.{IfOk, IfErr};
ghost use Rattle.seccompc.specs.Faults.{IsNameOf, IsRefusedName};

use crate::error::ToolError;
use seccompiler::TargetArch;
use std::alloc::Global;

// The architecture of this name, ASCII case aside: `Library` with `InvalidTargetArch` and the name as it was given if no
// architecture has it, or `OutOfMemory` if memory runs out.
pub(crate) fn architecture_of(alloc: Global, name: &str) -> Result<TargetArch, ToolError>
    ensures named { IfOk result (IsNameOf name.now) }
    ensures refused { IfErr result (IsRefusedName name.now) }
{
    Ok(TargetArch::from_text(alloc, name)?)
}
