// The decision that a caller asks for.

ghost use Rattle.std.specs.Prelude.{pos, IfOk, IfErr};
ghost use Rattle.seccompiler_c.specs.Arguments.{OfArchitecture};
ghost use Rattle.seccompiler_c.specs.Decisions.{Decides, IsUndecided};
ghost use Rattle.seccompiler_c.specs.Policies.{NamesPolicy};

use crate::arguments::architecture_of;
use crate::fault::Fault;
use crate::policy::policy_of;
use std::alloc::Global;

// The word that the filter of a name in a text decides for a record, for the architecture of a word.
pub(crate) fn word_of(
    alloc: Global,
    text: &[u8],
    architecture: u32,
    name: &[u8],
    call: &[u8; 64],
) -> Result<u32, Fault>
    ensures word { IfOk result (λ word. OfArchitecture architecture (λ target. NamesPolicy target text.now name.now (Decides call.now (pos word)))) }
    ensures undecided { IfErr result (IsUndecided text.now architecture name.now) }
{
    let Some(target) = architecture_of(architecture) else {
        return Err(Fault::UnknownArchitecture);
    };
    let policy = policy_of(alloc, text, target, name)?;
    Ok(policy.decide(call))
}
