// The policy that a JSON text has under a name.

ghost use Rattle.std.specs.Prelude.{◌≡◌, All, IfOk, IfErr};
ghost use Rattle.seccompiler.specs.Compiled.{numbers_of};
ghost use Rattle.seccompiler.specs.SyscallTable.{IsTableNumber};
ghost use Rattle.seccompiler_c.specs.Policies.{NamesPolicy, IsPolicyFault};

use crate::fault::Fault;
use seccompiler::{JsonCompiler, SeccompFilter, TargetArch};
use std::alloc::Global;

// The policy of the text's filter of this name on an architecture.
pub(crate) fn policy_of(
    alloc: Global,
    text: &[u8],
    target: TargetArch,
    name: &[u8],
) -> Result<SeccompFilter, Fault>
    ensures policy { IfOk result (λ found. NamesPolicy target text.now name.now (λ policy. policy ≡ found)) }
    ensures numbers { IfOk result (λ found. All IsTableNumber (numbers_of found.chains)) }
    ensures fault { IfErr result (IsPolicyFault target text.now name.now) }
{
    let mut policies = JsonCompiler::new(target).policies_of(alloc, text)?;
    // A name of a JSON text is UTF-8.
    let Ok(name) = std::str::from_utf8(name) else {
        return Err(Fault::NoFilter);
    };
    match policies.remove(name) {
        Some(policy) => Ok(policy),
        None => Err(Fault::NoFilter),
    }
}
