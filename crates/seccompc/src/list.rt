// The programs of a policy, as text.

ghost use Rattle.std.specs.Prelude.{IfErr};
ghost use Rattle.seccompc.specs.Errors.{KeepsOutput};
ghost use Rattle.seccompc.specs.Policies.{AnswersList};

use crate::error::ToolError;
use crate::policy::compiled;
use crate::program_text::listing;
use crate::streams::send;
use std::alloc::Global;
use std::io::{Read, Write};

/// Lists a program for each of a policy's filters, in byte order of the filters' names.
///
/// For each filter there is a line `filter LENGTH NAME` and a line for each instruction of its program: code in
/// 4, jt in 2, jf in 2 and k in 8 lower-case hexadecimal digits, separated by one space. In the name the bytes
/// 00 to 1f, 7f and the backslash are written as `\x` and two lower-case hexadecimal digits, all others as they
/// are. The whole listing is written at once.
///
/// The policy's text is what its reader gives. If the reader's type doesn't say what it reads, as standard
/// input's, the contract says that there is such a text.
///
/// # Errors
///
/// The first of these: `Library` with `InvalidTargetArch` and the text as it was given if `arch` is no
/// architecture's name, ASCII case aside; `Library` with what `compile_from_json` rejects the policy for,
/// `JsonFrontend(Read)` among it if the reader fails; `Write` if the writer fails. `OutOfMemory` comes in place
/// of any of these if memory runs out, in the reader too. On any error but `Write` nothing is written.
pub fn list<R: Read + Drop, W: Write>(
    alloc: Global,
    arch: &str,
    policy: R,
    out: &mut W,
) -> Result<(), ToolError>
    // When each answer comes, and what is written.
    ensures answers { AnswersList arch.now (R.remaining policy) result (W.contents out.old) (W.contents out.new) }
    ensures unwritten { IfErr result (λ e. KeepsOutput e out.old out.new) }
{
    let programs = compiled(alloc, arch, policy)?;
    let text = listing(alloc, &programs)?;
    send(out, text.as_slice())
}
