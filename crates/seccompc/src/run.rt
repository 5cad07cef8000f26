// A filter of a policy, and what its program does with records.

ghost use Rattle.std.specs.Prelude.{IfErr};
ghost use Rattle.seccompc.specs.Errors.{KeepsOutput};
ghost use Rattle.seccompc.specs.Policies.{AnswersRun};

use crate::error::ToolError;
use crate::policy::compiled;
use crate::record_text::tell_records;
use std::alloc::Global;
use std::io::{Read, Write};

/// Runs the program of a policy's filter on records: for each whole record of 64 bytes it writes a line with
/// the value that the program returns and the steps that it takes.
///
/// A line is the value in 8 lower-case hexadecimal digits, a space, the steps in decimal, a line feed. The
/// policy is read to its end and compiled, and its filter `name` looked up, before the records are read; all
/// records are read before the first line is written, and all lines are written at once.
///
/// The policy's text and the records are what their readers give. If a reader's type doesn't say what it reads,
/// as a file's, the contract says that there are such bytes.
///
/// # Errors
///
/// The first of these: `Library` with `InvalidTargetArch` and the text as it was given if `arch` is no
/// architecture's name, ASCII case aside; `Library` with what `compile_from_json` rejects the policy for,
/// `JsonFrontend(Read)` among it if its reader fails; `NoFilter` with the name if no filter of the policy has
/// it; `Read` if the reader of the records fails; `Write` if the writer does; `ShortRecord` if 1 to 63 bytes
/// are left, after the lines of the whole records are written. `OutOfMemory` is returned instead of any of these if
/// memory runs out, in a reader too. On any error but `Write` and `ShortRecord` nothing is written.
pub fn run_policy<P: Read + Drop, R: Read + Drop, W: Write>(
    alloc: Global,
    arch: &str,
    policy: P,
    name: &str,
    records: R,
    out: &mut W,
) -> Result<(), ToolError>
    // When each answer comes, and what is written.
    ensures answers { AnswersRun arch.now (P.remaining policy) name.now (R.remaining records) result (W.contents out.old) (W.contents out.new) }
    ensures unwritten { IfErr result (λ e. KeepsOutput e out.old out.new) }
{
    let programs = compiled(alloc, arch, policy)?;
    let Some(program) = programs.get(name) else {
        return Err(ToolError::NoFilter(String::from_str(alloc, name)?));
    };
    tell_records(alloc, program.as_slice(), records, out)
}
