// The filter of one condition, and what its program does with records.

ghost use Rattle.std.specs.Prelude.{IfOk, IfErr};
ghost use Rattle.seccompc.specs.Errors.{KeepsOutput};
ghost use Rattle.seccompc.specs.Probe.{IsRefusedProbe, AnswersProbe};
ghost use Rattle.seccompc.specs.EngineSteps.{IsFilterFor, IsCompiledFor};

use crate::architecture::architecture_of;
use crate::error::ToolError;
use crate::record_text::tell_records;
use seccompiler::{
    BpfProgram, SeccompAction, SeccompCmpArgLen, SeccompCmpOp, SeccompCondition, SeccompFilter,
    SeccompRule,
};
use std::alloc::Global;
use std::collections::BTreeMap;
use std::io::{Read, Write};

/// Runs the program of a filter of one condition on records: for each whole record of 64 bytes it writes a line
/// with the value that the program returns and the steps that it takes.
///
/// The filter allows call `nr` if all 8 bytes of argument `index`, numbered from 0, equal `value`, and kills
/// the process at any other call and on any other architecture than `arch`. A line is the value in 8 lower-case
/// hexadecimal digits, a space, the steps in decimal, a line feed. All records are read before the first line
/// is written, and all lines are written at once.
///
/// The records are what their reader gives. If the reader's type doesn't say what it reads, as standard
/// input's, the contract says that there are such bytes.
///
/// # Errors
///
/// The first of these: `Library` with `InvalidTargetArch` and the text as it was given if `arch` is no
/// architecture's name, ASCII case aside; `Library` with `InvalidArgumentNumber` if `index` is above 5;
/// `Library` with `InvalidSyscallNumber` if `nr` lies outside 0 to 4294967295; `Read` if the reader fails;
/// `Write` if the writer does; `ShortRecord` if 1 to 63 bytes are left, after the lines of the whole records
/// are written. `OutOfMemory` is returned instead of any of these if memory runs out, in the reader too. On any
/// error but `Write` and `ShortRecord` nothing is written.
pub fn probe<R: Read + Drop, W: Write>(
    alloc: Global,
    arch: &str,
    nr: i64,
    index: u8,
    value: u64,
    records: R,
    out: &mut W,
) -> Result<(), ToolError>
    // When each answer comes, and what is written.
    ensures answers { AnswersProbe arch.now nr index value (R.remaining records) result (W.contents out.old) (W.contents out.new) }
    ensures unwritten { IfErr result (λ e. KeepsOutput e out.old out.new) }
{
    let program = program_of(alloc, arch, nr, index, value)?;
    tell_records(alloc, program.as_slice(), records, out)
}

// The filter's program.
pub(crate) fn program_of(
    alloc: Global,
    arch: &str,
    nr: i64,
    index: u8,
    value: u64,
) -> Result<BpfProgram, ToolError>
    ensures compiled { IfOk result (λ program. IsCompiledFor arch.now nr index value program.items) }
    ensures refused { IfErr result (IsRefusedProbe arch.now nr index) }
{
    Ok(probe_filter(alloc, arch, nr, index, value)?.to_bpf(alloc)?)
}

// The filter that lets call `nr` pass if argument `index` equals `value`.
fn probe_filter(
    alloc: Global,
    arch: &str,
    nr: i64,
    index: u8,
    value: u64,
) -> Result<SeccompFilter, ToolError>
    ensures made { IfOk result (IsFilterFor arch.now nr index value) }
    ensures refused { IfErr result (IsRefusedProbe arch.now nr index) }
{
    let arch = architecture_of(alloc, arch)?;
    let condition = SeccompCondition::new(index, SeccompCmpArgLen::Qword, SeccompCmpOp::Eq, value)?;
    let rule = SeccompRule::new(vec![in alloc; condition]?)?;
    let mut rules = BTreeMap::new(alloc);
    drop(rules.insert(nr, vec![in alloc; rule]?)?);
    Ok(SeccompFilter::new(
        rules,
        SeccompAction::KillProcess,
        SeccompAction::Allow,
        arch,
    )?)
}
