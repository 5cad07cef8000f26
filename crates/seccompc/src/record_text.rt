// What a program does with records, as text.

ghost use Rattle.std.specs.Prelude.{◌≡◌, ◌++◌, IfOk, IfErr, OnOk};
ghost use Rattle.seccompiler.specs.Machine.{IsChecked};
ghost use Rattle.seccompiler.specs.Reads.{Reads};
ghost use Rattle.seccompc.specs.Errors.{KeepsOutput, IsRecordsError};
ghost use Rattle.seccompc.specs.Lines.{AreLines, line_of};
ghost use Rattle.seccompc.specs.Records.{AnswersRecords};

use crate::error::ToolError;
use crate::streams::{read_whole, send};
use itoa::Buffer;
use seccomp_text::hexadecimal::eight_digits;
use seccompiler::BpfProgramRef;
use seccompiler::machine::{Outcome, run};
use std::alloc::{AllocError, Global};
use std::io::{Read, Write};

// Writes the lines of a program on the whole records of 64 bytes that a reader gives.
//
// All records are read before anything is written, and all is written at once. The first of these errors comes:
// `Read` if the reader fails; `Write` if the writer does; `ShortRecord` if 1 to 63 bytes are left, after the lines
// of the whole records are written. `OutOfMemory` is returned instead of any of these if memory runs out, in the
// reader too. On any error but `Write` and `ShortRecord` nothing is written.
pub(crate) fn tell_records<R: Read + Drop, W: Write>(
    alloc: Global,
    program: BpfProgramRef<'_>,
    records: R,
    out: &mut W,
) -> Result<(), ToolError>
    requires { IsChecked program.now }
    ensures told { Reads (R.remaining records) (λ bytes. AnswersRecords (AreLines program.now) bytes result (W.contents out.old) (W.contents out.new)) }
    ensures cause { IfErr result IsRecordsError }
    ensures unwritten { IfErr result (λ e. KeepsOutput e out.old out.new) }
{
    let bytes = read_whole(alloc, records)?;
    let (records, rest) = bytes.as_slice().as_chunks::<64>();
    let text = lines(alloc, program, records)?;
    send(out, text.as_slice())?;
    match rest.len() {
        0 => Ok(()),
        rest => Err(ToolError::ShortRecord(rest)),
    }
}

// The lines of a program on records, one for each, in order.
fn lines(
    alloc: Global,
    program: BpfProgramRef<'_>,
    records: &[[u8; 64]],
) -> Result<Vec<u8>, AllocError>
    requires { IsChecked program.now }
    ensures { IfOk result (λ text. AreLines program.now records.now text.items) }
{
    let mut text = Vec::new(alloc);
    'records: for record in records {
        push_line(&mut text, run(program, record))?;
    }
    Ok(text)
}

// Adds the line of a run.
fn push_line(text: &mut Vec<u8>, outcome: Outcome) -> Result<(), AllocError>
    ensures { OnOk result (text.new.items ≡ text.old.items ++ line_of outcome.word outcome.steps) }
{
    let Outcome { word, steps } = outcome;
    text.extend_from_slice(&eight_digits(word))?;
    text.extend_from_slice(b" ")?;
    text.extend_from_slice(Buffer::new().format(steps).as_bytes())?;
    text.extend_from_slice(b"\n")
}
