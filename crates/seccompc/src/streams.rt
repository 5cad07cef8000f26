// What an engine reads to its end, and what it writes at once.

ghost use Rattle.std.specs.Prelude.{◌≡◌, IfOk, IfErr, IfSome, OnOk};
ghost use Rattle.std.specs.Io.KnownBytes.{Appends};
ghost use Rattle.seccompc.specs.Errors.{IsReadError, IsWriteError};

use crate::error::ToolError;
use std::alloc::Global;
use std::io::{ErrorKind, Read, Write};

// All bytes that a reader gives: `Read` if the reader fails, and `OutOfMemory` if it fails because memory runs out.
pub(crate) fn read_whole<R: Read + Drop>(alloc: Global, mut reader: R) -> Result<Vec<u8>, ToolError>
    ensures bytes { IfOk result (λ bytes. IfSome (R.remaining reader) (λ known. bytes.items ≡ known)) }
    ensures cause { IfErr result IsReadError }
{
    let mut bytes = Vec::new(alloc);
    match reader.read_to_end(&mut bytes) {
        Ok(_) => Ok(bytes),
        Err(error) if error.kind() == ErrorKind::OutOfMemory => Err(ToolError::OutOfMemory),
        Err(error) => Err(ToolError::Read(error)),
    }
}

// Writes all these bytes: `Write` if the writer fails; how much of them went out is then not known.
pub(crate) fn send<W: Write>(out: &mut W, bytes: &[u8]) -> Result<(), ToolError>
    ensures sent { OnOk result (Appends (W.contents out.old) (W.contents out.new) bytes.now) }
    ensures cause { IfErr result IsWriteError }
{
    match out.write_all(bytes) {
        Ok(()) => Ok(()),
        Err(error) => Err(ToolError::Write(error)),
    }
}
