// Call records in bytes.

use crate::trace::{Trace, push_seen};
use itoa::Buffer;
use seccompiler::TargetArch;
use std::alloc::{AllocError, Global};

// The bytes of a record.
const RECORD: usize = 64;

// Which bits of an `AUDIT_ARCH_*` value no architecture has: it is a machine of ELF's, with flags above.
const OF_NO_ARCHITECTURE: u32 = 0x1fff_0000;

/// Whether the first bytes have an `AUDIT_ARCH_*` value with a flag where a record has it.
pub(crate) fn is_of_records(bytes: &[u8]) -> bool {
    let Some((record, _)) = bytes.split_first_chunk::<RECORD>() else {
        return false;
    };
    let [_, _, _, _, a0, a1, a2, a3, ..] = *record;
    let word = u32::from_le_bytes([a0, a1, a2, a3]);
    word > OF_NO_ARCHITECTURE && word & OF_NO_ARCHITECTURE == 0 && word & 0xffff != 0
}

/// Adds the calls of records, and counts the bytes behind the last one.
pub(crate) fn push_records(
    alloc: Global,
    arch: TargetArch,
    trace: &mut Trace,
    bytes: &[u8],
) -> Result<(), AllocError> {
    let mut rest = bytes;
    while let Some((record, behind)) = rest.split_first_chunk::<RECORD>() {
        let [n0, n1, n2, n3, a0, a1, a2, a3, ..] = *record;
        if u32::from_le_bytes([a0, a1, a2, a3]) == arch.get_audit_value() {
            let number = u32::from_le_bytes([n0, n1, n2, n3]);
            push_seen(
                alloc,
                arch,
                trace,
                number,
                arguments(record),
                Buffer::new().format(number),
            )?;
        } else {
            trace.foreign = trace.foreign.saturating_add(1);
        }
        rest = behind;
    }
    trace.rest = rest.len();
    Ok(())
}

// The six arguments of a record.
fn arguments(record: &[u8; RECORD]) -> [Option<u64>; 6] {
    let mut arguments = [None; 6];
    let (numbers, _) = record[16..].as_chunks::<8>();
    for (argument, number) in arguments.iter_mut().zip(numbers) {
        *argument = Some(u64::from_le_bytes(*number));
    }
    arguments
}
