//! The numbers in the record of a system call, a `struct seccomp_data`, which are little-endian.

ghost use Rattle.std.specs.Prelude.{◌≡◌, ◌≤◌};
ghost use Rattle.seccompiler.specs.Machine.{word_at, argument_at};

use crate::bpf::{SECCOMP_DATA_ARG_SIZE, SECCOMP_DATA_ARGS_OFFSET};

/// The offset of the last 32 bits of a record, in bytes.
pub(crate) const LAST_WORD_OFFSET: u32 = 60;

/// Reads the 32 bits of bytes `k` to `k + 3` of the record of a system call.
///
/// The call number is at 0, the `AUDIT_ARCH_*` value at 4, and the low half of argument `i` at `16 + 8 * i`
/// (`linux/seccomp.h`).
pub fn word_at(call: &[u8; 64], k: usize) -> u32
    requires { k ≤ 60 }
    ensures { result ≡ word_at call.now k }
{
    u32::from_le_bytes([call[k], call[k + 1], call[k + 2], call[k + 3]])
}

/// Reads the 64-bit argument of this index, from 0 to 5.
#[tactic(auto, using(crate::proofs::Words::number_halves))]
pub(crate) fn argument_at(call: &[u8; 64], index: u8) -> u64
    requires { index ≤ 5 }
    ensures { result ≡ argument_at call.now index }
{
    let k = (SECCOMP_DATA_ARGS_OFFSET + SECCOMP_DATA_ARG_SIZE * index) as usize;
    u64::from(word_at(call, k)) + 0x1_0000_0000 * u64::from(word_at(call, k + 4))
}
