// The record of a call of x86_64.

// `AUDIT_ARCH_X86_64` of `linux/audit.h`.
const X86_64: u32 = 0xc000_003e;

/// The `struct seccomp_data` of a call of x86_64 with these arguments and instruction pointer 0,
/// little-endian.
pub fn record_of(number: u32, arguments: [u64; 6]) -> [u8; 64] {
    let mut record = [0; 64];
    record[0..4].copy_from_slice(&number.to_le_bytes());
    record[4..8].copy_from_slice(&X86_64.to_le_bytes());
    for index in 0..6 {
        let start = 16 + 8 * index;
        record[start..start + 8].copy_from_slice(&arguments[index].to_le_bytes());
    }
    record
}
