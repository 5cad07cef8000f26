// Instructions and programs of classic BPF, and the constants that they are made of.

ghost use Rattle.std.specs.Prelude.{◌≡◌};

use crate::equality::EqualByParts;

/// One instruction of classic BPF.
///
/// Which fields an instruction reads depends on its `code`; the others are ignored.
///
/// Its layout is that of `struct sock_filter` of `linux/filter.h`: 8 bytes, aligned to 4, with
/// `code` at byte 0, `jt` at 2, `jf` at 3 and `k` at 4. So a program can be handed to a kernel, or
/// to C, as it stands. Size and alignment are proved; the order comes of the declaration, as C lays
/// it out, and a program in C tests it.
#[allow(non_camel_case_types)]
#[derive(Clone, Copy, Debug, PartialEq, Eq)]
#[repr(C)]
pub struct sock_filter {
    /// The operation.
    pub code: u16,
    /// How many instructions a tested jump skips if its test is true.
    pub jt: u8,
    /// How many instructions a tested jump skips if its test is false.
    pub jf: u8,
    /// The operand: a byte offset, a mask, a distance, a number to compare with, or a value to return.
    pub k: u32,
}

impl EqualByParts for sock_filter {
    ghost use Rattle.std.specs.Prelude.{◌≡◌};
    ghost use Rattle.std.specs.Cmp.{unsigned_Decides};
    ghost use Rattle.std.proofs.Common.{ap};
    ghost use Rattle.std.proofs.lemmas.Bool.Decides.{Decides-and};

    ghost has_same_parts = { λ x y. x ≡ y };

    ghost decides = { λ x y. let parts = Decides-and _ _ (unsigned_Decides x.code y.code) (Decides-and _ _ (unsigned_Decides x.jt y.jt) (Decides-and _ _ (unsigned_Decides x.jf y.jf) (unsigned_Decides x.k y.k))) in (λ same. let e = parts.0 same in λ i. record { code = e.0 i; jt = e.1.0 i; jf = e.1.1.0 i; k = e.1.1.1 i }, λ e. parts.1 (ap (λ s. s.code) e, (ap (λ s. s.jt) e, (ap (λ s. s.jf) e, ap (λ s. s.k) e)))) };
}

const _: () = prove!(size_of::<sock_filter>() == 8);

const _: () = prove!(align_of::<sock_filter>() == 4);

/// A program: a sequence of BPF instructions.
pub type BpfProgram = Vec<sock_filter>;

/// A borrowed program.
pub type BpfProgramRef<'a> = &'a [sock_filter];

/// The greatest index of a system call's argument: a call has six arguments, numbered from 0.
pub const ARG_NUMBER_MAX: u8 = 5;

/// The most instructions that one condition takes.
pub const CONDITION_MAX_LEN: u8 = 6;

/// The most instructions that the Linux kernel takes in one program.
pub const BPF_MAX_LEN: usize = 4096;

/// The offset of the call number in `struct seccomp_data`, in bytes.
pub const SECCOMP_DATA_NR_OFFSET: u8 = 0;

/// The offset of the `AUDIT_ARCH_*` value in `struct seccomp_data`, in bytes.
pub const SECCOMP_DATA_ARCH_OFFSET: u8 = 4;

/// The offset of the first argument in `struct seccomp_data`, in bytes.
pub const SECCOMP_DATA_ARGS_OFFSET: u8 = 16;

/// How many bytes an argument takes in `struct seccomp_data`.
pub const SECCOMP_DATA_ARG_SIZE: u8 = 8;

/// The class of loads into the accumulator.
pub const BPF_LD: u16 = 0x00;

/// The class of arithmetic on the accumulator.
pub const BPF_ALU: u16 = 0x04;

/// The class of jumps.
pub const BPF_JMP: u16 = 0x05;

/// The class of returns.
pub const BPF_RET: u16 = 0x06;

/// The size of a load: 32 bits.
pub const BPF_W: u16 = 0x00;

/// The mode of a load: from a fixed offset in the record.
pub const BPF_ABS: u16 = 0x20;

/// Bitwise and.
pub const BPF_AND: u16 = 0x50;

/// A jump without a test.
pub const BPF_JA: u16 = 0x00;

/// A jump that tests whether the accumulator equals the operand.
pub const BPF_JEQ: u16 = 0x10;

/// A jump that tests whether the accumulator is greater than the operand, unsigned.
pub const BPF_JGT: u16 = 0x20;

/// A jump that tests whether the accumulator is at least the operand, unsigned.
pub const BPF_JGE: u16 = 0x30;

/// The source of an operand: the instruction's own `k`.
pub const BPF_K: u16 = 0x00;

// Each number as `linux/bpf_common.h` has it: a code that is joined of some doesn't tell them all.
const _: () = prove!(BPF_LD == 0x00);

const _: () = prove!(BPF_ALU == 0x04);

const _: () = prove!(BPF_JMP == 0x05);

const _: () = prove!(BPF_RET == 0x06);

const _: () = prove!(BPF_W == 0x00);

const _: () = prove!(BPF_ABS == 0x20);

const _: () = prove!(BPF_AND == 0x50);

const _: () = prove!(BPF_JA == 0x00);

const _: () = prove!(BPF_JEQ == 0x10);

const _: () = prove!(BPF_JGT == 0x20);

const _: () = prove!(BPF_JGE == 0x30);

const _: () = prove!(BPF_K == 0x00);

/// The code that loads the 32 bits at byte `k` of the record into the accumulator.
pub const LOAD: u16 = BPF_LD | BPF_W | BPF_ABS;

/// The code that keeps the bits of the accumulator that are set in `k`.
pub const MASK: u16 = BPF_ALU | BPF_AND | BPF_K;

/// The code that jumps over `k` instructions.
pub const JUMP: u16 = BPF_JMP | BPF_JA;

/// The code that jumps over `jt` instructions if the accumulator equals `k`, else over `jf`.
pub const JUMP_EQUAL: u16 = BPF_JMP | BPF_JEQ | BPF_K;

/// The code that jumps over `jt` instructions if the accumulator is greater than `k`, unsigned, else over `jf`.
pub const JUMP_GREATER: u16 = BPF_JMP | BPF_JGT | BPF_K;

/// The code that jumps over `jt` instructions if the accumulator is at least `k`, unsigned, else over `jf`.
pub const JUMP_AT_LEAST: u16 = BPF_JMP | BPF_JGE | BPF_K;

/// The code that ends the program, and returns `k`.
pub const RETURN: u16 = BPF_RET | BPF_K;

// The seven codes that a checked program may have, as numbers.
const _: () = prove!(LOAD == 0x20);

const _: () = prove!(MASK == 0x54);

const _: () = prove!(JUMP == 0x05);

const _: () = prove!(JUMP_EQUAL == 0x15);

const _: () = prove!(JUMP_GREATER == 0x25);

const _: () = prove!(JUMP_AT_LEAST == 0x35);

const _: () = prove!(RETURN == 0x06);

/// The `AUDIT_ARCH_*` value of x86_64 in `struct seccomp_data`, as `linux/audit.h` has it.
pub const AUDIT_ARCH_X86_64: u32 = 0xc000_003e;

/// The `AUDIT_ARCH_*` value of aarch64 in `struct seccomp_data`, as `linux/audit.h` has it.
pub const AUDIT_ARCH_AARCH64: u32 = 0xc000_00b7;

/// The `AUDIT_ARCH_*` value of riscv64 in `struct seccomp_data`, as `linux/audit.h` has it.
pub const AUDIT_ARCH_RISCV64: u32 = 0xc000_00f3;

/// Builds an instruction that jumps by no test: `jt` and `jf` are 0.
pub fn bpf_stmt(code: u16, k: u32) -> sock_filter
    ensures { result ≡ record { code = code; jt = 0; jf = 0; k = k } }
{
    bpf_jump(code, k, 0, 0)
}

/// Builds an instruction of its four fields.
pub fn bpf_jump(code: u16, k: u32, jt: u8, jf: u8) -> sock_filter
    ensures { result ≡ record { code = code; jt = jt; jf = jf; k = k } }
{
    sock_filter { code, jt, jf, k }
}
