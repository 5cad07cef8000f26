// The public surface: if this builds, every item of the root has its root path, and the readers of policies
// their module's. Also the constants' numbers, the layout of an instruction, and the errors as errors of any
// program.

use seccompiler::bpf::{
    ARG_NUMBER_MAX, AUDIT_ARCH_AARCH64, AUDIT_ARCH_RISCV64, AUDIT_ARCH_X86_64, BPF_ABS, BPF_ALU,
    BPF_AND, BPF_JA, BPF_JEQ, BPF_JGE, BPF_JGT, BPF_JMP, BPF_K, BPF_LD, BPF_MAX_LEN, BPF_RET,
    BPF_W, CONDITION_MAX_LEN, SECCOMP_DATA_ARCH_OFFSET, SECCOMP_DATA_ARG_SIZE,
    SECCOMP_DATA_ARGS_OFFSET, SECCOMP_DATA_NR_OFFSET,
};
use seccompiler::json::{read_action, read_arg_len, read_operator};
use seccompiler::{
    BackendError, BpfMap, BpfProgram, BpfProgramRef, EqualByParts, Error, JsonCompiler,
    JsonCondition, JsonFilter, JsonFilterMap, JsonFrontendError, JsonRule, Kernel, Lookup, Outcome,
    Result, SeccompAction, SeccompCmpArgLen, SeccompCmpOp, SeccompCondition, SeccompFilter,
    SeccompRule, SyscallTable, TargetArch, apply_filter, apply_filter_all_threads,
    compile_from_json, programs_of, sock_filter,
};
use std::process::Abort;

const BYTES: [(&str, u8, u8); 6] = [
    ("ARG_NUMBER_MAX", ARG_NUMBER_MAX, 5),
    ("CONDITION_MAX_LEN", CONDITION_MAX_LEN, 6),
    ("SECCOMP_DATA_NR_OFFSET", SECCOMP_DATA_NR_OFFSET, 0),
    ("SECCOMP_DATA_ARCH_OFFSET", SECCOMP_DATA_ARCH_OFFSET, 4),
    ("SECCOMP_DATA_ARGS_OFFSET", SECCOMP_DATA_ARGS_OFFSET, 16),
    ("SECCOMP_DATA_ARG_SIZE", SECCOMP_DATA_ARG_SIZE, 8),
];

const CODES: [(&str, u16, u16); 12] = [
    ("BPF_LD", BPF_LD, 0x00),
    ("BPF_ALU", BPF_ALU, 0x04),
    ("BPF_JMP", BPF_JMP, 0x05),
    ("BPF_RET", BPF_RET, 0x06),
    ("BPF_W", BPF_W, 0x00),
    ("BPF_ABS", BPF_ABS, 0x20),
    ("BPF_AND", BPF_AND, 0x50),
    ("BPF_JA", BPF_JA, 0x00),
    ("BPF_JEQ", BPF_JEQ, 0x10),
    ("BPF_JGT", BPF_JGT, 0x20),
    ("BPF_JGE", BPF_JGE, 0x30),
    ("BPF_K", BPF_K, 0x00),
];

const ARCHITECTURES: [(&str, u32, u32); 3] = [
    ("AUDIT_ARCH_X86_64", AUDIT_ARCH_X86_64, 0xc000_003e),
    ("AUDIT_ARCH_AARCH64", AUDIT_ARCH_AARCH64, 0xc000_00b7),
    ("AUDIT_ARCH_RISCV64", AUDIT_ARCH_RISCV64, 0xc000_00f3),
];

// Asserts the number of a constant.
fn assert_number(rt: &impl Abort, name: &str, constant: u32, number: u32) {
    assert!(rt; constant == number, "{name}");
}

#[test]
fn constants(rt: HostRuntime) {
    for (name, constant, number) in &BYTES {
        assert_number(&rt, name, u32::from(*constant), u32::from(*number));
    }
    for (name, constant, number) in &CODES {
        assert_number(&rt, name, u32::from(*constant), u32::from(*number));
    }
    for (name, constant, number) in &ARCHITECTURES {
        assert_number(&rt, name, *constant, *number);
    }
    assert!(rt; BPF_MAX_LEN == 4096);
}

#[test]
fn layout_of_an_instruction(rt: HostRuntime) {
    assert!(rt; size_of::<sock_filter>() == 8);
    assert!(rt; align_of::<sock_filter>() == 4);
    assert!(rt; size_of::<[sock_filter; 3]>() == 24);
}

// An error that a program may pass on as any other.
fn is_error<T: std::error::Error>() {}

#[test]
fn errors_are_errors_of_any_program() {
    is_error::<BackendError>();
    is_error::<JsonFrontendError>();
    is_error::<Error>();
}
