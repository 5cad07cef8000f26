// Profiles of container runtimes as JSON text.

use crate::text::{push_number, push_string};
use seccompiler::{
    JsonCondition, JsonFilter, JsonRule, SeccompAction, SeccompCmpArgLen, SeccompCmpOp, TargetArch,
};
use std::alloc::{AllocError, Global};

// The low 32 bits of an argument.
const LOW: u64 = 0xffff_ffff;

/// The text of a profile of a container runtime, `linux.seccomp` of the OCI runtime specification, that allows what a filter
/// lists and answers other calls with its mismatch action: one entry of the calls that are allowed with any arguments, and one
/// for each other entry of the filter.
///
/// An argument of which 32 bits are compared by `eq` is compared under a mask; for other comparisons a profile has no length.
///
/// # Errors
///
/// `AllocError` if memory runs out.
pub fn profile_text(
    alloc: Global,
    arch: TargetArch,
    filter: &JsonFilter,
) -> Result<Vec<u8>, AllocError> {
    let mut text = Vec::new(alloc);
    text.extend_from_slice(b"{\n    \"defaultAction\": ")?;
    push_action(&mut text, filter.mismatch_action)?;
    text.extend_from_slice(b",\n    \"architectures\": [\"")?;
    text.extend_from_slice(match arch {
        TargetArch::x86_64 => b"SCMP_ARCH_X86_64",
        TargetArch::aarch64 => b"SCMP_ARCH_AARCH64",
        TargetArch::riscv64 => b"SCMP_ARCH_RISCV64",
    })?;
    text.extend_from_slice(b"\"],\n    \"syscalls\": [")?;
    let mut mark = push_whole(&mut text, &filter.rules)?;
    for rule in &filter.rules {
        if let Some(conditions) = &rule.conditions {
            text.extend_from_slice(mark)?;
            push_rule(&mut text, rule, conditions)?;
            mark = b",\n        ";
        }
    }
    text.extend_from_slice(b"\n    ]\n}\n")?;
    Ok(text)
}

// Adds the entry of the calls that are allowed with any arguments, if there are any, and gives what stands in front of the next.
fn push_whole(text: &mut Vec<u8>, rules: &[JsonRule]) -> Result<&'static [u8], AllocError> {
    let mut mark: &[u8] = b"\n        {\n            \"names\": [\n                ";
    let mut some = false;
    for rule in rules {
        if rule.conditions.is_none() {
            text.extend_from_slice(mark)?;
            push_string(text, rule.syscall.as_str())?;
            mark = b",\n                ";
            some = true;
        }
    }
    if !some {
        return Ok(b"\n        ");
    }
    text.extend_from_slice(
        b"\n            ],\n            \"action\": \"SCMP_ACT_ALLOW\"\n        }",
    )?;
    Ok(b",\n        ")
}

// Adds the entry of a call that is allowed under conditions.
fn push_rule(
    text: &mut Vec<u8>,
    rule: &JsonRule,
    conditions: &[JsonCondition],
) -> Result<(), AllocError> {
    text.extend_from_slice(b"{ \"names\": [")?;
    push_string(text, rule.syscall.as_str())?;
    text.extend_from_slice(b"], \"action\": \"SCMP_ACT_ALLOW\", \"args\": [")?;
    let mut mark: &[u8] = b"";
    for condition in conditions {
        text.extend_from_slice(mark)?;
        push_condition(text, condition)?;
        mark = b", ";
    }
    text.extend_from_slice(b"] }")
}

// Adds a condition.
fn push_condition(text: &mut Vec<u8>, condition: &JsonCondition) -> Result<(), AllocError> {
    let value = condition.value;
    let (operator, first, second): (&[u8], u64, Option<u64>) = match condition.operator {
        SeccompCmpOp::Eq => match condition.arg_len {
            SeccompCmpArgLen::Dword => (b"SCMP_CMP_MASKED_EQ", LOW, Some(value)),
            SeccompCmpArgLen::Qword => (b"SCMP_CMP_EQ", value, None),
        },
        SeccompCmpOp::MaskedEq(mask) => (b"SCMP_CMP_MASKED_EQ", mask, Some(value)),
        SeccompCmpOp::Ge => (b"SCMP_CMP_GE", value, None),
        SeccompCmpOp::Gt => (b"SCMP_CMP_GT", value, None),
        SeccompCmpOp::Le => (b"SCMP_CMP_LE", value, None),
        SeccompCmpOp::Lt => (b"SCMP_CMP_LT", value, None),
        SeccompCmpOp::Ne => (b"SCMP_CMP_NE", value, None),
    };
    text.extend_from_slice(b"{ \"index\": ")?;
    push_number(text, u64::from(condition.arg_index))?;
    text.extend_from_slice(b", \"value\": ")?;
    push_number(text, first)?;
    if let Some(second) = second {
        text.extend_from_slice(b", \"valueTwo\": ")?;
        push_number(text, second)?;
    }
    text.extend_from_slice(b", \"op\": \"")?;
    text.extend_from_slice(operator)?;
    text.extend_from_slice(b"\" }")
}

// Adds the default action, and its number if it has one.
fn push_action(text: &mut Vec<u8>, action: SeccompAction) -> Result<(), AllocError> {
    let (name, number): (&[u8], Option<u32>) = match action {
        SeccompAction::Allow => (b"\"SCMP_ACT_ALLOW\"", None),
        SeccompAction::KillThread => (b"\"SCMP_ACT_KILL_THREAD\"", None),
        SeccompAction::KillProcess => (b"\"SCMP_ACT_KILL_PROCESS\"", None),
        SeccompAction::Log => (b"\"SCMP_ACT_LOG\"", None),
        SeccompAction::Trap => (b"\"SCMP_ACT_TRAP\"", None),
        SeccompAction::Errno(number) => (b"\"SCMP_ACT_ERRNO\"", Some(number)),
        SeccompAction::Trace(number) => (b"\"SCMP_ACT_TRACE\"", Some(number)),
    };
    text.extend_from_slice(name)?;
    if let Some(number) = number {
        text.extend_from_slice(b",\n    \"defaultErrnoRet\": ")?;
        push_number(text, u64::from(number))?;
    }
    Ok(())
}
