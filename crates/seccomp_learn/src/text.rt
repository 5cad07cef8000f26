// Policies as JSON text.

use itoa::Buffer;
use seccomp_text::hexadecimal::four_digits;
use seccompiler::{
    JsonCondition, JsonFilter, JsonFilterMap, JsonRule, SeccompAction, SeccompCmpArgLen,
    SeccompCmpOp,
};
use std::alloc::{AllocError, Global};

/// The text of a policy that has a filter beside others, in the format of `docs/JSON.md`: one entry a line, filters in byte order
/// of their names.
///
/// It consists of printable ASCII and line feeds. Any other character of a name is written by its number.
///
/// # Errors
///
/// `AllocError` if memory runs out.
pub fn policy_text(
    alloc: Global,
    others: &JsonFilterMap,
    name: &str,
    filter: &JsonFilter,
) -> Result<Vec<u8>, AllocError> {
    let mut text = Vec::new(alloc);
    let mut mark: &[u8] = b"{\n    ";
    let mut is_there = false;
    for (other_name, other) in &others.0 {
        if !is_there && name < other_name.as_str() {
            push_filter(&mut text, mark, name, filter)?;
            mark = b",\n    ";
            is_there = true;
        }
        push_filter(&mut text, mark, other_name.as_str(), other)?;
        mark = b",\n    ";
    }
    if !is_there {
        push_filter(&mut text, mark, name, filter)?;
    }
    text.extend_from_slice(b"\n}\n")?;
    Ok(text)
}

// Adds a filter with its name, behind a mark.
fn push_filter(
    text: &mut Vec<u8>,
    mark: &[u8],
    name: &str,
    filter: &JsonFilter,
) -> Result<(), AllocError> {
    text.extend_from_slice(mark)?;
    push_string(text, name)?;
    text.extend_from_slice(b": {\n        \"mismatch_action\": ")?;
    push_action(text, filter.mismatch_action)?;
    text.extend_from_slice(b",\n        \"match_action\": ")?;
    push_action(text, filter.match_action)?;
    text.extend_from_slice(b",\n        \"filter\": [")?;
    let mut mark: &[u8] = b"\n            ";
    for rule in &filter.rules {
        text.extend_from_slice(mark)?;
        push_rule(text, rule)?;
        mark = b",\n            ";
    }
    text.extend_from_slice(b"\n        ]\n    }")
}

// Adds an entry.
fn push_rule(text: &mut Vec<u8>, rule: &JsonRule) -> Result<(), AllocError> {
    text.extend_from_slice(b"{ \"syscall\": ")?;
    push_string(text, rule.syscall.as_str())?;
    if let Some(conditions) = &rule.conditions {
        let mut mark: &[u8] = b", \"args\": [";
        for condition in conditions {
            text.extend_from_slice(mark)?;
            push_condition(text, condition)?;
            mark = b", ";
        }
        text.extend_from_slice(b"]")?;
    }
    text.extend_from_slice(b" }")
}

// Adds a condition.
fn push_condition(text: &mut Vec<u8>, condition: &JsonCondition) -> Result<(), AllocError> {
    text.extend_from_slice(b"{ \"index\": ")?;
    push_number(text, u64::from(condition.arg_index))?;
    text.extend_from_slice(match condition.arg_len {
        SeccompCmpArgLen::Dword => b", \"type\": \"dword\", \"op\": ",
        SeccompCmpArgLen::Qword => b", \"type\": \"qword\", \"op\": ",
    })?;
    push_operator(text, condition.operator)?;
    text.extend_from_slice(b", \"val\": ")?;
    push_number(text, condition.value)?;
    text.extend_from_slice(b" }")
}

// Adds an operator.
fn push_operator(text: &mut Vec<u8>, operator: SeccompCmpOp) -> Result<(), AllocError> {
    let name: &[u8] = match operator {
        SeccompCmpOp::Eq => b"\"eq\"",
        SeccompCmpOp::Ge => b"\"ge\"",
        SeccompCmpOp::Gt => b"\"gt\"",
        SeccompCmpOp::Le => b"\"le\"",
        SeccompCmpOp::Lt => b"\"lt\"",
        SeccompCmpOp::Ne => b"\"ne\"",
        SeccompCmpOp::MaskedEq(mask) => return push_numbered(text, b"masked_eq", mask),
    };
    text.extend_from_slice(name)
}

// Adds an action.
fn push_action(text: &mut Vec<u8>, action: SeccompAction) -> Result<(), AllocError> {
    let name: &[u8] = match action {
        SeccompAction::Allow => b"\"allow\"",
        SeccompAction::KillThread => b"\"kill_thread\"",
        SeccompAction::KillProcess => b"\"kill_process\"",
        SeccompAction::Log => b"\"log\"",
        SeccompAction::Trap => b"\"trap\"",
        SeccompAction::Errno(number) => return push_numbered(text, b"errno", u64::from(number)),
        SeccompAction::Trace(number) => return push_numbered(text, b"trace", u64::from(number)),
    };
    text.extend_from_slice(name)
}

// Adds an object of one name, with a number.
fn push_numbered(text: &mut Vec<u8>, name: &[u8], number: u64) -> Result<(), AllocError> {
    text.extend_from_slice(b"{ \"")?;
    text.extend_from_slice(name)?;
    text.extend_from_slice(b"\": ")?;
    push_number(text, number)?;
    text.extend_from_slice(b" }")
}

// Adds a number.
pub(crate) fn push_number(text: &mut Vec<u8>, number: u64) -> Result<(), AllocError> {
    text.extend_from_slice(Buffer::new().format(number).as_bytes())
}

// Adds a string.
pub(crate) fn push_string(text: &mut Vec<u8>, string: &str) -> Result<(), AllocError> {
    text.extend_from_slice(b"\"")?;
    for character in string.chars() {
        push_character(text, character)?;
    }
    text.extend_from_slice(b"\"")
}

// Adds a character of a string.
fn push_character(text: &mut Vec<u8>, character: char) -> Result<(), AllocError> {
    match character {
        '"' => text.extend_from_slice(b"\\\""),
        '\\' => text.extend_from_slice(b"\\\\"),
        ' '..='~' => text.extend_from_slice(character.encode_utf8(&mut [0; 4]).as_bytes()),
        _ => {
            for unit in character.encode_utf16(&mut [0; 2]) {
                text.extend_from_slice(b"\\u")?;
                text.extend_from_slice(&four_digits(*unit))?;
            }
            Ok(())
        }
    }
}
