// Lines of the audit system and of the kernel's log.

use crate::line::{Line, Told};
use seccompiler::TargetArch;

/// What a line of the audit system or of the kernel's log says.
pub(crate) fn audit_line(line: &str) -> Line<'_> {
    let Some(kind) = field(line, "type=") else {
        return Line::Strange;
    };
    if !line.contains("audit(") {
        return Line::Strange;
    }
    if !matches!(kind, "SECCOMP" | "1326" | "SYSCALL" | "1300") {
        return Line::Passed;
    }
    match told(line) {
        Some(told) => Line::Call(told),
        None => Line::Strange,
    }
}

// The call that a line tells of.
fn told(line: &str) -> Option<Told<'_>> {
    Some(Told {
        arch_word: word_of(field(line, "arch=")?)?,
        call: field(line, "syscall=")?,
        arguments: arguments(line),
        program: field(line, "comm=").unwrap_or(""),
        process: field(line, "pid=").unwrap_or(""),
        returned: returned(line),
    })
}

// What stands behind this mark at the beginning of a word. The audit system separates what it adds to a line by the character
// U+001D.
fn field<'a>(line: &'a str, mark: &str) -> Option<&'a str> {
    for word in line.split(|c: char| c.is_whitespace() || c == '\u{1d}') {
        if let Some(value) = word.strip_prefix(mark) {
            return Some(value);
        }
    }
    None
}

// The `AUDIT_ARCH_*` value of an architecture's name, or of hexadecimal digits.
fn word_of(text: &str) -> Option<u32> {
    for arch in TargetArch::all() {
        if text == arch.name() {
            return Some(arch.get_audit_value());
        }
    }
    u32::from_str_radix(text, 16).ok()
}

// What a filter returned, if the line says that.
fn returned(line: &str) -> Option<u32> {
    u32::from_str_radix(field(line, "code=")?.strip_prefix("0x")?, 16).ok()
}

// The arguments that a line has: the audit system writes four, in hexadecimal digits.
fn arguments(line: &str) -> [Option<u64>; 6] {
    let mut arguments = [None; 6];
    for (argument, mark) in arguments.iter_mut().zip(&["a0=", "a1=", "a2=", "a3="]) {
        if let Some(digits) = field(line, mark) {
            *argument = u64::from_str_radix(digits, 16).ok();
        }
    }
    arguments
}
