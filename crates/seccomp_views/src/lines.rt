// What is printed of findings: lines, or JSON.

ghost use Rattle.std.specs.Prelude.{◌≤◌, ⊤};

use crate::json::{List, Object, OrNull, call_name};
use crate::text::Text;
use seccomp_answers::findings::parts::{X32, name_of};
use seccomp_answers::findings::{Answer, Finding, Part};
use seccomp_compare::rank;
use seccomp_names::error_name;
use seccomp_text::readable::TextKind;
use seccompiler::TargetArch;
use seccompiler::bpf::{AUDIT_ARCH_AARCH64, AUDIT_ARCH_RISCV64, AUDIT_ARCH_X86_64};
use seccompiler::record::word_at;
use serde_json::{ToValue, Value};
use std::alloc::{AllocError, Global};

// So many columns of a line are for the names of calls.
const ROOM: usize = 48;

/// Adds a filter by its name.
pub(crate) fn push_filter(text: &mut Text, name: &str) {
    text.push_str("filter ");
    text.push_readable(name, TextKind::Name);
}

/// Adds the line of what is found on a part: none if the relation holds. The example has the instruction pointer if one of both sides may
/// depend on it.
pub(crate) fn push_finding(text: &mut Text, target: TargetArch, pointer: bool, finding: Finding) {
    match finding.answer {
        Answer::Holds => {}
        Answer::Fails {
            call,
            old,
            new,
            throughout,
        } => {
            push_part(text, target, finding.part);
            if !throughout && !matches!(finding.part, Part::Named { .. }) {
                text.push_str(", some calls");
            }
            push_change(text, old, new);
            text.push_str(": ");
            push_example(text, target, pointer, &call);
            text.push_str("\n");
        }
        Answer::Undecided { call, old, new } => {
            push_part(text, target, finding.part);
            text.push_str(": undecided at instruction ");
            text.push_display(&old);
            text.push_str(" of OLD and ");
            text.push_display(&new);
            text.push_str(" of NEW: ");
            push_example(text, target, pointer, &call);
            text.push_str("\n");
        }
    }
}

// Adds the calls of a part, at the beginning of a line.
fn push_part(text: &mut Text, target: TargetArch, part: Part) {
    text.push_str("  ");
    match part {
        Part::Named { number } => push_call(text, target, number),
        Part::Unnamed { least, greatest } => {
            text.push_str(if is_x32(target, least) {
                "x32"
            } else {
                "other"
            });
            text.push_str(if least == greatest {
                " call "
            } else {
                " calls "
            });
            text.push_display(&least);
            if least < greatest {
                text.push_str(" to ");
                text.push_display(&greatest);
            }
        }
        Part::Elsewhere { least, greatest } if least == greatest => push_architecture(text, least),
        Part::Elsewhere { least, greatest } => {
            text.push_str("other architectures ");
            push_hexadecimal(text, least as u64);
            text.push_str(" to ");
            push_hexadecimal(text, greatest as u64);
        }
    }
}

// Whether a number is one of x32.
fn is_x32(target: TargetArch, number: u32) -> bool {
    number >= X32 && matches!(target, TargetArch::x86_64)
}

// The architectures that a message has names for, by their `AUDIT_ARCH_*` values (linux/audit.h).
const ARCHITECTURES: &[(u32, &str)] = &[
    (0x4000_0003, "i386"),
    (0x4000_0028, "arm"),
    (AUDIT_ARCH_X86_64, "x86_64"),
    (AUDIT_ARCH_AARCH64, "aarch64"),
    (AUDIT_ARCH_RISCV64, "riscv64"),
];

/// Whether a part is one architecture that has a name.
pub(crate) fn is_named_architecture(part: Part) -> bool {
    match part {
        Part::Elsewhere { least, greatest } => {
            least == greatest && ARCHITECTURES.iter().any(|(own, _)| *own == least)
        }
        _ => false,
    }
}

// Adds an architecture: its name, or its `AUDIT_ARCH_*` value if it has none.
fn push_architecture(text: &mut Text, arch: u32) {
    for (own, name) in ARCHITECTURES {
        if *own == arch {
            return text.push_str(name);
        }
    }
    text.push_str("other architecture ");
    push_hexadecimal(text, arch as u64);
}

/// Adds the line of parts on which both sides have these values throughout: of calls as many of their names as fit it, in byte order, and
/// of ranges as many of these.
pub fn push_alike(text: &mut Text, target: TargetArch, parts: &[Part], old: u32, new: u32) {
    text.push_str("  ");
    text.push_display(&parts.len());
    text.push_str(match parts.first() {
        Some(Part::Unnamed { least, .. }) if is_x32(target, *least) => " ranges of x32 calls",
        Some(Part::Unnamed { .. }) => " ranges of other calls",
        Some(Part::Elsewhere { .. }) => " ranges of other architectures",
        _ => " calls",
    });
    push_change(text, old, new);
    text.push_str(":");
    let mut room = ROOM;
    for name in &names_of(text, target, parts) {
        if name.len() >= room {
            text.push_str(" .. (--each names them)");
            break;
        }
        room -= name.len() + 1;
        text.push_str(" ");
        text.push_str(name.as_str());
    }
    text.push_str("\n");
}

// The names of calls, in byte order, or the bounds of ranges.
fn names_of(text: &mut Text, target: TargetArch, parts: &[Part]) -> Vec<String> {
    let (alloc, mut are_ranges) = (text.alloc(), false);
    let mut names = Vec::new(alloc);
    for part in parts {
        let mut name = Text::new(alloc);
        match *part {
            Part::Named { number } => push_call(&mut name, target, number),
            Part::Unnamed { least, greatest } => {
                are_ranges = true;
                name.push_display(&least);
                if least < greatest {
                    name.push_format(format!(in alloc; "-{greatest}"));
                }
            }
            Part::Elsewhere { least, greatest } => {
                are_ranges = true;
                push_hexadecimal(&mut name, least as u64);
                if least < greatest {
                    name.push_format(format!(in alloc; "-0x{greatest:x}"));
                }
            }
        }
        match name.finish_string() {
            Ok(name) => {
                if names.push(name).is_err() {
                    text.fail();
                }
            }
            Err(_) => text.fail(),
        }
    }
    if !are_ranges && names.sort().is_err() {
        text.fail();
    }
    names
}

// Adds the values of both sides, and whether the new one permits more.
fn push_change(text: &mut Text, old: u32, new: u32) {
    text.push_str(": ");
    push_word(text, old);
    text.push_str(" -> ");
    push_word(text, new);
    text.push_str(", ");
    text.push_str(kind_of(old, new));
}

// Adds a number in hexadecimal digits.
fn push_hexadecimal(text: &mut Text, number: u64) {
    text.push_format(format!(in text.alloc(); "0x{number:x}"));
}

// Adds a call: its name, or its number if it has none.
fn push_call(text: &mut Text, target: TargetArch, number: u32) {
    match name_of(target, number) {
        Some(name) => text.push_str(name),
        None => text.push_display(&number),
    }
}

// Whether the new value permits more than the old one.
fn kind_of(old: u32, new: u32) -> &'static str {
    let (old, new) = (rank(old), rank(new));
    if old < new {
        "more"
    } else if old > new {
        "less"
    } else {
        "otherwise"
    }
}

// The actions of return values, as `linux/seccomp.h` has them: each with its name in a policy, and whether there are data beside it.
const ACTIONS: &[(u32, &str, bool)] = &[
    (0x7fff_0000, "allow", false),
    (0x7ffc_0000, "log", false),
    (0x7fc0_0000, "user_notif", false),
    (0x0003_0000, "trap", false),
    (0x0000_0000, "kill_thread", false),
    (0x8000_0000, "kill_process", false),
    (0x0005_0000, "errno", true),
    (0x7ff0_0000, "trace", true),
];

/// The action's name in a policy, if the value of a program stands for one, and its number, if it has one.
pub fn action_of(word: u32) -> (Option<&'static str>, Option<u32>) {
    let number = word % 0x1_0000;
    for (action, name, is_numbered) in ACTIONS {
        if word - number == *action {
            if *is_numbered {
                return (Some(*name), Some(number));
            }
            if number == 0 {
                return (Some(*name), None);
            }
        }
    }
    (None, None)
}

/// Adds a value that a program returns, by its action, and an errno by its name too, if it has one.
pub(crate) fn push_word(text: &mut Text, word: u32) {
    let (name, number) = action_of(word);
    let Some(name) = name else {
        return push_hexadecimal(text, word as u64);
    };
    text.push_str(name);
    let Some(number) = number else { return };
    text.push_str(" ");
    text.push_display(&number);
    if word / 0x1_0000 == 5
        && let Some(error) = error_name(number)
    {
        text.push_str(" (");
        text.push_str(error);
        text.push_str(")");
    }
}

/// The action that a program's value stands for, as an object.
pub(crate) fn word_value(alloc: Global, word: u32) -> Object {
    let (name, number) = action_of(word);
    let mut object = Object::new(alloc);
    object.field("name", OrNull(name));
    object.field("number", number);
    object.field("value", word);
    object
}

/// Adds a call on which two sides differ: its name or number, after the `AUDIT_ARCH_*` value if that is another, its arguments, and
/// the instruction pointer if that is to be printed.
pub(crate) fn push_example(text: &mut Text, target: TargetArch, pointer: bool, call: &[u8; 64]) {
    let (number, arch) = (word_at(call, 0), word_at(call, 4));
    if arch == target.get_audit_value() {
        push_call(text, target, number);
    } else {
        push_hexadecimal(text, arch as u64);
        text.push_str(" ");
        text.push_display(&number);
    }
    push_arguments(text, call);
    if pointer {
        text.push_str(" at ");
        push_hexadecimal(text, number_at(call, 8));
    }
}

/// Adds the arguments of a call in brackets.
pub(crate) fn push_arguments(text: &mut Text, call: &[u8; 64]) {
    for index in 0..6usize {
        text.push_str(if index == 0 { "(" } else { ", " });
        push_hexadecimal(text, number_at(call, 16 + 8 * index));
    }
    text.push_str(")");
}

// The 64-bit number of bytes `k` to `k + 7`.
fn number_at(call: &[u8; 64], k: usize) -> u64
    requires { k ≤ 56 }
{
    word_at(call, k) as u64 | (word_at(call, k + 4) as u64) << 32
}

/// What is found on a part on which the relation doesn't hold, or that is undecided, as an object.
pub(crate) fn part_value(alloc: Global, target: TargetArch, finding: Finding) -> Object {
    let (number, least, greatest) = match finding.part {
        Part::Named { number } => (Some(number), number, number),
        Part::Unnamed { least, greatest } | Part::Elsewhere { least, greatest } => {
            (None, least, greatest)
        }
    };
    let mut part = Object::new(alloc);
    part.field("call", call_name(target, number));
    part.field("number", number);
    part.field("least", least);
    part.field("greatest", greatest);
    if let Answer::Fails {
        old,
        new,
        throughout,
        ..
    } = finding.answer
    {
        part.field("verdict", "different");
        part.field("old", word_value(alloc, old));
        part.field("new", word_value(alloc, new));
        part.field("change", kind_of(old, new));
        part.field("throughout", throughout);
    } else {
        part.field("verdict", "undecided");
        part.field("old", None::<u32>);
        part.field("new", None::<u32>);
        part.field("change", None::<u32>);
        part.field("throughout", None::<u32>);
    }
    match finding.answer {
        Answer::Fails { call, .. } | Answer::Undecided { call, .. } => {
            part.field("example", record_value(alloc, &call));
        }
        Answer::Holds => part.field("example", None::<u32>),
    }
    part
}

// The members of a record, as an object: numbers of 64 bits in hexadecimal digits.
fn record_value(alloc: Global, call: &[u8; 64]) -> Object {
    let mut arguments = List::new(alloc);
    for index in 0..6usize {
        arguments.item(Hexadecimal(number_at(call, 16 + 8 * index)));
    }
    let mut record = Object::new(alloc);
    record.field("number", word_at(call, 0));
    record.field("architecture", word_at(call, 4));
    record.field("instruction_pointer", Hexadecimal(number_at(call, 8)));
    record.field("arguments", arguments);
    record
}

// A number whose text has hexadecimal digits.
struct Hexadecimal(u64);

impl ToValue for Hexadecimal {
    ghost gives = { λ number value. ⊤ };

    fn to_value(self, alloc: Global) -> Result<Value, AllocError> {
        let Hexadecimal(number) = self;
        let mut text = Text::new(alloc);
        push_hexadecimal(&mut text, number);
        Ok(Value::from(text.finish_string()?))
    }
}
