// Drop-ins of systemd units.

use crate::notes::note;
use crate::text::Text;
use seccomp_names::error_name;
use seccompiler::{JsonFilter, SeccompAction};
use std::alloc::{AllocError, Global};

// How long a line of names grows before the next one begins.
const LONGEST: usize = 100;

/// The text of a drop-in of a systemd unit that allows the calls of a filter, with any arguments, as `systemd.exec(5)` has it. Other
/// calls fail with the filter's errno, or kill.
pub fn unit_text(alloc: Global, filter: &JsonFilter) -> Result<Vec<u8>, AllocError> {
    let mut text = Text::new(alloc);
    text.push_str("[Service]\nSystemCallArchitectures=native\nSystemCallFilter=\n");
    let mut before = "";
    let mut length: usize = 0;
    for rule in &filter.rules {
        let name = rule.syscall.as_str();
        if name == before {
            continue;
        }
        if length == 0 || length > LONGEST {
            if length > 0 {
                text.push_str("\n");
            }
            text.push_str("SystemCallFilter=");
            length = 0;
        } else {
            text.push_str(" ");
        }
        text.push_str(name);
        length = length.saturating_add(name.len()).saturating_add(1);
        before = name;
    }
    if length > 0 {
        text.push_str("\n");
    }
    match filter.mismatch_action {
        SeccompAction::Errno(0) => {}
        SeccompAction::Errno(number) => match error_name(number) {
            Some(name) => text.push_format(format!(in alloc; "SystemCallErrorNumber={name}\n")),
            None => text.push_format(format!(in alloc; "SystemCallErrorNumber={number}\n")),
        },
        _ => {}
    }
    text.finish()
}

/// Adds the notes on what a drop-in can't hold: conditions, an action, and that no call is allowed.
pub fn push_unit_notes(notes: &mut Text, path: &str, filter: &JsonFilter) {
    let alloc = notes.alloc();
    let mut before = "";
    for rule in &filter.rules {
        let name = rule.syscall.as_str();
        // One without conditions would cover this one.
        if name != before && rule.conditions.is_some() {
            before = name;
            let told = format!(in alloc;
                "SystemCallFilter= has no conditions, so {name} is allowed with any arguments"
            );
            note(notes, path, told);
        }
    }
    let action = match filter.mismatch_action {
        SeccompAction::Log => "log",
        SeccompAction::Trap => "trap",
        SeccompAction::KillThread => "kill_thread",
        SeccompAction::Trace(_) => "trace",
        SeccompAction::Errno(0) => "errno:0",
        _ => return,
    };
    let told = format!(in alloc; "systemd has no {action} for other calls, so they kill");
    note(notes, path, told);
}
