// What is noted of a trace, and what is learned as JSON.

ghost use Rattle.std.specs.Prelude.{◌↔◌, Any, IfErr, IsTrue, OnOk};
ghost use Rattle.seccomptool.specs.Learn.{IsArgument, IsStrange, IsUnderstood};

use crate::command::Learn;
use crate::notes::of_path;
use seccomp_answers::error::AnswerError;
use seccomp_answers::findings::parts::name_of;
use seccomp_learn::{Kept, Observation, StrangeLine, Trace};
use seccomp_text::readable::TextKind;
use seccomp_views::json::{List, Object, call_name, push_value};
use seccomp_views::notes::note;
use seccomp_views::text::Text;
use seccompiler::{SeccompCmpArgLen, TargetArch};
use std::alloc::{AllocError, Global};

// Adds the notes on traces, and on calls with too many values.
pub(super) fn push_notes(
    notes: &mut Text,
    asked: &Learn<'_>,
    traces: &[Trace],
    wanted: &[Kept],
    kept: &[Kept],
) {
    let alloc = notes.alloc();
    for (index, trace) in traces.iter().enumerate() {
        note_trace(notes, asked.arch, path_at(asked, index), trace);
    }
    // The calls that are allowed with any arguments, since more values of them were seen than are kept.
    let most = asked.most;
    let mut before = None;
    for each in wanted {
        let number = each.number;
        if before != Some(number) && !has(kept, number, None) {
            before = Some(number);
            let name = name_of(asked.arch, number).unwrap_or("a call");
            let told = format!(in alloc;
                "{name} is allowed with any arguments, since more than {most} different values were seen"
            );
            note(notes, path_at(asked, 0), told);
        }
    }
}

// The path of the trace of this index.
pub(super) fn path_at<'a>(asked: &Learn<'a>, index: usize) -> &'a str {
    asked.traces.get(index).copied().unwrap_or("-")
}

// What is said of one, and behind the number of several.
type Counted = (&'static str, &'static str);

const LINES: Counted = (
    "1 more line isn't understood",
    "more lines aren't understood",
);

const BYTES: Counted = (
    "1 byte follows the last record",
    "bytes follow the last record",
);

const CALLS: Counted = (
    "1 call is of another architecture",
    "calls are of other architectures",
);

// How many there are.
fn counted(alloc: Global, count: usize, (one, some): Counted) -> Result<String, AllocError> {
    if count == 1 {
        return String::from_str(alloc, one);
    }
    format!(in alloc; "{count} {some}")
}

// Adds the notes on a trace.
fn note_trace(notes: &mut Text, arch: TargetArch, path: &str, trace: &Trace) {
    let alloc = notes.alloc();
    let mut more = trace.strange_count;
    for line in trace.strange.as_slice() {
        note(notes, path, strange_line(alloc, line));
        more = more.saturating_sub(1);
    }
    for (count, told) in [(more, LINES), (trace.rest, BYTES), (trace.foreign, CALLS)] {
        if count > 0 {
            note(notes, path, counted(alloc, count, told));
        }
    }
    if !trace.unnamed.is_empty() {
        note(notes, path, unnamed_line(alloc, arch, trace));
    }
    if trace.observed.is_empty() {
        note(notes, path, format!(in alloc; "it has no call of {arch}"));
    }
}

// That the architecture hasn't calls of these names and numbers.
fn unnamed_line(alloc: Global, arch: TargetArch, trace: &Trace) -> Result<String, AllocError> {
    let names = trace.unnamed.join(alloc, ", ")?;
    let mut told = Text::new(alloc);
    told.push_format(format!(in alloc; "{arch} has no call of these names or numbers: {names}"));
    match trace.unnamed_more {
        0 => {}
        1 => told.push_str(", and 1 call of another"),
        more => told.push_format(format!(in alloc; ", and {more} calls of others")),
    }
    told.finish_string()
}

// That a line isn't understood.
fn strange_line(alloc: Global, line: &StrangeLine) -> Result<String, AllocError> {
    let mut told = Text::new(alloc);
    told.push_format(format!(in alloc; "line {} isn't understood: ", line.number));
    told.push_readable(line.text.as_str(), TextKind::Line);
    told.finish_string()
}

/// Rejects what is no trace; and, if it is asked for, a trace of which something isn't understood.
///
/// # Errors
///
/// What isn't understood, with the path, or `OutOfMemory`.
pub(super) fn refuse_trace(
    alloc: Global,
    strict: bool,
    path: &str,
    trace: &Trace,
) -> Result<(), AnswerError>
    ensures understood { OnOk result (IsUnderstood strict trace.now) }
    ensures cause { IfErr result (IsStrange strict trace.now) }
{
    if trace.is_trace && (!strict || (trace.strange.is_empty() && trace.rest == 0)) {
        return Ok(());
    }
    let told = strange_text(alloc, trace)?;
    Err(of_path(alloc, path, told.as_str()))
}

// What of a trace isn't understood: all of it, the first line, or the bytes behind the last record.
fn strange_text(alloc: Global, trace: &Trace) -> Result<String, AllocError> {
    if !trace.is_trace {
        return String::from_str(
            alloc,
            "it has neither lines of strace, of the kernel's log or of the audit system, nor call records",
        );
    }
    match trace.strange.as_slice().first() {
        Some(line) => strange_line(alloc, line),
        None => counted(alloc, trace.rest, BYTES),
    }
}

// Whether this argument of a call is among these, or any of the call's.
pub(super) fn has(all: &[Kept], number: u32, index: Option<u8>) -> bool
    ensures { IsTrue result ↔ Any (IsArgument number index) all.now }
{
    all.iter().any(|each| is_argument(each, number, index))
}

// Whether it is this argument of a call, or any of the call's.
fn is_argument(kept: &Kept, number: u32, index: Option<u8>) -> bool
    ensures { IsTrue result ↔ IsArgument number index kept.now }
{
    match index {
        None => kept.number == number,
        Some(index) => kept.number == number && kept.arg_index == index,
    }
}

// Adds the note on lines that aren't understood, if there are some: how many, and the first.
pub(crate) fn note_strange(notes: &mut Text, path: &str, strange: usize, first: Option<usize>) {
    let alloc = notes.alloc();
    let first = first.unwrap_or(0);
    let told = match strange {
        0 => return,
        1 => format!(in alloc; "1 line isn't understood: line {first}"),
        _ => format!(in alloc; "{strange} lines aren't understood, the first is line {first}"),
    };
    note(notes, path, told);
}

/// The object of what is learned: the arguments of observed calls whose values are kept, the lines of notes, and the policy or the
/// profile of this text, which is JSON in ASCII.
pub(super) fn learned_json(
    alloc: Global,
    asked: &Learn<'_>,
    observed: &[Observation],
    all: &[Kept],
    notes: &str,
    text: &[u8],
) -> Result<Vec<u8>, AllocError> {
    let mut lines = List::new(alloc);
    for line in notes.lines() {
        lines.item(line);
    }
    let mut json = Text::new(alloc);
    json.push_str("{\"kept\":");
    push_value(&mut json, kept_list(alloc, asked.arch, observed, all));
    json.push_str(",\"notes\":");
    push_value(&mut json, lines);
    json.push_str(if asked.as_profile {
        ",\"policy\":null,\"profile\":"
    } else {
        ",\"profile\":null,\"policy\":"
    });
    json.push_bytes(text.trim_ascii_end());
    json.push_str("}\n");
    json.finish()
}

// The arguments of observed calls.
fn kept_list(alloc: Global, arch: TargetArch, observed: &[Observation], all: &[Kept]) -> List {
    let mut list = List::new(alloc);
    for kept in all {
        let number = kept.number;
        for call in observed {
            if call.number == number {
                let mut argument = Object::new(alloc);
                argument.field("call", call_name(arch, Some(number)));
                argument.field("number", number);
                argument.field("index", kept.arg_index);
                argument.field(
                    "type",
                    match kept.arg_len {
                        SeccompCmpArgLen::Dword => "dword",
                        SeccompCmpArgLen::Qword => "qword",
                    },
                );
                list.item(argument);
                break;
            }
        }
    }
    list
}
