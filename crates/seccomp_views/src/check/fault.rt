// What is said of the errors for which a text is rejected.

use crate::check::format::{CheckFormat, Lines, Place};
use crate::notes::{failure, note, readable};
use seccomp_answers::error::AnswerError;
use seccomp_faults::{Fault, Position, Problem, Step, is_of_profile};
use seccomp_profiles::{CompileError, ProfileError};
use seccomp_text::readable::TextKind;
use seccompiler::{Error, JsonFrontendError};
use std::alloc::{AllocError, Global};
use std::collections::BTreeSet;
use std::mem;

// The most errors of a text that are told each by itself.
const MOST: usize = 100;

/// Adds what is said of the error of this text, for people on standard error: if it has faults with places, of all of them, in the
/// text's order.
pub fn push_error(lines: &mut Lines<'_>, given: &[u8], error: &AnswerError) {
    let alloc = lines.text.alloc();
    if let CheckFormat::Text = lines.format {
        lines.locate(given);
    }
    match error {
        AnswerError::Placed(_, faults) => push_faults(lines, faults),
        AnswerError::Library(Error::JsonFrontend(JsonFrontendError::SerdeJson(reader)))
        | AnswerError::Profile(CompileError::Profile(ProfileError::Json(reader))) => {
            push_no_json(lines, reader)
        }
        _ => match (lines.format, error.told(alloc)) {
            (CheckFormat::Text, _) => {
                let told = failure(alloc, Some(lines.file), error);
                lines.notes.push_format(told);
            }
            (_, Ok(told)) => push_unplaced(lines, error, told.as_str()),
            (_, Err(_)) => lines.text.fail(),
        },
    }
}

// Where a text stops being JSON, and what is wrong there; or, if that isn't found, what its reader says.
fn reason_of(
    lines: &mut Lines<'_>,
    reader: &serde_json::Error,
) -> Result<(Position, String), AllocError> {
    if let Some(found) = lines.no_json.take() {
        return Ok(found);
    }
    let (line, column) = (reader.line().max(1), reader.column().max(1));
    Ok((
        Position { line, column },
        reader.to_string(lines.text.alloc())?,
    ))
}

// Adds that a text is no JSON, and why.
fn push_no_json(lines: &mut Lines<'_>, reader: &serde_json::Error) {
    let alloc = lines.text.alloc();
    let Ok((place, told)) = reason_of(lines, reader) else {
        return lines.text.fail();
    };
    if let CheckFormat::Text = lines.format {
        let Position { line, column } = place;
        let said = format!(in alloc; "line {line}, column {column}: invalid JSON: {told}");
        return note(&mut lines.notes, lines.file, said);
    }
    lines.place = Place::At(Some(place));
    match format!(in alloc; "invalid JSON: {told}") {
        Ok(message) => lines.push("error", "not-json", message.as_str()),
        Err(_) => lines.text.fail(),
    }
}

// Adds what is said of the faults of a text, in the order of their places.
fn push_faults(lines: &mut Lines<'_>, all: &[Fault]) {
    // Of each fault its line, its column and how many stand in front of it.
    let mut places = BTreeSet::new(lines.text.alloc());
    for (nth, fault) in all.iter().enumerate() {
        let Position { line, column } = lines.outline.place_of(fault);
        if places.insert((line, column, nth)).is_err() {
            lines.text.fail();
        }
    }
    for (_, _, nth) in places.iter().take(MOST) {
        if let Some(fault) = all.get(*nth) {
            push_fault(lines, fault);
        }
    }
    push_more(lines, all.len().saturating_sub(MOST));
}

// Adds that there are more errors than are told, if there are some.
fn push_more(lines: &mut Lines<'_>, more: usize) {
    let alloc = lines.text.alloc();
    let said = match more {
        0 => return,
        1 => String::from_str(alloc, "1 more error"),
        _ => format!(in alloc; "{more} more errors"),
    };
    if let CheckFormat::Text = lines.format {
        return note(&mut lines.notes, lines.file, said);
    }
    lines.place = Place::At(None);
    match said {
        Ok(said) => lines.push("error", "more-errors", said.as_str()),
        Err(_) => lines.text.fail(),
    }
}

// Adds what is said of an error of this text, which has no place of its own.
fn push_unplaced(lines: &mut Lines<'_>, error: &AnswerError, told: &str) {
    lines.place = Place::At(None);
    let code = match error {
        AnswerError::Library(Error::JsonFrontend(JsonFrontendError::RepeatedKey)) => {
            // Where it stands the second time.
            if let Some((path, position)) = lines.outline.repeated.take() {
                lines.path = path;
                lines.place = Place::At(Some(position));
            }
            "repeated-key"
        }
        AnswerError::NoProfile
        | AnswerError::Profile(CompileError::Profile(ProfileError::NotAProfile)) => {
            lines.place = Place::Value;
            "not-a-profile"
        }
        AnswerError::Profile(CompileError::TooLarge) => "program-too-large",
        AnswerError::Program(_) => "not-a-program",
        _ => "wrong-value",
    };
    lines.push("error", code, told);
}

// Adds what is said of a fault. An unknown key of a policy is found where the key is.
fn push_fault(lines: &mut Lines<'_>, fault: &Fault) {
    let alloc = lines.text.alloc();
    if let CheckFormat::Text = lines.format {
        return note(&mut lines.notes, lines.file, line_of(alloc, fault));
    }
    for step in &fault.path {
        match step {
            Step::Key(key) => lines.key(key.as_str()),
            Step::Item(place) => lines.item(*place),
        }
    }
    let code = code_of(lines, fault);
    match fault.words(alloc) {
        Ok(message) => lines.push("error", code, message.as_str()),
        Err(_) => lines.text.fail(),
    }
}

// The code of a fault. What is suggested in place of a call, and where an unknown key is, are noted of the next diagnostic.
fn code_of(lines: &mut Lines<'_>, fault: &Fault) -> &'static str {
    if is_of_profile(fault.form) {
        return "not-a-profile";
    }
    match &fault.problem {
        Problem::UnknownCall(_, _, near) => {
            lines.suggestion = *near;
            "unknown-call"
        }
        Problem::Strange(key) => {
            // Where the key is, on the path of its object.
            let alloc = lines.text.alloc();
            let path = mem::replace(&mut lines.path, String::new(alloc));
            lines.key(key.as_str());
            lines.path = path;
            lines.place = Place::At(Some(lines.value.key));
            "unexpected-key"
        }
        Problem::Missing(_) | Problem::Neither(_, _) => "missing-key",
        Problem::Both(_, _) => "both-keys",
        Problem::SameActions => "identical-actions",
        Problem::TooLong(_, _, _) => "program-too-large",
        Problem::Stands(_, _) | Problem::Beside(_) => "wrong-value",
    }
}

// What is said of a fault for people: the path, and what is wrong there.
fn line_of(alloc: Global, fault: &Fault) -> Result<String, AllocError> {
    let told = fault.text(alloc)?;
    readable(alloc, told.as_bytes(), TextKind::Line)
}
