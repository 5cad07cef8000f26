// The forms of what `check` says.

use crate::json::{Object, OrNull, push_item};
use crate::lines::push_example;
use crate::notes::push_front;
use crate::text::Text;
use seccomp_faults::{JsonFault, Located, Outline, Position, outline_of};
use seccomp_text::readable::TextKind;
use seccomp_warnings::Evasion;
use seccompiler::TargetArch;
use std::alloc::{AllocError, Global};
use std::mem;

/// How `check` writes what it says.
#[derive(Clone, Copy)]
pub enum CheckFormat {
    /// For people: warnings in lines, and errors on standard error.
    Text,
    /// Both in lines as gcc's.
    Gcc,
    /// Both as JSON.
    Json,
}

/// Where a diagnostic of a value is found.
#[derive(Clone, Copy)]
pub enum Place {
    /// Where the value begins.
    Value,
    /// Where the value's key begins, which is what it is about.
    Key,
    /// Here, or nowhere.
    At(Option<Position>),
}

// A line that isn't written yet, since more calls may come to it.
#[derive(Drop)]
struct Pending {
    path: String,
    position: Option<Position>,
    is_key: bool,
    severity: &'static str,
    code: &'static str,
    message: String,
    // The calls that it is about, if it is about some of several.
    calls: Vec<&'static str>,
}

/// What is said of a text, in the making: lines for people or as gcc's, one for the calls of which the same is said at one place; or
/// JSON, an object for each diagnostic, in a line, with a comma behind it. What is noted of the next diagnostic is forgotten once
/// it is added.
#[derive(Drop)]
pub struct Lines<'a> {
    /// How it is written.
    pub format: CheckFormat,
    /// The path of what has the text.
    pub file: &'a str,
    /// Where the values of the text stand.
    pub outline: Outline,
    /// If it is no JSON, where it stops being so, and what is wrong there.
    pub no_json: Option<(Position, String)>,
    /// What is said so far.
    pub text: Text,
    /// What is noted so far on standard error.
    pub notes: Text,
    /// The path of what the next diagnostic is about, with a point in front of each key.
    pub path: String,
    /// The value there, or else the last one on the way.
    pub value: Located,
    /// Where it is found.
    pub place: Place,
    /// The name of the call that it is about, if it is about one of several.
    pub call: Option<&'static str>,
    /// What may have been meant by the value there.
    pub suggestion: Option<&'static str>,
    // The lines about the last place, which aren't written yet.
    pending: Vec<Pending>,
}

/// The two calls of an evasion, and behind them what is said of them.
pub(crate) fn said_of_calls(
    alloc: Global,
    target: TargetArch,
    evasion: &Evasion,
    said: &str,
) -> Result<String, AllocError> {
    let mut text = Text::new(alloc);
    push_example(&mut text, target, false, &evasion.denied);
    text.push_str(" is denied, and let through is ");
    push_example(&mut text, target, false, &evasion.passed);
    text.push_str(", ");
    text.push_str(said);
    text.finish_string()
}

impl Lines<'_> {
    /// None yet, of this text.
    pub fn new<'a>(alloc: Global, format: CheckFormat, file: &'a str, text: &[u8]) -> Lines<'a> {
        let outline = Outline::new(alloc);
        let mut lines = Lines {
            format,
            file,
            value: outline.whole,
            outline,
            no_json: None,
            text: Text::new(alloc),
            notes: Text::new(alloc),
            path: String::new(alloc),
            place: Place::Value,
            call: None,
            suggestion: None,
            pending: Vec::new(alloc),
        };
        // Lines for people don't say where.
        if !matches!(format, CheckFormat::Text) {
            lines.locate(text);
        }
        lines
    }

    /// Looks where the values of the text stand.
    pub fn locate(&mut self, text: &[u8]) {
        match outline_of(self.text.alloc(), text) {
            Ok(outline) => {
                self.value = outline.whole;
                self.outline = outline;
            }
            Err(JsonFault::At(place, told)) => self.no_json = Some((place, told)),
            Err(JsonFault::OutOfMemory) => self.text.fail(),
        }
    }

    /// Goes on to what is under this key.
    pub fn key(&mut self, key: &str) {
        let alloc = self.text.alloc();
        self.value = self.outline.under(self.value, key);
        self.step(format!(in alloc; ".{key}"));
    }

    /// Goes on to the item at this place.
    pub fn item(&mut self, place: usize) {
        let alloc = self.text.alloc();
        self.value = self.outline.item(self.value, place);
        self.step(format!(in alloc; "[{place}]"));
    }

    // Adds a step to the path.
    fn step(&mut self, step: Result<String, AllocError>) {
        match step {
            Ok(step) if self.path.push_str(step.as_str()).is_ok() => {}
            _ => self.text.fail(),
        }
    }

    /// Adds a diagnostic of what the path leads to: of all of the text, if it has no steps. A line of gcc is
    /// `FILE:LINE:COLUMN: SEVERITY: PATH: MESSAGE [CODE]`, without a place or path that there isn't; standard input is `-`.
    pub fn push(&mut self, severity: &'static str, code: &'static str, message: &str) {
        let alloc = self.text.alloc();
        let path = mem::replace(&mut self.path, String::new(alloc));
        let path = path.as_str().strip_prefix('.').unwrap_or(path.as_str());
        let position = match self.place {
            Place::Value => Some(self.value.begins),
            Place::Key => Some(self.value.key),
            Place::At(position) => position,
        };
        if let CheckFormat::Json = self.format {
            let mut object = Object::new(alloc);
            object.field("file", self.file);
            let (line, column) = match position {
                Some(Position { line, column }) => (Some(line), Some(column)),
                None => (None, None),
            };
            object.field("line", line);
            object.field("column", column);
            object.field("path", path);
            object.field("call", OrNull(self.call));
            object.field("code", code);
            object.field("severity", severity);
            object.field("message", message);
            object.field("suggestion", OrNull(self.suggestion));
            push_item(&mut self.text, object);
        } else if self
            .push_line(path, position, severity, code, message)
            .is_err()
        {
            self.text.fail();
        }
        self.value = self.outline.whole;
        self.place = Place::Value;
        self.call = None;
        self.suggestion = None;
    }

    /// What is said, and what is noted.
    pub fn finish(self) -> (Text, Text) {
        let mut lines = self;
        lines.write_pending();
        (lines.text, lines.notes)
    }

    // Adds the line of a diagnostic, for people or as gcc's, or another call to the last line.
    fn push_line(
        &mut self,
        path: &str,
        position: Option<Position>,
        severity: &'static str,
        code: &'static str,
        message: &str,
    ) -> Result<(), AllocError> {
        let is_same = matches!(self.pending.last(), Some(last) if last.path.as_str() == path);
        if !is_same {
            self.write_pending();
        }
        if let Some(call) = self.call {
            for line in &mut self.pending {
                if line.is_of(code, message) {
                    line.calls.push(call)?;
                    return Ok(());
                }
            }
        }
        let alloc = self.text.alloc();
        self.pending.push(Pending {
            path: String::from_str(alloc, path)?,
            position,
            is_key: matches!(self.place, Place::Key),
            severity,
            code,
            message: String::from_str(alloc, message)?,
            calls: Vec::new(alloc),
        })?;
        match (self.call, self.pending.last_mut()) {
            (Some(call), Some(line)) => Ok(line.calls.push(call)?),
            _ => Ok(()),
        }
    }

    // Writes the lines about the last place.
    fn write_pending(&mut self) {
        let alloc = self.text.alloc();
        for line in mem::replace(&mut self.pending, Vec::new(alloc)) {
            self.write_line(&line);
        }
    }

    // Writes a line. A key stands in quotes.
    fn write_line(&mut self, line: &Pending) {
        let is_gcc = matches!(self.format, CheckFormat::Gcc);
        let quote = if line.is_key { "\"" } else { "" };
        let (alloc, text) = (self.text.alloc(), &mut self.text);
        if is_gcc {
            text.push_readable(self.file, TextKind::Name);
            if let Some(Position { line, column }) = line.position {
                text.push_format(format!(in alloc; ":{line}:{column}"));
            }
            text.push_format(format!(in alloc; ": {}: ", line.severity));
        } else {
            push_front(text, self.file);
        }
        text.push_str(quote);
        text.push_readable(line.path.as_str(), TextKind::Name);
        text.push_str(quote);
        push_calls(text, &line.calls);
        if is_gcc {
            text.push_str(if line.path.is_empty() { "" } else { ": " });
            text.push_readable(line.message.as_str(), TextKind::Line);
            text.push_format(format!(in alloc; " [{}]\n", line.code));
        } else {
            text.push_format(format!(in alloc; ": warning [{}]: {}\n", line.code, line.message));
        }
    }
}

impl Pending {
    // Whether it is about some of several calls, and says this of them.
    fn is_of(&self, code: &str, message: &str) -> bool {
        !self.calls.is_empty() && self.code == code && self.message.as_str() == message
    }
}

// Adds the calls that a line is about, if it is about some of several.
fn push_calls(text: &mut Text, calls: &[&'static str]) {
    let mut front = " (";
    for call in calls {
        text.push_str(front);
        text.push_str(call);
        front = ", ";
    }
    if !calls.is_empty() {
        text.push_str(")");
    }
}
