// What is written of what is decided on records.

use crate::json::{Object, OrNull, or_null, push_item, written};
use crate::lines::{push_word, word_value};
use crate::log::Caller;
use crate::text::Text;
use seccomp_answers::explain::{Explained, Explanation, Why};
use seccomp_answers::layers::Layer;
use seccomp_entries::{Entry, Reason};
use seccomp_profiles::Abi;
use seccomp_text::readable::TextKind;
use std::alloc::{AllocError, Global};

/// The lines of what is decided on records of these calls, one for each, after who made the call; as JSON their list.
///
/// A line has the action by its name in a policy: `allow`, `log`, `trap`, `kill_thread`, `kill_process` and `user_notif`, a space and
/// the low 16 bits in decimal after `errno` and `trace`, and the name of an errno that has one in brackets; a value that is none of
/// these is written in hexadecimal digits after `0x`. The reason follows, by paths in the policy or the profile, or by the path of the
/// layer that decides, and its filter if that is asked for; and the call by its name and number.
pub fn explained_text(
    alloc: Global,
    abi: Abi,
    json: bool,
    layers: &[Layer<'_>],
    explanation: &Explanation,
    callers: &[Caller<'_>],
) -> Result<Vec<u8>, AllocError> {
    let (mut text, mut callers) = (Text::new(alloc), callers.iter());
    for explained in &explanation.records {
        let (written, process) = callers.next().copied().unwrap_or_default();
        let program = program_name(alloc, written)?;
        let caller = (program.as_str(), process);
        let reason = parts_of(abi, explanation, *explained);
        let path = path_of(alloc, layers, explanation, reason)?;
        if json {
            push_item(
                &mut text,
                value_of(alloc, abi, path.as_str(), caller, *explained, reason),
            );
        } else {
            push_line(
                &mut text,
                abi,
                path.as_str(),
                caller,
                explained.word,
                reason,
            );
        }
    }
    written(text, json, "decisions")
}

// The kinds of reasons.
#[derive(Clone, Copy)]
enum Kind {
    AnotherArchitecture,
    NoEntry,
    NoMatch,
    Entry,
    Default,
    Program,
    X32,
    Unlisted,
    AboveAll,
    Layer,
}

impl Kind {
    // What it is called in JSON, and what a line has in front of its path and the call.
    fn words(self) -> (&'static str, &'static str) {
        match self {
            Kind::AnotherArchitecture => ("another-architecture", ""),
            Kind::NoEntry => ("no-entry", "no entry of "),
            Kind::NoMatch => ("no-match", "no match: "),
            Kind::Entry => ("entry", ""),
            Kind::Default => ("no-entry", "defaultAction of "),
            Kind::Program => ("program", ""),
            Kind::X32 => ("no-entry", "libseccomp, for x32: "),
            Kind::Unlisted => ("no-entry", "libseccomp, since architectures lacks it: "),
            Kind::AboveAll => ("no-entry", "runc, above all calls that are named: "),
            Kind::Layer => ("layer", ""),
        }
    }
}

// What a line says of a reason: its kind, the number of the call that it is about, if it is of the architecture, the
// places of its entry and of its condition, if it has one, and how many entries of the text are for the call.
#[derive(Clone, Copy)]
struct Told {
    kind: Kind,
    number: Option<u32>,
    entry: Option<usize>,
    condition: Option<usize>,
    entries: usize,
    // The place of the layer that decides.
    layer: Option<usize>,
}

// What is said of a reason.
fn parts_of(abi: Abi, explanation: &Explanation, explained: Explained) -> Told {
    let mut told = Told {
        kind: Kind::AnotherArchitecture,
        number: None,
        entry: None,
        condition: None,
        entries: 0,
        layer: None,
    };
    match explained.why {
        Why::Entries(reason) => tell_of(&mut told, abi, explanation, explained.word, reason),
        Why::Program { number, .. } => {
            told.kind = Kind::Program;
            told.number = number;
        }
        Why::Layer { number, place, .. } => {
            told.kind = Kind::Layer;
            told.number = number;
            told.layer = place;
        }
    }
    told
}

// Adds what is said of a reason of entries.
fn tell_of(told: &mut Told, abi: Abi, explanation: &Explanation, word: u32, reason: Reason) {
    let entries = explanation.entries.as_slice();
    match reason {
        Reason::AnotherArchitecture => {}
        Reason::NoEntry { number } => {
            told.kind = kind_without(abi, explanation.default, word);
            told.number = Some(number);
        }
        Reason::NoMatch {
            number,
            nearest,
            ..
        } => {
            told.kind = Kind::NoMatch;
            told.number = Some(number);
            told.entries = count_for(entries, number);
            if let Some(entry) = entries.get(nearest.entry) {
                let place = place_in(explanation, entry);
                told.entry = Some(place);
                // An entry of `socketcall` or `ipc` has other conditions than the text's.
                if place == entry.place {
                    told.condition = Some(entry.alternative.unwrap_or(nearest.condition));
                }
            }
        }
        Reason::Entry { number, index } => {
            told.kind = Kind::Entry;
            told.number = Some(number);
            if let Some(entry) = entries.get(index) {
                told.entry = Some(place_in(explanation, entry));
            }
        }
    }
}

// Which reason it is that no entry is for a call. If the thread is killed, the number is one of x32, or the profile doesn't list the
// architecture; else it is runc's answer.
fn kind_without(abi: Abi, default: Option<u32>, word: u32) -> Kind {
    match (default, abi) {
        (None, _) => Kind::NoEntry,
        (Some(default), _) if default == word => Kind::Default,
        (Some(_), Abi::Native(_)) if word == 0 => Kind::X32,
        (Some(_), _) if word == 0 => Kind::Unlisted,
        (Some(_), _) => Kind::AboveAll,
    }
}

// The place of the text's entry that an entry is of.
fn place_in(explanation: &Explanation, entry: &Entry) -> usize {
    let own = explanation.places.get(entry.place);
    own.copied().unwrap_or(entry.place)
}

// How many entries of the text are for the calls of a number: one of which each condition has an entry of its own is one.
fn count_for(entries: &[Entry], number: u32) -> usize {
    let mut count = 0usize;
    for entry in entries {
        let is_further = matches!(entry.alternative, Some(1..));
        if entry.number == number && !is_further {
            count = count.saturating_add(1);
        }
    }
    count
}

// The path of what is the reason, in the filter of this name or in a profile; or of the layer, with the filter that is asked for behind
// a colon; nothing if it is none of these.
fn path_of(
    alloc: Global,
    layers: &[Layer<'_>],
    explanation: &Explanation,
    told: Told,
) -> Result<String, AllocError> {
    let mut path = Text::new(alloc);
    if let Some(place) = told.layer
        && let Some(layer) = layers.get(place)
    {
        path.push_str(layer.path);
        if let Some(filter) = layer.filter {
            path.push_str(":");
            path.push_str(filter);
        }
    }
    if let Some(entry) = told.entry {
        match &explanation.name {
            None => path.push_str("syscalls["),
            Some(name) => {
                path.push_str(name.as_str());
                path.push_str(".filter[");
            }
        }
        path.push_display(&entry);
        if let Some(condition) = told.condition {
            path.push_str("].args[");
            path.push_display(&condition);
        }
        path.push_str("]");
    }
    path.finish_string()
}

// Adds the line of a decision, whose reason has this path, after who made the call.
fn push_line(text: &mut Text, abi: Abi, path: &str, caller: (&str, &str), word: u32, told: Told) {
    push_caller(text, caller);
    push_word(text, word);
    text.push_str(": ");
    text.push_str(told.kind.words().1);
    if !path.is_empty() {
        text.push_readable(path, TextKind::Name);
        text.push_str(" of ");
    }
    push_decided(text, abi, told.number);
    if let Kind::NoMatch = told.kind {
        text.push_str(" does not hold");
        if told.entries > 1 {
            text.push_str(", the nearest of ");
            text.push_display(&told.entries);
            text.push_str(" entries");
        }
    }
    text.push_str("\n");
}

// Adds the call that is decided, of which there is a number if it is of the architecture.
fn push_decided(text: &mut Text, abi: Abi, number: Option<u32>) {
    let Some(number) = number else {
        return text.push_str("another architecture");
    };
    if let Some(name) = abi.name_of(number) {
        text.push_str(name);
        text.push_str(" (");
        text.push_display(&number);
        text.push_str(")");
    } else {
        text.push_str("call ");
        text.push_display(&number);
    }
}

// Adds who made a call, as far as a line said it: the program, and the number of the process in brackets, or alone.
fn push_caller(text: &mut Text, (program, process): (&str, &str)) {
    match (program, process) {
        ("", "") => return,
        ("", _) => text.push_readable(process, TextKind::Name),
        (_, "") => text.push_readable(program, TextKind::Name),
        _ => {
            text.push_readable(program, TextKind::Name);
            text.push_str("[");
            text.push_readable(process, TextKind::Name);
            text.push_str("]");
        }
    }
    text.push_str(": ");
}

// The name of a program. Linux writes it in quotes, or, if it has blanks or other such bytes, in upper-case hexadecimal digits.
fn program_name(alloc: Global, written: &str) -> Result<String, AllocError> {
    let plain = written.trim_matches('"');
    if written.contains(|c: char| c.is_ascii_lowercase()) {
        return String::from_str(alloc, plain);
    }
    match hex::decode(alloc, written.as_bytes()) {
        Ok(bytes) => String::from_utf8_lossy(alloc, &bytes),
        Err(_) => String::from_str(alloc, plain),
    }
}

// A decision as an object.
fn value_of(
    alloc: Global,
    abi: Abi,
    path: &str,
    caller: (&str, &str),
    explained: Explained,
    told: Told,
) -> Object {
    let Explained { word, why } = explained;
    let Told {
        kind,
        number,
        entry,
        condition,
        ..
    } = told;
    let steps = match why {
        Why::Program { steps, .. } | Why::Layer { steps, .. } => Some(steps),
        _ => None,
    };
    let mut object = Object::new(alloc);
    object.field("action", word_value(alloc, word));
    object.field(
        "call",
        OrNull(number.and_then(|number| abi.name_of(number))),
    );
    object.field("number", number);
    object.field("reason", kind.words().0);
    object.field("path", or_null(path));
    object.field("entry", entry);
    object.field("condition", condition);
    object.field("steps", steps);
    object.field("program", or_null(caller.0));
    object.field("process", or_null(caller.1));
    object
}
