// Where the values of a JSON text stand, or why it is none, which its readers don't say.

ghost use Rattle.std.specs.Prelude.{◌≤◌, length};

use serde_json::Value;
use std::alloc::{AllocError, Global};
use std::str;

// How deep arrays and objects may nest.
const DEEPEST: usize = 127;

const START: Position = Position { line: 1, column: 1 };

/// A place of a text: its line, and the column of its byte in this line, both from 1.
#[derive(Clone, Copy)]
pub struct Position {
    /// The line.
    pub line: usize,
    /// The column, in bytes.
    pub column: usize,
}

/// Where a value of a JSON text stands.
#[derive(Clone, Copy)]
pub struct Located {
    /// Where it begins.
    pub begins: Position,
    /// Where its key does, or itself if it has none.
    pub key: Position,
    // Where its key begins and ends among those of the text.
    name: (usize, usize),
    // The place of what is inside it; that of nothing, if it is no array or object.
    inside: usize,
}

/// Why a text has no outline.
#[derive(Drop)]
pub enum JsonFault {
    /// It is no JSON: it stops being so here, and this is wrong, in a few words.
    At(Position, String),
    /// Memory ran out.
    OutOfMemory,
}

impl From<AllocError> for JsonFault {
    fn from(_refused: AllocError) -> JsonFault {
        JsonFault::OutOfMemory
    }
}

/// The values of a JSON text.
#[derive(Drop)]
pub struct Outline {
    /// The outermost one.
    pub whole: Located,
    /// The first key that its object has already: the path of its value, and where the key begins.
    pub repeated: Option<(String, Position)>,
    // What is inside each array, in the text's order, and inside each object, in the order of keys.
    inside: Vec<Vec<Located>>,
    // All keys, one behind the other.
    names: Vec<u8>,
}

// What may come next; that which is behind a value is `More`.
#[derive(Clone, Copy)]
enum Wanted {
    Value,
    ValueOrEnd,
    Name,
    NameOrEnd,
    Colon,
    More,
}

// What is read of a text.
#[derive(Drop)]
struct Reading {
    at: Position,
    wanted: Wanted,
    // The arrays and objects around that which comes next, the outermost first: the place of what is inside, and whether it is an object.
    open: Vec<(usize, bool)>,
    // Where the first key begins that its object has already.
    repeats: (usize, usize),
    // The key of what comes next: where it begins, and among the names.
    key: Option<(Position, (usize, usize))>,
    outline: Outline,
}

/// Where the values of a text stand; or why it is no JSON: where it stops being so, what stands there, and what was expected.
///
/// That it is right is tested, and not proved.
pub fn outline_of(alloc: Global, text: &[u8]) -> Result<Outline, JsonFault> {
    let mut reading = Reading {
        at: START,
        wanted: Wanted::Value,
        open: Vec::new(alloc),
        repeats: (usize::MAX, usize::MAX),
        key: None,
        outline: Outline::new(alloc),
    };
    if let Err(error) = str::from_utf8(text) {
        for byte in text.iter().take(error.valid_up_to()) {
            reading.pass(*byte, 1);
        }
        let told = String::from_str(alloc, "the text isn't UTF-8")?;
        return Err(JsonFault::At(reading.at, told));
    }
    let mut rest = text;
    for _ in 0..text.len() {
        let (piece, behind) = rest.split_at(json_piece_len(rest));
        let Some(first) = piece.first() else {
            break;
        };
        if !matches!(*first, b' ' | b'\t' | b'\r' | b'\n') {
            reading.take(alloc, *first, piece)?;
        }
        reading.pass(*first, piece.len());
        rest = behind;
    }
    match (reading.wanted, reading.open.is_empty()) {
        (Wanted::More, true) => Ok(reading.outline),
        _ => Err(JsonFault::At(reading.at, unexpected(alloc, reading.expected(), b"")?)),
    }
}

// How long the string, the number or name, the mark, or the spaces are that a JSON text begins with.
fn json_piece_len(text: &[u8]) -> usize
    ensures { result ≤ length text.now }
{
    let mut is_escaped = false;
    for place in 1..text.len() {
        match (text[0], text[place]) {
            (b'"', b'"') if !is_escaped => return place + 1,
            (b'"', next) => is_escaped = next == b'\\' && !is_escaped,
            (b' ', b' ') => {}
            (b'{' | b'}' | b'[' | b']' | b',' | b':' | b' ' | b'\t' | b'\r' | b'\n', _)
            | (_, b'{' | b'}' | b'[' | b']' | b',' | b':' | b'"' | b' ' | b'\t' | b'\r' | b'\n') =>
                {
                    return place;
                }
            _ => {}
        }
    }
    text.len()
}

// The key of a value.
fn name_in<'n>(names: &'n [u8], located: &Located) -> &'n [u8] {
    names.get(located.name.0..located.name.1).unwrap_or(b"")
}

impl Outline {
    /// That of no text.
    pub fn new(alloc: Global) -> Outline {
        Outline {
            whole: Located {
                begins: START,
                key: START,
                name: (0, 0),
                inside: usize::MAX,
            },
            repeated: None,
            inside: Vec::new(alloc),
            names: Vec::new(alloc),
        }
    }

    /// The value at this place of an array; or this one, if there is none.
    pub fn item(&self, outer: Located, place: usize) -> Located {
        match self.inside.get(outer.inside) {
            Some(inside) => *inside.get(place).unwrap_or(&outer),
            None => outer,
        }
    }

    /// The value under this key of an object; or this one, if there is none. A filter's actions have two names.
    pub fn under(&self, outer: Located, key: &str) -> Located {
        let Some(inside) = self.inside.get(outer.inside) else {
            return outer;
        };
        let other = match key {
            "mismatch_action" => "default_action",
            "match_action" => "filter_action",
            _ => key,
        };
        for key in [key, other] {
            let names = self.names.as_slice();
            let found = inside.binary_search_by(|it| name_in(names, it).cmp(key.as_bytes()));
            if let Ok(place) = found {
                return inside[place];
            }
        }
        outer
    }
}

impl Reading {
    // Goes on behind a piece that begins with this byte.
    fn pass(&mut self, first: u8, len: usize) {
        self.at.column = self.at.column.saturating_add(len);
        if first == b'\n' {
            self.at.line = self.at.line.saturating_add(1);
            self.at.column = 1;
        }
    }

    // Takes a piece of the text, which begins with this byte; or says what is wrong with it.
    fn take(&mut self, alloc: Global, first: u8, piece: &[u8]) -> Result<(), JsonFault> {
        self.wanted = match (self.wanted, first, self.open.last().copied()) {
            (Wanted::Value | Wanted::ValueOrEnd, b'{' | b'[', _) if self.open.len() >= DEEPEST => {
                let told = String::from_str(alloc, "nested more than 127 deep")?;
                return Err(JsonFault::At(self.at, told));
            }
            (Wanted::Value | Wanted::ValueOrEnd, b'{' | b'[', _) => self.file(alloc, first)?,
            (Wanted::ValueOrEnd | Wanted::More, b']', Some((_, false)))
            | (Wanted::NameOrEnd | Wanted::More, b'}', Some((_, true))) => self.close(alloc)?,
            (Wanted::More, b',', Some((_, true))) => Wanted::Name,
            (Wanted::More, b',', Some(_)) | (Wanted::Colon, b':', _) => Wanted::Value,
            (Wanted::Name | Wanted::NameOrEnd, b'"', _) => {
                let begins = self.outline.names.len();
                if let [_, plain @ .., _] = piece
                    && is_plain(piece)
                {
                    self.outline.names.extend_from_slice(plain)?;
                } else {
                    let text = self.text_of(alloc, first, piece)?;
                    self.outline.names.extend_from_slice(text.as_bytes())?;
                }
                self.key = Some((self.at, (begins, self.outline.names.len())));
                Wanted::Colon
            }
            (Wanted::Value | Wanted::ValueOrEnd, first, _)
                if !matches!(first, b'}' | b']' | b',' | b':') => {
                if !is_plain(piece) {
                    drop(self.text_of(alloc, first, piece)?);
                }
                self.file(alloc, first)?
            }
            _ => return Err(JsonFault::At(self.at, unexpected(alloc, self.expected(), piece)?)),
        };
        Ok(())
    }

    // The text of a string, and no text of another value; or what is wrong with a piece that is no value.
    fn text_of(&self, alloc: Global, first: u8, piece: &[u8]) -> Result<String, JsonFault> {
        match Value::from_slice(alloc, piece) {
            Ok(value) => match value {
                Value::String(text) => Ok(text),
                _other => Ok(String::new(alloc)),
            },
            Err(error) if error.is_memory() => Err(JsonFault::OutOfMemory),
            Err(error) => {
                let is_large = error.to_string(alloc)?.starts_with("number out of range");
                let told = match first {
                    b'"' => String::from_str(alloc, wrong_in_string(piece))?,
                    b'-' | b'0'..=b'9' if is_large => {
                        unexpected(alloc, "a number below 1.8e308", piece)?
                    }
                    b'-' | b'0'..=b'9' => unexpected(alloc, "a number in decimal digits", piece)?,
                    _ => unexpected(alloc, "a value", piece)?,
                };
                Err(JsonFault::At(self.at, told))
            }
        }
    }

    // Files the value that begins here with this byte, and goes on inside it if it is an array or an object. Gives what may come next.
    fn file(&mut self, alloc: Global, first: u8) -> Result<Wanted, AllocError> {
        let (begins, inside) = (self.at, self.outline.inside.len());
        let (key, name) = self.key.take().unwrap_or((begins, (0, 0)));
        let (next, inside) = match first {
            b'{' => (Wanted::NameOrEnd, inside),
            b'[' => (Wanted::ValueOrEnd, inside),
            _ => (Wanted::More, usize::MAX),
        };
        let located = Located {
            begins,
            key,
            name,
            inside,
        };
        if let Some((around, _)) = self.open.last()
            && let Some(own) = self.outline.inside.get_mut(*around)
        {
            own.push(located)?;
        } else {
            self.outline.whole = located;
        }
        if inside != usize::MAX {
            self.outline.inside.push(Vec::new(alloc))?;
            self.open.push((inside, first == b'{'))?;
        }
        Ok(next)
    }

    // Ends the innermost array or object: sorts what is inside an object by keys, and looks for the first one that it has already.
    fn close(&mut self, alloc: Global) -> Result<Wanted, AllocError> {
        let mut found = None;
        if let Some((around, true)) = self.open.pop()
            && let Some(inside) = self.outline.inside.get_mut(around)
        {
            let names = self.outline.names.as_slice();
            inside.sort_by(|one, other| name_in(names, one).cmp(name_in(names, other)))?;
            for pair in inside.windows(2) {
                if let [one, other] = pair
                    && name_in(names, one) == name_in(names, other)
                    && (other.key.line, other.key.column) < self.repeats
                {
                    self.repeats = (other.key.line, other.key.column);
                    found = Some(*other);
                }
            }
        }
        if let Some(member) = found {
            self.outline.repeated = Some((self.path_to(alloc, member)?, member.key));
        }
        Ok(Wanted::More)
    }

    // The path to a member of the object that was read last, with a point in front of each key.
    fn path_to(&self, alloc: Global, member: Located) -> Result<String, AllocError> {
        let names = self.outline.names.as_slice();
        let mut path = String::new(alloc);
        for (around, is_object) in &self.open {
            let Some(inside) = self.outline.inside.get(*around) else {
                break;
            };
            path = match inside.last() {
                Some(last) if *is_object => {
                    let key = String::from_utf8_lossy(alloc, name_in(names, last))?;
                    format!(in alloc; "{path}.{key}")?
                }
                _ => format!(in alloc; "{path}[{}]", inside.len().saturating_sub(1))?,
            };
        }
        let key = String::from_utf8_lossy(alloc, name_in(names, &member))?;
        format!(in alloc; "{path}.{key}")
    }

    // What may come next, in words.
    fn expected(&self) -> &'static str {
        match (self.wanted, self.open.last().copied()) {
            (Wanted::Value, _) => "a value",
            (Wanted::ValueOrEnd, _) => "a value or \"]\"",
            (Wanted::Name, _) => "a name in quotes",
            (Wanted::NameOrEnd, _) => "a name in quotes or \"}\"",
            (Wanted::Colon, _) => "\":\"",
            (Wanted::More, Some((_, true))) => "\",\" or \"}\"",
            (Wanted::More, Some(_)) => "\",\" or \"]\"",
            (Wanted::More, None) => "the end of the text",
        }
    }
}

// Whether a piece is a value at first sight: a string without escapes, a name, or some digits.
fn is_plain(piece: &[u8]) -> bool {
    match piece {
        [b'"', plain @ .., b'"'] => plain.iter().all(|it| *it >= b' ' && *it != b'\\'),
        b"true" | b"false" | b"null" | b"0" => true,
        [b'1'..=b'9', digits @ ..] => digits.len() < 18
            && digits.iter().all(|it| it.is_ascii_digit()),
        _ => false,
    }
}

// What is wrong in a string.
fn wrong_in_string(piece: &[u8]) -> &'static str {
    let mut is_escaped = false;
    for byte in piece.iter().skip(1) {
        match *byte {
            b'\n' => return "a line ends inside a string",
            0..=0x1f => return "a control character inside a string",
            b'"' if !is_escaped => return "an unknown escape inside a string",
            b'\\' => is_escaped = !is_escaped,
            _ => is_escaped = false,
        }
    }
    "the text ends inside a string"
}

// That something else was expected than this piece, of which 20 characters are shown; none is the end of the text.
fn unexpected(alloc: Global, expected: &str, piece: &[u8]) -> Result<String, AllocError> {
    match piece.first() {
        None => format!(in alloc; "expected {expected}, found the end of the text"),
        Some(b'"') => format!(in alloc; "expected {expected}, found a string"),
        Some(_) => {
            let piece = String::from_utf8_lossy(alloc, piece)?;
            let mut shown = String::new(alloc);
            for character in piece.chars().take(20) {
                shown.push(character)?;
            }
            format!(in alloc; "expected {expected}, found \"{shown}\"")
        }
    }
}
