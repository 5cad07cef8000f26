// The arguments of a call as strace writes them.

use crate::numbers::number_in;

/// What a line has of a call's arguments.
#[derive(Clone, Copy)]
pub(crate) struct Arguments<'a> {
    /// Their values, of those that are numbers.
    pub values: [Option<u64>; 6],
    /// Which of them are known in their low 32 bits alone.
    pub short: [bool; 6],
    /// How they are written: no bytes where the line doesn't have them.
    pub texts: [&'a str; 6],
}

// What stands behind an argument.
#[derive(Clone, Copy)]
enum End {
    Comma,
    Close,
    // The call has not ended.
    Cut,
    // The line breaks off.
    Missing,
}

// Where a byte stands in the arguments of a call.
#[derive(Clone, Copy)]
enum Inside {
    // No text.
    Nothing,
    // A text in quotes.
    Quotes,
    // A text in quotes, behind a backslash.
    Escape,
    // What a descriptor is, in angle brackets, so many of them.
    Angles(u32),
    // A comment.
    Comment,
}

impl<'a> Arguments<'a> {
    /// Arguments of which nothing is known.
    pub(crate) fn unknown() -> Self {
        Arguments {
            values: [None; 6],
            short: [false; 6],
            texts: [""; 6],
        }
    }

    /// Reads the arguments that stand in front of the end of a call, from this index on. Answers the index of the argument in which
    /// or behind which the call is cut, if it is. What the line breaks off in isn't known.
    pub(crate) fn read(&mut self, text: &'a str, from: usize) -> Option<usize> {
        let mut rest = text;
        for index in from..6 {
            let (length, end) = end_of(rest.as_bytes());
            let (argument, behind) = rest.split_at_checked(length)?;
            match end {
                End::Comma => self.put(index, argument),
                End::Close => {
                    self.put(index, argument);
                    return None;
                }
                End::Cut => {
                    self.put(index, argument);
                    return Some(index);
                }
                End::Missing => return None,
            }
            rest = behind.get(1..)?;
        }
        None
    }

    // Notes an argument, unless it is empty, as behind one at which a call was cut.
    fn put(&mut self, index: usize, argument: &'a str) {
        let argument = argument.trim();
        if argument.is_empty() {
            return;
        }
        let number = number_in(argument);
        if let Some(value) = self.values.get_mut(index) {
            *value = number.map(|it| it.value);
        }
        if let Some(short) = self.short.get_mut(index) {
            *short = matches!(number, Some(it) if it.is_short);
        }
        if let Some(text) = self.texts.get_mut(index) {
            *text = argument;
        }
    }
}

// Where an argument ends, and how.
fn end_of(text: &[u8]) -> (usize, End) {
    let mut inside = Inside::Nothing;
    let mut depth: u32 = 0;
    let mut before = b' ';
    for (index, byte) in text.iter().enumerate() {
        let rest = text.get(index..).unwrap_or(&[]);
        if let Inside::Nothing = inside {
            match byte {
                b',' if depth == 0 => return (index, End::Comma),
                b')' if depth == 0 => return (index, End::Close),
                b'<' if is_cut(rest) => return (index, End::Cut),
                b'(' | b'[' | b'{' => depth = depth.saturating_add(1),
                b')' | b']' | b'}' => depth = depth.saturating_sub(1),
                _ => {}
            }
        }
        inside = next(inside, before, rest);
        before = *byte;
    }
    (text.len(), End::Missing)
}

// Where what stands behind the first byte of these stands.
fn next(inside: Inside, before: u8, rest: &[u8]) -> Inside {
    let (byte, behind) = match rest {
        [byte, behind, ..] => (*byte, *behind),
        [byte] => (*byte, b' '),
        [] => return inside,
    };
    match (inside, byte) {
        (Inside::Nothing, b'"') => Inside::Quotes,
        (Inside::Nothing, b'/') if behind == b'*' => Inside::Comment,
        (Inside::Nothing, b'<') if is_opening(before, behind) => Inside::Angles(1),
        (Inside::Quotes, b'\\') => Inside::Escape,
        (Inside::Quotes, b'"') => Inside::Nothing,
        (Inside::Escape, _) => Inside::Quotes,
        (Inside::Comment, b'/') if before == b'*' => Inside::Nothing,
        (Inside::Angles(depth), b'<') => Inside::Angles(depth.saturating_add(1)),
        (Inside::Angles(1), b'>') if before != b'-' => Inside::Nothing,
        (Inside::Angles(depth), b'>') if before != b'-' => Inside::Angles(depth.saturating_sub(1)),
        _ => inside,
    }
}

// Whether an angle bracket between these opens what a descriptor is. It doesn't in a shift.
fn is_opening(before: u8, behind: u8) -> bool {
    before != b'<' && before != b' ' && behind != b'<' && behind != b' '
}

// Whether strace says here that the call has not ended.
fn is_cut(text: &[u8]) -> bool {
    text.starts_with(b"<unfinished ...>")
        || text.starts_with(b"<pid changed to ")
        || text.starts_with(b"<detached ...>")
}
