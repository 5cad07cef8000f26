// Lines of strace.

/// A call that a line of strace begins.
#[derive(Clone, Copy)]
pub(crate) struct Begun<'a> {
    /// The number of the thread, as it is written, if the line has one.
    pub thread: &'a str,
    /// The call's name.
    pub call: &'a str,
    /// What stands behind the parenthesis, up to a message of strace that comes between.
    pub behind: &'a str,
}

/// What a line of strace says.
#[derive(Clone, Copy)]
pub(crate) enum Spoken<'a> {
    /// A call begins.
    Begins(Begun<'a>),
    /// A call goes on that another line began.
    Resumes(Begun<'a>),
    /// The process of this number, if the line has one, makes calls of 64 bits from here on, or else others.
    Runs(&'a str, bool),
    /// The process of this number ends, if the line has one.
    Ends(&'a str),
    /// Nothing of a call.
    Passed,
    /// The line is none of strace.
    Strange,
}

/// What a line of strace says. What names a call makes it one, whatever its arguments are.
pub(crate) fn spoken_in(line: &str) -> Spoken<'_> {
    let (thread, rest) = without_front(line);
    if let Some(resumed) = rest.strip_prefix("<... ") {
        return match resumed.split_once(" resumed>") {
            Some((call, behind)) if is_name(call) => Spoken::Resumes(Begun {
                thread,
                call,
                behind,
            }),
            _ => Spoken::Passed,
        };
    }
    if let Some(mode) = mode_in(rest) {
        return Spoken::Runs(thread, mode == "64 bit");
    }
    if rest.starts_with("+++") {
        return Spoken::Ends(thread);
    }
    if rest.is_empty() || is_passed(rest) {
        return Spoken::Passed;
    }
    match rest.split_once('(') {
        Some((call, behind)) if is_name(call) => Spoken::Begins(Begun {
            thread,
            call,
            behind: match behind.split_once("strace: Process ") {
                Some((front, _)) => front,
                None => behind,
            },
        }),
        _ => Spoken::Strange,
    }
}

// The mode in which a process runs, as a message of strace says.
fn mode_in(rest: &str) -> Option<&str> {
    let (_, mode) = rest
        .strip_prefix("[ Process PID=")?
        .split_once(" runs in ")?;
    mode.strip_suffix(" mode. ]")
}

// Whether a line without its front says nothing of a call: a signal, a message of strace, a frame of a stack, the end of a call
// that a message came between.
fn is_passed(rest: &str) -> bool {
    for front in [
        "---",
        "> ",
        "time->",
        "???(",
        "<unfinished ...>",
        "<detached ...>",
        "=> ",
        ") = ",
        ")  ",
    ] {
        if rest.starts_with(front) {
            return true;
        }
    }
    match rest.split_once("strace: ") {
        Some((path, _)) => !path.contains(' ') && !path.contains('('),
        None => false,
    }
}

// Whether it may be a call's name.
fn is_name(name: &str) -> bool {
    !name.is_empty()
        && !name.starts_with(|c: char| c.is_ascii_digit())
        && name.bytes().all(|byte| byte.is_ascii_lowercase()
            || byte.is_ascii_digit()
            || byte == b'_')
}

// The thread of a line, and the line without what may stand before a call: the process, the time, the instruction pointer, the
// call's number, the process's context.
fn without_front(line: &str) -> (&str, &str) {
    let mut thread = "";
    let mut rest = line.trim();
    for _ in 0..8u8 {
        let Some((part, behind)) = part_of(rest) else {
            break;
        };
        if thread.is_empty() {
            thread = thread_in(part);
        }
        rest = behind.trim_start();
    }
    (thread, rest)
}

// The first part of a front, and what stands behind it.
fn part_of(rest: &str) -> Option<(&str, &str)> {
    if rest.starts_with("[ Process ") {
        return None;
    }
    if rest.starts_with('[') {
        return rest.split_once(']');
    }
    if rest.starts_with("(+") {
        return rest.split_once(')');
    }
    if rest.starts_with("/*") {
        return rest.split_once("*/");
    }
    if !rest.starts_with(|c: char| c.is_ascii_digit()) {
        return None;
    }
    // A process with its command, in which blanks may be.
    match rest.split_once('<') {
        Some((process, _)) if is_digits(process) => rest.split_once("> "),
        _ => rest.split_once(' '),
    }
}

// The number of the thread that a part of a front is, if it is one.
fn thread_in(part: &str) -> &str {
    let text = part.strip_prefix("[pid").unwrap_or(part).trim();
    let text = match text.split_once('<') {
        Some((process, _)) => process,
        None => text,
    };
    if is_digits(text) { text } else { "" }
}

// Whether all of it are digits, and there are some.
fn is_digits(text: &str) -> bool {
    !text.is_empty() && text.bytes().all(|byte| byte.is_ascii_digit())
}
