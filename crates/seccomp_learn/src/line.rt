// What a line of a trace says.

use crate::arguments::Arguments;
use crate::audit::audit_line;
use crate::strace::{Spoken, spoken_in};
use seccompiler::TargetArch;

/// A call that a line is about.
#[derive(Clone, Copy)]
pub struct Told<'a> {
    /// The `AUDIT_ARCH_*` value of the call.
    pub arch_word: u32,
    /// The call's name or number, as it is written.
    pub call: &'a str,
    /// What is known of its arguments.
    pub arguments: [Option<u64>; 6],
    /// The program that made it, as it is written, in quotes or in hexadecimal digits: no bytes where the line doesn't say that.
    pub program: &'a str,
    /// The process that made it, as it is written: no bytes where the line doesn't say that.
    pub process: &'a str,
    /// What a filter returned for it, if the line says that.
    pub returned: Option<u32>,
}

/// What a line of a trace says.
#[derive(Clone, Copy)]
pub enum Line<'a> {
    /// A call.
    Call(Told<'a>),
    /// Nothing of a call: a signal, an exit, the end of a call, an empty line.
    Passed,
    /// The line was not understood.
    Strange,
}

/// What a line says, of `strace`, of the audit system or of the kernel's log. What `strace` prints is of this architecture.
pub fn line_of(arch: TargetArch, line: &[u8]) -> Line<'_> {
    let Some(line) = text_of(line) else {
        return Line::Strange;
    };
    match spoken_in(line) {
        Spoken::Begins(begun) => {
            let mut arguments = Arguments::unknown();
            let _cut = arguments.read(begun.behind, 0);
            Line::Call(Told {
                arch_word: arch.get_audit_value(),
                call: begun.call,
                arguments: arguments.values,
                program: "",
                process: begun.thread,
                returned: None,
            })
        }
        Spoken::Resumes(_) | Spoken::Runs(_, _) | Spoken::Ends(_) | Spoken::Passed => Line::Passed,
        Spoken::Strange => audit_line(line),
    }
}

/// A line as text: up to the first byte that isn't UTF-8, if there is something before it. What names a call stands in front of what a
/// program wrote.
pub(crate) fn text_of(line: &[u8]) -> Option<&str> {
    match str::from_utf8(line) {
        Ok(text) => Some(text),
        Err(error) => {
            let front = str::from_utf8(line.get(..error.valid_up_to())?).ok()?;
            if front.trim().is_empty() {
                return None;
            }
            Some(front)
        }
    }
}
