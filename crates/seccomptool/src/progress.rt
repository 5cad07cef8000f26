// What is shown so far: of a comparison while it lasts, and of a list.

use seccomp_answers::findings::parts::name_of;
use seccomp_answers::findings::{Part, Progress};
use seccompiler::TargetArch;
use std::time::Instant;

// Nothing is shown before the program ran for so many seconds.
const SECONDS: u64 = 2;

/// One line of a terminal, on standard error, with how many sets of calls were looked at so far. It is written
/// once the program ran for two seconds, anew in its place, and erased at the end. No answer depends on it.
/// Beside that, what a list's next item needs.
#[derive(Drop)]
pub(crate) struct Watch<'a> {
    rt: &'a HostRuntime,
    // When the program began, where anything is to be shown and the clock can be read.
    start: Option<Instant>,
    sets: usize,
    written: bool,
    /// Whether an item of the list is written, where one is.
    pub is_listed: bool,
}

impl<'a> Watch<'a> {
    /// `to_terminal` says whether standard error is a terminal: if it isn't, nothing is shown.
    pub(crate) fn new(rt: &'a HostRuntime, to_terminal: bool) -> Self {
        Watch {
            rt,
            start: if to_terminal {
                Instant::now(rt).ok()
            } else {
                None
            },
            sets: 0,
            written: false,
            is_listed: false,
        }
    }

    /// The comparison ended.
    pub(crate) fn end(&mut self) {
        if self.written {
            let _ = eprint!(self.rt; "\r\x1b[K");
        }
    }
}

impl Progress for Watch<'_> {
    fn looked_at(&mut self, target: TargetArch, part: Part, sets: usize) {
        self.sets = self.sets.saturating_add(sets);
        let Some(start) = self.start else { return };
        if matches!(start.elapsed(self.rt), Ok(time) if time.as_secs() >= SECONDS) {
            self.written = true;
            // A short name, so that the line fits a terminal.
            let name = match part {
                Part::Named { number } => name_of(target, number).unwrap_or("calls"),
                Part::Unnamed { .. } => "other calls",
                Part::Elsewhere { .. } => "other architectures",
            };
            let sets = self.sets;
            // From the line's begin on, and nothing behind it.
            let _ = eprint!(self.rt; "\rseccomptool: {name}: {sets} sets of calls looked at\x1b[K");
        }
    }
}
