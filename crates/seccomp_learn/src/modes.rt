// Which processes of a trace make calls of another architecture.

use crate::strace::Spoken;
use std::alloc::{AllocError, Global};
use std::collections::BTreeMap;

/// Which processes of a trace make calls of another architecture, as a 32-bit program does. `strace` says when that changes, and
/// takes it that a process goes on as the one did that it looked at before.
#[derive(Drop)]
pub(crate) struct Modes {
    // Of each process that lives, by its number, whether it makes such calls.
    living: BTreeMap<u64, bool>,
    // How many of them do.
    count: usize,
    // Whether the process of the line before does.
    last: bool,
    // Whether the one does that was last without a number, as long as it was the only one.
    alone: bool,
}

impl Modes {
    /// Those of a trace of which nothing was read.
    pub(crate) fn new(alloc: Global) -> Modes {
        Modes {
            living: BTreeMap::new(alloc),
            count: 0,
            last: false,
            alone: false,
        }
    }

    /// Whether a line is about a call of another architecture, behind the lines before it.
    pub(crate) fn follow(&mut self, spoken: &Spoken<'_>) -> Result<bool, AllocError> {
        match spoken {
            Spoken::Begins(begun) | Spoken::Resumes(begun) => self.mode_of(begun.thread),
            Spoken::Runs(thread, is_native) => {
                self.put(thread, !*is_native)?;
                Ok(false)
            }
            Spoken::Ends(thread) => {
                self.remove(thread);
                Ok(false)
            }
            Spoken::Passed | Spoken::Strange => Ok(false),
        }
    }

    // Whether a process makes calls of another architecture. A line without a number is about the only one that lives.
    fn mode_of(&mut self, thread: &str) -> Result<bool, AllocError> {
        let Some(number) = number_of(thread) else {
            if !self.living.is_empty() {
                self.alone = self.count > 0;
            }
            self.last = self.alone;
            return Ok(self.last);
        };
        match self.living.get(&number).copied() {
            Some(is_foreign) => self.last = is_foreign,
            None => self.put(thread, self.last)?,
        }
        Ok(self.last)
    }

    // Keeps of a process whether it makes calls of another architecture.
    fn put(&mut self, thread: &str, is_foreign: bool) -> Result<(), AllocError> {
        self.remove(thread);
        self.last = is_foreign;
        let Some(number) = number_of(thread) else {
            self.alone = is_foreign;
            return Ok(());
        };
        drop(self.living.insert(number, is_foreign)?);
        self.count = self.count.saturating_add(usize::from(is_foreign));
        Ok(())
    }

    // Forgets a process, or all of them if it is the only one.
    fn remove(&mut self, thread: &str) {
        match number_of(thread) {
            None => {
                self.living.clear();
                self.count = 0;
            }
            Some(number) => {
                if self.living.remove(&number) == Some(true) {
                    self.count = self.count.saturating_sub(1);
                }
            }
        }
    }
}

// The number of a process, if a line has one.
fn number_of(thread: &str) -> Option<u64> {
    thread.parse().ok()
}
