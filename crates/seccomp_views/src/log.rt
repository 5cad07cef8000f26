// The calls that lines of a log or of a trace are about.

use crate::text::Text;
use memchr::memchr_iter;
use seccomp_learn::{Line, Told, line_of, told_number};
use seccompiler::TargetArch;
use std::alloc::Global;

/// Who made a call: the program's name as it is written, and the number of the process; no bytes of what the line doesn't say.
pub type Caller<'a> = (&'a str, &'a str);

/// The calls that lines are about.
#[derive(Drop)]
pub struct Log<'a> {
    /// The records of the calls, one after the other.
    pub records: Text,
    /// Who made each.
    pub callers: Vec<Caller<'a>>,
    /// How many lines aren't understood.
    pub strange: usize,
    /// The number of the first of these, from 1.
    pub first_strange: Option<usize>,
}

/// The calls that these lines are about; a call whose name no call of the architecture has is not understood.
pub fn log_of<'a>(alloc: Global, arch: TargetArch, text: &'a [u8]) -> Log<'a> {
    let mut log = Log {
        records: Text::new(alloc),
        callers: Vec::new(alloc),
        strange: 0,
        first_strange: None,
    };
    let mut start = 0usize;
    for (index, end) in memchr_iter(b'\n', text).chain([text.len()]).enumerate() {
        let understood = match line_of(arch, text.get(start..end).unwrap_or(&[])) {
            Line::Call(told) => push_call(arch, &mut log, &told),
            Line::Passed => true,
            Line::Strange => false,
        };
        if !understood {
            log.strange = log.strange.saturating_add(1);
            log.first_strange = log.first_strange.or(Some(index.saturating_add(1)));
        }
        start = end.saturating_add(1);
    }
    log
}

// Adds a call, if its number is known. Answers whether it is.
fn push_call<'a>(arch: TargetArch, log: &mut Log<'a>, told: &Told<'a>) -> bool {
    let Some(number) = told_number(arch, told.call) else {
        return false;
    };
    if log.callers.push((told.program, told.process)).is_err() {
        log.records.fail();
    }
    log.records.push_bytes(&number.to_le_bytes());
    log.records.push_bytes(&told.arch_word.to_le_bytes());
    // The instruction pointer.
    log.records.push_bytes(&[0; 8]);
    for argument in told.arguments {
        log.records.push_bytes(&argument.unwrap_or(0).to_le_bytes());
    }
    true
}
