// Calls whose end another line has.

use crate::arguments::Arguments;
use std::alloc::AllocError;

// The most calls that are kept until they go on.
const MOST: usize = 512;

/// A call that hasn't ended.
#[derive(Clone, Copy)]
pub(crate) struct Pending<'a> {
    /// The number of the thread that makes it, as it is written.
    pub thread: &'a str,
    /// The call's number.
    pub number: u32,
    /// The index of its observation.
    pub observed: usize,
    /// What is known of its arguments.
    pub arguments: Arguments<'a>,
    /// The index of the argument at which it goes on.
    pub next: usize,
}

/// Adds a call, in the place of an earlier one of the thread, which nothing ends any more.
pub(crate) fn put_pending<'a>(
    all: &mut Vec<Pending<'a>>,
    pending: Pending<'a>,
) -> Result<(), AllocError> {
    match all.iter().position(|other| other.thread == pending.thread) {
        Some(index) => all[index] = pending,
        None if all.len() < MOST => all.push(pending)?,
        None => {}
    }
    Ok(())
}

/// Takes the call that this thread began, if it began one of this number.
pub(crate) fn take_pending<'a>(
    all: &mut Vec<Pending<'a>>,
    thread: &str,
    number: u32,
) -> Option<Pending<'a>> {
    let index = all
        .iter()
        .position(|other| other.thread == thread && other.number == number)?;
    Some(all.swap_remove(index))
}
