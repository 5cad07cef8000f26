// What a trace says of a program's calls.

use crate::arguments::Arguments;
use crate::audit::audit_line;
use crate::line::{Line, Told, text_of};
use crate::modes::Modes;
use crate::names::name_of;
use crate::observation::Observation;
use crate::pending::{Pending, put_pending, take_pending};
use crate::records::{is_of_records, push_records};
use crate::strace::{Begun, Spoken, spoken_in};
use crate::usual::named_number;
use seccompiler::TargetArch;
use std::alloc::{AllocError, Global};

// The most lines, or names of calls, that are kept to be reported.
const MOST: usize = 5;

// The most bytes of such a line.
const LONGEST: usize = 160;

/// What was read of a trace.
#[derive(Drop)]
pub struct Trace {
    /// The calls, in order.
    pub observed: Vec<Observation>,
    /// What isn't a number among the arguments of these calls, one of each call and index.
    pub symbolic: Vec<Symbolic>,
    /// The names and numbers of calls that the architecture hasn't, as they are written, each once: at most five.
    pub unnamed: Vec<String>,
    /// How many calls had others.
    pub unnamed_more: usize,
    /// How many calls were of another architecture.
    pub foreign: usize,
    /// Lines that were not understood: at most five different ones.
    pub strange: Vec<StrangeLine>,
    /// How many lines were not understood.
    pub strange_count: usize,
    /// How many bytes follow the last record.
    pub rest: usize,
    /// Whether it is a trace: something of it was understood, or nothing is there.
    pub is_trace: bool,
}

/// An argument that a trace doesn't have as a number.
#[derive(Drop)]
pub struct Symbolic {
    /// The call's number.
    pub number: u32,
    /// The argument's index, from 0.
    pub arg_index: u8,
    /// How it is written.
    pub text: String,
}

/// A line that was not understood.
#[derive(Drop)]
pub struct StrangeLine {
    /// Its number, from 1.
    pub number: usize,
    /// The line; of a long one its front, and two dots.
    pub text: String,
}

// A trace that is being read.
#[derive(Drop)]
struct Reader<'a> {
    trace: Trace,
    pending: Vec<Pending<'a>>,
    modes: Modes,
    // Of each number of a call the arguments that `symbolic` has, one bit for each.
    seen: Vec<u8>,
}

/// Reads a trace: lines of `strace`, of the kernel's log or of the audit system, in any mixture; or call
/// records, if there is a byte 0 and the first 64 bytes have an `AUDIT_ARCH_*` value where a record has it.
///
/// A line that names a call is that call, whatever its arguments are. The arguments of a call that another one interrupts are those
/// of both its lines. Calls of a process that runs in another mode than that of 64 bits, as `strace` says, are counted and left out.
///
/// # Errors
///
/// `AllocError` if memory runs out.
pub fn read_trace(alloc: Global, arch: TargetArch, text: &[u8]) -> Result<Trace, AllocError> {
    let mut trace = empty_trace(alloc);
    if text.contains(&0) && is_of_records(text) {
        push_records(alloc, arch, &mut trace, text)?;
        return Ok(trace);
    }
    let mut reader = Reader {
        trace,
        pending: Vec::new(alloc),
        modes: Modes::new(alloc),
        seen: Vec::new(alloc),
    };
    let read = read_lines(alloc, arch, &mut reader, text);
    let Reader {
        trace,
        pending,
        modes,
        seen,
    } = reader;
    drop((pending, modes, seen));
    read?;
    Ok(trace)
}

// A trace of which nothing was read.
fn empty_trace(alloc: Global) -> Trace {
    Trace {
        observed: Vec::new(alloc),
        symbolic: Vec::new(alloc),
        unnamed: Vec::new(alloc),
        unnamed_more: 0,
        foreign: 0,
        strange: Vec::new(alloc),
        strange_count: 0,
        rest: 0,
        is_trace: true,
    }
}

// Reads the lines of a trace.
fn read_lines<'a>(
    alloc: Global,
    arch: TargetArch,
    reader: &mut Reader<'a>,
    text: &'a [u8],
) -> Result<(), AllocError> {
    reader.seen.resize(512, 0)?;
    let mut is_trace = false;
    for (index, line) in text.split(|byte| *byte == b'\n').enumerate() {
        if read_line(alloc, arch, reader, line)? {
            is_trace |= !line.trim_ascii().is_empty();
        } else {
            push_strange(alloc, &mut reader.trace, index.saturating_add(1), line)?;
        }
    }
    reader.trace.is_trace = is_trace || reader.trace.strange_count == 0;
    // Calls that nothing ended.
    for index in 0..reader.pending.len() {
        if let Some(pending) = reader.pending.get(index) {
            let (number, arguments) = (pending.number, pending.arguments);
            push_symbolic(
                alloc,
                &mut reader.trace,
                &mut reader.seen,
                number,
                arguments,
            )?;
        }
    }
    Ok(())
}

// Reads a line. Answers whether it is understood.
fn read_line<'a>(
    alloc: Global,
    arch: TargetArch,
    reader: &mut Reader<'a>,
    line: &'a [u8],
) -> Result<bool, AllocError> {
    let Some(line) = text_of(line) else {
        return Ok(false);
    };
    let spoken = spoken_in(line);
    if reader.modes.follow(&spoken)? {
        if let Spoken::Begins(_) = spoken {
            reader.trace.foreign = reader.trace.foreign.saturating_add(1);
        }
        return Ok(true);
    }
    match spoken {
        Spoken::Begins(begun) => push_begun(alloc, arch, reader, &begun)?,
        Spoken::Resumes(begun) => push_resumed(alloc, arch, reader, &begun)?,
        Spoken::Runs(_, _) | Spoken::Ends(_) | Spoken::Passed => {}
        Spoken::Strange => match audit_line(line) {
            Line::Call(told) => push_told(alloc, arch, &mut reader.trace, &told)?,
            Line::Passed => {}
            Line::Strange => return Ok(false),
        },
    }
    Ok(true)
}

// Adds a call that a line of strace begins.
fn push_begun<'a>(
    alloc: Global,
    arch: TargetArch,
    reader: &mut Reader<'a>,
    begun: &Begun<'a>,
) -> Result<(), AllocError> {
    let Some(number) = known_number(arch, begun.call) else {
        return push_unnamed(alloc, &mut reader.trace, begun.call);
    };
    let mut arguments = Arguments::unknown();
    let cut = arguments.read(begun.behind, 0);
    let observed = reader.trace.observed.len();
    reader.trace.observed.push(Observation {
        number,
        arguments: arguments.values,
        short: arguments.short,
    })?;
    match cut {
        None => push_symbolic(
            alloc,
            &mut reader.trace,
            &mut reader.seen,
            number,
            arguments,
        ),
        Some(next) => put_pending(
            &mut reader.pending,
            Pending {
                thread: begun.thread,
                number,
                observed,
                arguments,
                next,
            },
        ),
    }
}

// Adds the further arguments of a call that another line began; or a call of which nothing is known, if none did.
fn push_resumed<'a>(
    alloc: Global,
    arch: TargetArch,
    reader: &mut Reader<'a>,
    begun: &Begun<'a>,
) -> Result<(), AllocError> {
    let Some(number) = known_number(arch, begun.call) else {
        return Ok(());
    };
    let Some(pending) = take_pending(&mut reader.pending, begun.thread, number) else {
        return Ok(
            reader.trace.observed.push(Observation {
                number,
                arguments: [None; 6],
                short: [false; 6],
            })?,
        );
    };
    let mut arguments = pending.arguments;
    let _cut = arguments.read(begun.behind, pending.next);
    if let Some(observation) = reader.trace.observed.get_mut(pending.observed) {
        observation.arguments = arguments.values;
        observation.short = arguments.short;
    }
    push_symbolic(
        alloc,
        &mut reader.trace,
        &mut reader.seen,
        number,
        arguments,
    )
}

// Adds those of a call's arguments that are no numbers, unless one of the call and the index is there.
fn push_symbolic(
    alloc: Global,
    trace: &mut Trace,
    seen: &mut Vec<u8>,
    number: u32,
    arguments: Arguments<'_>,
) -> Result<(), AllocError> {
    let (texts, values) = (arguments.texts, arguments.values);
    let Some(seen) = seen.get_mut(number as usize) else {
        return Ok(());
    };
    for arg_index in 0..6u8 {
        let index = arg_index as usize;
        let text = texts[index];
        let bit = 1u8 << arg_index;
        if text.is_empty() || values[index].is_some() || *seen & bit != 0 {
            continue;
        }
        *seen |= bit;
        trace.symbolic.push(Symbolic {
            number,
            arg_index,
            text: front_of(alloc, text.as_bytes())?,
        })?;
    }
    Ok(())
}

// Adds a call that a line of a log tells of.
fn push_told(
    alloc: Global,
    arch: TargetArch,
    trace: &mut Trace,
    told: &Told<'_>,
) -> Result<(), AllocError> {
    if told.arch_word != arch.get_audit_value() {
        trace.foreign = trace.foreign.saturating_add(1);
        return Ok(());
    }
    match told_number(arch, told.call) {
        Some(number) => push_seen(alloc, arch, trace, number, told.arguments, told.call),
        None => push_unnamed(alloc, trace, told.call),
    }
}

/// Adds a call by its number, or how it is written, if no call of the architecture has the number.
pub(crate) fn push_seen(
    alloc: Global,
    arch: TargetArch,
    trace: &mut Trace,
    number: u32,
    arguments: [Option<u64>; 6],
    written: &str,
) -> Result<(), AllocError> {
    if name_of(arch, number).is_none() {
        return push_unnamed(alloc, trace, written);
    }
    Ok(
        trace.observed.push(Observation {
            number,
            arguments,
            short: [false; 6],
        })?,
    )
}

// The number of a call that has this name, or is written by its number, if the architecture has such a call.
fn known_number(arch: TargetArch, name: &str) -> Option<u32> {
    if let Some(number) = named_number(arch, name) {
        return Some(number);
    }
    let number = told_number(arch, name)?;
    name_of(arch, number)?;
    Some(number)
}

/// The number of a call that has this name, or is written by its number, as lines have it.
pub fn told_number(arch: TargetArch, name: &str) -> Option<u32> {
    if let Some(number) = named_number(arch, name) {
        return Some(number);
    }
    match name.strip_prefix("syscall_0x") {
        Some(digits) => u32::from_str_radix(digits, 16).ok(),
        None => name.parse().ok(),
    }
}

// Adds a name, unless it is there, or as many are as are kept.
fn push_unnamed(alloc: Global, trace: &mut Trace, name: &str) -> Result<(), AllocError> {
    if trace.unnamed.iter().any(|other| other.as_str() == name) {
        return Ok(());
    }
    if trace.unnamed.len() < MOST {
        return Ok(trace.unnamed.push(front_of(alloc, name.as_bytes())?)?);
    }
    trace.unnamed_more = trace.unnamed_more.saturating_add(1);
    Ok(())
}

// Adds a line that isn't understood, unless it is there, or as many are as are kept.
fn push_strange(
    alloc: Global,
    trace: &mut Trace,
    number: usize,
    line: &[u8],
) -> Result<(), AllocError> {
    trace.strange_count = trace.strange_count.saturating_add(1);
    if trace.strange.len() >= MOST {
        return Ok(());
    }
    let text = front_of(alloc, line)?;
    if trace
        .strange
        .iter()
        .any(|other| other.text.as_str() == text.as_str())
    {
        return Ok(());
    }
    Ok(trace.strange.push(StrangeLine { number, text })?)
}

// A text, or the front of a long one and two dots.
fn front_of(alloc: Global, text: &[u8]) -> Result<String, AllocError> {
    let text = text.trim_ascii();
    match text.split_at_checked(LONGEST) {
        Some((front, behind)) if !behind.is_empty() => {
            let mut front = String::from_utf8_lossy(alloc, front)?;
            front.push_str("..")?;
            Ok(front)
        }
        _ => String::from_utf8_lossy(alloc, text),
    }
}
