// What the instructions of a program are for, read off the program itself, of whichever compiler it is.

use crate::lines::{action_of, push_word};
use crate::text::Text;
use seccomp_answers::findings::parts::{X32, name_of};
use seccomp_compare::machine::JUMP_IF_SET;
use seccompiler::bpf::{JUMP, JUMP_AT_LEAST, JUMP_EQUAL, JUMP_GREATER, LOAD, MASK, RETURN};
use seccompiler::{BpfProgramRef, TargetArch, sock_filter};
use std::alloc::{AllocError, Global};

// What the accumulator holds: the word of the record that begins at this byte, as far as this mask keeps it.
type Word = (u32, u32);

const WHOLE: u32 = u32::MAX;

// What is known at an instruction on whichever way a run comes there.
#[derive(Clone, Copy)]
struct Known {
    // Whether a way is known that leads there.
    is_led: bool,
    word: Option<Word>,
    // The record's architecture.
    arch: Option<TargetArch>,
}

/// The notes on a program's instructions, one for each, which is empty where there is nothing to say. Call numbers are those of
/// the architecture that the program tests for, and those of the one given where it tests for none.
pub fn notes(
    alloc: Global,
    target: TargetArch,
    program: BpfProgramRef<'_>,
) -> Result<Vec<String>, AllocError> {
    let nothing = Known {
        is_led: false,
        word: None,
        arch: None,
    };
    let mut known = vec![in alloc; nothing; program.len()]?;
    let arch = Some(target);
    lead(&mut known, 0, Known { arch, ..nothing });
    let mut notes = Vec::new(alloc);
    for (place, instruction) in program.iter().enumerate() {
        // Jumps lead forward alone, so all that is known here is there already.
        let here = known.get(place).copied().unwrap_or(nothing);
        go_on(&mut known, place, here, instruction);
        notes.push(note(alloc, here, instruction)?)?;
    }
    Ok(notes)
}

// Takes what is known at an instruction on to those behind it that it leads to.
fn go_on(known: &mut [Known], place: usize, here: Known, instruction: &sock_filter) {
    let sock_filter { code, jt, jf, k } = *instruction;
    let next = place.saturating_add(1);
    let (mut met, mut unmet) = (here, here);
    match code {
        LOAD => {
            met.word = Some((k, WHOLE));
            lead(known, next, met);
        }
        MASK => {
            if let Some((byte, mask)) = here.word {
                met.word = Some((byte, mask & k));
            }
            lead(known, next, met);
        }
        JUMP => lead(known, next.saturating_add(k as usize), here),
        JUMP_EQUAL | JUMP_GREATER | JUMP_AT_LEAST | JUMP_IF_SET => {
            // A test of the architecture tells it.
            if code == JUMP_EQUAL && here.word == Some((4, WHOLE)) {
                met.arch = arch_of(k);
                if here.arch == met.arch {
                    unmet.arch = None;
                }
            }
            lead(known, next.saturating_add(jt as usize), met);
            lead(known, next.saturating_add(jf as usize), unmet);
        }
        _ => {}
    }
}

// Adds a way to a place: what differs from what is known on the others isn't known any more.
fn lead(known: &mut [Known], place: usize, mut here: Known) {
    if place >= known.len() {
        return;
    }
    let other = known[place];
    if other.is_led && other.word != here.word {
        here.word = None;
    }
    if other.is_led && other.arch != here.arch {
        here.arch = None;
    }
    here.is_led = true;
    known[place] = here;
}

// The note on an instruction.
fn note(alloc: Global, here: Known, instruction: &sock_filter) -> Result<String, AllocError> {
    let sock_filter { code, k, .. } = *instruction;
    let (byte, mask): Word = match (code, here.word) {
        (LOAD, _) => return load_meaning(alloc, k),
        (RETURN, _) => return word_meaning(alloc, k),
        (_, None) => return Ok(String::new(alloc)),
        (_, Some(word)) => word,
    };
    match (code, byte, mask) {
        (JUMP_EQUAL, 0, WHOLE) => {
            let name = match here.arch {
                Some(target) => name_of(target, k),
                None => None,
            };
            match name {
                Some(name) => String::from_str(alloc, name),
                None => format!(in alloc; "call {k}"),
            }
        }
        (JUMP_AT_LEAST, 0, WHOLE) => format!(in alloc; "calls from {k} on"),
        (JUMP_GREATER, 0, WHOLE) => format!(in alloc; "calls above {k}"),
        (JUMP_IF_SET, 0, WHOLE) if k == X32 && here.arch == Some(TargetArch::x86_64) => {
            String::from_str(alloc, "calls of x32")
        }
        (JUMP_IF_SET, _, _) => part(alloc, byte, mask & k),
        (JUMP_EQUAL, 4, WHOLE) => match arch_of(k) {
            Some(target) => target.to_string(alloc),
            None => part(alloc, byte, mask),
        },
        (MASK | JUMP_EQUAL | JUMP_GREATER | JUMP_AT_LEAST, _, _) => part(alloc, byte, mask),
        _ => Ok(String::new(alloc)),
    }
}

// The architecture of an `AUDIT_ARCH_*` value, if it is known.
fn arch_of(value: u32) -> Option<TargetArch> {
    for target in TargetArch::all() {
        if value == target.get_audit_value() {
            return Some(*target);
        }
    }
    None
}

// What a load gets that begins at this byte of a record.
fn load_meaning(alloc: Global, byte: u32) -> Result<String, AllocError> {
    let told = match byte {
        0 => "the call number",
        4 => "the architecture",
        0..16 => "the instruction pointer",
        _ => {
            let half = if byte % 8 == 0 { "low" } else { "high" };
            return format!(in alloc; "the {half} half of argument {}", (byte - 16) / 8);
        }
    };
    String::from_str(alloc, told)
}

// The action that a returned word stands for, in words; nothing where it stands for none.
fn word_meaning(alloc: Global, word: u32) -> Result<String, AllocError> {
    let told = match action_of(word).0 {
        None => "",
        Some("kill_thread") => "kill the thread",
        Some("kill_process") => "kill the process",
        Some("user_notif") => "notify the supervisor",
        Some(_) => {
            let mut text = Text::new(alloc);
            push_word(&mut text, word);
            return text.finish_string();
        }
    };
    String::from_str(alloc, told)
}

// The part of a record that a word is.
fn part(alloc: Global, byte: u32, mask: u32) -> Result<String, AllocError> {
    let text = if byte < 16 {
        load_meaning(alloc, byte)?
    } else {
        let half = if byte % 8 == 0 { "low" } else { "high" };
        format!(in alloc; "argument {}, {half} half", (byte - 16) / 8)?
    };
    if mask == WHOLE {
        return Ok(text);
    }
    format!(in alloc; "{text} & 0x{mask:x}")
}
