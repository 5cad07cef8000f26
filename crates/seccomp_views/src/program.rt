// Programs, in each form in which they are written.

mod notes;

ghost use Rattle.std.specs.Prelude.{◌≡◌, IfOk};
ghost use Rattle.seccomp_answers.specs.Compiled.{instruction_bytes, program_bytes};
ghost use Rattle.seccomp_views.specs.Written.{IsWrittenAs};

use crate::json::{List, Object, OrNull, or_null, push_item, push_value};
use crate::lines::push_filter;
use crate::text::Text;
use seccomp_answers::measures::{FilterStats, Measure};
use seccomp_answers::programs::NamedProgram;
use seccomp_compare::machine::JUMP_IF_SET;
use seccomp_text::listing::push_listing;
use seccomp_text::readable::TextKind;
use seccompiler::bpf::{JUMP, JUMP_AT_LEAST, JUMP_EQUAL, JUMP_GREATER, LOAD, MASK, RETURN};
use seccompiler::{BpfProgramRef, TargetArch, sock_filter};
use std::alloc::{AllocError, Global};

/// How `compile` writes a program.
#[derive(Clone, Copy)]
pub enum ProgramFormat {
    /// As `struct sock_fprog` of `seccomp(2)` points at it, in the byte order of each machine that a program can be made for: each
    /// instruction as the 8 bytes of a `struct sock_filter`, its numbers with the low byte first.
    Raw,
    /// As `seccompc list` writes it: a line `filter LENGTH NAME` and a line for each instruction.
    Listing,
    /// As C and `tcpdump -dd` have it: for each instruction the initializer of a `struct sock_filter`, in a line.
    C,
    /// As JSON: an object with its name, its length and its instructions.
    Json,
}

/// A filter's program in this form.
pub fn program_text(
    alloc: Global,
    format: ProgramFormat,
    name: &str,
    program: BpfProgramRef<'_>,
) -> Result<Vec<u8>, AllocError>
    ensures { IfOk result (λ written. IsWrittenAs format program.now written.items) }
{
    match format {
        ProgramFormat::Raw => bytes_of(alloc, program),
        ProgramFormat::Listing => {
            let mut listing = Vec::new(alloc);
            push_listing(&mut listing, name, program)?;
            Ok(listing)
        }
        ProgramFormat::C => {
            let mut text = Text::new(alloc);
            for instruction in program {
                let sock_filter { code, jt, jf, k } = *instruction;
                text.push_format(format!(in alloc; "{{ 0x{code:x}, {jt}, {jf}, 0x{k:08x} }},\n"));
            }
            text.finish()
        }
        ProgramFormat::Json => {
            let mut text = Text::new(alloc);
            push_value(&mut text, program_value(alloc, name, program, &[]));
            text.push_str("\n");
            text.finish()
        }
    }
}

// A program as JSON, with notes on its instructions if there are any.
pub(crate) fn program_value(
    alloc: Global,
    name: &str,
    program: BpfProgramRef<'_>,
    notes: &[String],
) -> Object {
    let mut instructions = List::new(alloc);
    for (place, instruction) in program.iter().enumerate() {
        let sock_filter { code, jt, jf, k } = *instruction;
        let mut value = Object::new(alloc);
        value.field("code", code);
        value.field("jt", jt);
        value.field("jf", jf);
        value.field("k", k);
        if let Some(note) = notes.get(place) {
            value.field("note", or_null(note.as_str()));
        }
        instructions.item(value);
    }
    let mut value = Object::new(alloc);
    value.field("name", name);
    value.field("length", program.len());
    value.field("instructions", instructions);
    value
}

// The bytes of a program.
pub(crate) fn bytes_of(alloc: Global, program: BpfProgramRef<'_>) -> Result<Vec<u8>, AllocError>
    ensures { IfOk result (λ bytes. bytes.items ≡ program_bytes program.now) }
{
    let mut bytes = Vec::new(alloc);
    for instruction in program {
        let sock_filter { code, jt, jf, k } = *instruction;
        let [code0, code1] = code.to_le_bytes();
        let [k0, k1, k2, k3] = k.to_le_bytes();
        bytes.extend_from_slice(&[code0, code1, jt, jf, k0, k1, k2, k3])?;
    }
    Ok(bytes)
}

/// Adds the programs of a policy's filters, each after a line `filter LENGTH NAME`; as JSON the items of their list.
pub fn push_programs(
    text: &mut Text,
    target: TargetArch,
    json: bool,
    asked: Option<&str>,
    programs: &[NamedProgram],
) {
    for NamedProgram { name, program, .. } in programs {
        let name = name.as_str();
        if asked.unwrap_or(name) == name {
            if !json {
                text.push_format(format!(in text.alloc(); "filter {} ", program.len()));
                text.push_readable(name, TextKind::Name);
                text.push_str("\n");
            }
            push_program(text, target, json, name, program);
        }
    }
}

/// Adds the lines of a program, one for each instruction: its place, the instruction as `bpf_asm` has it, and the note on it. Calls
/// have their names on the architecture that it tests for, and on this one if it tests for none. As JSON an item, with this name.
pub fn push_program(
    text: &mut Text,
    target: TargetArch,
    json: bool,
    name: &str,
    program: BpfProgramRef<'_>,
) {
    let alloc = text.alloc();
    let Ok(notes) = notes::notes(alloc, target, program) else {
        return text.fail();
    };
    if json {
        return push_item(text, program_value(alloc, name, program, &notes));
    }
    for (place, note) in notes.iter().enumerate() {
        let (width, mark) = if note.is_empty() { (0, "") } else { (28, "; ") };
        match words(alloc, place, program) {
            Ok(words) => text.push_format(format!(in alloc;
                "{place:4}  {words:width$}{mark}{note}\n"
            )),
            Err(_) => text.fail(),
        }
    }
}

// The instruction at this place, in the words of bpf_asm. Jumps tell the places that they lead to.
fn words(alloc: Global, place: usize, program: BpfProgramRef<'_>) -> Result<String, AllocError> {
    let Some(sock_filter { code, jt, jf, k }) = program.get(place).copied() else {
        return Ok(String::new(alloc));
    };
    let next = place.saturating_add(1);
    let name = match code {
        LOAD => return format!(in alloc; "ld [{k}]"),
        MASK => return format!(in alloc; "and #0x{k:x}"),
        JUMP => return format!(in alloc; "ja {}", next.saturating_add(k as usize)),
        RETURN => return format!(in alloc; "ret #0x{k:x}"),
        JUMP_EQUAL => "jeq",
        JUMP_GREATER => "jgt",
        JUMP_AT_LEAST => "jge",
        JUMP_IF_SET => "jset",
        _ => return String::from_str(alloc, "unknown"),
    };
    let met = next.saturating_add(jt as usize);
    let unmet = next.saturating_add(jf as usize);
    format!(in alloc; "{name} #0x{k:x}, {met}, {unmet}")
}

/// Adds the lines of filters' numbers, three for each filter; as JSON an item for each program.
pub fn push_stats(text: &mut Text, json: bool, asked: Option<&str>, all: &[FilterStats]) {
    for FilterStats { name, linear, tree } in all {
        let name = name.as_str();
        if asked.unwrap_or(name) == name {
            if !json {
                push_filter(text, name);
                text.push_str("\n");
            }
            push_measure(text, json, name, Some("linear"), *linear);
            push_measure(text, json, name, Some("tree"), *tree);
        }
    }
}

/// Adds the line of the numbers of one program, after its layout, or after its name if it has none; as JSON an item.
pub fn push_measure(
    text: &mut Text,
    json: bool,
    name: &str,
    layout: Option<&str>,
    measure: Measure,
) {
    let (length, most, passing) = (measure.length, measure.most, measure.passing);
    if json {
        let mut object = Object::new(text.alloc());
        object.field("name", name);
        object.field("layout", OrNull(layout));
        object.field("length", length);
        object.field("most", most);
        object.field("passing", passing);
        return push_item(text, object);
    }
    let front = layout.unwrap_or(name);
    text.push_format(format!(in text.alloc();
        "{front}: {length} instructions, at most {most} steps, {passing} passing\n"
    ));
}
