// Texts from outside, as people read them.

ghost use Rattle.std.specs.Prelude.{◌≡◌, ◌++◌, IfOk, OnOk, string_bytes};
ghost use Rattle.std.specs.List.{flat_map};
ghost use Rattle.seccomp_text.specs.Names.{byte_number};
ghost use Rattle.seccomp_text.specs.Readable.{is_steering, is_numbered, readable_character, readable};

use crate::names::push_number;
use std::alloc::{AllocError, Global};

/// What a text is, and so which characters of it are written by number: those that steer a terminal or aren't seen there.
#[derive(Clone, Copy)]
pub enum TextKind {
    /// A name: the backslash too, so that no two names are written alike.
    Name,
    /// One line.
    Line,
    /// Lines: all but line feeds.
    Lines,
}

/// Returns the text as [`push_readable`] writes it.
///
/// # Errors
///
/// `AllocError` if memory runs out.
pub fn readable(alloc: Global, given: &str, kind: TextKind) -> Result<String, AllocError>
    ensures { IfOk result (λ text. string_bytes text ≡ readable kind given.now) }
{
    let mut bytes = Vec::new(alloc);
    push_readable(&mut bytes, given, kind)?;
    // They are UTF-8, which is not proved.
    match String::from_utf8(bytes) {
        Ok(text) => Ok(text),
        Err(_) => Err(AllocError),
    }
}

/// Adds what is given to a text for people: control characters (U+0080 to U+009F too), and those that turn the direction of
/// writing or are invisible, as `\x` and two lower-case hexadecimal digits for each of their bytes; all others as they are. The
/// kind says what else is so written. Nothing that is given steers a terminal.
///
/// # Errors
///
/// `AllocError` if memory runs out; the beginning of what is given may then be in the text.
pub fn push_readable(text: &mut Vec<u8>, given: &str, kind: TextKind) -> Result<(), AllocError>
    ensures { OnOk result (text.new.items ≡ text.old.items ++ readable kind given.now) }
{
    for character in given.chars() {
        push_character(text, character, kind)?;
    }
    Ok(())
}

// Whether a character steers a terminal, or isn't seen there.
fn is_steering(character: char) -> bool
    ensures { result ≡ is_steering character }
{
    character.is_control()
        || matches!(
            character,
            '\u{ad}'
                | '\u{61c}'
                | '\u{180e}'
                | '\u{200b}'..='\u{200f}'
                | '\u{2028}'..='\u{202e}'
                | '\u{2060}'..='\u{206f}'
                | '\u{feff}'
                | '\u{fff9}'..='\u{fffb}'
                | '\u{e0000}'..='\u{e007f}'
        )
}

// Whether a character is written by the numbers of its bytes.
fn is_numbered(character: char, kind: TextKind) -> bool
    ensures { result ≡ is_numbered kind character }
{
    match kind {
        TextKind::Name => is_steering(character) || character == '\\',
        TextKind::Line => is_steering(character),
        TextKind::Lines => is_steering(character) && character != '\n',
    }
}

// Adds a character.
fn push_character(text: &mut Vec<u8>, character: char, kind: TextKind) -> Result<(), AllocError>
    ensures { OnOk result (text.new.items ≡ text.old.items ++ readable_character kind character) }
{
    let mut room = [0; 4];
    let bytes = character.encode_utf8(&mut room).as_bytes();
    if is_numbered(character, kind) {
        push_numbers(text, bytes)
    } else {
        text.extend_from_slice(bytes)
    }
}

// Adds bytes by their numbers.
fn push_numbers(text: &mut Vec<u8>, bytes: &[u8]) -> Result<(), AllocError>
    ensures { OnOk result (text.new.items ≡ text.old.items ++ flat_map byte_number bytes.now) }
{
    for byte in bytes {
        push_number(text, *byte)?;
    }
    Ok(())
}
