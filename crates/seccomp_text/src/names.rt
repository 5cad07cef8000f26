// Names of filters, as listings have them.

ghost use Rattle.std.specs.Prelude.{◌≡◌, ◌++◌, OnOk};
ghost use Rattle.seccomp_text.specs.Names.{byte_number, escaped};

use crate::hexadecimal::two_digits;
use std::alloc::AllocError;

/// Adds a name to a text in the form of a listing: the bytes 00 to 1f, 7f and the backslash as `\x` and two
/// lower-case hexadecimal digits, all others as they are. No two names are written alike. The control
/// characters U+0080 to U+009F stay as they are, and some terminals obey them; `push_readable` writes names for
/// people.
///
/// # Errors
///
/// `AllocError` if memory runs out; the beginning of the name may then be in the text.
pub fn push_escaped(text: &mut Vec<u8>, name: &[u8]) -> Result<(), AllocError>
    ensures { OnOk result (text.new.items ≡ text.old.items ++ escaped name.now) }
{
    for byte in name {
        if byte.is_ascii_control() || *byte == b'\\' {
            push_number(text, *byte)?;
        } else {
            text.push(*byte)?;
        }
    }
    Ok(())
}

// Adds a byte by its number.
pub(crate) fn push_number(text: &mut Vec<u8>, byte: u8) -> Result<(), AllocError>
    ensures { OnOk result (text.new.items ≡ text.old.items ++ byte_number byte) }
{
    let [high, low] = two_digits(byte);
    text.extend_from_slice(&[b'\\', b'x', high, low])
}
