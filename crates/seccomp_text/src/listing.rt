// Listings of programs.

ghost use Rattle.std.specs.Prelude.{◌≡◌, ◌++◌, OnOk};
ghost use Rattle.seccomp_text.specs.Listing.{instruction_line, listing_of};

use crate::hexadecimal::{eight_digits, four_digits, two_digits};
use crate::names::push_escaped;
use itoa::Buffer;
use seccompiler::{BpfProgramRef, sock_filter};
use std::alloc::AllocError;

/// The bytes of the line in front of a program of 1000 to 4096 instructions, without its name.
pub const HEADER: usize = 13;

/// The bytes of an instruction's line.
pub const LINE: usize = 20;

/// Adds the listing of a program to a text: a line `filter LENGTH NAME` and a line for each instruction.
///
/// An instruction's line is code in 4, jt in 2, jf in 2 and k in 8 lower-case hexadecimal digits, separated by
/// one space. In the name the bytes 00 to 1f, 7f and the backslash are written as `\x` and two lower-case
/// hexadecimal digits, all others as they are.
///
/// # Errors
///
/// `AllocError` if memory runs out; the beginning of the listing may then be in the text.
pub fn push_listing(
    text: &mut Vec<u8>,
    name: &str,
    program: BpfProgramRef<'_>,
) -> Result<(), AllocError>
    ensures { OnOk result (text.new.items ≡ text.old.items ++ listing_of (name.now, program.now)) }
{
    text.extend_from_slice(b"filter ")?;
    text.extend_from_slice(Buffer::new().format(program.len()).as_bytes())?;
    text.extend_from_slice(b" ")?;
    push_escaped(text, name.as_bytes())?;
    text.extend_from_slice(b"\n")?;
    for instruction in program {
        text.extend_from_slice(&line(instruction))?;
    }
    Ok(())
}

// The line of an instruction.
fn line(instruction: &sock_filter) -> [u8; LINE]
    ensures { result ≡ instruction_line instruction.now }
{
    let sock_filter { code, jt, jf, k } = *instruction;
    let [c0, c1, c2, c3] = four_digits(code);
    let [t0, t1] = two_digits(jt);
    let [f0, f1] = two_digits(jf);
    let [k0, k1, k2, k3, k4, k5, k6, k7] = eight_digits(k);
    [
        c0, c1, c2, c3, b' ', t0, t1, b' ', f0, f1, b' ', k0, k1, k2, k3, k4, k5, k6, k7, b'\n',
    ]
}
