// The listing of programs under their names.

ghost use Rattle.std.specs.Prelude.{◌≡◌, map, IfOk};
ghost use Rattle.std.specs.List.{flat_map};
ghost use Rattle.seccomp_text.specs.Listing.{listing_of};
ghost use Rattle.seccompc.specs.Listing.{named_program};

use seccomp_text::listing::{HEADER, LINE, push_listing};
use seccompiler::BpfProgram;
use std::alloc::{AllocError, Global};
use std::collections::BTreeMap;

// The listings of programs, one after the other.
pub(crate) fn listing(
    alloc: Global,
    programs: &BTreeMap<String, BpfProgram>,
) -> Result<Vec<u8>, AllocError>
    ensures { IfOk result (λ text. text.items ≡ flat_map listing_of (map named_program programs.now.entries)) }
{
    let mut text = Vec::with_capacity(alloc, room(programs))?;
    for (name, program) in programs {
        push_listing(&mut text, name.as_str(), program)?;
    }
    Ok(text)
}

// The bytes that the listings take if no byte of a name is written by its number.
fn room(programs: &BTreeMap<String, BpfProgram>) -> usize {
    let mut bytes = 0usize;
    for (name, program) in programs {
        bytes = bytes
            .saturating_add(HEADER)
            .saturating_add(name.len())
            .saturating_add(program.len().saturating_mul(LINE));
    }
    bytes
}
