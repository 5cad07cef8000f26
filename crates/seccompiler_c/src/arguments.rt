// What the words of a caller in C name.

ghost use Rattle.std.specs.Prelude.{◌≡◌, IfSome, IfNone};
ghost use Rattle.seccompiler_c.specs.Arguments.{IsArchitecture, IsNoArchitecture, IsLayout, IsNoLayout};

use crate::codes::{SECCOMPILER_LAYOUT_LINEAR, SECCOMPILER_LAYOUT_TREE};
use seccomp_tree::Layout;
use seccompiler::TargetArch;

// The architecture of this word.
pub(crate) fn architecture_of(word: u32) -> Option<TargetArch>
    ensures found { IfSome result (IsArchitecture word) }
    ensures not_found { IfNone result (IsNoArchitecture word) }
{
    let targets = TargetArch::all();
    for target in targets {
        if target.get_audit_value() == word {
            return Some(*target);
        }
    }
    None
}

// The layout of this number.
pub(crate) fn layout_of(number: u32) -> Option<Layout>
    ensures found { IfSome result (IsLayout number) }
    ensures not_found { IfNone result (IsNoLayout number) }
{
    match number {
        SECCOMPILER_LAYOUT_LINEAR => Some(Layout::Linear),
        SECCOMPILER_LAYOUT_TREE => Some(Layout::Tree),
        _ => None,
    }
}
