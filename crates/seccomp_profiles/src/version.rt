// From texts to versions of the kernel.

ghost use Rattle.std.specs.Prelude.{◌≡◌, ℕ, option_map, IfSome, IfNone, Option};
ghost use Rattle.serde_json.specs.View.{view};
ghost use Rattle.seccomp_profiles.specs.declared.types.Kernel.{Kernel};
ghost use Rattle.seccomp_profiles.specs.Version.{IsKernel, IsKernelOr, IsNumberText, IsVersion};

use crate::types::Kernel;
use serde_json::Value;

/// The number that a text of decimal digits and nothing else is, if 32 bits hold it.
pub(crate) fn number_of(text: &str) -> Option<u32>
    ensures found { IfSome result (IsNumberText text.now) }
    ensures none { IfNone result ((n : ℕ) → IsNumberText text.now n → ⊥) }
{
    if text.starts_with('+') {
        return None;
    }
    u32::from_str_radix(text, 10).ok()
}

/// The version of the kernel that a text is: two decimal numbers of 32 bits with a full stop between them,
/// as `4.8`; `None` if it is none.
///
/// It takes no memory.
pub fn kernel_of(text: &str) -> Option<Kernel>
    ensures found { IfSome result (IsVersion text.now) }
    ensures none { IfNone result ((k : Kernel) → IsVersion text.now k → ⊥) }
{
    let Some((major, minor)) = text.split_once('.') else {
        return None;
    };
    let Some(major) = number_of(major) else {
        return None;
    };
    let Some(minor) = number_of(minor) else {
        return None;
    };
    Some(Kernel { major, minor })
}

// The version of the kernel that a value is.
fn read_kernel(value: &Value) -> Option<Kernel>
    ensures found { IfSome result (IsKernel (view value.now)) }
    ensures none { IfNone result ((k : Kernel) → IsKernel (view value.now) k → ⊥) }
{
    kernel_of(value.as_str()?)
}

/// The version of the kernel that stands there, which is none if nothing stands there, null or the empty
/// text; `None` if something else stands there.
pub fn kernel_under(value: Option<&Value>) -> Option<Option<Kernel>>
    ensures found { IfSome result (IsKernelOr (option_map (λ v. view v.now) value.entry)) }
    ensures none { IfNone result ((k : Option Kernel) → IsKernelOr (option_map (λ v. view v.now) value.entry) k → ⊥) }
{
    match value {
        None | Some(Value::Null) => Some(None),
        Some(Value::String(text)) if text.is_empty() => Some(None),
        Some(value) => match read_kernel(value) {
            Some(kernel) => Some(Some(kernel)),
            None => None,
        },
    }
}
