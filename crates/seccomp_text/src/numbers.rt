// Numbers as they are written in words.

ghost use Rattle.std.specs.Prelude.{◌≡◌, ℕ, ◌^◌, ◌<◌, ◌≤◌, IfSome, IfNone};
ghost use Rattle.std.specs.Str.Parse.{IsNumeral, digits_value};
ghost use Rattle.seccomp_text.specs.Numbers.{IsWritten};

/// The number that the digits of a text write, if 64 bits hold it; `None` if the text is not one
/// digit of this radix or more, and nothing else. Above 9 digits are letters of either case.
pub fn read_digits(text: &str, radix: u32) -> Option<u64>
    requires some { 2 ≤ radix }
    requires few { radix ≤ 36 }
    ensures read { IfSome result (IsWritten radix text.now) }
    ensures unread { IfNone result ((n : ℕ) → IsWritten radix text.now n → ⊥) }
{
    if text.starts_with('+') {
        return None;
    }
    u64::from_str_radix(text, radix).ok()
}
