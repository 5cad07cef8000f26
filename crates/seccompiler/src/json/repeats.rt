// Whether a text has more colons outside strings than its value has names.

ghost use Rattle.std.specs.Prelude.{◌≡◌, ℕ, ◌-◌, ◌==◌, ◌<◌, ◌≤◌, ◌↔◌, IsTrue, count_by, length};
ghost use Rattle.serde_json.specs.View.{view, items_view};
ghost use Rattle.seccompiler.specs.ColonCount.{from_outside, from_inside};
ghost use Rattle.seccompiler.specs.JsonRepeats.{Repeats, HasColons, names_in, names_in_items};

use serde_json::Value;
use std::slice::from_ref;

// How many bytes are counted in one byte.
const PART: usize = 255;

/// Whether a text has more bytes `:` outside strings than the objects of a value have names.
///
/// The text is taken as bytes outside strings and strings in quotes, in which a backslash takes the
/// next byte with it. It may be any bytes, and the value any value. All names count, those of objects
/// inside others too.
///
/// It is meant for a text and the value that serde_json reads of it: JSON has one such byte for each
/// name that it writes, and the value has a name once however often the text writes it. That is the
/// reason for the count and no promise: what is promised is the count.
///
/// It takes no memory.
pub fn repeats_key(text: &[u8], value: &Value) -> bool
    ensures repeats { IsTrue result ↔ Repeats text.now (view value.now) }

    // There is a cut, and the answer does not depend on which one is taken.
    ensures cut { (count : ℕ) × HasColons text.now count }
    ensures each_cut { (count : ℕ) → HasColons text.now count →
        (IsTrue result ↔ (names_in (view value.now) < count)) }
{
    // Which of them stand in strings is asked only if there are more than names.
    let all = all_colons(text);
    let left = after_names(from_ref(value), all);
    if left == 0 {
        return false;
    }
    all - left < colons(text)
}

// How many of `left` are left after one for each name in the values.
fn after_names(values: &[Value], mut left: usize) -> usize
    ensures { result ≡ left - names_in_items (items_view values.now) }
{
    for value in values {
        match value {
            Value::Array(items) => left = after_names(items.as_slice(), left),
            Value::Object(members) => {
                left = left.saturating_sub(members.len());
                for (_, member) in members.iter() {
                    // Most members have no names of their own.
                    match member {
                        Value::Array(items) => left = after_names(items.as_slice(), left),
                        Value::Object(_) => left = after_names(from_ref(member), left),
                        _ => {}
                    }
                }
            }
            _ => {}
        }
    }
    left
}

// How many bytes `:` there are, in strings too.
fn all_colons(text: &[u8]) -> usize
    ensures { result ≡ count_by (λ b. b == 58) text.now }
{
    let mut rest = text;
    let mut found = 0usize;
    while !rest.is_empty() {
        let (part, behind) = rest.split_at(rest.len().min(PART));
        found += colons_of_part(part) as usize;
        rest = behind;
    }
    found
}

// The same of so few bytes that one byte counts them, of which a processor adds many at a time.
fn colons_of_part(part: &[u8]) -> u8
    requires { length part.now ≤ 255 }
    ensures { result ≡ count_by (λ b. b == 58) part.now }
{
    let mut found = 0;
    for byte in part {
        if *byte == b':' {
            found += 1;
        }
    }
    found
}

// How many bytes `:` stand outside strings.
#[tactic(auto, using(crate::proofs::json::repeats::TextCuts::counted_to_end))]
fn colons(text: &[u8]) -> usize
    ensures { HasColons text.now result }
{
    let mut rest = text;
    let mut found = 0usize;
    while let Some((byte, behind)) = rest.split_first() {
        match *byte {
            b'"' => rest = behind_string(behind),
            b':' => {
                rest = behind;
                found += 1;
            }
            _ => rest = behind,
        }
    }
    found
}

// What stands behind the string that these bytes begin in; nothing where it is not closed.
fn behind_string(text: &[u8]) -> &[u8]
    ensures same_count { (n : ℕ) → from_inside n text.now ≡ from_outside n result.now }
    ensures shorter { length result.now ≤ length text.now }
{
    let mut rest = text;
    while let Some((byte, behind)) = rest.split_first() {
        match *byte {
            b'"' => return behind,
            b'\\' => match behind.split_first() {
                Some((_, further)) => rest = further,
                None => rest = behind,
            },
            _ => rest = behind,
        }
    }
    rest
}
