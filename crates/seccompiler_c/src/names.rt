// The names of a text's filters.

ghost use Rattle.std.specs.Prelude.{◌≡◌, ◌≤◌, ℕ, List, Some, pos, length, map, slice_get, string_bytes, IfOk, IfErr, IfSome, IfNone};
ghost use Rattle.std.specs.Map.{keys_of};
ghost use Rattle.seccompiler_c.specs.Messages.{HoldsMessage};
ghost use Rattle.seccompiler_c.specs.Names.{OfNames, IsUnnamed};

use crate::fault::Fault;
use crate::text::write_text;
use seccompiler::JsonFilterMap;
use seccompiler::json::filters_of;
use std::alloc::Global;

// Writes the name of this index among the text's filters, and gives its length.
pub(crate) fn name_of(
    alloc: Global,
    text: &[u8],
    index: usize,
    name: &mut [u8],
) -> Result<i64, Fault>
    ensures named { IfOk result (λ answer. (said : List ℕ) × OfNames text.now (λ names. slice_get names index ≡ Some said) × (answer ≡ pos (length said)) × HoldsMessage said name.old name.new) }
    ensures unnamed { IfErr result (IsUnnamed text.now index) }
    ensures left { IfErr result (λ fault. name.new ≡ name.old) }
{
    let filters = filters_of(alloc, text)?;
    match write_key(&filters, index, name) {
        Some(length) => Ok(length),
        None => Err(Fault::NoIndex),
    }
}

// Writes the key of this index, and gives its length.
fn write_key(filters: &JsonFilterMap, index: usize, name: &mut [u8]) -> Option<i64>
    ensures found { IfSome result (λ answer. (said : List ℕ) × (slice_get (map string_bytes (keys_of filters.now.0.entries)) index ≡ Some said) × (answer ≡ pos (length said)) × HoldsMessage said name.old name.new) }
    ensures none { IfNone result (length (keys_of filters.now.0.entries) ≤ index) }
    ensures left { IfNone result (name.new ≡ name.old) }
{
    let mut place: usize = 0;
    for key in filters.0.keys() {
        if place == index {
            return Some(write_text(key.as_str(), name));
        }
        place += 1;
    }
    None
}
