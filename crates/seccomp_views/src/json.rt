// JSON that the program writes.

ghost use Rattle.std.specs.Prelude.{⊤};

use crate::text::Text;
use seccomp_answers::findings::parts::name_of;
use seccompiler::TargetArch;
use serde_json::{Map, ToValue, Value, put};
use std::alloc::{AllocError, Global};

/// An object to which members are added. If memory runs out, a member is missing, and its value can't be made.
#[derive(Drop)]
pub struct Object {
    alloc: Global,
    members: Map<String, Value>,
    is_missing: bool,
}

impl Object {
    /// One without members.
    pub fn new(alloc: Global) -> Object {
        Object {
            alloc,
            members: Map::new(alloc),
            is_missing: false,
        }
    }

    /// Adds a member.
    pub fn field<T: ToValue>(&mut self, key: &str, part: T) {
        match part.to_value(self.alloc) {
            Ok(part) => self.is_missing |= put(&mut self.members, self.alloc, key, part).is_err(),
            Err(_) => self.is_missing = true,
        }
    }
}

impl ToValue for Object {
    ghost gives = { λ object value. ⊤ };

    fn to_value(self, _alloc: Global) -> Result<Value, AllocError> {
        if self.is_missing {
            return Err(AllocError);
        }
        Ok(Value::Object(self.members))
    }
}

/// A list to which items are added. If memory runs out, an item is missing, and its value can't be made.
#[derive(Drop)]
pub struct List {
    items: Vec<Value>,
    is_missing: bool,
}

impl List {
    /// One without items.
    pub fn new(alloc: Global) -> List {
        List {
            items: Vec::new(alloc),
            is_missing: false,
        }
    }

    /// Adds an item.
    pub fn item<T: ToValue>(&mut self, part: T) {
        match part.to_value(*self.items.allocator()) {
            Ok(part) => {
                let pushed = self.items.push(part);
                self.is_missing |= pushed.is_err();
                // By one call, and not variant by variant.
                drop(pushed);
            }
            Err(_) => self.is_missing = true,
        }
    }
}

impl ToValue for List {
    ghost gives = { λ list value. ⊤ };

    fn to_value(self, _alloc: Global) -> Result<Value, AllocError> {
        if self.is_missing {
            return Err(AllocError);
        }
        Ok(Value::Array(self.items))
    }
}

/// A part, or null if there is none.
#[derive(Clone, Copy)]
pub struct OrNull<T>(pub Option<T>);

impl<T: ToValue> ToValue for OrNull<T> {
    ghost gives = { λ part value. ⊤ };

    fn to_value(self, alloc: Global) -> Result<Value, AllocError> {
        match self.0 {
            Some(part) => part.to_value(alloc),
            None => Ok(Value::Null),
        }
    }
}

// A text, or null if it is empty.
pub(crate) fn or_null(text: &str) -> OrNull<&str> {
    if text.is_empty() {
        return OrNull(None);
    }
    OrNull(Some(text))
}

/// The name of the call of a number, or null if it has none, or there is no number.
pub fn call_name(target: TargetArch, number: Option<u32>) -> OrNull<&'static str> {
    OrNull(match number {
        Some(number) => name_of(target, number),
        None => None,
    })
}

/// Adds a value, in ASCII. What isn't stands in strings alone, and is written there by its number, so that no character of it
/// steers a terminal.
pub fn push_value<T: ToValue>(text: &mut Text, part: T) {
    let alloc = text.alloc();
    let Ok(value) = part.to_value(alloc) else {
        return text.fail();
    };
    let json = value.to_string(alloc);
    // By one call, and not variant by variant.
    drop(value);
    let Ok(json) = json else {
        return text.fail();
    };
    for unit in json.as_str().encode_utf16() {
        if unit < 0x7f {
            text.push_bytes(&[unit as u8]);
        } else {
            text.push_format(format!(in alloc; "\\u{unit:04x}"));
        }
    }
}

/// Adds an item of a list: an object in a line, with a comma behind it.
pub fn push_item(text: &mut Text, object: Object) {
    push_value(text, object);
    text.push_bytes(b",\n");
}

/// What is written of items: as JSON the object of their list, else their lines as they are.
pub fn written(items: Text, json: bool, name: &str) -> Result<Vec<u8>, AllocError> {
    if json {
        return list_text(items.alloc(), name, &items.finish()?);
    }
    items.finish()
}

/// The text of an object with a list under this name. Each item stands in a line, with a comma behind it.
pub fn list_text(alloc: Global, name: &str, items: &[u8]) -> Result<Vec<u8>, AllocError> {
    let mut text = Text::new(alloc);
    text.push_str("{\"");
    text.push_str(name);
    text.push_str("\":[");
    if let Some(items) = items.strip_suffix(b",\n") {
        text.push_str("\n");
        text.push_bytes(items);
        text.push_str("\n");
    }
    text.push_str("]}\n");
    text.finish()
}
