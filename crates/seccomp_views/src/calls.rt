// Calls, their names and numbers.

use crate::json::{Object, push_item, written};
use crate::text::Text;
use seccomp_answers::calls::{KnownCall, read_number};
use seccomp_answers::findings::parts::name_of;
use std::alloc::{AllocError, Global};

/// The lines of calls: the architecture, the call's name, as it is given if it is no number, and its number. As JSON their list.
pub fn calls_text(
    alloc: Global,
    json: bool,
    given: &str,
    calls: &[KnownCall],
) -> Result<Vec<u8>, AllocError> {
    let mut text = Text::new(alloc);
    for known in calls {
        let (arch, number) = (known.target.name(), known.number);
        let name = match read_number(given) {
            Some(_) => name_of(known.target, number).unwrap_or(given),
            None => given,
        };
        if json {
            let mut call = Object::new(alloc);
            call.field("architecture", arch);
            call.field("name", name);
            call.field("number", number);
            push_item(&mut text, call);
        } else {
            text.push_format(format!(in alloc; "{arch} {name} {number}\n"));
        }
    }
    written(text, json, "calls")
}
