// Texts in the making.

use seccomp_text::readable::{TextKind, push_readable};
use std::alloc::{AllocError, Global};
use std::fmt;

/// A text to which parts are added. If memory runs out, a part is missing, and `finish` fails.
#[derive(Drop)]
pub struct Text {
    bytes: Vec<u8>,
    is_missing: bool,
}

impl Text {
    /// An empty one.
    pub fn new(alloc: Global) -> Text {
        Text {
            bytes: Vec::new(alloc),
            is_missing: false,
        }
    }

    /// The heap that it is in.
    pub fn alloc(&self) -> Global {
        *self.bytes.allocator()
    }

    /// Notes that memory ran out.
    pub fn fail(&mut self) {
        self.is_missing = true;
    }

    /// Adds a text as it is.
    pub fn push_str(&mut self, part: &str) {
        self.push_bytes(part.as_bytes());
    }

    /// Adds bytes.
    pub fn push_bytes(&mut self, part: &[u8]) {
        if self.bytes.extend_from_slice(part).is_err() {
            self.fail();
        }
    }

    /// Adds what `format!` gives.
    pub fn push_format(&mut self, part: Result<String, AllocError>) {
        match part {
            Ok(part) => self.push_str(part.as_str()),
            Err(_) => self.fail(),
        }
    }

    /// Adds what this shows.
    pub fn push_display<T: fmt::Display>(&mut self, part: &T) {
        self.push_format(format!(in self.alloc(); "{part}"));
    }

    /// Adds what comes from outside, as people read it.
    pub fn push_readable(&mut self, part: &str, kind: TextKind) {
        if push_readable(&mut self.bytes, part, kind).is_err() {
            self.fail();
        }
    }

    /// The bytes of all parts.
    pub fn finish(self) -> Result<Vec<u8>, AllocError> {
        if self.is_missing {
            return Err(AllocError);
        }
        Ok(self.bytes)
    }

    /// All parts as a string. They are UTF-8, if the bytes that were added are.
    pub fn finish_string(self) -> Result<String, AllocError> {
        String::from_utf8_lossy(self.alloc(), &self.finish()?)
    }
}
