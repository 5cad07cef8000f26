// Policies as JSON text: what each call gives for a text, and for readers of it that do as they are told.

use crate::question::Question;
use seccompiler::json::{
    JsonFilter, JsonFilterMap, filters_of, read_filters, repeats_key, text_of,
};
use seccompiler::{JsonCompiler, JsonFrontendError, SeccompFilter, compile_from_json, programs_of};
use serde_json::Value;
use std::io::{self, ErrorKind, Read};

// Gives its bytes, one a call. The call after the first `before` bytes fails with the fault, if there is one; later calls go on.
#[derive(Drop)]
struct ScriptedReader<'a> {
    bytes: &'a [u8],
    before: usize,
    fault: Option<ErrorKind>,
}

impl Read for ScriptedReader<'_> {
    fn read(&mut self, buf: &mut [u8]) -> io::Result<usize> {
        if self.before == 0 {
            if let Some(kind) = self.fault.take() {
                return Err(io::Error::from(kind));
            }
        }
        self.before = self.before.saturating_sub(1);
        let most = buf.len().min(1);
        self.bytes.read(&mut buf[..most])
    }
}

impl<'a> Question<'a> {
    // A reader of the text: how it fails, and how many bytes it gives before.
    fn reader(&mut self) -> ScriptedReader<'a> {
        let fault = match self.word() {
            "broken_pipe" => Some(ErrorKind::BrokenPipe),
            "out_of_memory" => Some(ErrorKind::OutOfMemory),
            "interrupted" => Some(ErrorKind::Interrupted),
            "other" => Some(ErrorKind::Other),
            _ => None,
        };
        ScriptedReader {
            bytes: self.text.as_bytes(),
            before: self.number(),
            fault,
        }
    }

    // The names of JSON filters, with how many entries each has.
    fn tell_entries(&mut self, read: Result<JsonFilterMap, JsonFrontendError>) {
        if let Some(filters) = self.kept(read) {
            for (name, filter) in &filters.0 {
                self.tell_named(name, filter.rules.len());
            }
        }
    }

    /// What is asked of the JSON filter `a` of the text: which calls it widens, how long its filter is, or whether that is another one.
    pub(crate) fn about_entries(&mut self) {
        let (compiler, alloc) = (JsonCompiler::new(self.arch()), self.alloc);
        let (asked, read) = (self.word(), filters_of(alloc, self.text.as_bytes()));
        let Some(filters) = self.kept(read) else {
            return;
        };
        let Some(entries) = filters.0.get("a") else {
            return;
        };
        if asked == "widened" {
            if let Some(numbers) = self.kept(compiler.widened(alloc, entries)) {
                for number in &numbers {
                    self.tell(number);
                }
            }
        } else if let Some(made) = self.kept(compiler.make_seccomp_filter(alloc, entries)) {
            match asked {
                "length" => self.tell(&made.program_len()),
                _ => {
                    let is_equal = self.filter() == Some(made);
                    self.tell(&is_equal);
                }
            }
        }
    }

    /// What a call gives for a text, or for a reader of it; or whether the filter `a` of the text is another one.
    pub(crate) fn about_text(&mut self) {
        let (arch, alloc, bytes) = (self.arch(), self.alloc, self.text.as_bytes());
        match self.word() {
            "programs_of" => {
                if let Some(programs) = self.kept(programs_of(alloc, bytes, arch)) {
                    for (name, program) in &programs {
                        self.tell_named(name, program.len());
                    }
                }
            }
            "filters_of" => self.tell_entries(filters_of(alloc, bytes)),
            "read_filters" => match Value::from_str(alloc, self.text) {
                Ok(value) => self.tell_entries(read_filters(alloc, &value)),
                Err(_) => self.is_short = true,
            },
            "repeats_key" => self.tell(&repeats_key(bytes, &Value::Null)),
            asked => {
                let made = JsonCompiler::new(arch).policies_of(alloc, bytes);
                let Some(filters) = self.kept(made) else {
                    return;
                };
                if asked == "made_by" {
                    let is_equal = filters.get("a") == self.filter().as_ref();
                    return self.tell(&is_equal);
                }
                for (name, filter) in &filters {
                    self.tell_named(name, filter.program_len());
                }
            }
        }
    }

    pub(crate) fn about_reader(&mut self) {
        let (arch, alloc, asked) = (self.arch(), self.alloc, self.word());
        let reader = self.reader();
        match asked {
            "compile_from_json" => {
                if let Some(programs) = self.kept(compile_from_json(alloc, reader, arch)) {
                    for (name, program) in &programs {
                        self.tell_named(name, program.len());
                    }
                }
            }
            "compile" => {
                let made = JsonCompiler::new(arch).compile(alloc, reader);
                if let Some(filters) = self.kept(made) {
                    for (name, filter) in &filters {
                        self.tell_named(name, filter.program_len());
                    }
                }
            }
            _ => {
                if let Some(text) = self.kept(text_of(alloc, reader)) {
                    self.tell(&text.len());
                }
            }
        }
    }
}
