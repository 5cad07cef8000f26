// What the program does outside: it reads, writes what a command makes, and reports what keeps it from that.

ghost use Rattle.seccomp_answers.specs.Chosen.{text_of};

use crate::files::{is_same, whole_of, write_whole};
use crate::notes::tell;
use seccomp_answers::error::AnswerError;
use seccomp_learn::{Trace, read_trace};
use seccompiler::TargetArch;
use std::alloc::{AllocError, AllocFailed, Global};
use std::io::{ErrorKind, Write};
use std::{fs, io};

/// Why a command isn't carried out.
#[derive(Drop)]
pub enum Cause {
    /// What is at the path can't be read or written.
    Io(io::Error),
    /// Nobody reads standard output.
    Closed,
    /// Bytes would be written to a terminal.
    Terminal,
    /// The output would overwrite what is read.
    Overwrites,
    /// There is no answer; or memory ran out.
    Answer(AnswerError),
}

/// Why a command isn't carried out, and the file that it is about: if there is none, and it isn't of an answer, standard output.
#[derive(Drop)]
pub struct Failure<'a> {
    pub input: Option<&'a str>,
    pub cause: Cause,
}

impl<'a> From<AllocError> for Failure<'a> {
    ghost use Rattle.std.specs.Prelude.{◌≡◌, None};
    ghost use Rattle.seccomptool.specs.Outside.{out_of_memory};

    ghost from_gives = { λ _ failure. failure ≡ record { input = None; cause = out_of_memory } };

    fn from(_refused: AllocError) -> Failure<'a> {
        Failure {
            input: None,
            cause: Cause::Answer(AnswerError::OutOfMemory),
        }
    }
}

impl<'a, T: Drop> From<AllocFailed<T>> for Failure<'a> {
    ghost use Rattle.std.specs.Prelude.{◌≡◌, None};
    ghost use Rattle.seccomptool.specs.Outside.{out_of_memory};

    ghost from_gives = { λ _ failure. failure ≡ record { input = None; cause = out_of_memory } };

    fn from(_failed: AllocFailed<T>) -> Failure<'a> {
        Failure {
            input: None,
            cause: Cause::Answer(AnswerError::OutOfMemory),
        }
    }
}

/// Where a command reads and writes, and reports what keeps it from that.
///
/// No contract can say what a file has. So what the shell does is said of each place that lists what is done there and what it
/// answers, in the order in which it is done.
pub(crate) trait Outside {
    ghost use Rattle.std.specs.Prelude.{◌≡◌, ℕ, Bool, List, [], ◌∷◌, ◌++◌, IfErr, IfOk, IfSome, OnOk, None, Option, Some};
    ghost use Rattle.seccompiler.specs.declared.backend.TargetArch.{TargetArch};
    ghost use Rattle.seccomp_learn.specs.declared.trace.Trace.{Trace};
    ghost use Rattle.seccomp_answers.specs.Chosen.{text_of};
    ghost use Rattle.seccomptool.specs.Outside.{Event, compared, failed, got, on_terminal, told, wrote};

    // This is done from one state of it to another.
    ghost did: { (before after : Self) → List Event → Type 0 };

    // At which paths something is, if that is known.
    ghost there: { Self → Option (List ℕ → Bool) };

    // The trace is what is read of these bytes.
    ghost reads: { TargetArch → List ℕ → Trace → Type 0 };

    /// Whether something is at a path.
    fn is_there(&self, path: &str) -> bool
        ensures { IfSome (there self.now) (λ there. result ≡ there path.now) };

    /// What a trace says.
    fn trace(&self, alloc: Global, arch: TargetArch, text: &[u8]) -> Result<Trace, AllocError>
        ensures { IfOk result (reads arch text.now) };

    /// Whether standard output is a terminal.
    fn is_terminal(&mut self) -> bool
        ensures { did self.old self.new (on_terminal result ∷ []) };

    /// Whether what is read at a path is the file at another.
    fn is_same(&mut self, read: &str, written: &str) -> bool
        ensures { did self.old self.new (compared read.now written.now result ∷ []) };

    /// Reads all that stands at a path, or that standard input gives if it is `-`.
    fn read(&mut self, alloc: Global, path: &str) -> Result<Vec<u8>, Cause>
        ensures read { IfOk result (λ text. did self.old self.new (got path.now text.items ∷ [])) }
        ensures unread { IfErr result (λ cause. did self.old self.new (failed (Some path.now) cause ∷ [])) };

    /// Writes a file whole, or standard output, unless nobody reads it any more.
    fn write(&mut self, output: Option<&str>, text: &[u8]) -> Result<(), Cause>
        ensures written { OnOk result (did self.old self.new (wrote (text_of output.entry) text.now ∷ [])) }
        ensures unwritten { IfErr result (λ cause. did self.old self.new (failed (text_of output.entry) cause ∷ [])) };

    /// Reports a failure.
    fn tell(&mut self, failure: &Failure<'_>)
        ensures { did self.old self.new (told failure.now ∷ []) };

    /// Reports notes: lines of text, made readable. They are no part of what is listed.
    fn note(&mut self, notes: &str)
        ensures { did self.old self.new [] };

    // Nothing is done if nothing changes; and one thing after the other is done if both are.
    ghost did_none: { (here : Self) → did here here [] };

    ghost did_both: { (before between after : Self) (first second : List Event) → did before between first → did between after second → did before after (first ++ second) };
}

/// Files, standard output and standard error. What is there, and done there, is not known.
#[derive(Drop)]
pub(crate) struct Streams<'a> {
    pub rt: &'a HostRuntime,
    /// Whether standard output is a terminal.
    pub to_terminal: bool,
    /// Whether it is reported that memory ran out, which is reported once.
    pub lacks_memory: bool,
    /// Whether nobody reads standard output any more. Nothing is reported then.
    pub is_closed: bool,
}

impl Outside for Streams<'_> {
    ghost use Rattle.std.specs.Prelude.{None, ⊤};

    ghost did = { λ before after events. ⊤ };

    ghost there = { λ streams. None };

    ghost reads = { λ arch text trace. ⊤ };

    ghost did_none = { λ here. tt };

    ghost did_both = { λ before between after first second one other. tt };

    fn is_there(&self, path: &str) -> bool {
        fs::metadata(self.rt, path).is_ok()
    }

    fn trace(&self, alloc: Global, arch: TargetArch, text: &[u8]) -> Result<Trace, AllocError> {
        read_trace(alloc, arch, text)
    }

    fn is_terminal(&mut self) -> bool {
        self.to_terminal
    }

    fn is_same(&mut self, read: &str, written: &str) -> bool {
        is_same(self.rt, read, written)
    }

    fn read(&mut self, _alloc: Global, path: &str) -> Result<Vec<u8>, Cause> {
        match whole_of(self.rt, path) {
            Ok(text) => Ok(text),
            Err(error) => Err(Cause::Io(error)),
        }
    }

    fn write(&mut self, output: Option<&str>, text: &[u8]) -> Result<(), Cause> {
        let rt = self.rt;
        let written = match output {
            Some(path) => write_whole(rt, path, text),
            None if self.is_closed => return Err(Cause::Closed),
            None => io::writer(rt).write_all(text),
        };
        let Err(error) = written else {
            return Ok(());
        };
        self.is_closed = output.is_none() && error.kind() == ErrorKind::BrokenPipe;
        Err(Cause::Io(error))
    }

    fn tell(&mut self, failure: &Failure<'_>) {
        if self.is_closed {
            return;
        }
        let lacks_memory = match &failure.cause {
            Cause::Io(error) => error.kind() == ErrorKind::OutOfMemory,
            Cause::Answer(error) => matches!(error, AnswerError::OutOfMemory),
            _ => false,
        };
        if !lacks_memory && tell(self.rt, failure).is_ok() {
            return;
        }
        if !self.lacks_memory {
            let _ = eprintln!(self.rt; "seccomptool: Out of memory.");
        }
        self.lacks_memory = true;
    }

    fn note(&mut self, notes: &str) {
        let _ = eprint!(self.rt; "{notes}");
    }
}
