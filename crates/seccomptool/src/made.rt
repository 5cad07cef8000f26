// What a command makes of what it is given: a text, and what it finds.

ghost use Rattle.std.specs.Prelude.{◌≡◌, IfErr, IfOk, Ok, false};
ghost use Rattle.seccomp_answers.specs.declared.error.AnswerError.TheVariants.{OutOfMemory};
ghost use Rattle.seccomptool.specs.Commands.{IsPlain};

use seccomp_answers::error::AnswerError;
use seccomp_answers::findings::Verdict;
use seccomp_text::readable::TextKind;
use seccomp_views::notes::readable;
use seccomp_views::text::Text;
use std::alloc::{AllocError, Global};

/// What a command makes of the texts that it is given.
#[derive(Drop)]
pub(crate) struct Made {
    /// What it writes, as it is written.
    pub text: Vec<u8>,
    /// Whether records end inside of one, which is trouble.
    pub is_cut: bool,
    /// What it finds.
    pub verdict: Verdict,
    /// What is to be noted on standard error, in lines, each with a line feed: no bytes if nothing is.
    pub notes: Vec<u8>,
}

impl Made {
    // What is made of a text, if there is memory for it and for the notes.
    pub(crate) fn of(
        text: Result<Vec<u8>, AllocError>,
        verdict: Verdict,
        notes: Text,
    ) -> Result<Made, AnswerError>
        ensures made { IfOk result (λ made. (text ≡ Ok made.text) × (made.verdict ≡ verdict) × (made.is_cut ≡ false)) }
        ensures failed { IfErr result (λ error. error ≡ OutOfMemory) }
    {
        Ok(Made::noting(text?, verdict, notes.finish()?))
    }

    // A text of a command that finds nothing, and has nothing to tell.
    pub(crate) fn plain(
        alloc: Global,
        text: Result<Vec<u8>, AllocError>,
    ) -> Result<Made, AnswerError>
        ensures made { IfOk result (λ made. (text ≡ Ok made.text) × IsPlain made) }
        ensures failed { IfErr result (λ error. error ≡ OutOfMemory) }
    {
        Made::of(text, Verdict::Same, Text::new(alloc))
    }

    // A text of a command that finds this, and has these notes.
    pub(crate) fn noting(text: Vec<u8>, verdict: Verdict, notes: Vec<u8>) -> Made
        ensures text { result.text ≡ text }
        ensures verdict { result.verdict ≡ verdict }
        ensures whole { result.is_cut ≡ false }
    {
        Made {
            text,
            is_cut: false,
            verdict,
            notes,
        }
    }
}

/// A text as people read it. Lines in ASCII, as most texts are, need no change.
pub(crate) fn shown(text: Result<Vec<u8>, AllocError>) -> Result<Vec<u8>, AllocError> {
    let text = text?;
    if text.iter().all(|byte| matches!(*byte, b'\n' | b' '..=b'~')) {
        return Ok(text);
    }
    let lines = readable(*text.allocator(), &text, TextKind::Lines)?;
    Ok(lines.into_bytes())
}
