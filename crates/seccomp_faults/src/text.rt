// The texts of faults.

use crate::fault::{Fault, Problem};
use crate::table::Form;
use seccomp_names::error_number;
use seccomp_text::readable::{TextKind, readable};
use seccomp_text::steps::Step;
use std::alloc::{AllocError, Global};

// What a value of a form is, in words.
fn form_words(form: Form) -> &'static str {
    match form {
        Form::Policy => "an object of filters",
        Form::Filter => "an object with the actions and the entries of a filter",
        Form::Entry => "an object with the call of an entry",
        Form::Condition => "an object with the four parts of a condition",
        Form::Action => {
            "\"allow\", {\"errno\": N}, \"kill_process\", \"kill_thread\", \"log\", {\"trace\": N} or \"trap\""
        }
        Form::Entries => "an array of entries",
        Form::Name | Form::Call => "the name of a system call",
        Form::Comment | Form::TextOrNull => "null or a string",
        Form::Conditions => "null or an array of conditions",
        Form::SomeConditions => "null or at least one condition",
        Form::Index | Form::Argument | Form::ProfileIndex => "0 to 5",
        Form::Length => "\"dword\" or \"qword\"",
        Form::Operator => { "\"eq\", \"ge\", \"gt\", \"le\", \"lt\", {\"masked_eq\": N} or \"ne\"" }
        Form::ActionNumber => "0 to 4294967295",
        Form::Number | Form::ProfileNumber => "0 to 18446744073709551615",
        Form::Profile | Form::ProfileEntry | Form::Criteria | Form::Comparison => "an object",
        Form::ProfileAction => {
            "SCMP_ACT_ALLOW, SCMP_ACT_ERRNO, SCMP_ACT_KILL, SCMP_ACT_KILL_PROCESS, SCMP_ACT_KILL_THREAD, SCMP_ACT_LOG, SCMP_ACT_NOTIFY, SCMP_ACT_TRACE or SCMP_ACT_TRAP"
        }
        Form::ErrnoNumber => "null or 0 to 65535",
        Form::ErrnoName => "null or an errno by name or number, such as \"EPERM\" or \"1\"",
        Form::List | Form::Flags | Form::Texts | Form::ProfileEntries | Form::Comparisons => {
            "null or an array"
        }
        Form::Flag => {
            "SECCOMP_FILTER_FLAG_LOG, SECCOMP_FILTER_FLAG_SPEC_ALLOW, SECCOMP_FILTER_FLAG_TSYNC or SECCOMP_FILTER_FLAG_WAIT_KILLABLE_RECV"
        }
        Form::Text => "a string",
        Form::NumberOrNull => "null or 0 to 18446744073709551615",
        Form::ProfileOperator => {
            "SCMP_CMP_EQ, SCMP_CMP_GE, SCMP_CMP_GT, SCMP_CMP_LE, SCMP_CMP_LT, SCMP_CMP_MASKED_EQ or SCMP_CMP_NE"
        }
        Form::Version => "null or a version of two numbers, such as \"4.8\"",
    }
}

// The keys that an object of a form may have, in words.
fn keys_words(form: Form) -> &'static str {
    match form {
        Form::Filter => "mismatch_action, default_action, match_action, filter_action or filter",
        Form::Entry => "syscall, args or comment",
        Form::ProfileEntry => {
            "names, name, action, errnoRet, errno, args, includes, excludes or comment"
        }
        Form::Criteria => "caps, arches or minKernel",
        Form::Comparison => "index, value, valueTwo or op",
        _ => "index, type, op, val or comment",
    }
}

// That what is shown isn't of a form; of an errno's name in its number's place also the number.
fn unlike(alloc: Global, path: &[Step], shown: &str, form: Form) -> Result<String, AllocError> {
    let wanted = form_words(form);
    if let (Form::ActionNumber, Some(Step::Key(key))) = (form, path.last())
        && key.as_str() == "errno"
        && let Some(number) = error_number(shown.trim_matches('"'))
    {
        let name = shown.trim_matches('"');
        return format!(in alloc; "expected {wanted}, found {shown}; {name} is {number}");
    }
    format!(in alloc; "expected {wanted}, found {shown}")
}

impl Fault {
    /// What is wrong with the value, without the way to it.
    ///
    /// # Errors
    ///
    /// `AllocError` if memory runs out.
    pub fn words(&self, alloc: Global) -> Result<String, AllocError> {
        match &self.problem {
            Problem::Stands(shown, form) => unlike(alloc, &self.path, shown.as_str(), *form),
            Problem::UnknownCall(shown, target, None) => {
                format!(in alloc; "unknown system call {shown} on {target}")
            }
            Problem::UnknownCall(shown, target, Some(near)) => {
                format!(in alloc;
                    "unknown system call {shown} on {target}; did you mean \"{near}\"?"
                )
            }
            Problem::Strange(key) => {
                let key = readable(alloc, key.as_str(), TextKind::Name)?;
                format!(in alloc;
                    "\"{key}\": unknown key; expected {}",
                    keys_words(self.form)
                )
            }
            Problem::Missing(key) => format!(in alloc; "missing \"{key}\""),
            Problem::Neither(key, other) => format!(in alloc; "missing \"{key}\" or \"{other}\""),
            Problem::Both(key, other) => {
                format!(in alloc; "expected one of \"{key}\" and \"{other}\", found both")
            }
            Problem::Beside(key) => {
                format!(in alloc; "\"{key}\" is given, but the action takes no number")
            }
            Problem::SameActions => String::from_str(
                alloc,
                "expected two actions that differ, found the same one twice",
            ),
            Problem::TooLong(length, None, _) => {
                format!(in alloc; "needs {length} instructions in the linear layout; 4096 fit")
            }
            Problem::TooLong(length, Some(tree), _) => {
                format!(in alloc;
                    "needs {length} instructions in the linear layout; 4096 fit; {tree} in the tree layout"
                )
            }
        }
    }

    /// The text of the fault: the path to the value, and what is wrong with it, in one line. The path consists of names, and of places
    /// in brackets, from 0; in names each byte of a control character and of the backslash is written as `\x` and two digits.
    ///
    /// # Errors
    ///
    /// `AllocError` if memory runs out.
    pub fn text(&self, alloc: Global) -> Result<String, AllocError> {
        let mut text = String::new(alloc);
        if self.path.is_empty() {
            text.push_str(match self.form {
                Form::Policy => "the policy",
                _ => "the profile",
            })?;
        }
        for (nth, step) in self.path.iter().enumerate() {
            match step {
                Step::Key(key) => {
                    text.push_str(if nth == 0 { "" } else { "." })?;
                    text.push_str(readable(alloc, key.as_str(), TextKind::Name)?.as_str())?;
                }
                Step::Item(place) => {
                    let place = format!(in alloc; "[{place}]")?;
                    text.push_str(place.as_str())?;
                }
            }
        }
        text.push_str(": ")?;
        text.push_str(self.words(alloc)?.as_str())?;
        Ok(text)
    }
}
