// Compiles seccomp filters, and shows what their programs do with the records of system calls.
#![tactic(auto)]

mod architecture;
mod error;
mod list;
mod perform;
mod policy;
mod probe;
mod program_text;
mod record_text;
mod run;
mod streams;
mod words;

ghost use Rattle.std.specs.Prelude.{◌≡◌, ◌≤◌, IfSome, IfNone, OnOk, OnErr};
ghost use Rattle.std.specs.Process.{exit_status};
ghost use Rattle.seccompc.specs.Commands.{IsPerformed};
ghost use Rattle.seccompc.specs.Statuses.{HasNoFault};

use crate::error::ToolError;
use crate::perform::perform_on;
use crate::words::{Command, read_words};
use seccomp_text::arguments::behind_the_name;
use std::io::{ErrorKind, Read, Write};
use std::process::ExitCode;
use std::rt::Files;
use std::{fs, io};

fn main(rt: HostRuntime) -> ExitCode {
    match behind_the_name(&rt) {
        Ok(words) => {
            let command = read_words(&words);
            carry_out(&rt, command, rt.reader(), &mut io::writer(&rt))
        }
        Err(error) if error.kind() == ErrorKind::OutOfMemory => {
            answered(&rt, Err(ToolError::OutOfMemory))
        }
        // A word that is no text is no command's.
        Err(_) => misused(&rt),
    }
}

// Carries out a command, from this input to this output; if there is none, says how the program is called.
fn carry_out<I: Read + Drop, W: Write>(
    rt: &(impl Files + Eprint + AllocGlobal),
    command: Option<Command<'_>>,
    input: I,
    out: &mut W,
) -> ExitCode
    ensures no_command { IfNone command.entry (exit_status result ≡ 2) }
    ensures carried_out { IfSome command.entry (λ asked. exit_status result ≤ 1) }

    // Status 0 comes only if the input is read and all is written that the command answers for it; and then its own words
    // have no fault.
    ensures performed { IfSome command.entry (λ asked. exit_status result ≡ 0 → IsPerformed asked (I.remaining input) (W.contents out.old) (W.contents out.new)) }
    ensures faultless { IfSome command.entry (λ asked. exit_status result ≡ 0 → HasNoFault asked) }
{
    let Some(command) = command else {
        return misused(rt);
    };
    let alloc = rt.alloc();
    let Command::Run { file, .. } = command else {
        return answered(rt, perform_on(alloc, command, Ok(io::empty()), input, out));
    };
    answered(
        rt,
        perform_on(alloc, command, fs::open(rt, file), input, out),
    )
}

// Status 0, or status 1 if a command failed, with the error's text on standard error.
fn answered(rt: &impl Eprint, answer: Result<(), ToolError>) -> ExitCode
    ensures done { OnOk answer (exit_status result ≡ 0) }
    ensures failed { OnErr answer (exit_status result ≡ 1) }
{
    match answer {
        Ok(()) => ExitCode::SUCCESS,
        Err(error) => {
            let _ = rt.eprintln(&error);
            ExitCode::FAILURE
        }
    }
}

const USAGE: &str = "usage: seccompc probe ARCH NR INDEX VALUE | list ARCH | run ARCH FILE NAME";

// Status 2, with how the program is called on standard error.
fn misused(rt: &impl Eprint) -> ExitCode
    ensures { exit_status result ≡ 2 }
{
    let _ = rt.eprintln(USAGE);
    ExitCode::from(2)
}
