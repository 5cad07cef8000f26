// Compiles, checks and explains the policies of seccomp filters.
#![tactic(auto)]

mod call;
mod check;
mod command;
mod compile;
mod diff;
mod explain;
mod files;
mod learn;
mod made;
mod notes;
mod outside;
mod perform;
mod progress;
mod shell;
mod show;
mod stack;
mod words;

use crate::notes::{misused, unread};
use crate::outside::Streams;
use crate::progress::Watch;
use crate::shell::answer;
use seccomp_text::arguments::behind_the_name;
use std::io::IsTerminal;
use std::process::ExitCode;

fn main(rt: HostRuntime) -> ExitCode {
    let mut progress = Watch::new(&rt, rt.stderr().is_terminal());
    let mut streams = Streams {
        rt: &rt,
        to_terminal: rt.stdout().is_terminal(),
        lacks_memory: false,
        is_closed: false,
    };
    let words = match behind_the_name(&rt) {
        Ok(words) => words,
        Err(error) => {
            unread(&rt, &error);
            return ExitCode::from(2);
        }
    };
    let words = words.as_slice();
    match answer(rt.alloc(), &mut streams, words, &mut progress) {
        Ok(status) => ExitCode::from(status),
        Err(error) => ExitCode::from(misused(&rt, &streams, words, &error)),
    }
}
