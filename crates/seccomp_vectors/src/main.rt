// Answers the questions of standard input, which tools/rows/driver_rows.py makes of rows: a line each, `KIND SUBJECT VERB ..`, with numbers in
// place of most words, and behind a tab a text. If memory runs out, a question is asked once more; if it runs out again, the answers end.
#![tactic(auto)]

mod codes;
mod filters;
mod parts;
mod question;
mod texts;

use crate::question::Question;
use std::io::{self, ErrorKind, Read};
use std::process::ExitCode;

fn main(rt: HostRuntime) -> ExitCode {
    match answer_input(&rt) {
        Ok(()) => ExitCode::SUCCESS,
        Err(_) => ExitCode::FAILURE,
    }
}

fn answer_input(rt: &(impl Input + Print + AllocGlobal)) -> io::Result<()> {
    let mut text = Vec::new(rt.alloc());
    rt.reader().read_to_end(&mut text)?;
    let mut question = Question::new(rt.alloc());
    for line in str::from_utf8(text.as_slice()).unwrap_or("").lines() {
        let is_short = say(rt, &mut question, line)?;
        // A reader may say so itself.
        if is_short && !line.contains("out_of_memory") && say(rt, &mut question, line)? {
            return Err(io::Error::from(ErrorKind::OutOfMemory));
        }
    }
    Ok(())
}

// Prints the answer to a line, but not if memory ran out in this program; whether it ran out.
fn say<'a>(rt: &impl Print, question: &mut Question<'a>, line: &'a str) -> io::Result<bool> {
    question.answer_to(line);
    if question.is_short {
        return Ok(true);
    }
    let answer = question.answer.as_str().trim_ascii_end();
    println!(rt; "{answer}")?;
    Ok(answer == "Out of memory.")
}
