// A question: its words, one after the other, the text behind them, and its answer. A number that isn't there is 0.

use seccompiler::sock_filter;
use std::alloc::Global;
use std::fmt::{self, Write};
use std::str::{FromStr, SplitWhitespace};

#[derive(Drop)]
pub(crate) struct Question<'a> {
    pub(crate) alloc: Global,
    pub(crate) words: SplitWhitespace<'a>,
    pub(crate) text: &'a str,
    pub(crate) answer: String,
    /// Whether memory ran out in this program, so that the answer isn't one.
    pub(crate) is_short: bool,
}

impl<'a> Question<'a> {
    pub(crate) fn new(alloc: Global) -> Self {
        Question {
            alloc,
            words: "".split_whitespace(),
            text: "",
            answer: String::new(alloc),
            is_short: false,
        }
    }

    pub(crate) fn word(&mut self) -> &'a str {
        self.words.next().unwrap_or("")
    }

    pub(crate) fn number<T: FromStr<Err: Drop> + Default + Drop>(&mut self) -> T {
        self.word().parse().unwrap_or_default()
    }

    /// What the library makes; if that is nothing, the answer says why.
    pub(crate) fn kept<T: Drop, E: fmt::Display + Drop>(
        &mut self,
        made: Result<T, E>,
    ) -> Option<T> {
        match made {
            Ok(made) => Some(made),
            Err(error) => {
                self.tell(&error);
                None
            }
        }
    }

    pub(crate) fn tell<T: fmt::Display>(&mut self, part: &T) {
        self.is_short |= write!(self.answer, "{part} ").is_err();
    }

    pub(crate) fn tell_named(&mut self, name: &String, number: usize) {
        self.tell(name);
        self.tell(&number);
    }

    pub(crate) fn tell_code(&mut self, code: &[sock_filter]) {
        for one in code {
            self.tell(&one.code);
            self.tell(&one.jt);
            self.tell(&one.jf);
            self.tell(&one.k);
        }
    }
}
