// The words that stand after the program's name.

use std::alloc::Global;
use std::env::FillError;
use std::rt::Env;
use std::{env, io};

// The process's words without the first: the program's own path may be any bytes.
#[derive(Clone, Copy)]
struct BehindTheName<'a, R>(&'a R);

impl<R: Env> Env for BehindTheName<'_, R> {
    fn arg(&self, i: usize, buf: &mut [u8]) -> Result<usize, FillError> {
        match i.checked_add(1) {
            Some(next) => self.0.arg(next, buf),
            None => Err(FillError::NotPresent),
        }
    }

    fn var(&self, name: &str, buf: &mut [u8]) -> Result<usize, FillError> {
        self.0.var(name, buf)
    }

    fn var_at(&self, i: usize, buf: &mut [u8]) -> Result<usize, FillError> {
        self.0.var_at(i, buf)
    }
}

/// The arguments after the program's name, in order.
///
/// `env::args` of the kit has no contract, so this has none: that the arguments are the process's own is
/// tested on the built programs.
///
/// # Errors
///
/// Of the kind `OutOfMemory` if memory runs out; of another if one of the arguments is no text.
pub fn behind_the_name(rt: &(impl Env + AllocGlobal)) -> io::Result<Vec<String>> {
    let alloc = rt.alloc();
    Ok(env::args(&(BehindTheName(rt), alloc))?.collect(alloc)?)
}
