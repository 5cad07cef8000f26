//! What is printed of answers: lines for people, and JSON. Nothing here is promised but that a program's bytes are those of its
//! instructions; tables of cases test the texts.
#![tactic(auto)]

mod alike;
pub mod calls;
pub mod check;
pub mod diff;
pub mod explain;
pub mod json;
pub mod lines;
pub mod log;
pub mod notes;
pub mod program;
pub mod text;
pub mod unit;
