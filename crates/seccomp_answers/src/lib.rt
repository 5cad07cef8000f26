//! What is asked of policies, profiles and programs, answered as values: the program of each filter and how many steps it takes, what
//! is decided on a call and why, on which calls two of them differ, and what several do together. A subject is given in bytes, which
//! say what it is.
//!
//! `specs/` defines each answer, and the cause of each error.
#![tactic(auto)]

pub mod calls;
pub mod check;
pub mod chosen;
pub mod diff;
pub mod error;
pub mod explain;
pub mod findings;
pub mod kind;
pub mod layers;
pub mod measures;
mod policy;
pub mod profile;
pub mod program;
pub mod programs;
pub mod sides;
