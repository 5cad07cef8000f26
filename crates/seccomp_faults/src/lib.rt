//! The faults of policies and of profiles, with their places.
//!
//! [`check`] reads a policy's text, and gives all its faults by their paths, what is there and what may, as
//! `main_thread.filter[1].syscall: unknown system call "fnctl" on x86_64; did you mean "fcntl"?`.
//! [`profile_faults`] does so for a text that is no profile, and [`outline_of`] says where
//! the values of a text stand, or why it is no JSON.
//!
//! What a value has to be is a [`Form`]. Tables say what is inside values of each form, and one walk goes through
//! policies and profiles by them.
//!
//! ```
//! use seccomp_faults::{Rejection, check};
//! use seccompiler::{JsonFilterMap, TargetArch};
//! use std::alloc::Global;
//!
//! /// Checks a policy for x86_64, and gives its filters.
//! fn check_here(alloc: Global, policy: &[u8]) -> Result<JsonFilterMap, Rejection> {
//!     check(alloc, TargetArch::x86_64, 100, policy)
//! }
//! ```
#![tactic(auto)]

pub mod fault;
mod form;
mod json_text;
mod length;
mod level;
mod near;
mod part;
pub mod policy;
pub mod table;
mod text;
mod walk;

pub use fault::{Cause, Fault, Problem};
pub use json_text::{JsonFault, Located, Outline, Position, outline_of};
pub use policy::{
    Rejection, cause_of_error, cause_of_frontend, check, faults, first_of, profile_faults,
    rejection_in,
};
pub use seccomp_text::steps::Step;
pub use table::{Form, is_of_profile};
