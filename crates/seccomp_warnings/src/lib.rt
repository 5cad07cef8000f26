//! Warnings of parts of policies and profiles: places that may not say what their author means.
//!
//! A policy or a profile with a warning is valid. A [`Part`] has entries that stand beside each other with two actions; a filter of
//! a policy is one. [`warnings_of`] gives the warnings of a part, each with its [`Code`] and what it is about. [`evasions_of`] gives
//! those that are shown by two calls, of all entries. [`Code::all`] has what is said of each code, and `docs/CHECKS.md` its section.
//!
//! ```
//! use seccomp_warnings::{Code, FilterWarned, policy_warnings_of};
//! use seccompiler::{JsonFilter, JsonFrontendError, TargetArch};
//! use std::alloc::Global;
//!
//! /// The warnings of a filter, all but those of `allows-by-default`.
//! fn warnings_here(alloc: Global, filter: &JsonFilter) -> Result<FilterWarned, JsonFrontendError> {
//!     policy_warnings_of(alloc, TargetArch::x86_64, filter, &[Code::AllowsByDefault])
//! }
//! ```
#![tactic(auto)]

mod action;
mod argument;
pub mod beside;
mod call;
mod candidate;
pub mod code;
mod condition;
pub mod evasion;
mod part;
pub mod profile;
mod sibling;
mod tables;
mod text;
pub mod unlisted;
mod walk;
pub mod warning;

pub use crate::beside::{Beside, beside_of, codes_beside, hides_clone3};
pub use crate::code::Code;
pub use crate::evasion::{Evasion, evasions_of};
pub use crate::part::Part;
pub use crate::profile::{
    AbiEvasion, Clash, Doubt, Effect, LACKED, Origin, ProfileWarning, code_of, profile_warnings_of,
};
pub use crate::sibling::sibling_of;
pub use crate::text::CodeRow;
pub use crate::unlisted::Unlisted;
pub use crate::walk::{policy_warnings_of, warnings_of};
pub use crate::warning::{Actions, Comparison, FilterWarned, Subject, Warned, Warning};
