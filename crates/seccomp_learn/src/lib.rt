//! Makes a policy that allows the calls that a program made.
//!
//! [`read_trace`] reads a program's calls from `strace`, the kernel's log or the audit system, [`learn`] makes a
//! policy of them, and [`written_policy`] writes it as JSON, or [`profile_text`] as a profile of a container
//! runtime.
//!
//! ```
//! use seccomp_learn::{learn, read_trace};
//! use seccompiler::{JsonFilter, JsonFrontendError, SeccompAction, SeccompFilter, TargetArch};
//! use std::alloc::Global;
//!
//! /// A filter that allows what a trace has, and kills the process at any other call.
//! fn learned(alloc: Global, trace: &[u8]) -> Result<SeccompFilter, JsonFrontendError> {
//!     let arch = TargetArch::x86_64;
//!     let trace = read_trace(alloc, arch, trace)?;
//!     let nothing = JsonFilter {
//!         mismatch_action: SeccompAction::KillProcess,
//!         match_action: SeccompAction::Allow,
//!         rules: Vec::new(alloc),
//!     };
//!     Ok(learn(alloc, arch, &trace.observed, &[], nothing)?.filter)
//! }
//! ```
#![tactic(auto)]

mod arguments;
mod audit;
mod conditions;
pub mod limits;
pub mod line;
mod modes;
pub mod names;
mod numbers;
pub mod observation;
mod pending;
pub mod policy;
pub mod profile;
mod records;
mod rules;
mod strace;
pub mod text;
pub mod trace;
pub mod usual;
pub mod written;

pub use crate::limits::within;
pub use crate::line::{Line, Told, line_of};
pub use crate::names::name_of;
pub use crate::observation::{Kept, Observation};
pub use crate::policy::{Learned, Lesson, learn, learn_within};
pub use crate::profile::profile_text;
pub use crate::text::policy_text;
pub use crate::trace::{StrangeLine, Symbolic, Trace, read_trace, told_number};
pub use crate::usual::{asked_kept, cloning_calls, runnable_calls, usual_kept};
pub use crate::written::{take_filter, written_policy};
