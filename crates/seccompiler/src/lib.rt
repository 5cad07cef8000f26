//! Seccomp filters, compiled to classic BPF programs: every function proved.
//!
//! - A *policy* says which system calls a process may make. As JSON text it has *filters* by name.
//! - A *filter* ([`SeccompFilter`]) is the policy of one thread: a chain for each of some call
//!   numbers, an action for calls that match and one for all others, and an architecture.
//! - A *chain* holds the rules of a call number. It matches if one of its rules holds, or if it
//!   has none.
//! - A *rule* ([`SeccompRule`]) is one condition or more. It holds if all of them hold.
//! - A *condition* ([`SeccompCondition`]) compares one argument of a call, its low half or all of it,
//!   with a value.
//! - An *action* ([`SeccompAction`]) is what a kernel does with a call: allow it, log it, deny it with an
//!   errno, or end the process. A program returns it as a number of 32 bits.
//! - A *program* ([`BpfProgram`]) is classic BPF, a list of instructions that a kernel runs on each
//!   call. Its jumps lead forward alone, so a run takes no more steps than it has instructions.
//! - A *record* is the call as a program sees it: a `struct seccomp_data` of 64 bytes, little-endian,
//!   with the call number, the `AUDIT_ARCH_*` value, the instruction pointer and six arguments.
//!
//! ```
//! use seccompiler::machine::{Outcome, run};
//! use seccompiler::{BackendError, SeccompAction, SeccompFilter, TargetArch};
//! use std::alloc::Global;
//! use std::collections::BTreeMap;
//!
//! /// What the program of a policy that allows `getpid` alone returns for a call, and in how many steps.
//! fn answer(alloc: Global, call: &[u8; 64]) -> Result<Outcome, BackendError> {
//!     let mut chains = BTreeMap::new(alloc);
//!     // A chain without rules matches whatever the arguments.
//!     drop(chains.insert(39, Vec::new(alloc))?);
//!     let filter = SeccompFilter::new(
//!         chains,
//!         SeccompAction::Trap,
//!         SeccompAction::Allow,
//!         TargetArch::x86_64,
//!     )?;
//!     let program = filter.to_bpf(alloc)?;
//!     Ok(run(&program, call))
//! }
//! ```
//!
//! [`SeccompFilter::to_bpf`] carries the theorem on programs, and [`SeccompFilter::decide`] says what a
//! policy means. [`compile_from_json`] reads policies as text, [`JsonCompiler`] in more steps. [`machine`]
//! checks and runs programs, [`apply_filter`] installs them in a [`Kernel`], and [`SyscallTable`] knows the
//! names of calls. The folder `docs/` has the definitions in English, the JSON format and advice for jailers.
#![tactic(auto)]

pub mod backend;
pub mod bpf;
pub(crate) mod chain;
pub mod compile;
pub mod condition;
pub mod equality;
pub mod error;
pub mod filter;
pub mod install;
pub mod json;
mod linear;
pub mod machine;
pub mod record;
pub mod rule;
pub mod syscall_table;

pub use backend::{BackendError, SeccompAction, SeccompCmpArgLen, SeccompCmpOp, TargetArch};
pub use bpf::{BpfProgram, BpfProgramRef, sock_filter};
pub use compile::{BpfMap, compile_from_json, programs_of};
pub use condition::SeccompCondition;
pub use equality::EqualByParts;
pub use error::{Error, Result};
pub use filter::SeccompFilter;
pub use install::{Kernel, apply_filter, apply_filter_all_threads};
pub use json::{
    JsonCompiler, JsonCondition, JsonFilter, JsonFilterMap, JsonFrontendError, JsonRule,
};
pub use machine::Outcome;
pub use rule::SeccompRule;
pub use syscall_table::{Lookup, SyscallTable};
