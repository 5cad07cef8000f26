//! Decisions on system calls, with any number of return values, and their program as one tree of tests.
//!
//! ```
//! // Allow the calls 0 to 2 of x86_64, and the call 16 if its second argument is 0x5401; trap any other call.
//! let (allow, trap) = (0x7fff_0000, 0x0003_0000);
//! let mut calls = BTreeMap::new(alloc);
//! for number in 0..3 {
//!     let always = Decision { conditions: Vec::new(alloc), value: allow };
//!     drop(calls.insert(number, vec![in alloc; always]?)?);
//! }
//! let condition = SeccompCondition::new(1, SeccompCmpArgLen::Dword, SeccompCmpOp::Eq, 0x5401)?;
//! let decision = Decision { conditions: vec![in alloc; condition]?, value: allow };
//! drop(calls.insert(16, vec![in alloc; decision]?)?);
//! let defaults = vec![in alloc; DefaultValue { start: 0, value: trap }]?;
//! let decisions = Decisions::new(TargetArch::x86_64, defaults, calls).ok_or("the defaults don't ascend from 0")?;
//! let program = decisions.to_bpf(alloc)?;
//! ```
//!
//! A filter makes such decisions too ([`Decisions::of_filter`]). [`to_tree_bpf`] gives their program,
//! [`to_bpf_in`] the program in a given [`Layout`], and [`fitting_bpf`] the tree if it fits, else the linear
//! program.
#![tactic(auto)]

mod code;
mod decisions;
mod error;
mod layout;
mod parting;
mod program;
mod rules;
mod steps;
mod tree;

pub use decisions::{Decision, Decisions, DefaultValue};
pub use error::{FilterError, TreeError};
pub use layout::{Layout, fitting_bpf, to_bpf_in, to_tree_bpf};
