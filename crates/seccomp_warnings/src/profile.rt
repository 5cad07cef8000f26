//! The warnings of a profile: what is doubtful about it, what libseccomp does to its entries, its evasions, and the warnings of its parts.

pub mod abi;
mod added;
mod clash;
pub mod doubts;
mod lost;
mod miscompiled;
pub mod parts;
mod rejected;
mod told;
mod tries;
pub mod warnings;

pub use abi::AbiEvasion;
pub use added::LACKED;
pub use clash::{Clash, Effect};
pub use doubts::Doubt;
pub use parts::{Origin, parts_of};
pub use warnings::{ProfileWarning, code_of, profile_warnings_of};
