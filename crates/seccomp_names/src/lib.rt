//! The names that Linux has for errnos, for capabilities, and for the calls of 32-bit programs on x86_64.
#![tactic(auto)]

mod call_table;
mod capability_table;
mod errno_table;
mod i386;
mod ipc;
mod socketcall;
mod x32;

pub use call_table::CallTable;
pub use capability_table::{capabilities, capability};
pub use errno_table::{error_name, error_number};
