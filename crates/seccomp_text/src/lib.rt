//! What texts from outside look like when they are printed, and how names, numbers, programs and ways into JSON values are
//! written; and the arguments of a program.
#![tactic(auto)]

pub mod arguments;
pub mod hexadecimal;
pub mod listing;
pub mod names;
pub mod numbers;
pub mod readable;
pub mod steps;
