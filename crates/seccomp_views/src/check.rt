// What `check` prints: errors and warnings, each with its place.

pub mod fault;
pub mod format;
pub mod policy;
pub mod profile;
