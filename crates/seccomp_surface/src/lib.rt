// Tests of what needs the library's own language: the examples of its pages, the path and the traits of each
// public item, and JSON filters as values. The answers of calls are rows, in crates/seccomp_vectors and
// tools/rows.
#![tactic(auto)]

#[cfg(test)]
mod builders;
#[cfg(test)]
mod examples;
#[cfg(test)]
mod json_policies;
#[cfg(test)]
mod surface;
