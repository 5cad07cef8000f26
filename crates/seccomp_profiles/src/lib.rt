//! What seccomp profiles of OCI runtimes decide, as Docker, Podman, containerd and runc take them.
//!
//! A *profile* is the JSON of `linux.seccomp` in the OCI runtime specification; [`profile_of`] reads one, and `seccomp_faults` says why a text is none. [`applies`]
//! says whether an entry applies to a container. [`lowered_profile`] gives a profile's entries with calls by number, in the
//! order in which they are asked, and [`decisions_of_profile`] what it decides of each call, as decisions, whose program is
//! one tree. [`compile_profile`] goes from the text of a profile to its program.
//!
//! An entry *concerns* a call if it applies to the container, one of its names is that of the call, and its action isn't the
//! default one: a runtime skips entries with the default action. The first entry without conditions that concerns the call
//! decides it, whatever other entries there are. Without such an entry, those whose conditions are met decide. If they name
//! several actions, the profile leaves the answer open, and it is the strictest, of equally strict ones the first entry's. If
//! there are none, it is the default action; but on `x86_64` a number of x32 kills the thread, and
//! [runc](Runtime::Runc) answers numbers above all that the profile names with `ENOSYS`.
//!
//! The conditions of an entry are met if all of them are; but if two of them are on one argument, it is enough that one
//! condition is met, since runtimes take them for alternatives. A condition compares all 64 bits of its argument. If each has a mask
//! of 0, the entry counts as one without conditions.
#![tactic(auto)]

mod abis;
mod actions;
pub mod compiled;
mod concerns;
pub mod decisions;
mod defaults;
mod entries;
mod error;
mod listed;
mod lists;
mod lowered;
mod members;
mod parts;
mod profile;
pub mod readers;
mod scope;
mod taken;
pub mod types;
mod unknown;
mod version;

pub use compiled::{CompileError, CompiledProfile, compile_profile};
pub use concerns::{comparison, share_argument};
pub use decisions::decisions_of_profile;
pub use error::ProfileError;
pub use lowered::{lowered_on, lowered_profile};
pub use profile::{profile_in, profile_of};
pub use scope::{applies, has_text};
pub use taken::places_on;
pub use types::{
    Abi, Argument, Container, Criteria, Entry, Flag, Kernel, Operator, Profile, Runtime,
};
pub use unknown::unknown_names;
pub use version::kernel_of;
