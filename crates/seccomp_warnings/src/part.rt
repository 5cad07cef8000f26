// The parts of policies and profiles of which warnings are told.

use crate::warning::Actions;
use seccomp_entries::Entry;
use seccompiler::TargetArch;
use std::marker::Model;

/// Entries that stand beside each other, with two actions: that of the calls that some entry matches, and that of the rest.
#[derive(Drop)]
pub struct Part {
    /// The architecture.
    pub target_arch: TargetArch,
    /// The two actions.
    pub actions: Actions,
    /// The entries. Their own actions play no part.
    pub entries: Vec<Entry>,
}

impl Model for Part {
    ghost use Rattle.seccomp_warnings.specs.Parts.{Part};

    ghost Value = { Part };

    ghost view = { λ p. record { target_arch = p.target_arch; actions = p.actions; entries = p.entries.items } };
}
