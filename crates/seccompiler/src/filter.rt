// A policy on system calls.

use crate::backend::{BackendError, SeccompAction, TargetArch};
use crate::bpf::{SECCOMP_DATA_ARCH_OFFSET, SECCOMP_DATA_NR_OFFSET};
use crate::equality::EqualByParts;
use crate::record::word_at;
use crate::rule::SeccompRule;
use std::alloc::Global;
use std::collections::BTreeMap;
use std::marker::Model;

/// A policy on system calls: a chain of rules for each of some call numbers, what to answer if
/// a chain matches and if none does, and the architecture that the numbers are of.
///
/// A chain matches a call of its number if it has no rule, or if one of its rules holds.
#[derive(Debug, Drop)]
pub struct SeccompFilter {
    pub(crate) rules: BTreeMap<i64, Vec<SeccompRule>>,
    pub(crate) mismatch_action: SeccompAction,
    pub(crate) match_action: SeccompAction,
    pub(crate) target_arch: TargetArch,
}

impl Model for SeccompFilter {
    ghost use Rattle.std.specs.Prelude.{◌≢◌};
    ghost use Rattle.seccompiler.specs.Policy.{Filter, chains_of};

    ghost Value = { Filter };

    ghost view = { λ f. record { chains = chains_of f.rules.entries; mismatch_action = f.mismatch_action; match_action = f.match_action; target_arch = f.target_arch } };

    ghost invariant = { λ f. f.mismatch_action ≢ f.match_action };
}

impl SeccompFilter {
    ghost use Rattle.std.specs.Prelude.{◌≡◌, ◌≢◌, ◌↔◌, ℕ, List, IfOk, IfErr, IsOk, IsTrue, IsOkUnless};
    ghost use Rattle.seccompiler.specs.declared.backend.BackendError.TheVariants.{IdenticalActions, OutOfMemory};
    ghost use Rattle.seccompiler.specs.Policy.{Filter, chains_of, Matches, IsDecision};
    ghost use Rattle.seccompiler.specs.Reorder.{IsReordered, IsSameCall};

    /// Makes a filter: `rules` has the chain of each call number, its rules joined by or.
    ///
    /// # Errors
    ///
    /// `IdenticalActions` if the two actions are equal, as values.
    ///
    /// # Examples
    ///
    /// ```
    /// // Allow `getpid`, with no rule that its arguments must meet, and trap any other call.
    /// let mut rules = BTreeMap::new(alloc);
    /// drop(rules.insert(39, Vec::new(alloc))?);
    /// let (trap, allow) = (SeccompAction::Trap, SeccompAction::Allow);
    /// let filter = SeccompFilter::new(rules, trap, allow, TargetArch::x86_64)?;
    /// assert!(rt; filter.program_len() == 10);
    /// ```
    pub fn new(
        rules: BTreeMap<i64, Vec<SeccompRule>>,
        mismatch_action: SeccompAction,
        match_action: SeccompAction,
        target_arch: TargetArch,
    ) -> Result<Self, BackendError>
        ensures made { IfOk result (λ f. f ≡ record { chains = chains_of rules.entries; mismatch_action = mismatch_action; match_action = match_action; target_arch = target_arch }) }
        ensures refused { IfErr result (λ e. e ≡ IdenticalActions) }
        ensures succeeds { IsOk result ↔ (mismatch_action ≢ match_action) }
    {
        if mismatch_action == match_action {
            return Err(BackendError::IdenticalActions);
        }
        Ok(SeccompFilter {
            rules,
            mismatch_action,
            match_action,
            target_arch,
        })
    }

    /// The chain of each call number: its rules, joined by or.
    pub fn rules(&self) -> &BTreeMap<i64, Vec<SeccompRule>>
        ensures { chains_of result.now.entries ≡ self.now.chains }
    {
        &self.rules
    }

    /// The action if no chain matches.
    pub fn mismatch_action(&self) -> SeccompAction
        ensures { result ≡ self.now.mismatch_action }
    {
        self.mismatch_action
    }

    /// The action if a chain matches.
    pub fn match_action(&self) -> SeccompAction
        ensures { result ≡ self.now.match_action }
    {
        self.match_action
    }

    /// The architecture that the call numbers are of.
    pub fn target_arch(&self) -> TargetArch
        ensures { result ≡ self.now.target_arch }
    {
        self.target_arch
    }

    /// An equal filter.
    ///
    /// # Errors
    ///
    /// `OutOfMemory` if memory runs out.
    pub fn clone(&self, alloc: Global) -> Result<Self, BackendError>
        ensures same { IfOk result (λ f. f ≡ self.now) }
        ensures memory { IsOkUnless result OutOfMemory }
    {
        // The map's own allocator is `Global` too.
        match self.rules.clone() {
            Ok(rules) => Ok(SeccompFilter {
                rules,
                mismatch_action: self.mismatch_action,
                match_action: self.match_action,
                target_arch: self.target_arch,
            }),
            Err(_) => Err(BackendError::OutOfMemory),
        }
    }

    /// The return value that the policy names for the call of this record: `SECCOMP_RET_KILL_PROCESS` if
    /// the record is of another architecture, else that of the match action if the policy matches, else
    /// that of the mismatch action.
    ///
    /// It depends on neither the order of rules in a chain nor that of conditions in a rule, nor on
    /// the record's instruction pointer. The policy names no other value for the call.
    ///
    /// ```
    /// // Call 39 of x86_64, with each argument 0.
    /// let mut call = [0; 64];
    /// call[..8].copy_from_slice(&[39, 0, 0, 0, 0x3e, 0, 0, 0xc0]);
    /// assert!(rt; filter.decide(&call) == u32::from(SeccompAction::Log));
    /// ```
    pub fn decide(&self, call: &[u8; 64]) -> u32
        ensures decision { IsDecision self.now call.now result }
        ensures only { (w : ℕ) → IsDecision self.now call.now w → w ≡ result }
        ensures order { (g : Filter) (s : List ℕ) → IsReordered self.now g → IsSameCall call.now s → IsDecision g s result }
    {
        let arch = word_at(call, SECCOMP_DATA_ARCH_OFFSET as usize);
        if arch != self.target_arch.get_audit_value() {
            return SeccompAction::KillProcess.into();
        }
        if self.matches(call) {
            self.match_action.into()
        } else {
            self.mismatch_action.into()
        }
    }

    // Whether there is a chain under the record's call number, and it matches.
    fn matches(&self, call: &[u8; 64]) -> bool
        ensures { IsTrue result ↔ Matches self.now call.now }
    {
        let number = word_at(call, SECCOMP_DATA_NR_OFFSET as usize);
        let Some(chain) = self.rules.get(&i64::from(number)) else {
            return false;
        };
        for rule in chain {
            if rule.holds(call) {
                return true;
            }
        }
        chain.is_empty()
    }
}

/// Filters are equal if their chains, their actions and their architectures are.
impl PartialEq for SeccompFilter {
    ghost use Rattle.std.specs.Cmp.{decided, partial_equiv_from_equiv};
    ghost use Rattle.seccompiler.specs.Equality.{are_filters_equal, filters_decide};

    ghost eq = { are_filters_equal };

    ghost laws = { partial_equiv_from_equiv (decided are_filters_equal filters_decide) };

    fn eq(&self, other: &SeccompFilter) -> bool {
        self.rules == other.rules
            && self.mismatch_action == other.mismatch_action
            && self.match_action == other.match_action
            && self.target_arch == other.target_arch
    }
}

impl Eq for SeccompFilter {
    ghost use Rattle.std.specs.Cmp.{decided};
    ghost use Rattle.seccompiler.specs.Equality.{are_filters_equal, filters_decide};

    ghost laws = { decided are_filters_equal filters_decide };
}

impl EqualByParts for SeccompFilter {
    ghost use Rattle.std.specs.Prelude.{◌≡◌};
    ghost use Rattle.seccompiler.specs.Equality.{filters_decide};

    ghost has_same_parts = { λ x y. x ≡ y };

    ghost decides = { filters_decide };
}
