// Decisions on calls: what each call is answered with; and a filter as decisions.

ghost use Rattle.std.specs.Prelude.{◌≡◌, ℕ, ◌↔◌, IfOk, IfErr, OnOk};
ghost use Rattle.seccompiler.specs.Compiled.{AreCallNumbers, numbers_of};
ghost use Rattle.seccomp_tree.specs.Decisions.{First};
ghost use Rattle.seccomp_tree.specs.Decided.{AscendFromZero, calls_of, default_for, rulings_for};
ghost use Rattle.seccomp_tree.specs.FilterDecisions.{rulings_of};

use crate::error::FilterError;
use seccompiler::{BackendError, SeccompCondition, SeccompFilter, SeccompRule, TargetArch};
use std::alloc::{AllocError, Global};
use std::collections::BTreeMap;
use std::marker::Model;

// What a record of another architecture is answered with: SECCOMP_RET_KILL_PROCESS of linux/seccomp.h.
pub(crate) const KILL_PROCESS: u32 = 0x8000_0000;

/// Conditions, and the value that a program returns if they all hold. They always hold if there are none.
#[derive(Debug, Drop)]
pub struct Decision {
    /// The conditions, joined by and.
    pub conditions: Vec<SeccompCondition>,
    /// The return value, as a kernel reads it: an action and its data.
    pub value: u32,
}

impl Model for Decision {
    ghost use Rattle.std.specs.Prelude.{◌<◌, ◌^◌};
    ghost use Rattle.seccomp_tree.specs.Decisions.{Ruling};

    ghost Value = { Ruling };

    ghost view = { λ d. record { conditions = d.conditions.items; value = d.value } };

    ghost invariant = { λ d. d.value < 2 ^ 32 };
}

/// What calls are answered with that nothing else is said of, from a number on, up to the next one's.
#[derive(Clone, Copy, Debug)]
pub struct DefaultValue {
    /// The first call number.
    pub start: u32,
    /// The return value, as a kernel reads it: an action and its data.
    pub value: u32,
}

/// What each call is answered with: for each of some call numbers its decisions, of which the first that holds counts;
/// if none does, the default value of the number. A call of another architecture kills the process.
#[derive(Debug, Drop)]
pub struct Decisions {
    pub(crate) target_arch: TargetArch,
    pub(crate) defaults: Vec<DefaultValue>,
    pub(crate) calls: BTreeMap<u32, Vec<Decision>>,
}

impl Model for Decisions {
    ghost use Rattle.seccomp_tree.specs.Decided.{DecisionSet, AscendFromZero, calls_of};

    ghost Value = { DecisionSet };

    ghost view = { λ d. record { target_arch = d.target_arch; defaults = d.defaults.items; calls = calls_of d.calls.entries } };

    ghost invariant = { λ d. AscendFromZero d.defaults.items };
}

impl Decisions {
    ghost use Rattle.std.specs.Prelude.{IsSome, IfSome};
    ghost use Rattle.seccomp_tree.specs.Decided.{IsDecided};
    ghost use Rattle.seccomp_tree.specs.FilterDecisions.{DecideAs, IsUndecidable, decisions_of};

    /// Makes decisions: `defaults` begin at the number 0, each above the one before it.
    ///
    /// Gives none if they don't.
    pub fn new(
        target_arch: TargetArch,
        defaults: Vec<DefaultValue>,
        calls: BTreeMap<u32, Vec<Decision>>,
    ) -> Option<Self>
        ensures made { IfSome result (λ d. d ≡ record { target_arch = target_arch; defaults = defaults.items; calls = calls_of calls.entries }) }
        ensures some { IsSome result ↔ AscendFromZero defaults.items }
    {
        if defaults.is_empty() || defaults[0].start != 0 {
            return None;
        }
        let mut last = 0;
        for next in &defaults[1..] {
            if next.start <= last {
                return None;
            }
            last = next.start;
        }
        Some(Decisions {
            target_arch,
            defaults,
            calls,
        })
    }

    /// A filter as decisions: each rule of a chain, or a chain without rules, gives the return value of the
    /// match action; the default is that of the mismatch action.
    ///
    /// # Errors
    ///
    /// `InvalidSyscallNumber` with the least key that lies outside 0 to 4294967295, if there is one, which
    /// takes no memory; else `OutOfMemory` if memory runs out.
    pub fn of_filter(alloc: Global, filter: &SeccompFilter) -> Result<Decisions, FilterError>
        ensures made { IfOk result (λ d. d ≡ decisions_of filter.now) }
        ensures alike { IfOk result (λ d. DecideAs filter.now d) }
        ensures numbers { OnOk result (AreCallNumbers (numbers_of filter.now.chains)) }
        ensures refused { IfErr result (IsUndecidable filter.now) }
    {
        if let Err(BackendError::InvalidSyscallNumber(number)) = filter.compiled_len() {
            return Err(FilterError::InvalidSyscallNumber(number));
        }
        let match_value = filter.match_action().into();
        let mut calls = BTreeMap::new(alloc);
        for (number, chain) in filter.rules() {
            drop(calls.insert(*number as u32, rulings_of(alloc, chain, match_value)?)?);
        }
        let value = filter.mismatch_action().into();
        let defaults = vec![in alloc; DefaultValue { start: 0, value }]?;
        Ok(Decisions {
            target_arch: filter.target_arch(),
            defaults,
            calls,
        })
    }

    /// The return value that is decided for the call of this record (`struct seccomp_data` of `linux/seccomp.h`). No other value is.
    #[tactic(auto, using(crate::proofs::Decided::one_decided))]
    pub fn decide(&self, call: &[u8; 64]) -> u32
        ensures decision { IsDecided self.now call.now result }
        ensures only { (w : ℕ) → IsDecided self.now call.now w → w ≡ result }
    {
        let number = u32::from_le_bytes([call[0], call[1], call[2], call[3]]);
        let arch = u32::from_le_bytes([call[4], call[5], call[6], call[7]]);
        if arch != self.target_arch.get_audit_value() {
            return KILL_PROCESS;
        }
        first_value(self.rulings_for(number), self.default_for(number), call)
    }

    /// The value of the last default that starts at or below the number.
    pub(crate) fn default_for(&self, number: u32) -> u32
        ensures { result ≡ default_for self.now.defaults number }
    {
        let mut value = 0;
        for default in &self.defaults {
            if default.start <= number {
                value = default.value;
            }
        }
        value
    }

    /// The rulings of a number, or none.
    pub(crate) fn rulings_for(&self, number: u32) -> &[Decision]
        ensures { result.now ≡ rulings_for self.now.calls number }
    {
        self.calls.get(&number).map_or(&[], |all| all.as_slice())
    }
}

// The word of the first of the decisions that holds, or the default.
fn first_value(rulings: &[Decision], default: u32, call: &[u8; 64]) -> u32
    ensures { First default call.now rulings.now result }
{
    for ruling in rulings {
        let mut conditions = ruling.conditions.iter();
        if conditions.all(|condition| condition.holds(call)) {
            return ruling.value;
        }
    }
    default
}

// The rulings of a chain.
fn rulings_of(alloc: Global, chain: &[SeccompRule], value: u32) -> Result<Vec<Decision>, AllocError>
    ensures { IfOk result (λ rulings. rulings.items ≡ rulings_of value chain.now) }
{
    let mut rulings = Vec::new(alloc);
    for rule in chain {
        let conditions = rule.conditions().to_vec(alloc)?;
        rulings.push(Decision { conditions, value })?;
    }
    if chain.is_empty() {
        let conditions = Vec::new(alloc);
        rulings.push(Decision { conditions, value })?;
    }
    Ok(rulings)
}
