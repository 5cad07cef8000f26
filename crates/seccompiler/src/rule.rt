// Conditions that must all hold.

use crate::backend::BackendError;
use crate::bpf::{BpfProgram, JUMP, RETURN, bpf_stmt, sock_filter};
use crate::condition::{GREATEST_OFFSET, SeccompCondition};
use crate::equality::EqualByParts;
use std::alloc::{AllocError, Global};
use std::marker::Model;

// The two jumps in front of a rule.
const ENTRY_LEN: usize = 2;

// The three jumps of a relay.
const RELAY_LEN: usize = 3;

/// A rule: one condition or more, which must all hold for the rule to hold.
#[derive(Debug, Drop)]
pub struct SeccompRule {
    conditions: Vec<SeccompCondition>,
}

impl Model for SeccompRule {
    ghost use Rattle.std.specs.Prelude.{◌≤◌, length};
    ghost use Rattle.seccompiler.specs.Policy.{Rule};

    ghost Value = { Rule };

    ghost view = { λ q. q.conditions.items };

    ghost invariant = { λ q. 1 ≤ length q.conditions.items };
}

impl SeccompRule {
    ghost use Rattle.std.specs.Prelude.{◌≡◌, ◌*◌, ◌≤◌, ◌↔◌, length, min, IfOk, IfErr, IsOk, IsOkUnless, IsTrue};
    ghost use Rattle.seccompiler.specs.declared.backend.BackendError.TheVariants.{EmptyRule, OutOfMemory};
    ghost use Rattle.seccompiler.specs.Policy.{RuleHolds};
    ghost use Rattle.seccompiler.specs.Layout.{greatest_offset, total_size, groups_of, relays, IsOnlyCut, rule_length};
    ghost use Rattle.seccompiler.specs.Pieces.{IsRuleCode};

    /// Makes a rule of the conditions, joined by and.
    ///
    /// # Errors
    ///
    /// `EmptyRule` if there is no condition.
    ///
    /// # Examples
    ///
    /// ```
    /// // The first argument is from 16 to 31.
    /// let least = SeccompCondition::new(0, SeccompCmpArgLen::Qword, SeccompCmpOp::Ge, 16)?;
    /// let most = SeccompCondition::new(0, SeccompCmpArgLen::Qword, SeccompCmpOp::Le, 31)?;
    /// let rule = SeccompRule::new(vec![in alloc; least, most]?)?;
    /// let mut call = [0; 64];
    /// call[16] = 32;
    /// assert!(rt; !rule.holds(&call));
    /// ```
    pub fn new(conditions: Vec<SeccompCondition>) -> Result<Self, BackendError>
        ensures made { IfOk result (λ rule. rule ≡ conditions.items) }
        ensures refused { IfErr result (λ e. e ≡ EmptyRule) }
        ensures succeeds { IsOk result ↔ (1 ≤ length conditions.items) }
    {
        if conditions.is_empty() {
            return Err(BackendError::EmptyRule);
        }
        Ok(SeccompRule { conditions })
    }

    /// An equal rule.
    ///
    /// # Errors
    ///
    /// `OutOfMemory` if memory runs out.
    pub fn clone(&self, alloc: Global) -> Result<Self, BackendError>
        ensures same { IfOk result (λ rule. rule ≡ self.now) }
        ensures memory { IsOkUnless result OutOfMemory }
    {
        match self.conditions.as_slice().to_vec(alloc) {
            Ok(conditions) => Ok(SeccompRule { conditions }),
            Err(_) => Err(BackendError::OutOfMemory),
        }
    }

    /// The conditions, in the order in which they were given.
    pub fn conditions(&self) -> &[SeccompCondition]
        ensures { result.now ≡ self.now }
    {
        self.conditions.as_slice()
    }

    /// Whether all conditions of the rule hold for the call of this record.
    pub fn holds(&self, call: &[u8; 64]) -> bool
        ensures { IsTrue result ↔ RuleHolds self.now call.now }
    {
        for condition in &self.conditions {
            if !condition.holds(call) {
                return false;
            }
        }
        true
    }

    /// The rule's code, without the return after it.
    ///
    /// Run from its first instruction it leaves at its end if the rule holds, and one
    /// instruction further if it does not. Run from its second instruction, as for another
    /// call number, it leaves two instructions after its end.
    ///
    /// # Errors
    ///
    /// `OutOfMemory` if memory runs out.
    pub fn to_bpf(&self, alloc: Global) -> Result<BpfProgram, BackendError>
        ensures code { IfOk result (λ code. IsRuleCode self.now code.items) }
        ensures groups { IsOnlyCut self.now (groups_of self.now) }
        ensures few_relays { greatest_offset * relays self.now ≤ total_size self.now }
        ensures memory { IsOkUnless result OutOfMemory }
    {
        let length = self.code_len();
        if length == usize::MAX {
            return Err(BackendError::OutOfMemory);
        }
        let Ok(mut code) = vec![in alloc; bpf_stmt(RETURN, 0); length] else {
            return Err(BackendError::OutOfMemory);
        };
        self.write(&mut code);
        Ok(code)
    }

    /// How many instructions the rule's code takes, or `usize::MAX` if that is less.
    ///
    /// They are the two jumps in front, those of the conditions, and three for each relay: the
    /// conditions, in order, fall into groups that close as soon as they take 248 instructions or
    /// more, and there is a relay between each two. Takes no memory.
    pub fn code_len(&self) -> usize
        ensures length { result ≡ min (rule_length self.now) usize.MAX }
        ensures groups { IsOnlyCut self.now (groups_of self.now) }
        ensures few_relays { greatest_offset * relays self.now ≤ total_size self.now }
    {
        let mut length = ENTRY_LEN;
        let mut offset: u8 = 1;
        for condition in &self.conditions {
            if offset > GREATEST_OFFSET {
                length = length.saturating_add(RELAY_LEN);
                offset = 1;
            }
            let size = condition.code_len();
            length = length.saturating_add(size);
            offset += size as u8;
        }
        length
    }

    /// Fills the part with the rule's code, without the return after it: the code that
    /// [`to_bpf`](Self::to_bpf) gives.
    ///
    /// The part is a caller's own, of [`code_len`](Self::code_len) instructions; whatever stood in
    /// it is written over, and nothing outside it. Takes no memory.
    ///
    /// ```
    /// // The rule and a return after it, in a buffer of the caller's.
    /// let mut buffer = [bpf_stmt(BPF_RET | BPF_K, 0); 16];
    /// let end = rule.code_len();
    /// if end < buffer.len() {
    ///     rule.write(&mut buffer[..end]);
    ///     buffer[end] = bpf_stmt(BPF_RET | BPF_K, word);
    /// }
    /// ```
    pub fn write(&self, part: &mut [sock_filter])
        requires room { length part.old ≡ rule_length self.now }
        ensures code { IsRuleCode self.now part.new }
    {
        let mut end = part.len();
        let mut offset: u8 = 1;
        for condition in &self.conditions {
            let (front, near) = relay_if_far(part, end, offset);
            let size = condition.code_len();
            condition.write(&mut part[front - size..front], near);
            end = front - size;
            offset = near + size as u8;
        }
        // On to the conditions, and past the rule.
        part[..end].copy_from_slice(&[bpf_stmt(JUMP, 1), bpf_stmt(JUMP, u32::from(offset) + 1)]);
    }
}

/// An equal rule, as [`SeccompRule::clone`] gives it.
impl Clone for SeccompRule {
    ghost use Rattle.std.specs.Prelude.{◌≡◌};

    ghost is_clone = { λ rule copy. copy ≡ rule };

    fn clone(&self) -> Result<SeccompRule, AllocError> {
        match self.conditions.clone() {
            Ok(copied) => Ok(SeccompRule { conditions: copied }),
            Err(refused) => Err(refused),
        }
    }
}

/// Rules are equal if their conditions are, in their order.
impl PartialEq for SeccompRule {
    ghost use Rattle.std.specs.Cmp.Lexicographic.{lists_per};
    ghost use Rattle.seccompiler.specs.Equality.{are_rules_equal};
    ghost use Rattle.seccompiler.specs.contracts.condition.SeccompConditionPartialEq.TheImpl.Laws as condition_laws;

    ghost eq = { are_rules_equal };

    ghost laws = { lists_per condition_laws.laws-law };

    fn eq(&self, other: &SeccompRule) -> bool {
        self.conditions.as_slice() == other.conditions.as_slice()
    }
}

impl Eq for SeccompRule {
    ghost use Rattle.std.specs.Cmp.Lexicographic.{lists_equiv};
    ghost use Rattle.seccompiler.specs.contracts.condition.SeccompConditionEq.TheImpl.Laws as condition_laws;

    ghost laws = { lists_equiv condition_laws.laws-law };
}

impl EqualByParts for SeccompRule {
    ghost use Rattle.std.specs.Prelude.{◌≡◌};
    ghost use Rattle.seccompiler.specs.Equality.{rules_decide};

    ghost has_same_parts = { λ x y. x ≡ y };

    ghost decides = { rules_decide };
}

ghost use Rattle.std.specs.Prelude.{◌≡◌, ◌≤◌, ◌+◌, ◌++◌, length, drop};
ghost use Rattle.seccompiler.specs.ChainCode.{relay_front, offset_behind};

// Puts a relay in front of what is written from `end` on, if the offset is too far for a further
// condition: on to the conditions after it, to the failure exit, and past the rule. Gives where the code
// begins then, and the offset there.
fn relay_if_far(part: &mut [sock_filter], end: usize, offset: u8) -> (usize, u8)
    requires within { end ≤ length part.old }
    requires room { length (relay_front offset) ≤ end }
    ensures code { drop result.0 part.new ≡ relay_front offset ++ drop end part.old }
    ensures front { result.0 + length (relay_front offset) ≡ end }
    ensures offset { result.1 ≡ offset_behind offset }
{
    if offset <= GREATEST_OFFSET {
        return (end, offset);
    }
    let start = end - RELAY_LEN;
    let far = bpf_stmt(JUMP, u32::from(offset) + 1);
    part[start..end].copy_from_slice(&[bpf_stmt(JUMP, 2), far, far]);
    (start, 1)
}
