// One comparison of an argument of a system call.

use crate::backend::{BackendError, SeccompCmpArgLen, SeccompCmpOp};
use crate::bpf::{
    ARG_NUMBER_MAX, CONDITION_MAX_LEN, JUMP_AT_LEAST, JUMP_EQUAL, JUMP_GREATER, LOAD, MASK, RETURN,
    SECCOMP_DATA_ARG_SIZE, SECCOMP_DATA_ARGS_OFFSET, bpf_jump, bpf_stmt, sock_filter,
};
use crate::equality::EqualByParts;
use crate::record::argument_at;
use std::alloc::Global;
use std::marker::Model;

// The greatest offset of its failure exit at which any condition's jumps fit 8 bits: the longest of
// them passes over the offset and what is left of the condition behind the jump.
pub(crate) const GREATEST_OFFSET: u8 = u8::MAX - CONDITION_MAX_LEN - 1;

/// A condition that an argument of a system call must meet for a rule to hold.
#[derive(Clone, Copy, Debug, PartialEq, Eq)]
pub struct SeccompCondition {
    arg_index: u8,
    arg_len: SeccompCmpArgLen,
    operator: SeccompCmpOp,
    value: u64,
}

impl Model for SeccompCondition {
    ghost use Rattle.std.specs.Prelude.{◌≤◌, ◌<◌, ◌^◌};
    ghost use Rattle.seccompiler.specs.Policy.{Condition};

    ghost Value = { Condition };

    ghost view = { λ c. record { arg_index = c.arg_index; arg_len = c.arg_len; operator = c.operator; value = c.value } };

    ghost invariant = { λ c. (c.arg_index ≤ 5) × (c.value < 2 ^ 64) };

    ghost inverse = { λ c. record { arg_index = c.arg_index; arg_len = c.arg_len; operator = c.operator; value = c.value } };
}

impl EqualByParts for SeccompCondition {
    ghost use Rattle.std.specs.Prelude.{◌≡◌};
    ghost use Rattle.std.specs.Cmp.{unsigned_Decides};
    ghost use Rattle.std.proofs.Common.{ap};
    ghost use Rattle.std.proofs.lemmas.Bool.Decides.{Decides-and};
    ghost use Rattle.seccompiler.specs.contracts.backend.SeccompCmpArgLenEqualByParts.TheImpl.Laws as arg_len_law;
    ghost use Rattle.seccompiler.specs.contracts.backend.SeccompCmpOpEqualByParts.TheImpl.Laws as operator_law;

    ghost has_same_parts = { λ x y. x ≡ y };

    ghost decides = { λ x y. let parts = Decides-and _ _ (unsigned_Decides x.arg_index y.arg_index) (Decides-and _ _ (arg_len_law.decides-law x.arg_len y.arg_len) (Decides-and _ _ (operator_law.decides-law x.operator y.operator) (unsigned_Decides x.value y.value))) in (λ same. let e = parts.0 same in λ i. record { arg_index = e.0 i; arg_len = e.1.0 i; operator = e.1.1.0 i; value = e.1.1.1 i }, λ e. parts.1 (ap (λ c. c.arg_index) e, (ap (λ c. c.arg_len) e, (ap (λ c. c.operator) e, ap (λ c. c.value) e)))) };
}

impl SeccompCondition {
    ghost use Rattle.std.specs.Prelude.{◌≡◌, ℕ, List, ◌+◌, ◌*◌, ◌/◌, ◌%◌, ◌^◌, ◌≤◌, ◌<◌, ◌↔◌, length, IfOk, IfErr, IsOk, IsOkUnless, IsTrue};
    ghost use Rattle.seccompiler.specs.declared.backend.BackendError.TheVariants.{InvalidArgumentNumber, OutOfMemory};
    ghost use Rattle.seccompiler.specs.Layout.{greatest_offset};
    ghost use Rattle.seccompiler.specs.Policy.{Condition, Holds, size_of};
    ghost use Rattle.seccompiler.specs.ConditionCode.{condition_code};
    ghost use Rattle.seccompiler.specs.Reorder.{IsSameLowHalf};
    ghost use Rattle.seccompiler.specs.Machine.{argument_at};
    ghost use Rattle.seccompiler.specs.Pieces.{IsConditionCode};

    /// Makes a condition on argument `arg_index`, numbered from 0.
    ///
    /// # Errors
    ///
    /// `InvalidArgumentNumber` if `arg_index` is above 5: a system call has six arguments.
    ///
    /// # Examples
    ///
    /// ```
    /// // The low half of the second argument equals 2.
    /// let condition = SeccompCondition::new(1, SeccompCmpArgLen::Dword, SeccompCmpOp::Eq, 2)?;
    /// let mut call = [0; 64];
    /// call[24] = 2;
    /// assert!(rt; condition.holds(&call));
    /// ```
    pub fn new(
        arg_index: u8,
        arg_len: SeccompCmpArgLen,
        operator: SeccompCmpOp,
        value: u64,
    ) -> Result<Self, BackendError>
        ensures made { IfOk result (λ c. c ≡ record { arg_index = arg_index; arg_len = arg_len; operator = operator; value = value }) }
        ensures refused { IfErr result (λ e. e ≡ InvalidArgumentNumber) }
        ensures succeeds { IsOk result ↔ (arg_index ≤ 5) }
    {
        if arg_index > ARG_NUMBER_MAX {
            return Err(BackendError::InvalidArgumentNumber);
        }
        Ok(SeccompCondition {
            arg_index,
            arg_len,
            operator,
            value,
        })
    }

    /// Which argument is compared, from 0 to 5.
    pub fn arg_index(&self) -> u8
        ensures index { result ≡ self.now.arg_index }
        ensures within { result ≤ 5 }
    {
        self.arg_index
    }

    /// How much of the argument is compared: its low 32 bits, or all 64.
    pub fn arg_len(&self) -> SeccompCmpArgLen
        ensures { result ≡ self.now.arg_len }
    {
        self.arg_len
    }

    /// How the argument is compared with the value.
    pub fn operator(&self) -> SeccompCmpOp
        ensures { result ≡ self.now.operator }
    {
        self.operator
    }

    /// The value that the argument is compared with, as it was given: of 64 bits, whatever the length.
    pub fn value(&self) -> u64
        ensures { result ≡ self.now.value }
    {
        self.value
    }

    /// The offsets of the high and the low half of the argument in a call record, in bytes.
    pub fn get_data_offsets(&self) -> (u8, u8)
        ensures { result ≡ (20 + 8 * self.now.arg_index, 16 + 8 * self.now.arg_index) }
    {
        let low = SECCOMP_DATA_ARGS_OFFSET + SECCOMP_DATA_ARG_SIZE * self.arg_index;
        (low + SECCOMP_DATA_ARG_SIZE / 2, low)
    }

    /// The high and the low half of the value.
    pub fn split_value(&self) -> (u32, u32)
        ensures { result ≡ (self.now.value / 2 ^ 32, self.now.value % 2 ^ 32) }
    {
        ((self.value >> 32) as u32, low_half(self.value))
    }

    /// Whether the condition holds for the call of this record.
    ///
    /// With `Dword` it depends on the low 32 bits of the argument, the value and a mask alone.
    pub fn holds(&self, call: &[u8; 64]) -> bool
        ensures holds { IsTrue result ↔ Holds self.now call.now }
        ensures low_half { (c : Condition) (r : List ℕ) → IsSameLowHalf self.now c → argument_at call.now self.now.arg_index % 2 ^ 32 ≡ argument_at r self.now.arg_index % 2 ^ 32 → (IsTrue result ↔ Holds c r) }
    {
        let argument = part_of(self.arg_len, argument_at(call, self.arg_index));
        compares(
            self.operator,
            self.arg_len,
            argument,
            part_of(self.arg_len, self.value),
        )
    }

    /// The code of the condition: run from its first instruction it leaves at its end if the
    /// condition holds, and `offset` instructions further if it does not.
    ///
    /// The offset is from 1 to 248, so that each jump over it and the rest of the condition fits 8 bits.
    ///
    /// # Errors
    ///
    /// `OutOfMemory` if memory runs out.
    pub fn to_bpf(&self, alloc: Global, offset: u8) -> Result<Vec<sock_filter>, BackendError>
        requires some { 1 ≤ offset }
        requires few { offset ≤ greatest_offset }
        ensures code { IfOk result (λ code. code.items ≡ condition_code self.now offset) }
        ensures meets { IfOk result (λ code. IsConditionCode self.now offset code.items) }
        ensures memory { IsOkUnless result OutOfMemory }
    {
        let Ok(mut code) = vec![in alloc; bpf_stmt(RETURN, 0); self.code_len()] else {
            return Err(BackendError::OutOfMemory);
        };
        self.write(&mut code, offset);
        Ok(code)
    }

    /// How many instructions the condition takes, from 2 to
    /// [`CONDITION_MAX_LEN`](crate::bpf::CONDITION_MAX_LEN).
    pub fn code_len(&self) -> usize
        ensures { result ≡ size_of self.now }
    {
        match (self.arg_len, self.operator) {
            (SeccompCmpArgLen::Dword, SeccompCmpOp::MaskedEq(_)) => 3,
            (SeccompCmpArgLen::Dword, _) => 2,
            (SeccompCmpArgLen::Qword, SeccompCmpOp::MaskedEq(_)) => 6,
            (SeccompCmpArgLen::Qword, SeccompCmpOp::Eq | SeccompCmpOp::Ne) => 4,
            (SeccompCmpArgLen::Qword, _) => 5,
        }
    }

    /// Fills the part with the condition's code: the code that [`to_bpf`](Self::to_bpf) gives.
    ///
    /// The part is a caller's own, of [`code_len`](Self::code_len) instructions, and the offset is
    /// from 1 to 248; whatever stood in the part is written over, and nothing outside it. Takes no
    /// memory.
    pub fn write(&self, part: &mut [sock_filter], offset: u8)
        requires room { length part.old ≡ size_of self.now }
        requires some { 1 ≤ offset }
        requires few { offset ≤ greatest_offset }
        ensures code { part.new ≡ condition_code self.now offset }
        ensures meets { IsConditionCode self.now offset part.new }
    {
        let low = u32::from(self.get_data_offsets().1);
        match self.arg_len {
            SeccompCmpArgLen::Dword => write_dword(part, self.operator, low, self.value, offset),
            SeccompCmpArgLen::Qword => write_qword(part, self.operator, low, self.value, offset),
        }
    }
}

ghost use Rattle.std.specs.Prelude.{◌≡◌, ◌≤◌, ◌%◌, ◌^◌, ◌↔◌, length, IsTrue};
ghost use Rattle.seccompiler.specs.declared.backend.SeccompCmpArgLen.TheVariants.{Dword, Qword};
ghost use Rattle.seccompiler.specs.Layout.{greatest_offset};
ghost use Rattle.seccompiler.specs.Machine.{IsInRange, AreInRange};
ghost use Rattle.seccompiler.specs.ConditionCode.{comparison_code, test_code};
ghost use Rattle.seccompiler.specs.Policy.{part_of, operator_part, Compares, size_by};

// The code that compares the low half, which lies at byte `low` of a record.
fn write_dword(part: &mut [sock_filter], operator: SeccompCmpOp, low: u32, value: u64, offset: u8)
    requires room { length part.old ≡ size_by Dword operator }
    ensures code { part.new ≡ comparison_code Dword operator low value offset }
    ensures ranges { AreInRange part.new }
{
    let test = low_test(operator, value, offset);
    let load = bpf_stmt(LOAD, low);
    match operator {
        SeccompCmpOp::MaskedEq(mask) => {
            part.copy_from_slice(&[load, bpf_stmt(MASK, low_half(mask)), test]);
        }
        _ => part.copy_from_slice(&[load, test]),
    }
}

// The code that compares the high half, and then the low half where that is still needed.
fn write_qword(part: &mut [sock_filter], operator: SeccompCmpOp, low: u32, value: u64, offset: u8)
    requires room { length part.old ≡ size_by Qword operator }
    requires within { low ≤ 56 }
    requires few { offset ≤ greatest_offset }
    ensures code { part.new ≡ comparison_code Qword operator low value offset }
    ensures ranges { AreInRange part.new }
{
    let test = low_test(operator, value, offset);
    let high = bpf_stmt(LOAD, low + 4);
    let low = bpf_stmt(LOAD, low);
    let high_value = (value >> 32) as u32;
    let equal_or_fail = bpf_jump(JUMP_EQUAL, high_value, 0, offset + 2);
    let equal_or_done = bpf_jump(JUMP_EQUAL, high_value, 0, 2);
    let greater_or_on = bpf_jump(JUMP_GREATER, high_value, 3, 0);
    let greater_fails = bpf_jump(JUMP_GREATER, high_value, offset + 3, 0);
    match operator {
        SeccompCmpOp::Eq => part.copy_from_slice(&[high, equal_or_fail, low, test]),
        SeccompCmpOp::Ne => part.copy_from_slice(&[high, equal_or_done, low, test]),
        SeccompCmpOp::Ge | SeccompCmpOp::Gt => {
            part.copy_from_slice(&[high, greater_or_on, equal_or_fail, low, test]);
        }
        SeccompCmpOp::Le | SeccompCmpOp::Lt => {
            part.copy_from_slice(&[high, greater_fails, equal_or_done, low, test]);
        }
        SeccompCmpOp::MaskedEq(mask) => {
            let high_mask = (mask >> 32) as u32;
            let high_test = bpf_jump(JUMP_EQUAL, high_value & high_mask, 0, offset + 3);
            let (high_and, and) = (bpf_stmt(MASK, high_mask), bpf_stmt(MASK, low_half(mask)));
            part.copy_from_slice(&[high, high_and, high_test, low, and, test]);
        }
    }
}

// The test of the low half, or of what a mask keeps of it.
fn low_test(operator: SeccompCmpOp, value: u64, offset: u8) -> sock_filter
    ensures test { result ≡ test_code operator (value % 2 ^ 32) offset }
    ensures range { IsInRange result }
{
    let value = low_half(value);
    match operator {
        SeccompCmpOp::Eq => bpf_jump(JUMP_EQUAL, value, 0, offset),
        SeccompCmpOp::Ne => bpf_jump(JUMP_EQUAL, value, offset, 0),
        SeccompCmpOp::Ge => bpf_jump(JUMP_AT_LEAST, value, 0, offset),
        SeccompCmpOp::Gt => bpf_jump(JUMP_GREATER, value, 0, offset),
        SeccompCmpOp::Le => bpf_jump(JUMP_GREATER, value, offset, 0),
        SeccompCmpOp::Lt => bpf_jump(JUMP_AT_LEAST, value, offset, 0),
        SeccompCmpOp::MaskedEq(mask) => bpf_jump(JUMP_EQUAL, value & low_half(mask), 0, offset),
    }
}

// What is compared of a number.
fn part_of(length: SeccompCmpArgLen, number: u64) -> u64
    ensures { result ≡ part_of length number }
{
    match length {
        SeccompCmpArgLen::Dword => number & 0xffff_ffff,
        SeccompCmpArgLen::Qword => number,
    }
}

// Whether the argument compares with the value as the operator says.
fn compares(operator: SeccompCmpOp, length: SeccompCmpArgLen, argument: u64, value: u64) -> bool
    ensures { IsTrue result ↔ Compares (operator_part length operator) argument value }
{
    match operator {
        SeccompCmpOp::Eq => argument == value,
        SeccompCmpOp::Ne => argument != value,
        SeccompCmpOp::Ge => argument >= value,
        SeccompCmpOp::Gt => argument > value,
        SeccompCmpOp::Le => argument <= value,
        SeccompCmpOp::Lt => argument < value,
        SeccompCmpOp::MaskedEq(mask) => {
            let mask = part_of(length, mask);
            argument & mask == value & mask
        }
    }
}

// The low 32 bits.
fn low_half(value: u64) -> u32
    ensures { result ≡ value % 2 ^ 32 }
{
    (value & 0xffff_ffff) as u32
}
