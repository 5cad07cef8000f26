// The rules of one call number, and their code.

ghost use Rattle.std.specs.Prelude.{◌≡◌, ◌≤◌, ◌↔◌, pos, length, take, IsNone, IfSome};
ghost use Rattle.std.specs.BTreeMap.{keys};
ghost use Rattle.seccompiler.specs.Machine.{greatest_length};
ghost use Rattle.seccompiler.specs.Policy.{IsCallNumber};
ghost use Rattle.seccompiler.specs.Layout.{rules_length};
ghost use Rattle.seccompiler.specs.Compiled.{AreCallNumbers, IsLeastUnfit};
ghost use Rattle.seccompiler.specs.ChainCode.{IsRulesCode};

use crate::bpf::{RETURN, bpf_stmt, sock_filter};
use crate::rule::SeccompRule;
use std::collections::BTreeMap;

// The first number behind those of 32 unsigned bits.
const FIRST_LARGE: i64 = 0x1_0000_0000;

/// The least number that does not fit 32 unsigned bits, if there is one.
pub(crate) fn unfit_number(rules: &BTreeMap<i64, Vec<SeccompRule>>) -> Option<i64>
    ensures unfit { IfSome result (IsLeastUnfit (keys rules.now)) }
    ensures fit { IsNone result ↔ AreCallNumbers (keys rules.now) }
{
    let Some((least, _)) = rules.first_key_value() else {
        return None;
    };
    if *least < 0 {
        return Some(*least);
    }
    let large = rules.range(FIRST_LARGE..).next();
    match large {
        Some((number, _)) => Some(*number),
        None => None,
    }
}

/// The call number as a record has it.
pub(crate) fn call_number(number: &i64) -> u32
    requires { IsCallNumber number.now }
    ensures { number.now ≡ pos result }
{
    *number as u32
}

/// Fills the front of the part with the rules of a chain, each with its return, and gives their length.
pub(crate) fn write_rules(part: &mut [sock_filter], chain: &[SeccompRule], matched: u32) -> usize
    requires room { rules_length chain.now ≤ length part.old }
    requires short { length part.old ≤ greatest_length }
    ensures length { result ≡ rules_length chain.now }
    ensures code { IsRulesCode chain.now matched (take result part.new) }
{
    let mut start = 0;
    for rule in chain {
        let end = start + rule.code_len();
        rule.write(&mut part[start..end]);
        part[end] = bpf_stmt(RETURN, matched);
        start = end + 1;
    }
    start
}
