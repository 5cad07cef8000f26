// A JSON text of filters, as types. docs/JSON.md has the format of the text.

use crate::backend::{SeccompAction, SeccompCmpArgLen, SeccompCmpOp};
use crate::equality::EqualByParts;
use std::collections::BTreeMap;
use std::marker::Model;

/// One condition on an argument of a system call.
///
/// Nothing is yet known of the index: `SeccompCondition` is the condition whose index is one of an
/// argument. Two conditions are equal if their four parts are.
#[derive(Clone, Copy, Debug, PartialEq)]
pub struct JsonCondition {
    /// The argument's index, from 0: `index` in the text.
    pub arg_index: u8,
    /// How much of the argument is compared: `type` in the text.
    pub arg_len: SeccompCmpArgLen,
    /// How the argument is compared: `op` in the text.
    pub operator: SeccompCmpOp,
    /// What the argument is compared with: `val` in the text.
    pub value: u64,
}

impl EqualByParts for JsonCondition {
    ghost use Rattle.std.specs.Prelude.{◌≡◌};
    ghost use Rattle.std.specs.Cmp.{unsigned_Decides};
    ghost use Rattle.std.proofs.Common.{ap};
    ghost use Rattle.std.proofs.lemmas.Bool.Decides.{Decides-and};
    ghost use Rattle.seccompiler.specs.contracts.backend.SeccompCmpArgLenEqualByParts.TheImpl.Laws as arg_len_law;
    ghost use Rattle.seccompiler.specs.contracts.backend.SeccompCmpOpEqualByParts.TheImpl.Laws as operator_law;

    ghost has_same_parts = { λ x y. x ≡ y };

    ghost decides = { λ x y. let parts = Decides-and _ _ (unsigned_Decides x.arg_index y.arg_index) (Decides-and _ _ (arg_len_law.decides-law x.arg_len y.arg_len) (Decides-and _ _ (operator_law.decides-law x.operator y.operator) (unsigned_Decides x.value y.value))) in (λ same. let e = parts.0 same in λ i. record { arg_index = e.0 i; arg_len = e.1.0 i; operator = e.1.1.0 i; value = e.1.1.1 i }, λ e. parts.1 (ap (λ c. c.arg_index) e, (ap (λ c. c.arg_len) e, (ap (λ c. c.operator) e, ap (λ c. c.value) e)))) };
}

/// One entry of a filter: a system call, and conditions on its arguments.
///
/// Two entries are equal if their parts are. No conditions at all (`None`) differ from an empty list
/// of them, which is rejected later on. A contract sees the name as its bytes and the conditions as
/// a list.
#[derive(Debug, Drop)]
pub struct JsonRule {
    /// The call's name: `syscall` in the text. It may be no call's.
    pub syscall: String,
    /// The conditions: `args` in the text, `None` if the text has none, or null.
    pub conditions: Option<Vec<JsonCondition>>,
}

impl Model for JsonRule {
    ghost use Rattle.std.specs.Prelude.{option_map, string_bytes};
    ghost use Rattle.seccompiler.specs.JsonTypes.{JsonRule};

    ghost Value = { JsonRule };

    ghost view = { λ entry. record { syscall = string_bytes entry.syscall; conditions = option_map (λ all. all.items) entry.conditions } };
}

impl PartialEq for JsonRule {
    ghost use Rattle.std.specs.Cmp.{decided, partial_equiv_from_equiv};
    ghost use Rattle.seccompiler.specs.Equality.{rule_eq, rule_decides};

    ghost eq = { rule_eq };

    ghost laws = { partial_equiv_from_equiv (decided rule_eq rule_decides) };

    fn eq(&self, other: &JsonRule) -> bool {
        self.syscall == other.syscall && self.conditions == other.conditions
    }
}

impl EqualByParts for JsonRule {
    ghost use Rattle.std.specs.Prelude.{◌≡◌};
    ghost use Rattle.seccompiler.specs.Equality.{rule_decides};

    ghost has_same_parts = { λ x y. x ≡ y };

    ghost decides = { rule_decides };
}

/// One filter: what it answers, and which calls match it.
///
/// Two filters are equal if their actions are, and their entries one by one. A contract sees the
/// entries as a list.
#[derive(Debug, Drop)]
pub struct JsonFilter {
    /// What the filter answers if no entry matches: `mismatch_action` or `default_action`.
    pub mismatch_action: SeccompAction,
    /// What the filter answers if an entry matches: `match_action` or `filter_action`.
    pub match_action: SeccompAction,
    /// The entries, in the text's order: `filter` in the text.
    pub rules: Vec<JsonRule>,
}

impl Model for JsonFilter {
    ghost use Rattle.seccompiler.specs.JsonTypes.{JsonFilter};

    ghost Value = { JsonFilter };

    ghost view = { λ f. record { mismatch_action = f.mismatch_action; match_action = f.match_action; rules = f.rules.items } };
}

impl PartialEq for JsonFilter {
    ghost use Rattle.std.specs.Cmp.{decided, partial_equiv_from_equiv};
    ghost use Rattle.seccompiler.specs.Equality.{filter_eq, filter_decides};

    ghost eq = { filter_eq };

    ghost laws = { partial_equiv_from_equiv (decided filter_eq filter_decides) };

    fn eq(&self, other: &JsonFilter) -> bool {
        self.mismatch_action == other.mismatch_action
            && self.match_action == other.match_action
            && self.rules == other.rules
    }
}

impl EqualByParts for JsonFilter {
    ghost use Rattle.std.specs.Prelude.{◌≡◌};
    ghost use Rattle.seccompiler.specs.Equality.{filter_decides};

    ghost has_same_parts = { λ x y. x ≡ y };

    ghost decides = { filter_decides };
}

/// The filters of a text under their names, in byte order of the names.
///
/// Two maps are equal if they have the same names, each with an equal filter.
#[derive(Debug, Drop)]
pub struct JsonFilterMap(pub BTreeMap<String, JsonFilter>);

impl PartialEq for JsonFilterMap {
    ghost use Rattle.seccompiler.specs.Equality.{filter_map_eq, filter_map_eq_law};

    ghost eq = { filter_map_eq };

    ghost laws = { filter_map_eq_law };

    fn eq(&self, other: &JsonFilterMap) -> bool {
        self.0 == other.0
    }
}

impl EqualByParts for JsonFilterMap {
    ghost use Rattle.std.specs.List.{AllZip};
    ghost use Rattle.seccompiler.specs.Equality.{filter_map_decides, IsSameEntry};

    ghost has_same_parts = { λ m n. AllZip IsSameEntry m.0.entries n.0.entries };

    ghost decides = { filter_map_decides };
}
