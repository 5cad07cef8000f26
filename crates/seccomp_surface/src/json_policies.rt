// JSON filters and conditions as values: what a text says that no program shows, and the condition that a JSON
// condition becomes.

use seccompiler::backend::SeccompAction::{Errno, Trace};
use seccompiler::backend::SeccompCmpArgLen::{Dword, Qword};
use seccompiler::backend::SeccompCmpOp::{Eq, Le, MaskedEq};
use seccompiler::backend::{BackendError, SeccompCmpArgLen, SeccompCmpOp};
use seccompiler::condition::SeccompCondition;
use seccompiler::json::{JsonCondition, JsonFilter, JsonFrontendError, read_filters};
use serde_json::Value;
use std::test::Fail;

// The JSON condition of these parts.
fn json_condition(
    arg_index: u8,
    arg_len: SeccompCmpArgLen,
    operator: SeccompCmpOp,
    value: u64,
) -> JsonCondition {
    JsonCondition {
        arg_index,
        arg_len,
        operator,
        value,
    }
}

// Numbers of actions above 16 bits, and indices above 5.
const TEXT: &str =
    r#"{"a":{"mismatch_action":{"errno":4294967295},"match_action":{"trace":4294967295},"filter":[{"syscall":"read","args":[
        {"index":255,"type":"dword","op":"eq","val":18446744073709551615,"comment":null},
        {"comment":"c","val":0,"op":"eq","type":"qword","index":6}]}]}}"#;

// Whether the filter has the text's two actions, and its one entry the text's two conditions.
fn has_all(filter: &JsonFilter) -> bool {
    if filter.mismatch_action != Errno(4294967295) || filter.match_action != Trace(4294967295) {
        return false;
    }
    match filter.rules.first() {
        Some(entry) => match &entry.conditions {
            Some(conditions) => {
                conditions.as_slice()
                    == [
                        json_condition(255, Dword, Eq, 18446744073709551615),
                        json_condition(6, Qword, Eq, 0),
                    ]
                    .as_slice()
            }
            None => false,
        },
        None => false,
    }
}

#[test]
fn a_json_filter_keeps_what_no_program_shows(rt: HostRuntime) -> Result<(), Fail> {
    let value = Value::from_str(rt.alloc(), TEXT)?;
    let filters = read_filters(rt.alloc(), &value)?;
    let has_all = match filters.0.get("a") {
        Some(filter) => has_all(filter),
        None => false,
    };
    assert!(rt; has_all);
    Ok(())
}

#[test]
fn a_json_condition_is_a_condition_of_its_four_parts(rt: HostRuntime) -> Result<(), Fail> {
    let made = SeccompCondition::try_from(json_condition(5, Qword, MaskedEq(100), 65))?;
    assert_eq!(rt;
        made,
        SeccompCondition::new(5, Qword, MaskedEq(100), 65)?,
        "index 5"
    );
    let refused = SeccompCondition::try_from(json_condition(6, Dword, Le, 65));
    assert!(rt;
        matches!(
            refused,
            Err(JsonFrontendError::Backend(BackendError::InvalidArgumentNumber))
        ),
        "index 6 is {refused:?}"
    );
    Ok(())
}
