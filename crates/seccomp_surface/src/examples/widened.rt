// The examples of the numbers on which a policy written for the Rust crate means something else.

use seccompiler::json::read_filters;
use seccompiler::{JsonCompiler, TargetArch};
use serde_json::Value;
use std::alloc::Global;

/// The numbers of the calls that have entries of both kinds in the policy's filter of this name.
fn both_kinds(alloc: Global, policy: &str, name: &str) -> anyhow::Result<Vec<i64>> {
    let value = Value::from_str(alloc, policy)?;
    let filters = read_filters(alloc, &value)?;
    match filters.0.get(name) {
        Some(filter) => Ok(JsonCompiler::new(TargetArch::x86_64).widened(alloc, filter)?),
        None => Ok(Vec::new(alloc)),
    }
}

// A filter in which two calls have entries of both kinds.
const POLICY: &str = r#"{"a":{"mismatch_action":"trap","match_action":"allow","filter":[
    { "syscall": "close", "args": [ { "index": 0, "type": "dword", "op": "eq", "val": 5 } ] },
    { "syscall": "read" },
    { "syscall": "close" },
    { "syscall": "read", "args": [ { "index": 0, "type": "dword", "op": "eq", "val": 5 } ] },
    { "syscall": "openat" }]}}"#;

#[test]
fn read_and_close_have_entries_of_both_kinds(rt: HostRuntime) -> Result<(), std::test::Fail> {
    let numbers = both_kinds(rt.alloc(), POLICY, "a")?;
    assert!(rt; numbers.as_slice() == [0, 3].as_slice());
    Ok(())
}
