// The examples of policies as JSON text, and of values in them.

use seccompiler::json::{filters_of, read_action, read_operator};
use seccompiler::{
    JsonCompiler, SeccompAction, SeccompCmpOp, TargetArch, compile_from_json, programs_of,
};
use serde_json::Value;
use std::test::Fail;

#[test]
fn programs_of_a_text(rt: HostRuntime) -> Result<(), Fail> {
    let alloc = rt.alloc();
    let text = r#"{"main": {"mismatch_action": "trap", "match_action": "allow", "filter": []}}"#;
    let programs = compile_from_json(alloc, text.as_bytes(), TargetArch::x86_64)?;
    let program = programs.get("main").ok_or("no filter has this name")?;
    assert!(rt; program.len() == 4);
    Ok(())
}

#[test]
fn filters_of_a_text(rt: HostRuntime) -> Result<(), Fail> {
    let alloc = rt.alloc();
    let text = r#"{"main": {"mismatch_action": "trap", "match_action": "allow", "filter": []}}"#;
    let compiler = JsonCompiler::new(TargetArch::aarch64);
    let filters = compiler.compile(alloc, text.as_bytes())?;
    assert!(rt; filters.get("main").is_some());
    Ok(())
}

#[test]
fn json_filters_of_a_text(rt: HostRuntime) -> Result<(), Fail> {
    let alloc = rt.alloc();
    let text = br#"{"main": {"mismatch_action": "trap", "match_action": "allow", "filter": []}}"#;
    let filters = filters_of(alloc, text)?;
    assert!(rt; filters.0.contains_key("main"));
    Ok(())
}

#[test]
fn policies_of_a_text_in_memory(rt: HostRuntime) -> Result<(), Fail> {
    let alloc = rt.alloc();
    let text = br#"{"main": {"mismatch_action": "trap", "match_action": "allow", "filter": []}}"#;
    let policies = JsonCompiler::new(TargetArch::x86_64).policies_of(alloc, text)?;
    assert!(rt; policies.contains_key("main"));
    Ok(())
}

#[test]
fn programs_of_a_text_in_memory(rt: HostRuntime) -> Result<(), Fail> {
    let alloc = rt.alloc();
    let text = br#"{"main": {"mismatch_action": "trap", "match_action": "allow", "filter": []}}"#;
    let programs = programs_of(alloc, text, TargetArch::x86_64)?;
    let program = programs.get("main").ok_or("no filter has this name")?;
    assert!(rt; program.len() == 4);
    Ok(())
}

#[test]
fn actions_of_values(rt: HostRuntime) -> Result<(), Fail> {
    let alloc = rt.alloc();
    let value = Value::from_str(alloc, r#"{"errno": 1}"#)?;
    assert!(rt; read_action(&value) == Some(SeccompAction::Errno(1)));
    let value = Value::from_str(alloc, r#""errno""#)?;
    assert!(rt; read_action(&value).is_none());
    Ok(())
}

#[test]
fn operators_of_values(rt: HostRuntime) -> Result<(), Fail> {
    let alloc = rt.alloc();
    let value = Value::from_str(alloc, r#"{"masked_eq": 255}"#)?;
    assert!(rt; read_operator(&value) == Some(SeccompCmpOp::MaskedEq(255)));
    let value = Value::from_str(alloc, r#""masked_eq""#)?;
    assert!(rt; read_operator(&value).is_none());
    Ok(())
}
