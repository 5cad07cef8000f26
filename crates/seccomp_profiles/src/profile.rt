// From a JSON value, or a text, to a profile.

ghost use Rattle.std.specs.Prelude.{◌≡◌, ◌↔◌, IsTrue, map, option_map, string_bytes, IfOk, IfErr, IfSome, IfNone};
ghost use Rattle.std.specs.List.{filter};
ghost use Rattle.serde_json.specs.View.{members_view, view};
ghost use Rattle.seccompiler.specs.JsonAnswers.{IsReadAs};
ghost use Rattle.seccomp_profiles.specs.Types.{AllOnArguments};
ghost use Rattle.seccomp_profiles.specs.ProfileShape.{IsList, IsProfile, is_filled, is_unknown, keys_of};
ghost use Rattle.seccomp_profiles.specs.ProfileText.{IsProfileFault, IsProfileText, profile_in, seccomp_in};
ghost use Rattle.seccomp_profiles.specs.Types.{Profile};

use crate::actions::action_under;
use crate::error::ProfileError;
use crate::listed::{lists, unknown_architecture};
use crate::lists::parts_under;
use crate::members::{is_among, items_of};
use crate::types::Profile;
use serde_json::Value;
use serde_json::value::Map;
use std::alloc::{AllocError, Global};

// Whether a list stands there, or nothing, or null.
fn is_list(value: Option<&Value>) -> bool
    ensures { IsTrue result ↔ IsList (option_map (λ v. view v.now) value.entry) }
{
    items_of(value).is_some()
}

// The keys that a profile has for Docker, Podman or a runtime, and two that say nothing.
const KEYS: [&str; 11] = [
    "defaultAction",
    "defaultErrnoRet",
    "defaultErrno",
    "architectures",
    "archMap",
    "flags",
    "syscalls",
    "listenerPath",
    "listenerMetadata",
    "$schema",
    "comment",
];

// The keys of an object that no profile has.
fn unknown_keys(alloc: Global, members: &Map<String, Value>) -> Result<Vec<String>, AllocError>
    ensures { IfOk result (λ keys. map string_bytes keys.items ≡ filter is_unknown (keys_of (members_view members.now.entries))) }
{
    let mut found = Vec::new(alloc);
    for (key, _) in members.iter() {
        if !is_among(key.as_str(), &KEYS) {
            found.push(String::from_str(alloc, key.as_str())?)?;
        }
    }
    Ok(found)
}

// Whether a text stands there that isn't empty.
fn is_filled(value: Option<&Value>) -> bool
    ensures { result ≡ is_filled (option_map (λ v. view v.now) value.entry) }
{
    match value {
        Some(Value::String(text)) => !text.is_empty(),
        _ => false,
    }
}

// The profile that a JSON value is, or `None` where it is none.
fn read_profile(alloc: Global, value: &Value) -> Result<Option<Profile>, AllocError>
    ensures found { IfOk result (λ o. IfSome o (IsProfile (view value.now))) }
    ensures none { IfOk result (λ o. IfNone o ((p : Profile) → IsProfile (view value.now) p → ⊥)) }
    ensures arguments { IfOk result (λ o. IfSome o (λ p. AllOnArguments p.entries)) }
{
    let Value::Object(members) = value else {
        return Ok(None);
    };
    if !is_list(value.get("architectures")) || !is_list(value.get("archMap")) {
        return Ok(None);
    }
    let Some(default) = action_under(value, "defaultAction", "defaultErrnoRet", "defaultErrno")
    else {
        return Ok(None);
    };
    let Some(flags) = parts_under(alloc, value.get("flags"))? else {
        return Ok(None);
    };
    let Some(entries) = parts_under(alloc, value.get("syscalls"))? else {
        return Ok(None);
    };
    Ok(Some(Profile {
        default,
        flags,
        entries,
        lists_x86: lists(value, "SCMP_ARCH_X86"),
        lists_x32: lists(value, "SCMP_ARCH_X32"),
        unknown_architecture: unknown_architecture(value),
        has_listener: is_filled(value.get("listenerPath")),
        unknown_keys: unknown_keys(alloc, members)?,
    }))
}

/// The part of a value that is read as a profile: of a container's configuration, which has no `defaultAction`, that under
/// `linux.seccomp`; else the value itself.
pub fn profile_in(value: &Value) -> &Value
    ensures { view result.now ≡ profile_in (view value.now) }
{
    match (value.get("defaultAction"), seccomp_in(value)) {
        (None, Some(found)) => found,
        _ => value,
    }
}

// `linux.seccomp`, as the configuration of a container has it.
fn seccomp_in(value: &Value) -> Option<&Value>
    ensures { option_map (λ v. view v.now) result ≡ seccomp_in (view value.now) }
{
    match value.get("linux") {
        Some(linux) => linux.get("seccomp"),
        None => None,
    }
}

/// Reads a profile from a JSON text.
///
/// The text is the value of `linux.seccomp` in the OCI runtime specification, a profile of Docker or Podman, or a container's
/// configuration, `config.json`, which has such a value.
/// It is no profile if an entry or a part of one has an unknown name, or if an action, operator or flag can't
/// be carried. Podman names an errno beside its number, as `"errno": "EPERM"`: the name wins. Each condition of
/// a profile is on an argument from 0 to 5. Keys of the whole that no profile has are in `unknown_keys`.
///
/// # Errors
///
/// `Json` if the bytes are no JSON text in UTF-8. `NotAProfile` if the text's value is no profile: `seccomp_faults` says where,
/// and what is wrong there. `OutOfMemory` may be returned instead of any answer, if memory runs out. No other error is
/// returned.
pub fn profile_of(alloc: Global, text: &[u8]) -> Result<Profile, ProfileError>
    ensures read { IfOk result (IsProfileText text.now) }
    ensures fault { IfErr result (IsProfileFault text.now) }
    ensures arguments { IfOk result (λ p. AllOnArguments p.entries) }
{
    let value = value_of(alloc, text)?;
    match read_profile(alloc, profile_in(&value))? {
        Some(profile) => Ok(profile),
        None => Err(ProfileError::NotAProfile),
    }
}

// The value of a text.
fn value_of(alloc: Global, text: &[u8]) -> Result<Value, ProfileError>
    ensures value { IfOk result (λ value. IsReadAs text.now (view value)) }
    ensures fault { IfErr result (IsProfileFault text.now) }
{
    match Value::from_slice(alloc, text) {
        Ok(value) => Ok(value),
        Err(error) if error.is_memory() => Err(ProfileError::OutOfMemory),
        Err(error) => Err(ProfileError::Json(error)),
    }
}
