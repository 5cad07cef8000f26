// What is given: a policy, a profile or a program.

ghost use Rattle.std.specs.Prelude.{◌↔◌, IfOk, IsTrue, MatchOption};
ghost use Rattle.serde_json.specs.Data.{Data};
ghost use Rattle.serde_json.specs.View.{view};
ghost use Rattle.seccompiler.specs.declared.backend.TargetArch.{TargetArch};
ghost use Rattle.seccompiler.specs.JsonAnswers.{IsReadAs};
ghost use Rattle.seccomp_answers.specs.Kinds.{HasKey, HasText, IsBare, IsOfProfile, IsPolicyText, IsTakenAs, LacksProfile, NamesProfile};

use crate::program::initializers::begins_as_initializers;
use memchr::memmem::find;
use seccomp_profiles::{Container, profile_in};
use serde_json::Value;
use std::alloc::{AllocError, Global};

/// How what is given is read.
#[derive(Drop)]
pub struct Reading {
    /// Whether all texts are profiles; else each says itself what it is.
    pub of_profiles: bool,
    /// The container in which a profile is.
    pub container: Container,
    /// Whether the names are listed that are left out of a profile.
    pub listed: bool,
}

/// What is given.
#[derive(Clone, Copy)]
pub enum Subject<'a> {
    /// The text of a policy.
    Policy,
    /// The text of a profile, in this container.
    Profile(&'a Container),
    /// A program, in bytes or as C's initializers.
    Program,
}

/// What is given: a program, if it begins as one; else a profile, if all texts are profiles or this one is taken for a profile's, or for
/// the configuration of a container; else a policy.
pub fn subject_of<'a>(
    alloc: Global,
    reading: &'a Reading,
    text: &[u8],
) -> Result<Subject<'a>, AllocError>
    ensures { IfOk result (IsTakenAs reading.now text.now) }
{
    // The second byte of a program is the high one of its first instruction's code, which is 0, and no text of JSON has a 0.
    if begins_as_initializers(text) || text.len() > 1 && text[1] == 0 {
        return Ok(Subject::Program);
    }
    if reading.of_profiles || is_of_profile(alloc, text)? {
        return Ok(Subject::Profile(&reading.container));
    }
    Ok(Subject::Policy)
}

// Whether a text is taken for a profile, or for the configuration of a container. Only one that has a key of theirs is parsed, since
// policies may be large.
fn is_of_profile(alloc: Global, text: &[u8]) -> Result<bool, AllocError>
    ensures taken { IfOk result (λ is. IsTrue is ↔ IsOfProfile text.now) }

    // No text of a policy is, on whichever architecture.
    ensures no_policy { IfOk result (λ is. IsTrue is → (arch : TargetArch) → IsPolicyText arch text.now → ⊥) }
{
    if !has_key(text) {
        return Ok(false);
    }
    let Some(value) = value_in(alloc, text)? else {
        return Ok(false);
    };
    let is = names_profile(&value);
    drop(value);
    Ok(is)
}

/// Whether a text is the configuration of a container without a profile.
pub(crate) fn lacks_profile(alloc: Global, text: &[u8]) -> Result<bool, AllocError>
    ensures { IfOk result (λ lacks. IsTrue lacks → LacksProfile text.now) }
{
    let Some(value) = value_in(alloc, text)? else {
        return Ok(false);
    };
    let is_bare = is_bare(&value);
    drop(value);
    Ok(is_bare)
}

// The value of a text, if it is JSON.
fn value_in(alloc: Global, text: &[u8]) -> Result<Option<Value>, AllocError>
    ensures { IfOk result (λ found. MatchOption found ((d : Data) → IsReadAs text.now d → ⊥) (λ value. IsReadAs text.now (view value))) }
{
    match Value::from_slice(alloc, text) {
        Ok(value) => Ok(Some(value)),
        Err(error) => {
            let is_memory = error.is_memory();
            drop(error);
            if is_memory { Err(AllocError) } else { Ok(None) }
        }
    }
}

// Whether one of the keys stands in a text.
fn has_key(text: &[u8]) -> bool
    ensures { IsTrue result ↔ HasKey text.now }
{
    if find(text, b"\"defaultAction\"").is_some() {
        return true;
    }
    find(text, b"\"ociVersion\"").is_some()
}

// Whether a value is a profile, by its default action, or the configuration of a container, by its version.
fn names_profile(value: &Value) -> bool
    ensures { IsTrue result ↔ NamesProfile (view value.now) }
{
    if has_text(profile_in(value), "defaultAction") {
        return true;
    }
    has_text(value, "ociVersion")
}

// Whether a value is an object with a text under this name.
fn has_text(value: &Value, name: &str) -> bool
    ensures { IsTrue result ↔ HasText name.now (view value.now) }
{
    match value.get(name) {
        Some(found) => found.is_string(),
        None => false,
    }
}

// Whether a value is the configuration of a container without `linux.seccomp`.
fn is_bare(value: &Value) -> bool
    ensures { IsTrue result → IsBare (view value.now) }
{
    if value.get("defaultAction").is_some() || !has_text(value, "ociVersion") {
        return false;
    }
    match value.get("linux") {
        Some(linux) => linux.get("seccomp").is_none(),
        None => true,
    }
}
