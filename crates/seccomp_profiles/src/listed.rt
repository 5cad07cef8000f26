// What a profile lists as architectures: whether one is among them, and the first that no runtime knows.

ghost use Rattle.std.specs.Prelude.{◌≡◌, ◌↔◌, IsTrue, codes, option_map};
ghost use Rattle.serde_json.specs.Data.{string};
ghost use Rattle.serde_json.specs.Find.{get};
ghost use Rattle.serde_json.specs.View.{items_view, view};
ghost use Rattle.seccomp_profiles.specs.Listed as spec;
ghost use Rattle.seccomp_profiles.specs.Listed.{HasItem, IsNamed, Lists, MapsTo, first_unknown, items_there};

use crate::members::is_among;
use serde_json::Value;

/// Whether the profile that a value is lists an architecture beside x86_64, so that libseccomp makes a program for it too: among its
/// `architectures`, or in `archMap` for `SCMP_ARCH_X86_64`.
pub(crate) fn lists(profile: &Value, name: &str) -> bool
    ensures { IsTrue result ↔ Lists name.now (view profile.now) }
{
    has_name(items_there(profile.get("architectures")), name)
        || has_map_to(items_there(profile.get("archMap")), name)
}

// The items of an array; none of anything else.
fn items_there(value: Option<&Value>) -> &[Value]
    ensures { items_view result.now ≡ items_there (option_map (λ v. view v.now) value.entry) }
{
    match value {
        Some(Value::Array(items)) => items.as_slice(),
        _ => &[],
    }
}

// Whether one of the items is this name.
fn has_name(items: &[Value], name: &str) -> bool
    ensures { IsTrue result ↔ HasItem (IsNamed name.now) (items_view items.now) }
{
    let mut rest = items;
    while let [first, others @ ..] = rest {
        if is_text(first, name) {
            return true;
        }
        rest = others;
    }
    false
}

// Whether one of the items of `archMap` lists the architecture for x86_64.
fn has_map_to(items: &[Value], name: &str) -> bool
    ensures { IsTrue result ↔ HasItem (MapsTo name.now) (items_view items.now) }
{
    let mut rest = items;
    while let [first, others @ ..] = rest {
        if maps_to(first, name) {
            return true;
        }
        rest = others;
    }
    false
}

fn maps_to(value: &Value, name: &str) -> bool
    ensures { IsTrue result ↔ MapsTo name.now (view value.now) }
{
    let Some(architecture) = value.get("architecture") else {
        return false;
    };
    is_text(architecture, "SCMP_ARCH_X86_64")
        && has_name(items_there(value.get("subArchitectures")), name)
}

fn is_text(value: &Value, text: &str) -> bool
    ensures { IsTrue result ↔ (view value.now ≡ string text.now) }
{
    match value {
        Value::String(own) => own.as_str() == text,
        _ => false,
    }
}

// The architectures of the OCI runtime specification.
const ARCHITECTURES: [&str; 23] = [
    "SCMP_ARCH_X86",
    "SCMP_ARCH_X86_64",
    "SCMP_ARCH_X32",
    "SCMP_ARCH_ARM",
    "SCMP_ARCH_AARCH64",
    "SCMP_ARCH_MIPS",
    "SCMP_ARCH_MIPS64",
    "SCMP_ARCH_MIPS64N32",
    "SCMP_ARCH_MIPSEL",
    "SCMP_ARCH_MIPSEL64",
    "SCMP_ARCH_MIPSEL64N32",
    "SCMP_ARCH_PPC",
    "SCMP_ARCH_PPC64",
    "SCMP_ARCH_PPC64LE",
    "SCMP_ARCH_S390",
    "SCMP_ARCH_S390X",
    "SCMP_ARCH_PARISC",
    "SCMP_ARCH_PARISC64",
    "SCMP_ARCH_RISCV64",
    "SCMP_ARCH_LOONGARCH64",
    "SCMP_ARCH_M68K",
    "SCMP_ARCH_SH",
    "SCMP_ARCH_SHEB",
];

/// The place, from 0, of the first of the profile's `architectures` that the OCI runtime specification doesn't have.
pub(crate) fn unknown_architecture(profile: &Value) -> Option<usize>
    ensures { result ≡ spec.unknown_architecture (view profile.now) }
{
    first_unknown(items_there(profile.get("architectures")))
}

// The place of the first of the items that is no name of an architecture.
fn first_unknown(items: &[Value]) -> Option<usize>
    ensures { result ≡ first_unknown 0 (items_view items.now) }
{
    let (mut rest, mut place) = (items, 0usize);
    while let [first, others @ ..] = rest {
        if !is_architecture(first) {
            return Some(place);
        }
        rest = others;
        place += 1;
    }
    None
}

// Whether it is the name of an architecture that the specification has.
fn is_architecture(value: &Value) -> bool
    ensures { result ≡ spec.is_architecture (view value.now) }
{
    match value {
        Value::String(name) => is_among(name.as_str(), &ARCHITECTURES),
        _ => false,
    }
}
