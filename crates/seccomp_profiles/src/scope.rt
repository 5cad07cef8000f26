// Whether an entry of a profile applies.

ghost use Rattle.std.specs.Prelude.{◌≡◌, ◌↔◌, ◌⊎◌, ◌&&◌, not, [], IsTrue, IfSome, map, string_bytes, Contains};
ghost use Rattle.std.specs.List.{list_all, list_any};
ghost use Rattle.std.specs.Str.{bytes_eq};
ghost use Rattle.seccomp_profiles.specs.Decision.{go_name, Applies, IsAtLeast};

use crate::{Container, Entry, Kernel};
use seccompiler::TargetArch;

// The name of the architecture as Go has it.
fn go_name(arch: TargetArch) -> &'static str
    ensures { result.now ≡ go_name arch }
{
    match arch {
        TargetArch::x86_64 => "amd64",
        TargetArch::aarch64 => "arm64",
        TargetArch::riscv64 => "riscv64",
    }
}

// Whether the text is one of these.
fn is_listed(text: &str, texts: &[String]) -> bool
    ensures { result ≡ list_any (bytes_eq text.now) (map string_bytes texts.now) }
{
    for one in texts {
        if text == one.as_str() {
            return true;
        }
    }
    false
}

// Whether each of the texts is one of these names.
fn are_all_among(texts: &[String], names: &[String]) -> bool
    ensures { result ≡ list_all (λ text. list_any (bytes_eq text) (map string_bytes names.now)) (map string_bytes texts.now) }
{
    for text in texts {
        if !is_listed(text.as_str(), names) {
            return false;
        }
    }
    true
}

// Whether some of the texts is one of these names.
fn is_any_among(texts: &[String], names: &[String]) -> bool
    ensures { result ≡ list_any (λ text. list_any (bytes_eq text) (map string_bytes names.now)) (map string_bytes texts.now) }
{
    for text in texts {
        if is_listed(text.as_str(), names) {
            return true;
        }
    }
    false
}

/// Whether the text is one of these.
pub fn has_text(texts: &[String], text: &str) -> bool
    ensures { IsTrue result ↔ Contains (map string_bytes texts.now) text.now }
{
    is_listed(text, texts)
}

// Whether the architectures are none, or the text is one of them.
fn is_included(arches: &[String], text: &str) -> bool
    ensures { IsTrue result ↔ ((map string_bytes arches.now ≡ []) ⊎ Contains (map string_bytes arches.now) text.now) }
{
    match arches.first() {
        None => true,
        Some(_) => has_text(arches, text),
    }
}

// Whether the kernel is this one or a newer one, as it is where none is given.
fn is_at_least(kernel: Option<Kernel>, least: Kernel) -> bool
    ensures { IsTrue result ↔ IsAtLeast kernel least }
{
    let Some(kernel) = kernel else {
        return true;
    };
    least.major < kernel.major || (kernel.major == least.major && least.minor <= kernel.minor)
}

// Whether the kernel is the one that is included or a newer one, if one is, and older than the one that is excluded, if one is.
fn is_for_kernel(kernel: Option<Kernel>, entry: &Entry) -> bool
    ensures { IsTrue result ↔ (IfSome entry.now.includes.min_kernel (IsAtLeast kernel) × IfSome entry.now.excludes.min_kernel (λ k. IsAtLeast kernel k → ⊥)) }
{
    if let Some(least) = entry.includes.min_kernel {
        if !is_at_least(kernel, least) {
            return false;
        }
    }
    match entry.excludes.min_kernel {
        Some(least) => !is_at_least(kernel, least),
        None => true,
    }
}

// Whether all are so, but the fourth isn't.
fn are_five(first: bool, second: bool, third: bool, fourth: bool, fifth: bool) -> bool
    ensures { result ≡ (first && (second && (third && (not fourth && fifth)))) }
{
    first && second && third && !fourth && fifth
}

/// Whether an entry of a profile applies to a container on this architecture.
///
/// The container has to have all capabilities that the entry includes, and none that it excludes. The
/// architecture has to be one that the entry includes, if it includes any, and none that it excludes;
/// architectures have Go's names: `amd64`, `arm64` and `riscv64`. The kernel has to be at least the version
/// that the entry includes, and older than the one that it excludes, if the entry gives them. A container
/// without a kernel version counts as newer than all. It takes no memory.
pub fn applies(arch: TargetArch, container: &Container, entry: &Entry) -> bool
    ensures { IsTrue result ↔ Applies arch container.now entry.now }
{
    let name = go_name(arch);
    let caps = container.caps.as_slice();
    are_five(
        are_all_among(entry.includes.caps.as_slice(), caps),
        is_included(entry.includes.arches.as_slice(), name),
        !is_any_among(entry.excludes.caps.as_slice(), caps),
        has_text(entry.excludes.arches.as_slice(), name),
        is_for_kernel(container.kernel, entry),
    )
}
