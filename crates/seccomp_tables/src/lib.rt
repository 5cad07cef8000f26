// The names and numbers of Linux system calls for each architecture, which tools/generate_tables writes, and
// the properties of each table.
//
// The names of a table are one text, and the start of each is kept beside it: a proof takes much longer with
// hundreds of texts. The proofs are written answers, since a search would take long with a table in scope.
#![tactic(auto)]

ghost use Rattle.std.specs.Prelude.{◌≡◌, ◌<◌, List, ℕ, length, map, slice_index_or};
ghost use Rattle.seccomp_tables.specs.Tables.{AreStarts, IsCallTable, Pair, words, x86_64_pairs, aarch64_pairs, riscv64_pairs};

mod aarch64;
mod riscv64;
mod x86_64;

use aarch64::{AARCH64_NAMES, AARCH64_NUMBERS, AARCH64_STARTS};
use riscv64::{RISCV64_NAMES, RISCV64_NUMBERS, RISCV64_STARTS};
use x86_64::{X86_64_NAMES, X86_64_NUMBERS, X86_64_STARTS};

/// The number of each system call of x86_64, in byte order of their names.
///
/// There are 255 to 511, and they lie within 0 to 462. The names are ASCII, and no two are the same.
pub fn x86_64_numbers() -> &'static [i64]
    ensures numbers { result.now ≡ map (λ pair. pair.1) x86_64_pairs }
    ensures table { IsCallTable x86_64_pairs }
{
    &X86_64_NUMBERS
}

/// The name of the system call of x86_64 whose number stands at this place of [`x86_64_numbers`].
pub fn x86_64_name(place: usize) -> &'static str
    requires { place < length x86_64_pairs }
    ensures { (pair : Pair) → result.now ≡ (slice_index_or x86_64_pairs place pair).0 }
{
    word_at(X86_64_NAMES, &X86_64_STARTS, place)
}

/// The number of each system call of aarch64, in byte order of their names.
///
/// There are 255 to 511, and they lie within 0 to 462. The names are ASCII, and no two are the same.
pub fn aarch64_numbers() -> &'static [i64]
    ensures numbers { result.now ≡ map (λ pair. pair.1) aarch64_pairs }
    ensures table { IsCallTable aarch64_pairs }
{
    &AARCH64_NUMBERS
}

/// The name of the system call of aarch64 whose number stands at this place of [`aarch64_numbers`].
pub fn aarch64_name(place: usize) -> &'static str
    requires { place < length aarch64_pairs }
    ensures { (pair : Pair) → result.now ≡ (slice_index_or aarch64_pairs place pair).0 }
{
    word_at(AARCH64_NAMES, &AARCH64_STARTS, place)
}

/// The number of each system call of riscv64, in byte order of their names.
///
/// There are 255 to 511, and they lie within 0 to 462. The names are ASCII, and no two are the same.
pub fn riscv64_numbers() -> &'static [i64]
    ensures numbers { result.now ≡ map (λ pair. pair.1) riscv64_pairs }
    ensures table { IsCallTable riscv64_pairs }
{
    &RISCV64_NUMBERS
}

/// The name of the system call of riscv64 whose number stands at this place of [`riscv64_numbers`].
pub fn riscv64_name(place: usize) -> &'static str
    requires { place < length riscv64_pairs }
    ensures { (pair : Pair) → result.now ≡ (slice_index_or riscv64_pairs place pair).0 }
{
    word_at(RISCV64_NAMES, &RISCV64_STARTS, place)
}

// The word of a text at this place, from its start to the space before the next start.
fn word_at(text: &'static str, starts: &[u16], place: usize) -> &'static str
    requires starts { AreStarts text.now starts.now }
    requires within { place < length (words text.now) }
    ensures { (word : List ℕ) → result.now ≡ slice_index_or (words text.now) place word }
{
    let start = usize::from(starts[place]);
    let end = usize::from(starts[place + 1]) - 1;
    &text[start..end]
}
