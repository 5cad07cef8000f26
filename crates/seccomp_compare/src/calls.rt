// Sets of calls, which a comparison speaks of.

ghost use Rattle.std.specs.Prelude.{ℕ, List};
ghost use Rattle.seccompiler.specs.Machine.{IsRecord};
ghost use Rattle.seccomp_compare.specs.RecordSets.{IsIn, AreTight};

use crate::sets::narrowed;
use crate::values::{ALL, Values, between};
use seccompiler::backend::TargetArch;
use std::marker::Model;

/// A set of calls: all, those of one or several architectures, or those of one architecture with one or more
/// call numbers.
///
/// Their instruction pointers and arguments may have any value.
///
/// ```
/// // x86_64 has no name for these numbers.
/// let unnamed = Calls::of_numbers(TargetArch::x86_64, 336, 423);
/// let (relation, most) = (Relation::Alike, 1_000_000);
/// let answer = compare_filters(alloc, &filter, &other, &unnamed, relation, most)?;
/// assert!(rt; matches!(answer, Comparison::Holds));
/// ```
#[derive(Clone, Copy, Debug)]
pub struct Calls {
    least_arch: u32,
    greatest_arch: u32,
    least: u32,
    greatest: u32,
}

impl Model for Calls {
    ghost use Rattle.seccomp_compare.specs.Compare.{CallSet};

    ghost Value = { CallSet };

    ghost view = { λ c. record { least_arch = c.least_arch; greatest_arch = c.greatest_arch; least = c.least; greatest = c.greatest } };

    ghost inverse = { λ v. record { least_arch = v.least_arch; greatest_arch = v.greatest_arch; least = v.least; greatest = v.greatest } };
}

impl Calls {
    ghost use Rattle.std.specs.Prelude.{◌≡◌, ◌≤◌, ◌↔◌, ℕ, List};
    ghost use Rattle.seccompiler.specs.Machine.{IsRecord, word_at};
    ghost use Rattle.seccompiler.specs.Architecture.{audit_word};
    ghost use Rattle.seccomp_compare.specs.Compare.{IsCallOf};
    ghost use Rattle.seccomp_compare.specs.RecordSets.{IsIn, AreTight};

    /// All calls, of whatever architecture: every record.
    pub fn all() -> Self
        ensures { (r : List ℕ) → (IsCallOf result r ↔ IsRecord r) }
    {
        Calls::of_arch_words(0, u32::MAX)
    }

    /// The calls whose `AUDIT_ARCH_*` values lie from `least` to `greatest`, both included, with any
    /// numbers; none if `greatest` is less. So those of all architectures but one are two such sets.
    pub fn of_arch_words(least: u32, greatest: u32) -> Self
        ensures { (r : List ℕ) → (IsCallOf result r
            ↔ (IsRecord r × (least ≤ word_at r 4) × (word_at r 4 ≤ greatest))) }
    {
        Calls {
            least_arch: least,
            greatest_arch: greatest,
            least: 0,
            greatest: u32::MAX,
        }
    }

    /// All calls of an architecture, the numbers included that no call has.
    pub fn of_arch(arch: TargetArch) -> Self
        ensures { (r : List ℕ) → (IsCallOf result r ↔ (IsRecord r × (word_at r 4 ≡ audit_word arch))) }
    {
        Calls::of_numbers(arch, 0, u32::MAX)
    }

    /// The calls of one number of an architecture. [`SyscallTable`](seccompiler::SyscallTable) knows the
    /// numbers of names.
    pub fn of_number(arch: TargetArch, number: u32) -> Self
        ensures { (r : List ℕ) → (IsCallOf result r
            ↔ (IsRecord r × (word_at r 4 ≡ audit_word arch) × (word_at r 0 ≡ number))) }
    {
        Calls::of_numbers(arch, number, number)
    }

    /// The calls of the numbers from `least` to `greatest` of an architecture, both included; none
    /// if `greatest` is less.
    pub fn of_numbers(arch: TargetArch, least: u32, greatest: u32) -> Self
        ensures { (r : List ℕ) → (IsCallOf result r
            ↔ (IsRecord r × (word_at r 4 ≡ audit_word arch) × (least ≤ word_at r 0) × (word_at r 0 ≤ greatest))) }
    {
        let word = arch.get_audit_value();
        Calls {
            least_arch: word,
            greatest_arch: word,
            least,
            greatest,
        }
    }

    // What is known of the words of their records.
    pub(crate) fn records(&self) -> [Values; 16]
        ensures to { (r : List ℕ) → IsCallOf self.now r → IsIn result r }
        ensures back { (r : List ℕ) → IsRecord r → IsIn result r → IsCallOf self.now r }
        ensures tight { AreTight result }
    {
        let numbered = narrowed(&whole(), 0, between(self.least, self.greatest));
        narrowed(&numbered, 1, between(self.least_arch, self.greatest_arch))
    }
}

// What is known of the words of all records: nothing.
fn whole() -> [Values; 16]
    ensures all { (r : List ℕ) → IsRecord r → IsIn result r }
    ensures tight { AreTight result }
{
    [ALL; 16]
}
