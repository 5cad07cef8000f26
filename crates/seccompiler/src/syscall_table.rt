// From the names of system calls to their numbers.

ghost use Rattle.std.specs.Prelude.{◌≡◌, ◌≢◌, ℕ, ◌<◌, ◌≤◌, All, IfSome, IfNone, length, map, slice_index_or};
ghost use Rattle.seccompiler.specs.Architecture.{table_of};
ghost use Rattle.seccompiler.specs.SyscallTable.{HalvingCompares, IsTableNumber, IsCallTable, IsFirstNumber, Pair, number_of};

use crate::backend::TargetArch;
use crate::equality::EqualByParts;
use seccomp_tables::{
    aarch64_name, aarch64_numbers, riscv64_name, riscv64_numbers, x86_64_name, x86_64_numbers,
};
use std::cmp::Ordering;
use std::marker::Model;

/// What a look-up by name found, and how many comparisons it took.
#[derive(Clone, Copy, Debug, PartialEq, Eq)]
pub struct Lookup {
    /// The number of the system call with exactly this name, if the table has it.
    pub number: Option<i64>,
    /// How many of the table's names were compared with the asked one: exactly as many as halving
    /// the table takes.
    pub compared: usize,
}

impl EqualByParts for Lookup {
    ghost use Rattle.std.specs.Prelude.{◌≡◌};
    ghost use Rattle.std.specs.Cmp.Rules.{comparing};
    ghost use Rattle.std.proofs.Common.{rules};

    ghost has_same_parts = { λ x y. x ≡ y };

    ghost decides = { Prim.search (comparing, rules) };
}

/// The system calls of one architecture, by name.
///
/// The names and numbers are those of the Linux kernel 6.12, as the Rust crate has them.
#[derive(Clone, Copy, Debug)]
pub struct SyscallTable {
    arch: TargetArch,
}

impl Model for SyscallTable {
    ghost use Rattle.seccompiler.specs.declared.backend.TargetArch.{TargetArch};

    ghost Value = { TargetArch };

    ghost view = { λ table. table.arch };

    ghost inverse = { λ arch. record { arch = arch } };
}

impl SyscallTable {
    /// Gives the table of an architecture.
    ///
    /// It takes no memory. Every table has fewer than 512 names, in byte order and each once.
    ///
    /// ```
    /// let table = SyscallTable::new(TargetArch::aarch64);
    /// ```
    #[tactic(auto, using(crate::proofs::TableFacts::is_call_table))]
    pub fn new(arch: TargetArch) -> Self
        ensures arch { result ≡ arch }
        ensures table { IsCallTable (table_of result) }
    {
        SyscallTable { arch }
    }

    /// Gives the numbers of the system calls, in byte order of the calls' names.
    ///
    /// [`name`](Self::name) gives the name to each. It takes no memory.
    pub fn numbers(&self) -> &'static [i64]
        ensures { result.now ≡ map (λ pair. pair.1) (table_of self.now) }
    {
        match self.arch {
            TargetArch::x86_64 => x86_64_numbers(),
            TargetArch::aarch64 => aarch64_numbers(),
            TargetArch::riscv64 => riscv64_numbers(),
        }
    }

    /// Gives the name of the system call whose number stands at this place of [`numbers`](Self::numbers).
    ///
    /// No name stands at two places. It takes no memory, and the same time for every place.
    pub fn name(&self, place: usize) -> &'static str
        requires { place < length (table_of self.now) }
        ensures { (pair : Pair) → result.now ≡ (slice_index_or (table_of self.now) place pair).0 }
    {
        match self.arch {
            TargetArch::x86_64 => x86_64_name(place),
            TargetArch::aarch64 => aarch64_name(place),
            TargetArch::riscv64 => riscv64_name(place),
        }
    }

    /// Looks the system call with exactly this name up, case included, by halving the table.
    ///
    /// `number` is `None` if the table has no such name, and otherwise lies within 0 to 462.
    /// `compared` is how many names are compared if the table is halved at its middle name, and
    /// then the half on whose side the asked name stands: 1 to 9, and 8 or 9 if the table has no
    /// such name. It takes no memory.
    /// `SyscallTable::new(TargetArch::aarch64).lookup("close").number` is `Some(57)`.
    pub fn lookup(&self, name: &str) -> Lookup
        ensures number { result.number ≡ number_of (table_of self.now) name.now }
        ensures found { IfSome result.number (IsFirstNumber (table_of self.now) name.now) }
        ensures not_found { IfNone result.number (All (λ pair. pair.0 ≢ name.now) (table_of self.now)) }
        ensures in_range { IfSome result.number IsTableNumber }
        ensures compared { HalvingCompares name.now (table_of self.now) result.compared }
        ensures only { (n : ℕ) → HalvingCompares name.now (table_of self.now) n → n ≡ result.compared }
        ensures few { (1 ≤ result.compared) × (result.compared ≤ 9) }
        ensures missed { IfNone result.number (8 ≤ result.compared) }
    {
        let (_, found) = self.find(name);
        found
    }

    // The same, with the place where the search ended: that of the name, or else where it would stand.
    fn find(&self, name: &str) -> (usize, Lookup)
        ensures number { result.1.number ≡ number_of (table_of self.now) name.now }
        ensures compared { HalvingCompares name.now (table_of self.now) result.1.compared }
        ensures few { (1 ≤ result.1.compared) × (result.1.compared ≤ 9) }
        ensures missed { IfNone result.1.number (8 ≤ result.1.compared) }
    {
        let numbers = self.numbers();
        let mut start = 0;
        let mut end = numbers.len();
        let mut compared = 0;
        while start < end {
            let middle = start + (end - start) / 2;
            compared += 1;
            match name.cmp(self.name(middle)) {
                Ordering::Less => end = middle,
                Ordering::Greater => start = middle + 1,
                Ordering::Equal => {
                    let number = Some(numbers[middle]);
                    return (middle, Lookup { number, compared });
                }
            }
        }
        let number = None;
        (start, Lookup { number, compared })
    }

    /// Gives the number of the system call with exactly this name, case included.
    ///
    /// It is `None` if the table has no such name, and otherwise lies within 0 to 462. It takes
    /// no memory. `SyscallTable::new(TargetArch::aarch64).get_syscall_nr("close")` is `Some(57)`.
    ///
    /// ```
    /// // An aarch64 kernel has `close`, and no `open`.
    /// let table = SyscallTable::new(TargetArch::aarch64);
    /// assert!(rt; table.get_syscall_nr("close") == Some(57));
    /// assert!(rt; table.get_syscall_nr("open") == None);
    /// ```
    pub fn get_syscall_nr(&self, name: &str) -> Option<i64>
        ensures number { result ≡ number_of (table_of self.now) name.now }
        ensures found { IfSome result (IsFirstNumber (table_of self.now) name.now) }
        ensures not_found { IfNone result (All (λ pair. pair.0 ≢ name.now) (table_of self.now)) }
        ensures in_range { IfSome result IsTableNumber }
    {
        self.lookup(name).number
    }

    /// The same number, which is found soon if the name stands behind that which was found last, or is the same.
    ///
    /// `near` is that place. It says where to look first and nothing else: any number may stand there.
    #[inline(always)]
    pub(crate) fn number_near(&self, near: &mut usize, name: &str) -> Option<i64>
        ensures { result ≡ number_of (table_of self.now) name.now }
    {
        let numbers = self.numbers();
        let last = *near;
        for place in [last.wrapping_add(1), last] {
            if place < numbers.len() && self.name(place) == name {
                *near = place;
                return Some(numbers[place]);
            }
        }
        let (place, found) = self.find(name);
        *near = place;
        found.number
    }
}
