// Names and numbers of the calls of 32-bit programs.

ghost use Rattle.std.specs.Prelude.{◌≡◌, ◌<◌, ℕ, List, All, Contains, IfSome, IfNone};
ghost use Rattle.std.specs.List.{zip};
ghost use Rattle.std.specs.Map.{lookup};
ghost use Rattle.std.specs.Str.{bytes_eq};
ghost use Rattle.seccomp_names.specs.CallTables.{end_of, pairs_of, words};

use crate::i386::{I386_NAMES, I386_NUMBERS};
use crate::ipc::{IPC_NAMES, IPC_NUMBERS};
use crate::socketcall::{SOCKETCALL_NAMES, SOCKETCALL_NUMBERS};
use crate::x32::{X32_NAMES, X32_NUMBERS};

/// Numbers with names, of calls that 32-bit programs make on x86_64, up to Linux 6.12.
#[derive(Clone, Copy)]
pub enum CallTable {
    /// The calls of i386.
    I386,
    /// Those of x32, without the bit 0x40000000.
    X32,
    /// What the first argument of `socketcall` of i386 says.
    Socketcall,
    /// What that of `ipc` says.
    Ipc,
}

impl CallTable {
    /// The number of exactly this name, if there is one. It takes no memory.
    pub fn number_of(self, name: &str) -> Option<u32>
        ensures number { result ≡ lookup (bytes_eq name.now) (pairs_of self) }
        ensures below { IfSome result (λ number. number < end_of self) }
    {
        let (names, numbers) = self.names_and_numbers();
        number_in(names, numbers, name)
    }

    /// The name of this number, if there is one. It takes no memory.
    pub fn name_of(self, number: u32) -> Option<&'static str>
        ensures some { IfSome result (λ name. Contains (pairs_of self) (name.now, number)) }
        ensures none { IfNone result (All (λ pair. pair.1 ≡ number → ⊥) (pairs_of self)) }
    {
        let (names, numbers) = self.names_and_numbers();
        name_in(names, numbers, number)
    }

    // The names, a space between two, and the number of each.
    fn names_and_numbers(self) -> (&'static str, &'static [u32])
        ensures { zip (words result.0.now) result.1.now ≡ pairs_of self }
    {
        match self {
            CallTable::I386 => (I386_NAMES, &I386_NUMBERS),
            CallTable::X32 => (X32_NAMES, &X32_NUMBERS),
            CallTable::Socketcall => (SOCKETCALL_NAMES, &SOCKETCALL_NUMBERS),
            CallTable::Ipc => (IPC_NAMES, &IPC_NUMBERS),
        }
    }
}

// The number beside this name.
fn number_in(names: &str, numbers: &[u32], name: &str) -> Option<u32>
    ensures { result ≡ lookup (bytes_eq name.now) (zip (words names.now) numbers.now) }
{
    for (own, number) in names.split(' ').zip(numbers) {
        if name == own {
            return Some(*number);
        }
    }
    None
}

// The first name beside this number.
fn name_in(names: &'static str, numbers: &[u32], number: u32) -> Option<&'static str>
    ensures some { IfSome result (λ name. Contains (zip (words names.now) numbers.now) (name.now, number)) }
    ensures none { IfNone result (All (λ (pair : List ℕ × ℕ). pair.1 ≡ number → ⊥) (zip (words names.now) numbers.now)) }
{
    for (name, own) in names.split(' ').zip(numbers) {
        if *own == number {
            return Some(name);
        }
    }
    None
}
