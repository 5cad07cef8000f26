// The rules that runtimes add to libseccomp's filter, as it takes them for an architecture (arch.c, syscalls.c and db.c of libseccomp 2.5.4).
// Nothing is promised of these.

use seccomp_names::CallTable;
use seccomp_profiles::{
    Abi, Argument, Container, Entry, Profile, applies, comparison, has_text, share_argument,
};
use seccompiler::{SeccompCmpOp, TargetArch};
use std::alloc::{AllocError, Global};

// What an argument is compared with: its index, the operator, the mask, and the value.
pub(crate) type Test = (u8, u8, u64, u64);

/// The bits of an argument that are compared.
pub(crate) const WHOLE: u64 = 0xffff_ffff_ffff_ffff;

/// A rule for a call.
#[derive(Drop)]
pub(crate) struct Rule<'a> {
    /// The place of its entry in the profile, from 0.
    pub place: usize,
    /// The name there.
    pub name: &'a str,
    /// The call that it is for, which may be `socketcall` or `ipc`.
    pub call: &'a str,
    /// Whether the architecture has that call. If not, it is kept among the others, though no program has it.
    pub is_had: bool,
    /// What it tests, in the order of arguments.
    pub tests: Vec<Test>,
    /// Its action.
    pub action: u32,
}

// The name of a call in an entry, with the place of the entry, and its action.
#[derive(Clone, Copy)]
struct Named<'a> {
    place: usize,
    name: &'a str,
    action: u32,
}

/// The names that libseccomp 2.5.4 hasn't, with the calls of Linux 6.7 as Debian has it, of those in the tables here.
pub const LACKED: [&str; 8] = [
    "listmount",
    "lsm_get_self_attr",
    "lsm_list_modules",
    "lsm_set_self_attr",
    "mseal",
    "riscv_hwprobe",
    "statmount",
    "uretprobe",
];

// Those that it has, of calls of other architectures, a space between two.
const OTHERS: &str = "\
    arm_fadvise64_64 arm_sync_file_range breakpoint cachectl cacheflush get_tls multiplexer \
    pciconfig_iobase pciconfig_read pciconfig_write rtas s390_guarded_storage s390_pci_mmio_read \
    s390_pci_mmio_write s390_runtime_instr s390_sthyi set_tls spu_create spu_run subpage_prot \
    swapcontext switch_endian sync_file_range2 sys_debug_setcontext syscall sysmips timerfd usr26 usr32";

/// The rules of a profile for whosever calls, in the order in which they are added.
pub(crate) fn rules_on<'a>(
    alloc: Global,
    abi: Abi,
    container: &Container,
    profile: &'a Profile,
) -> Result<Vec<Rule<'a>>, AllocError> {
    let mut rules = Vec::new(alloc);
    for (place, entry) in profile.entries.iter().enumerate() {
        if entry.action == profile.default || !applies(abi.machine(), container, entry) {
            continue;
        }
        let action = u32::from(entry.action);
        for name in &entry.names {
            let name = name.as_str();
            if is_known(name) {
                let named = Named {
                    place,
                    name,
                    action,
                };
                push_rules(alloc, &mut rules, abi, named, &entry.args)?;
            }
        }
    }
    Ok(rules)
}

/// Whether each of the names that libseccomp hasn't is that of a call of the architecture which an entry that counts is for.
pub(crate) fn lacked_in(target: TargetArch, container: &Container, profile: &Profile) -> [bool; 8] {
    let mut named = [false; 8];
    for entry in &profile.entries {
        if entry.action == profile.default || !applies(target, container, entry) {
            continue;
        }
        for (at, name) in named.iter_mut().zip(&LACKED) {
            if has_text(&entry.names, name) && Abi::Native(target).call_number(name).is_some() {
                *at = true;
            }
        }
    }
    named
}

// Whether libseccomp has a call of this name, on whatever architecture.
fn is_known(name: &str) -> bool {
    let native = [TargetArch::x86_64, TargetArch::aarch64, TargetArch::riscv64];
    if LACKED.contains(&name) {
        return false;
    }
    native
        .iter()
        .any(|arch| Abi::Native(*arch).call_number(name).is_some())
        || CallTable::I386.number_of(name).is_some()
        || shared_by(name).is_some()
        || OTHERS.split(' ').any(|it| it == name)
}

// The call by which i386 has one, and that one's number there.
fn shared_by(name: &str) -> Option<(&'static str, u32)> {
    match (
        CallTable::Socketcall.number_of(name),
        CallTable::Ipc.number_of(name),
    ) {
        (Some(number), _) => Some(("socketcall", number)),
        (_, Some(number)) => Some(("ipc", number)),
        _ => None,
    }
}

// Adds the rules of these conditions: one for each, if one is enough.
fn push_rules<'a>(
    alloc: Global,
    rules: &mut Vec<Rule<'a>>,
    abi: Abi,
    named: Named<'a>,
    args: &[Argument],
) -> Result<(), AllocError> {
    let is_had = abi.call_number(named.name).is_some();
    if !share_argument(args) {
        return push_rule(alloc, rules, abi, named, is_had, args);
    }
    for argument in args {
        push_rule(alloc, rules, abi, named, is_had, &[*argument])?;
    }
    Ok(())
}

// Adds the rule of these conditions. On i386 it is one of `socketcall` or `ipc` too, by their first argument, or none of a call that isn't there.
fn push_rule<'a>(
    alloc: Global,
    rules: &mut Vec<Rule<'a>>,
    abi: Abi,
    named: Named<'a>,
    is_had: bool,
    args: &[Argument],
) -> Result<(), AllocError> {
    let Named {
        place,
        name,
        action,
    } = named;
    let mut tests = tests_of(alloc, abi, args)?;
    if let Abi::I386 = abi {
        let shared = shared_by(name);
        if let Some((call, number)) = shared {
            let mut own = Vec::new(alloc);
            own.push((0, 0, 0xffff_ffff, u64::from(number)))?;
            for test in tests.as_slice() {
                if test.0 != 0 {
                    own.push(*test)?;
                }
            }
            rules.push(Rule {
                place,
                name,
                call,
                is_had: true,
                tests: own,
                action,
            })?;
        } else if !is_had {
            return Ok(());
        }
    }
    rules.push(Rule {
        place,
        name,
        call: name,
        is_had,
        tests,
        action,
    })?;
    Ok(())
}

// What conditions test, in the order of arguments: nothing under a mask of 0.
fn tests_of(alloc: Global, abi: Abi, args: &[Argument]) -> Result<Vec<Test>, AllocError> {
    let bits = match abi {
        Abi::Native(_) => WHOLE,
        Abi::I386 | Abi::X32 => 0xffff_ffff,
    };
    let mut tests = Vec::new(alloc);
    for argument in args {
        let (operator, value) = comparison(argument);
        let test = test_of(bits, argument.index, operator, value);
        if test.2 != 0 {
            tests.push(test)?;
        }
    }
    tests.sort()?;
    Ok(tests)
}

/// What a condition tests of these bits of its argument; its mask is 0 if it holds whatever that is.
pub(crate) fn test_of(bits: u64, arg_index: u8, operator: SeccompCmpOp, value: u64) -> Test {
    let (operator, mask) = match operator {
        SeccompCmpOp::Eq => (0, bits),
        SeccompCmpOp::Ne => (1, bits),
        SeccompCmpOp::Ge => (2, bits),
        SeccompCmpOp::Gt => (3, bits),
        SeccompCmpOp::Le => (4, bits),
        SeccompCmpOp::Lt => (5, bits),
        SeccompCmpOp::MaskedEq(mask) => (6, mask & bits),
    };
    (arg_index, operator, mask, value & mask)
}
