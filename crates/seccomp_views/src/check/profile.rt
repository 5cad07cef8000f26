// What is said of the warnings of a profile.

use crate::check::format::{Lines, Place, said_of_calls};
use crate::lines::{push_arguments, push_example};
use crate::text::Text;
use seccomp_answers::check::CheckedProfile;
use seccomp_answers::findings::parts::name_of;
use seccomp_names::CallTable;
use seccomp_profiles::Abi;
use seccomp_warnings::{
    AbiEvasion, Clash, Code, Comparison, Doubt, Effect, LACKED, Origin, ProfileWarning, Subject,
    code_of,
};
use seccompiler::TargetArch;
use seccompiler::record::word_at;
use std::alloc::{AllocError, Global};
use std::collections::BTreeMap;

// What a line is about: the entry, or none of the profile itself; where the line stands among those of the entry or the profile; the
// part of it; and the name of the call, if it is one of several.
type Spot<'a> = (
    Option<usize>,
    (usize, usize),
    Part<'a>,
    Option<&'static str>,
);

// What is said if an entry asks a supervisor, and none listens.
const NO_LISTENER: &str =
    "without \"listenerPath\" runc starts no container, and under crun these calls fail with ENOSYS, or no container starts if it is empty; write where the supervisor listens";

// A part of a profile or of an entry.
#[derive(Clone, Copy)]
enum Part<'a> {
    // All of it.
    Whole,
    // What is under this key.
    Under(&'a str),
    // This key, which is passed over.
    Key(&'a str),
    // The condition at this place.
    Condition(usize),
    // The architecture at this place.
    Architecture(usize),
}

/// Adds what is said of the warnings of a profile, in the order of their places: once for each code of a place, and for each pair of
/// entries.
pub fn push_profile_warnings(lines: &mut Lines<'_>, target: TargetArch, checked: &CheckedProfile) {
    let alloc = lines.text.alloc();
    let mut ordered = BTreeMap::new(alloc);
    // Backwards, since the first of those with one place and code counts.
    for nth in (0..checked.warnings.len()).rev() {
        let warning = &checked.warnings[nth];
        let (entry, rank, _, _) = spot_of(target, checked, warning);
        let order = (entry, rank, code_of(warning).name());
        if ordered.insert(order, nth).is_err() {
            lines.text.fail();
        }
    }
    for nth in ordered.values() {
        let Some(warning) = checked.warnings.get(*nth) else {
            continue;
        };
        let (entry, _, part, call) = spot_of(target, checked, warning);
        if let Some(entry) = entry {
            lines.key("syscalls");
            lines.item(entry);
        }
        let code = code_of(warning);
        go_to(lines, part, code);
        lines.call = call;
        match said_of(alloc, target, warning) {
            Ok(said) => lines.push("warning", code.name(), said.as_str()),
            Err(_) => lines.text.fail(),
        }
    }
}

// Goes on to a part, and to the one in it that a code is about.
fn go_to(lines: &mut Lines<'_>, part: Part<'_>, code: Code) {
    match part {
        Part::Whole => {}
        Part::Under(key) => lines.key(key),
        Part::Key(key) => {
            lines.key(key);
            lines.place = Place::Key;
        }
        Part::Condition(place) => {
            lines.key("args");
            lines.item(place);
            if let Code::ValueOutsideMask = code {
                lines.key("valueTwo");
            }
        }
        Part::Architecture(place) => {
            lines.key("architectures");
            lines.item(place);
        }
    }
}

// What a warning is about.
fn spot_of<'a>(
    target: TargetArch,
    checked: &'a CheckedProfile,
    warning: &ProfileWarning,
) -> Spot<'a> {
    match warning {
        ProfileWarning::Doubtful(doubt) => spot_of_doubt(target, *doubt),
        ProfileWarning::Clashing(clash) => spot_of_clash(target, clash),
        ProfileWarning::Flags => (None, (2, 0), Part::Under("flags"), None),
        ProfileWarning::Lacked(_) => (None, (5, 0), Part::Under("syscalls"), None),
        ProfileWarning::UnknownKey(place) => {
            let part = match checked.compiled.profile.unknown_keys.get(*place) {
                Some(key) => Part::Key(key.as_str()),
                None => Part::Whole,
            };
            (None, (3, *place), part, None)
        }
        ProfileWarning::UnknownArchitecture(place) => {
            (None, (4, 0), Part::Architecture(*place), None)
        }
        ProfileWarning::OfEntries(warning, origin) => spot_in(target, *origin, warning.subject),
        ProfileWarning::Evaded(evasion, origin) => {
            let subject = Subject::Condition(evasion.comparison);
            spot_in(target, Some(*origin), subject)
        }
        ProfileWarning::AbiEvaded(evasion) => spot_in(target, evasion.origin, Subject::Entry(0)),
    }
}

// What a doubt is about.
fn spot_of_doubt(target: TargetArch, doubt: Doubt) -> Spot<'static> {
    let (default, action) = (Part::Under("defaultAction"), Part::Under("action"));
    match doubt {
        Doubt::LargeDefaultErrno | Doubt::NotifiesByDefault => (None, (0, 0), default, None),
        Doubt::EqualsDefault { place }
        | Doubt::LargeErrno { place }
        | Doubt::NoListener { place } => (Some(place), (0, 0), action, None),
        Doubt::NotifiesWrite { place } => (Some(place), (0, 1), action, None),
        Doubt::Behind { second, number, .. } => {
            let call = name_of(target, number);
            (Some(second), (1, number as usize), Part::Whole, call)
        }
        Doubt::ManyConditions { place } => (Some(place), (2, 0), Part::Under("args"), None),
        Doubt::OpenOrder {
            first,
            second,
            call,
        } => {
            let call = name_of(target, word_at(&call, 0));
            (Some(second), (3, first), Part::Whole, call)
        }
    }
}

// What it is about that libseccomp does to an entry.
fn spot_of_clash(target: TargetArch, clash: &Clash) -> Spot<'static> {
    let call = match clash.abi {
        Abi::I386 => CallTable::I386.name_of(clash.number),
        _ => name_of(target, clash.number),
    };
    let rank = match clash.effect {
        Effect::Unheard => return (Some(clash.place), (0, 0), Part::Under("action"), None),
        Effect::Miscompiled { .. } | Effect::Rejected { .. } => 4,
        Effect::Lost(Abi::I386) => 6,
        Effect::Lost(_) => 5,
    };
    (
        Some(clash.place),
        (rank, clash.number as usize),
        Part::Whole,
        call,
    )
}

// What a warning of a filter is about: the default action, or a rule that is from here.
fn spot_in(target: TargetArch, origin: Option<Origin>, subject: Subject) -> Spot<'static> {
    let default = Part::Under("defaultAction");
    match (origin, subject) {
        (None, Subject::MismatchCall(call)) => {
            (None, (1, call as usize), default, Some(call.name()))
        }
        (None, _) => (None, (0, 0), default, None),
        (Some(origin), Subject::MatchAction(_)) => {
            (Some(origin.entry), (0, 0), Part::Under("action"), None)
        }
        (Some(origin), subject) => match (origin.condition, subject) {
            (Some(place), _) | (None, Subject::Condition(Comparison { place, .. })) => {
                (Some(origin.entry), (2, place), Part::Condition(place), None)
            }
            (None, _) => {
                let call = name_of(target, origin.number);
                (
                    Some(origin.entry),
                    (1, origin.number as usize),
                    Part::Whole,
                    call,
                )
            }
        },
    }
}

// The call that is denied, the one that is let through to 32-bit programs, and what to do.
fn said_on_abi(
    alloc: Global,
    target: TargetArch,
    evasion: &AbiEvasion,
) -> Result<String, AllocError> {
    let AbiEvasion { abi, passed, .. } = evasion;
    let mut text = Text::new(alloc);
    push_example(&mut text, target, false, &evasion.denied);
    text.push_str(" is denied, and let through is ");
    text.push_str(abi.name_of(word_at(passed, 0)).unwrap_or("a call"));
    push_arguments(&mut text, passed);
    text.push_str(" of ");
    text.push_str(abi.name());
    text.push_str(", ");
    text.push_str(Code::AbiEvades.said_of_profile());
    text.finish_string()
}

// What is doubtful or so, and what to write instead.
fn said_of(
    alloc: Global,
    target: TargetArch,
    warning: &ProfileWarning,
) -> Result<String, AllocError> {
    match warning {
        ProfileWarning::Doubtful(Doubt::Behind { first, .. }) => {
            format!(in alloc;
                "syscalls[{first}] decides each of these calls, since it tests no argument; leave the call out here, or correct that entry"
            )
        }
        ProfileWarning::Doubtful(Doubt::OpenOrder { first, call, .. }) => {
            let mut said = Text::new(alloc);
            said.push_format(format!(in alloc; "syscalls[{first}] matches "));
            push_example(&mut said, target, false, call);
            said.push_str(
                " too and has another action, and the profile doesn't say which counts; write args that exclude each other",
            );
            said.finish_string()
        }
        ProfileWarning::Clashing(clash) => said_of_effect(alloc, clash.effect),
        ProfileWarning::Doubtful(Doubt::NotifiesByDefault) => String::from_str(
            alloc,
            "runc starts no container with SCMP_ACT_NOTIFY as the default action; list the calls that the supervisor decides",
        ),
        ProfileWarning::Doubtful(Doubt::NoListener { .. }) => String::from_str(alloc, NO_LISTENER),
        ProfileWarning::Doubtful(Doubt::NotifiesWrite { .. }) => String::from_str(
            alloc,
            "runc starts no container with SCMP_ACT_NOTIFY for write; leave the call out here",
        ),
        ProfileWarning::Evaded(evasion, _) => {
            said_of_calls(alloc, target, evasion, evasion.code.said_of_profile())
        }
        ProfileWarning::AbiEvaded(evasion) => said_on_abi(alloc, target, evasion),
        ProfileWarning::Flags => String::from_str(
            alloc,
            "crun sets them, except SECCOMP_FILTER_FLAG_TSYNC beside SCMP_ACT_NOTIFY, with which it starts no container, and runc 1.1 starts none with any; leave them out for runc",
        ),
        ProfileWarning::Lacked(named) => said_of_lacked(alloc, named),
        ProfileWarning::UnknownArchitecture(_) => String::from_str(
            alloc,
            "the OCI runtime specification has no such architecture, so runc starts no container; correct it, also its letter case, or leave it out",
        ),
        other => String::from_str(alloc, code_of(other).said_of_profile()),
    }
}

// What libseccomp does to an entry, and what to write instead.
fn said_of_effect(alloc: Global, effect: Effect) -> Result<String, AllocError> {
    match effect {
        Effect::Rejected { beside } => {
            format!(in alloc;
                "syscalls[{beside}] has these args and maybe more, and another action, so no container starts; leave the call out of one of them"
            )
        }
        Effect::Miscompiled { beside } => {
            format!(in alloc;
                "syscalls[{beside}] compares the same argument, and libseccomp may make another program or come to no end; write SCMP_CMP_EQ alone, or run the command by jail --oci"
            )
        }
        Effect::Unheard => String::from_str(alloc, NO_LISTENER),
        Effect::Lost(abi) => said_of_lost(alloc, abi),
    }
}

// That all entries are lost by a call that these haven't.
fn said_of_lost(alloc: Global, abi: Abi) -> Result<String, AllocError> {
    let (own, all, but) = match abi {
        Abi::I386 => ("i386", "i386", ", or leave out SCMP_ARCH_X86"),
        Abi::X32 => ("x32", "x86_64 and x32", ", or leave out SCMP_ARCH_X32"),
        Abi::Native(TargetArch::x86_64) => {
            ("x86_64", "x86_64 and x32", ", or leave out SCMP_ARCH_X32")
        }
        Abi::Native(TargetArch::aarch64) => ("aarch64", "aarch64", ""),
        Abi::Native(TargetArch::riscv64) => ("riscv64", "riscv64", ""),
    };
    format!(in alloc;
        "{own} hasn't this call, and so libseccomp loses all entries for {all}; write one without args for a call that {own} has{but}"
    )
}

// Which of the names libseccomp hasn't.
fn said_of_lacked(alloc: Global, named: &[bool; 8]) -> Result<String, AllocError> {
    let mut said = Text::new(alloc);
    said.push_str("libseccomp 2.5.4 hasn't ");
    let mut is_first = true;
    for (name, is_named) in LACKED.iter().zip(named) {
        if *is_named {
            if !is_first {
                said.push_str(", ");
            }
            said.push_str(name);
            is_first = false;
        }
    }
    said.push_str(", so with it the default action is taken there; use a newer libseccomp");
    said.finish_string()
}
