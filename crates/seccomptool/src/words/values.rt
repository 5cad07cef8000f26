// The values of options and arguments, in clap's matches. If an option takes some names alone, clap lets no other pass. One that a
// command doesn't have isn't given.

ghost use Rattle.std.specs.Prelude.{◌≡◌, codes};
ghost use Rattle.clap.specs.Words.{first_value, found_of};
ghost use Rattle.seccomp_answers.specs.Chosen.{text_of};
ghost use Rattle.seccomptool.specs.Files as spec;
ghost use Rattle.seccomptool.specs.Files.{path_given, start_file};

use super::files::path_in;
use crate::command::Call;
use crate::learn::{AskedArguments, Start};
use clap::ArgMatches;
use seccomp_answers::calls::read_number;
use seccomp_answers::diff::Scope;
use seccomp_answers::findings::Terms;
use seccomp_answers::kind::Reading;
use seccomp_compare::Relation;
use seccomp_names::{capabilities, capability};
use seccomp_profiles::{Abi, Container, Runtime, kernel_of};
use seccomp_tree::Layout;
use seccomp_views::check::format::CheckFormat;
use seccomp_views::program::ProgramFormat;
use seccomp_views::text::Text;
use seccomp_warnings::Code;
use seccompiler::{SeccompAction, TargetArch};

// The capabilities of a container of Docker that is given no others (`DefaultCapabilities` of moby).
const DOCKER: &str =
    "CAP_CHOWN,CAP_DAC_OVERRIDE,CAP_FSETID,CAP_FOWNER,CAP_MKNOD,CAP_NET_RAW,CAP_SETGID,CAP_SETUID,CAP_SETFCAP,\
CAP_SETPCAP,CAP_NET_BIND_SERVICE,CAP_SYS_CHROOT,CAP_KILL,CAP_AUDIT_WRITE";

// The same of Podman (`default_capabilities` of containers.conf(5)).
const PODMAN: &str =
    "CAP_CHOWN,CAP_DAC_OVERRIDE,CAP_FOWNER,CAP_FSETID,CAP_KILL,CAP_NET_BIND_SERVICE,CAP_SETFCAP,CAP_SETGID,\
CAP_SETPCAP,CAP_SETUID,CAP_SYS_CHROOT";

// Adds an item to a list.
fn push<T: Drop>(wrong: &mut Text, list: &mut Vec<T>, item: T) {
    if list.push(item).is_err() {
        wrong.fail();
    }
}

// The codes whose warnings aren't printed.
pub(super) fn allowed_in(found: &ArgMatches<'_>, wrong: &mut Text) -> Vec<Code> {
    let mut allowed = Vec::new(wrong.alloc());
    for name in found.get_strs("allow").unwrap_or(&[]) {
        if let Some(code) = Code::by_name(name) {
            push(wrong, &mut allowed, code);
        }
    }
    allowed
}

pub(super) fn arch_in(found: &ArgMatches<'_>) -> TargetArch
    ensures { result ≡ spec.arch_in (found_of found.now) }
{
    match found.get_str("arch") {
        Some("aarch64" | "arm64") => TargetArch::aarch64,
        Some("riscv64") => TargetArch::riscv64,
        _ => TargetArch::x86_64,
    }
}

// Whose calls are asked about.
pub(super) fn abi_in(found: &ArgMatches<'_>) -> Abi
    ensures { result ≡ spec.abi_in (found_of found.now) }
{
    match found.get_str("arch") {
        Some("x86") => Abi::I386,
        Some("x32") => Abi::X32,
        _ => Abi::Native(arch_in(found)),
    }
}

pub(super) fn layout_in(found: &ArgMatches<'_>) -> Layout {
    match found.get_str("layout") {
        Some("linear") => Layout::Linear,
        _ => Layout::Tree,
    }
}

// Whether the answer is written as JSON.
pub(super) fn is_json(found: &ArgMatches<'_>) -> bool {
    format_in(found) == "json"
}

pub(super) fn program_format_in(found: &ArgMatches<'_>) -> ProgramFormat {
    match format_in(found) {
        "listing" => ProgramFormat::Listing,
        "c" => ProgramFormat::C,
        "json" => ProgramFormat::Json,
        _ => ProgramFormat::Raw,
    }
}

pub(super) fn check_format_in(found: &ArgMatches<'_>) -> CheckFormat {
    match format_in(found) {
        "gcc" => CheckFormat::Gcc,
        "json" => CheckFormat::Json,
        _ => CheckFormat::Text,
    }
}

// The name of the format that is asked for.
fn format_in<'a>(found: &ArgMatches<'a>) -> &'a str {
    if found.get_flag("json") {
        return "json";
    }
    found.get_str("format").unwrap_or("")
}

// The terms on which two files are compared.
pub(super) fn terms_in(found: &ArgMatches<'_>, wrong: &mut Text) -> Terms
    ensures { result.target ≡ spec.arch_in (found_of found.now) }
{
    Terms {
        target: arch_in(found),
        relation: if found.get_flag("only-more") {
            Relation::AtMostAsPermissive
        } else {
            Relation::Alike
        },
        most: number_in(found, wrong, "most"),
    }
}

pub(super) fn scope_in(found: &ArgMatches<'_>) -> Scope {
    if found.get_flag("all") {
        return Scope::All;
    }
    Scope::Named
}

// The number that an option gives.
pub(super) fn number_in(found: &ArgMatches<'_>, wrong: &mut Text, option: &str) -> usize {
    let number = read_number(found.get_str(option).unwrap_or("0"));
    if number.is_none() {
        wrong.push_format(format!(in wrong.alloc();
            "the value of --{option} isn't a number from 0 to 18446744073709551615, decimal or hexadecimal after 0x\n"
        ));
    }
    number.unwrap_or(0) as usize
}

// The call that is asked about.
pub(super) fn call_in<'a>(found: &ArgMatches<'a>, wrong: &mut Text) -> Call<'a>
    ensures { result.name.now ≡ path_given (found_of found.now) (codes "CALL") }
{
    Call {
        name: path_in(found, "CALL"),
        arguments: arguments_in(found, wrong),
    }
}

// The arguments of a call, a negative one as its two's complement, with zeros behind them.
fn arguments_in(found: &ArgMatches<'_>, wrong: &mut Text) -> [u64; 6] {
    let mut arguments = [0; 6];
    for (index, text) in found.get_strs("ARG").unwrap_or(&[]).iter().enumerate() {
        let number = match text.strip_prefix("-") {
            None => read_number(text),
            Some(digits) => match read_number(digits) {
                Some(number @ 1..=0x8000_0000_0000_0000) => Some(number.wrapping_neg()),
                _ => None,
            },
        };
        match (arguments.get_mut(index), number) {
            (Some(argument), Some(number)) => *argument = number,
            (None, _) => wrong.push_str("a call has at most 6 arguments\n"),
            _ => wrong.push_str(
                "an ARG isn't a number from -9223372036854775808 to 18446744073709551615, decimal or hexadecimal after 0x\n",
            ),
        }
    }
    arguments
}

// How what is given is read: whether as profiles, and in the container of the capabilities that `--cap` names, of the kernel that
// `--kernel` names, and of the runtime of `--runtime`; and whether names that are left out are listed.
pub(super) fn reading_in(found: &ArgMatches<'_>, wrong: &mut Text) -> Reading {
    let version = found.get_str("kernel");
    let kernel = kernel_of(version.unwrap_or(""));
    if version.is_some() && kernel.is_none() {
        wrong.push_str("the value of --kernel isn't a version of two numbers, such as 6.1\n");
    }
    Reading {
        of_profiles: found.get_flag("oci"),
        container: Container {
            caps: caps_in(found, wrong),
            kernel,
            runtime: match found.get_str("runtime") {
                Some("runc") => Runtime::Runc,
                _ => Runtime::Crun,
            },
        },
        listed: found.get_flag("verbose"),
    }
}

// The capabilities that are given, as profiles name them. All, or those that an engine gives each container, have one name.
fn caps_in(found: &ArgMatches<'_>, wrong: &mut Text) -> Vec<String> {
    let mut caps = Vec::new(wrong.alloc());
    for list in found.get_strs("cap").unwrap_or(&[]) {
        for name in list.split(',') {
            match name {
                "all" | "ALL" => {
                    for cap in capabilities() {
                        push_caps(wrong, &mut caps, cap);
                    }
                }
                "docker-default" => push_caps(wrong, &mut caps, DOCKER),
                "podman-default" => push_caps(wrong, &mut caps, PODMAN),
                _ => push_caps(wrong, &mut caps, name),
            }
        }
    }
    caps
}

// Adds those of these names.
fn push_caps(wrong: &mut Text, caps: &mut Vec<String>, names: &str) {
    let alloc = wrong.alloc();
    for name in names.split(',') {
        match capability(name) {
            Some(cap) => match String::from_str(alloc, cap) {
                Ok(cap) => push(wrong, caps, cap),
                Err(_) => wrong.fail(),
            },
            None => wrong.push_format(format!(in alloc; "no capability is called '{name}'\n")),
        }
    }
}

// What the calls of a trace are added to.
pub(super) fn start_in<'a>(found: &ArgMatches<'a>, wrong: &mut Text) -> Start<'a>
    ensures { text_of (start_file result) ≡ first_value (found_of found.now) (codes "into") }
{
    if let Some(path) = found.get_str("into") {
        return Start::Into(path);
    }
    let action = action_of(found.get_str("otherwise").unwrap_or("kill_process"));
    if action.is_none() {
        wrong.push_str(
            "the value of --otherwise isn't kill_process, kill_thread, log, trap, errno:N or trace:N\n",
        );
    }
    Start::Otherwise(action.unwrap_or(SeccompAction::KillProcess))
}

// The action that a text names; a number that it has is one that 16 bits hold.
fn action_of(text: &str) -> Option<SeccompAction> {
    match text {
        "kill_process" => return Some(SeccompAction::KillProcess),
        "kill_thread" => return Some(SeccompAction::KillThread),
        "log" => return Some(SeccompAction::Log),
        "trap" => return Some(SeccompAction::Trap),
        _ => {}
    }
    let (name, number) = text.split_once(':')?;
    let number = u32::from(u16::try_from(read_number(number)?).ok()?);
    match name {
        "errno" => Some(SeccompAction::Errno(number)),
        "trace" => Some(SeccompAction::Trace(number)),
        _ => None,
    }
}

// The arguments whose values are kept.
pub(super) fn kept_in<'a>(found: &ArgMatches<'a>, wrong: &mut Text) -> Vec<AskedArguments<'a>> {
    let mut all = Vec::new(wrong.alloc());
    for text in found.get_strs("args").unwrap_or(&[]) {
        let (call, list) = text.split_once(':').unwrap_or((*text, "0,1,2,3,4,5"));
        let mut indices = [false; 6];
        for index in list.split(',') {
            match read_number(index) {
                Some(index @ 0..=5) => indices[index as usize] = true,
                _ => wrong.push_str(
                    "the value of --args isn't CALL or CALL:INDEX,.. with indices from 0 to 5\n",
                ),
            }
        }
        push(wrong, &mut all, AskedArguments { call, indices });
    }
    all
}
