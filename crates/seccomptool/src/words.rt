// The words that the program is called with.

mod files;
mod program;
mod values;

ghost use Rattle.std.specs.Prelude.{IfOk, None};
ghost use Rattle.clap.specs.Words.{found_of};
ghost use Rattle.seccomptool.specs.Files.{IsAsked, IsAskedBy, IsFor};
ghost use Rattle.seccomptool.specs.declared.command.Command.TheVariants as command;

use crate::command::{Check, Command, Compile, Diff, Explain, Learn, Lookup, Show, Stack};
use crate::outside::Outside;
use crate::words::files::{
    all_named_in, calls_in, named_in, output_in, path_in, paths_in, subject_in,
};
use crate::words::program::program;
use crate::words::values::{
    abi_in, allowed_in, arch_in, call_in, check_format_in, is_json, kept_in, layout_in, number_in,
    program_format_in, reading_in, scope_in, start_in, terms_in,
};
use clap::ArgMatches;
use clap::error::ErrorKind;
use seccomp_views::text::Text;
use seccomp_warnings::Code;
use std::alloc::{AllocError, Global};

// A table of each command: its name and what it does, and in a line each its options and arguments, with what the help says of them
// behind `: `. `--NAME` is an option that takes nothing, and `--NAME VALUE` one with a value; any other word is an argument. Behind
// the name of a value or an argument stands `..` if several may be given, and `=` with what it is if none is given; behind that of
// an argument that may be left out `?`, and behind that of a call's arguments `*`. Of an option's other words `-L` is a letter that
// it has too, `!NAME` what can't be given with it, and `+NAME` what it needs.

// The options of every command that takes subjects.
const COMMON: &str = "\
--arch -a ARCH=x86_64: The architecture
--oci: Read each text as a profile of a container runtime, whatever it contains
--cap CAP..: Capabilities of a profile's container, such as CAP_SYS_ADMIN,CAP_BPF; all; docker-default; podman-default
--kernel KERNEL: The kernel version for a profile, such as 6.1; without it, newer than any
--runtime RUNTIME=crun: The runtime of a profile's container";

const CHECK: &str = "\
check: Print what is wrong with a policy or a profile, and where, or else its warnings
--deny-warnings: End with exit status 1 if there is a warning
--allow CODE..: Don't print the warnings of this code
--format FORMAT !json: How errors and warnings are written: for people, in lines as gcc's, or as JSON
--json: Write the answer as one JSON object
--list: Print what each warning code means, and check nothing
--verbose -v: List the names of a profile that are left out
SUBJECT..=-: The files, or - for standard input";

const COMPILE: &str = "\
compile: Write the program of a filter or of a profile
--filter -f FILTER: The name of the filter; optional if the policy has only one
--layout LAYOUT=tree: How a program finds a call's rules: one call after the other, or by a tree of tests
--format FORMAT=raw !json: How the program is written: as bytes, as a listing, or as a C initializer
--json: Write the answer as one JSON object
--output -o FILE: Write the program to FILE instead of standard output
--quiet -q: Don't print the number of warnings
--verbose -v: List the names of a profile that are left out
--strict: Reject a profile that names calls which the architecture doesn't have
SUBJECT=-: The file of a policy, profile or program, or - for standard input; append :FILTER to name a filter";

const SHOW: &str = "\
show: Print programs, with notes on their instructions
--filter -f FILTER: The name of the filter to show; without it all filters are shown
--layout LAYOUT=tree: How a program finds a call's rules: one call after the other, or by a tree of tests
--stats: Print how long the programs are, and how many steps they take
--json: Write the answer as one JSON object
SUBJECT=-: The file of a policy, profile or program, or - for standard input; append :FILTER to name a filter";

const EXPLAIN: &str = "\
explain: Print what is decided for calls, and why
--filter -f FILTER: The name of the filter; optional if the policy has only one
--json: Write the answer as one JSON object
--after SUBJECT..: What holds too and was installed before SUBJECT, in this order; append :FILTER to name a filter
--records FILE !CALL !log: Without CALL, read call records from FILE instead of standard input
--log FILE !CALL: Explain the calls that lines of a log or of strace in FILE are about
SUBJECT: The file of a policy, profile or program, or - for standard input; append :FILTER to name a filter
CALL?: The call's name or number
ARG*: The call's arguments; those that aren't given are 0";

const DIFF: &str = "\
diff: Print the calls that OLD and NEW decide differently
--only-more: Report only calls of which NEW permits more than OLD
--all: Count other architectures for the exit status too, if a program is compared
--each !json: Print a line for each call, even if many change in the same way
--most N=10000000: The most sets of arguments to examine for each call
--json: Write the answer as one JSON object
--quiet -q: Don't print the number of warnings
OLD: The old file, or - for standard input; append :FILTER to name a filter
NEW: The new file, or - for standard input; append :FILTER to name a filter";

const STACK: &str = "\
stack: Write one program that answers as all SUBJECTs do if they hold together
--format FORMAT=raw !json: How the program is written: as bytes, as a listing, or as a C initializer
--json: Write the answer as one JSON object
--output -o FILE: Write the program to FILE instead of standard output
SUBJECT..: The files in the order in which they were installed, or - for standard input; append :FILTER to name a filter";

const LEARN: &str = "\
learn: Print a policy of the calls that a trace has
--arch -a ARCH=x86_64: The architecture
--name NAME: The name of the filter; `main`, or with --into the policy's only one
--otherwise ACTION: What other calls get: kill_process (the default), kill_thread, trap, log, errno:N or trace:N
--into POLICY !otherwise !profile: Add to a filter of this policy; its other filters stay
--profile !name: Write a profile of a container runtime instead of a policy
--unit !profile !json: Write a drop-in of a systemd unit, with SystemCallFilter=, instead of a policy
--old-clone !profile !unit: Allow clone and clone3, and answer clone3 with ENOSYS in a second filter, NAME_clone3
--args CALL[:INDEX,..]..: Keep the values of these arguments of a call, as in ioctl:1 or openat:2,3; all without INDEX
--values N=16: The most different values to keep of a call; one with more is allowed with any arguments
--runnable: Allow too what the C library calls by itself: to start, allocate, make threads, abort and end
--strict: Reject a trace with lines that aren't understood
--json: Write the answer as one JSON object
--output -o FILE: Write to FILE instead of standard output
TRACE..=-: What strace, the kernel's log or audit wrote, or call records; - for standard input";

const CALL: &str = "\
call: Print the name and the number of a call, or write its struct seccomp_data
--arch -a ARCH: The architecture
--json: Write the answer as one JSON object
--record !json: Write the call's record, 64 bytes
--output -o FILE +record !json: Write the record to FILE instead of standard output
CALL: The call's name or number
ARG*: The call's arguments; those that aren't given are 0";

// The tables of the commands, in the order of the help, each after the options that it shares with others.
const TABLES: [(&str, &str); 8] = [
    (COMMON, CHECK),
    (COMMON, COMPILE),
    (COMMON, SHOW),
    (COMMON, EXPLAIN),
    (COMMON, DIFF),
    (COMMON, STACK),
    ("", LEARN),
    ("", CALL),
];

/// Reads the arguments that follow the program's name: what they ask for. The names of all codes of warnings are added to `codes`.
///
/// # Errors
///
/// `clap`'s: help and the version, and its own error of arguments that are no command, that exclude each other, or that lack
/// another one. `ValueValidation` if an ARG or the value of `--most` or `--values` is no number, if options stand between more
/// than six ARGs, if the value of `--kernel` is no version or that of `--cap` no capability, if that of `--otherwise` or `--args`
/// is none, if a filter is named by SUBJECT and by `--filter`, and if two files would both be read from standard input: what is
/// explained and records or a log, both of what is compared, or a trace and the policy. Of several faults one is reported.
/// `OutOfMemory` may come in place of any.
pub(crate) fn read<'a, O: Outside>(
    alloc: Global,
    out: &O,
    words: &'a [String],
    codes: &'a mut Vec<&'static str>,
) -> Result<Command<'a>, clap::Error>
    ensures { IfOk result (IsAsked (O.there out.now)) }
{
    for code in Code::all() {
        codes.push(code.name)?;
    }
    let first = match words.first() {
        Some(word) => word.as_str(),
        None => "",
    };
    let mut program = program(alloc, &TABLES, first, codes)?;
    asked_of(alloc, out, &mut program, words)
}

// What these words ask the program for.
fn asked_of<'a, O: Outside>(
    alloc: Global,
    out: &O,
    program: &mut clap::Command<'a>,
    words: &'a [String],
) -> Result<Command<'a>, clap::Error>
    ensures { IfOk result (IsAsked (O.there out.now)) }
{
    let matches = program.try_get_matches_from_mut(words)?;
    let mut wrong = Text::new(alloc);
    // clap lets no words pass without a subcommand.
    let (name, found) = matches.subcommand().unwrap_or(("", &matches));
    let asked = command_for(out, name, found, &mut wrong);
    // Here, so that no branch below has to.
    drop(matches);
    let Some(command) = asked? else {
        return Err(program.error(ErrorKind::InvalidSubcommand, "no command is named")?);
    };
    wrong.push_str(twice_read(&command));
    // `--list` prints the codes, whatever else is asked for.
    let is_list = matches!(command, Command::Codes(_));
    match wrong.finish_string() {
        Ok(lines) if is_list || lines.is_empty() => Ok(command),
        lines => {
            drop(command);
            let lines = lines?;
            let first = lines.as_str().lines().next().unwrap_or("");
            Err(program.error(ErrorKind::ValueValidation, first)?)
        }
    }
}

// What is wrong with a command that would read standard input twice.
fn twice_read(command: &Command<'_>) -> &'static str {
    match command {
        Command::Explain(asked)
            if asked.calls.file() == Some("-")
                && (asked.subject.path == "-"
                    || asked.before.iter().any(|named| named.path == "-")) => {
            "SUBJECT and records can't both be read from standard input: give CALL, --records or --log\n"
        }
        Command::Diff(asked) if asked.old.path == "-" && asked.new.path == "-" => {
            "OLD and NEW can't both be read from standard input\n"
        }
        Command::Learn(asked) if asked.start.file() == Some("-") && asked.traces.contains(&"-") => {
            "TRACE and POLICY can't both be read from standard input\n"
        }
        _ => "",
    }
}

// What the matches of the subcommand of this name ask for. What clap can't check is checked here: each fault is a line of `wrong`.
fn command_for<'a, O: Outside>(
    out: &O,
    name: &str,
    found: &ArgMatches<'a>,
    wrong: &mut Text,
) -> Result<Option<Command<'a>>, AllocError>
    ensures { IfOk result (IsFor (O.there out.now) (found_of found.now) name.now) }
{
    match name {
        "check" if found.get_flag("list") => Ok(Some(Command::Codes(is_json(found)))),
        "check" => Ok(Some(Command::Check(check_for(found, wrong)?))),
        "compile" => Ok(Some(Command::Compile(compile_for(out, found, wrong)))),
        "show" => Ok(Some(Command::Show(show_for(out, found, wrong)))),
        "explain" => Ok(Some(Command::Explain(explain_for(out, found, wrong)?))),
        "diff" => Ok(Some(Command::Diff(diff_for(out, found, wrong)))),
        "stack" => Ok(Some(Command::Stack(stack_for(out, found, wrong)?))),
        "learn" => Ok(Some(Command::Learn(learn_for(found, wrong)?))),
        "call" => Ok(Some(Command::Call(lookup_for(found, wrong)))),
        _ => Ok(None),
    }
}

fn check_for<'a>(found: &ArgMatches<'a>, wrong: &mut Text) -> Result<Check<'a>, AllocError>
    ensures { IfOk result (λ asked. IsAskedBy None (found_of found.now) (command.Check asked)) }
{
    Ok(Check {
        arch: arch_in(found),
        denied: found.get_flag("deny-warnings"),
        format: check_format_in(found),
        reading: reading_in(found, wrong),
        allowed: allowed_in(found, wrong),
        subjects: paths_in(wrong.alloc(), found, "SUBJECT")?,
    })
}

fn compile_for<'a, O: Outside>(out: &O, found: &ArgMatches<'a>, wrong: &mut Text) -> Compile<'a>
    ensures { IsAskedBy (O.there out.now) (found_of found.now) (command.Compile result) }
{
    Compile {
        arch: arch_in(found),
        layout: layout_in(found),
        format: program_format_in(found),
        strict: found.get_flag("strict"),
        quiet: found.get_flag("quiet"),
        subject: subject_in(out, found, wrong),
        output: output_in(found),
        reading: reading_in(found, wrong),
    }
}

fn show_for<'a, O: Outside>(out: &O, found: &ArgMatches<'a>, wrong: &mut Text) -> Show<'a>
    ensures { IsAskedBy (O.there out.now) (found_of found.now) (command.Show result) }
{
    Show {
        arch: arch_in(found),
        layout: layout_in(found),
        measured: found.get_flag("stats"),
        json: is_json(found),
        subject: subject_in(out, found, wrong),
        reading: reading_in(found, wrong),
    }
}

fn explain_for<'a, O: Outside>(
    out: &O,
    found: &ArgMatches<'a>,
    wrong: &mut Text,
) -> Result<Explain<'a>, AllocError>
    ensures { IfOk result (λ asked. IsAskedBy (O.there out.now) (found_of found.now) (command.Explain asked)) }
{
    Ok(Explain {
        abi: abi_in(found),
        json: is_json(found),
        before: all_named_in(wrong.alloc(), out, found, "after")?,
        subject: subject_in(out, found, wrong),
        calls: calls_in(found, wrong),
        reading: reading_in(found, wrong),
    })
}

fn diff_for<'a, O: Outside>(out: &O, found: &ArgMatches<'a>, wrong: &mut Text) -> Diff<'a>
    ensures { IsAskedBy (O.there out.now) (found_of found.now) (command.Diff result) }
{
    Diff {
        terms: terms_in(found, wrong),
        scope: scope_in(found),
        each: found.get_flag("each"),
        json: is_json(found),
        quiet: found.get_flag("quiet"),
        old: named_in(out, path_in(found, "OLD")),
        new: named_in(out, path_in(found, "NEW")),
        reading: reading_in(found, wrong),
    }
}

fn stack_for<'a, O: Outside>(
    out: &O,
    found: &ArgMatches<'a>,
    wrong: &mut Text,
) -> Result<Stack<'a>, AllocError>
    ensures { IfOk result (λ asked. IsAskedBy (O.there out.now) (found_of found.now) (command.Stack asked)) }
{
    Ok(Stack {
        arch: arch_in(found),
        format: program_format_in(found),
        layers: all_named_in(wrong.alloc(), out, found, "SUBJECT")?,
        output: output_in(found),
        reading: reading_in(found, wrong),
    })
}

fn learn_for<'a>(found: &ArgMatches<'a>, wrong: &mut Text) -> Result<Learn<'a>, AllocError>
    ensures { IfOk result (λ asked. IsAskedBy None (found_of found.now) (command.Learn asked)) }
{
    Ok(Learn {
        arch: arch_in(found),
        start: start_in(found, wrong),
        name: found.get_str("name"),
        most: number_in(found, wrong, "values"),
        runnable: found.get_flag("runnable"),
        old_clone: found.get_flag("old-clone"),
        as_profile: found.get_flag("profile"),
        as_unit: found.get_flag("unit"),
        strict: found.get_flag("strict"),
        json: is_json(found),
        arguments: kept_in(found, wrong),
        traces: paths_in(wrong.alloc(), found, "TRACE")?,
        output: output_in(found),
    })
}

fn lookup_for<'a>(found: &ArgMatches<'a>, wrong: &mut Text) -> Lookup<'a>
    ensures { IsAskedBy None (found_of found.now) (command.Call result) }
{
    Lookup {
        arch: arch_in(found),
        each_arch: found.get_str("arch").is_none(),
        call: call_in(found, wrong),
        recorded: found.get_flag("record"),
        json: is_json(found),
        output: output_in(found),
    }
}
