// What `clap` is told of the command line: the commands, and which options and arguments each takes.

use clap::{Arg, ArgAction, Command};
use std::alloc::{AllocError, Global};

// Over the 40 characters behind `commit` tools/package writes the commit, so that the program isn't proved again for it.
const VERSION: &str = "0.6.0 (commit unknown, since it was built from sources)";

const AFTER: &str = "\
SUBJECT, OLD and NEW are a policy, a seccomp profile of a container runtime, or a
program, in bytes or C; the content shows which. FILE is a path, or - for standard
input. CALL is the name or number of a system call. Numbers are decimal, or
hexadecimal after 0x. A negative ARG has to follow --, as in
`seccomptool call --record lseek 3 -- -1`.

Exit status: 0 for yes, 1 for no (`check`: rejected; `diff`: different), 2 for
trouble, 3 if `diff` didn't decide.";

/// The program with the commands of these tables, whose options take these codes of warnings. The arguments that it reads are those
/// after the program's own name. If the first of them is a command's name, `clap` gets no options of the others, at which it wouldn't
/// look.
pub(super) fn program<'a>(
    alloc: Global,
    tables: &[(&'a str, &'a str)],
    first: &str,
    codes: &'a [&'a str],
) -> Result<Command<'a>, AllocError> {
    let is_named = tables.iter().any(|(_, table)| begins_with(table, first));
    let mut commands = Vec::new(alloc);
    for (common, table) in tables {
        let is_asked = !is_named || begins_with(table, first);
        commands.push(subcommand(alloc, common, table, is_asked, codes)?)?;
    }
    Command::new(alloc, "seccomptool")
        .version(VERSION)
        .about("Compiles, checks and explains seccomp policies")
        .after_help(AFTER)
        .no_binary_name(true)
        .subcommand_required(true)
        .arg_required_else_help(true)
        .subcommands(commands)?
        .bin_name("seccomptool")
}

// Whether a table is that of this command.
fn begins_with(table: &str, command: &str) -> bool {
    matches!(table.split_once(": "), Some((name, _)) if name == command)
}

// The command of a table, which has these common options too; without any if it isn't asked for.
fn subcommand<'a>(
    alloc: Global,
    common: &'a str,
    table: &'a str,
    is_asked: bool,
    codes: &'a [&'a str],
) -> Result<Command<'a>, AllocError> {
    let (head, own) = table.split_once('\n').unwrap_or((table, ""));
    let (name, about) = head.split_once(": ").unwrap_or((head, ""));
    let mut args = Vec::new(alloc);
    let parts = if is_asked { [common, own] } else { ["", ""] };
    for rows in parts {
        for row in rows.lines() {
            args.push(arg_of(alloc, name, row, codes)?)?;
        }
    }
    Command::new(alloc, name).about(about).args(args)
}

// The option or argument of a row of a command.
fn arg_of<'a>(
    alloc: Global,
    command: &str,
    row: &'a str,
    codes: &'a [&'a str],
) -> Result<Arg<'a>, AllocError> {
    let (words, help) = row.split_once(": ").unwrap_or((row, ""));
    let (word, further) = words.split_once(' ').unwrap_or((words, ""));
    let Some(name) = word.strip_prefix("--") else {
        return Ok(argument_of(alloc, word).help(help));
    };
    let mut arg = Arg::new(alloc, name)
        .long(name)
        .help(help)
        .action(ArgAction::SetTrue);
    for word in further.split_terminator(' ') {
        arg = match word.split_at_checked(1) {
            Some(("-", letter)) => arg.short(letter.chars().next().unwrap_or('-')),
            Some(("!", other)) => arg.conflicts_with(other)?,
            Some(("+", other)) => arg.requires_arg(other)?,
            _ => valued(arg, word, values_of(command, name, codes)),
        };
    }
    Ok(arg)
}

// An option that takes such a value: one of these, if there are any.
fn valued<'a>(mut arg: Arg<'a>, value: &'a str, values: &'a [&'a str]) -> Arg<'a> {
    if !values.is_empty() {
        arg = arg.value_parser(values);
    }
    if let Some(value) = value.strip_suffix("..") {
        return arg.value_name(value).action(ArgAction::Append);
    }
    let arg = arg.action(ArgAction::Set);
    match value.split_once('=') {
        Some((value, otherwise)) => arg.value_name(value).default_value(otherwise),
        None => arg.value_name(value),
    }
}

fn argument_of<'a>(alloc: Global, word: &'a str) -> Arg<'a> {
    let name = word.split(['.', '=', '?', '*']).next().unwrap_or(word);
    let arg = Arg::new(alloc, name).value_name(name);
    match word.strip_prefix(name).unwrap_or("") {
        "..=-" => arg.default_value("-").num_args(1..),
        "=-" => arg.default_value("-"),
        ".." => arg.required(true).num_args(1..),
        "*" => arg.num_args(0..=6).action(ArgAction::Append),
        "?" => arg,
        _ => arg.required(true),
    }
}

// What an option of a command takes; anything if there is none.
fn values_of<'a>(command: &str, option: &str, codes: &'a [&'a str]) -> &'a [&'a str] {
    match (option, command) {
        ("arch", "explain") => &[
            "x86_64", "aarch64", "riscv64", "amd64", "arm64", "x86", "x32",
        ],
        ("arch", _) => &["x86_64", "aarch64", "riscv64", "amd64", "arm64"],
        ("layout", _) => &["linear", "tree"],
        ("runtime", _) => &["crun", "runc"],
        ("allow", _) => codes,
        ("format", "check") => &["text", "gcc", "json"],
        ("format", "compile" | "stack") => &["raw", "listing", "c"],
        _ => &[],
    }
}
