// The commands, and what each is asked for.

ghost use Rattle.std.specs.Prelude.{◌≡◌, IfOk, option_map};
ghost use Rattle.seccomp_answers.specs.Chosen.{text_of};
ghost use Rattle.seccomptool.specs.Files as spec;

use crate::learn::{AskedArguments, Start};
use seccomp_answers::diff::Scope;
use seccomp_answers::findings::Terms;
use seccomp_answers::kind::Reading;
use seccomp_profiles::Abi;
use seccomp_tree::Layout;
use seccomp_views::check::format::CheckFormat;
use seccomp_views::program::ProgramFormat;
use seccomp_warnings::Code;
use seccompiler::TargetArch;
use std::alloc::{AllocError, Global};

/// A file, or standard input if its path is `-`, and the filter that is asked for of it; its only one if none is.
#[derive(Clone, Copy)]
pub struct Named<'a> {
    pub path: &'a str,
    pub filter: Option<&'a str>,
}

/// A call that a command is asked about.
#[derive(Clone, Copy)]
pub struct Call<'a> {
    /// Its name or number.
    pub name: &'a str,
    /// Its arguments, 0 if none is given.
    pub arguments: [u64; 6],
}

/// Where the calls are that are explained.
#[derive(Clone, Copy)]
pub enum Calls<'a> {
    /// In the arguments: this one.
    One(Call<'a>),
    /// In the records of a file.
    Records(&'a str),
    /// In the lines of a log or of a trace.
    Log(&'a str),
}

impl<'a> Calls<'a> {
    /// The path of the file that they are in, if they are in one.
    pub fn file(&self) -> Option<&'a str>
        ensures { result ≡ spec.calls_file self.now }
    {
        match *self {
            Calls::One(_) => None,
            Calls::Records(path) | Calls::Log(path) => Some(path),
        }
    }
}

/// Prints what is wrong with files, or else their warnings, one after the other.
#[derive(Drop)]
pub struct Check<'a> {
    pub arch: TargetArch,
    /// Whether warnings count for the exit status.
    pub denied: bool,
    pub format: CheckFormat,
    pub reading: Reading,
    /// The codes whose warnings aren't printed.
    pub allowed: Vec<Code>,
    pub subjects: Vec<&'a str>,
}

/// Writes the program of a file.
#[derive(Drop)]
pub struct Compile<'a> {
    pub arch: TargetArch,
    pub layout: Layout,
    pub format: ProgramFormat,
    /// Whether a profile's names that no call of the architecture has are an error.
    pub strict: bool,
    /// Whether notes are left out.
    pub quiet: bool,
    pub subject: Named<'a>,
    /// The path of the file that is written, in place of standard output.
    pub output: Option<&'a str>,
    pub reading: Reading,
}

/// Prints the programs of a file for people, or how long they are and how many steps they take.
#[derive(Drop)]
pub struct Show<'a> {
    pub arch: TargetArch,
    pub layout: Layout,
    pub measured: bool,
    pub json: bool,
    pub subject: Named<'a>,
    pub reading: Reading,
}

/// Prints what is decided for calls, and why.
#[derive(Drop)]
pub struct Explain<'a> {
    /// Whose calls are explained.
    pub abi: Abi,
    pub json: bool,
    /// What holds too and was installed before the subject, in this order.
    pub before: Vec<Named<'a>>,
    pub subject: Named<'a>,
    pub calls: Calls<'a>,
    pub reading: Reading,
}

/// Prints the calls that two files decide differently.
#[derive(Drop)]
pub struct Diff<'a> {
    pub terms: Terms,
    /// Which calls count for the exit status.
    pub scope: Scope,
    /// Whether there is a line for each call.
    pub each: bool,
    pub json: bool,
    /// Whether the numbers of warnings are left out.
    pub quiet: bool,
    pub old: Named<'a>,
    pub new: Named<'a>,
    pub reading: Reading,
}

/// Writes one program that answers as several files do that hold together.
#[derive(Drop)]
pub struct Stack<'a> {
    pub arch: TargetArch,
    pub format: ProgramFormat,
    /// In the order in which they were installed.
    pub layers: Vec<Named<'a>>,
    pub output: Option<&'a str>,
    pub reading: Reading,
}

/// Writes a policy of the calls that traces have.
#[derive(Drop)]
pub struct Learn<'a> {
    pub arch: TargetArch,
    /// What the calls are added to.
    pub start: Start<'a>,
    /// The name of the filter that is learned, if it is given.
    pub name: Option<&'a str>,
    /// The most different values that are kept of a call.
    pub most: usize,
    /// Whether the calls that the C library makes by itself are allowed too.
    pub runnable: bool,
    /// Whether a second filter answers `clone3` with ENOSYS, and `clone` is allowed too.
    pub old_clone: bool,
    /// Whether a profile is written.
    pub as_profile: bool,
    /// Whether a drop-in of systemd is written.
    pub as_unit: bool,
    /// Whether lines that aren't understood are an error.
    pub strict: bool,
    pub json: bool,
    /// The arguments whose values are kept, beside the usual ones.
    pub arguments: Vec<AskedArguments<'a>>,
    pub traces: Vec<&'a str>,
    pub output: Option<&'a str>,
}

/// Prints the name and the number of a call, or writes its record.
#[derive(Clone, Copy)]
pub struct Lookup<'a> {
    pub arch: TargetArch,
    /// Whether no architecture is named: a call of each is printed then.
    pub each_arch: bool,
    pub call: Call<'a>,
    pub recorded: bool,
    pub json: bool,
    pub output: Option<&'a str>,
}

/// What the arguments ask for.
#[derive(Drop)]
pub enum Command<'a> {
    Check(Check<'a>),
    /// Prints the codes of warnings, as JSON or not.
    Codes(bool),
    Compile(Compile<'a>),
    Show(Show<'a>),
    Explain(Explain<'a>),
    Diff(Diff<'a>),
    Stack(Stack<'a>),
    Learn(Learn<'a>),
    Call(Lookup<'a>),
}

impl<'a> Command<'a> {
    /// The files that are read, in their order; of `check` none, since each is a task by itself.
    pub fn files(&self, alloc: Global) -> Result<Vec<Named<'a>>, AllocError>
        ensures { IfOk result (λ files. files.items ≡ spec.files_of self.now) }
    {
        let mut files = Vec::new(alloc);
        match self {
            Command::Check(_) | Command::Codes(_) | Command::Call(_) => {}
            Command::Compile(asked) => files.push(asked.subject)?,
            Command::Show(asked) => files.push(asked.subject)?,
            Command::Explain(asked) => {
                files.extend_from_slice(&asked.before)?;
                files.push(asked.subject)?;
                if let Some(path) = asked.calls.file() {
                    files.push(whole(path))?;
                }
            }
            Command::Diff(asked) => {
                files.push(asked.old)?;
                files.push(asked.new)?;
            }
            Command::Stack(asked) => files.extend_from_slice(&asked.layers)?,
            Command::Learn(asked) => {
                for path in &asked.traces {
                    files.push(whole(path))?;
                }
                if let Some(path) = asked.start.file() {
                    files.push(whole(path))?;
                }
            }
        }
        Ok(files)
    }

    /// The files that are checked, one after the other, if it is a check.
    pub fn subjects(&self) -> Option<&[&'a str]>
        ensures { option_map (λ all. all.now) result ≡ spec.subjects_of self.now }
    {
        match self {
            Command::Check(asked) => Some(&asked.subjects),
            _ => None,
        }
    }

    /// The path of the file that is written; none of standard output.
    pub fn output(&self) -> Option<&'a str>
        ensures { text_of result ≡ spec.output_of self.now }
    {
        match self {
            Command::Compile(asked) => asked.output,
            Command::Stack(asked) => asked.output,
            Command::Learn(asked) => asked.output,
            Command::Call(asked) => asked.output,
            _ => None,
        }
    }

    /// Whether bytes are written that are no text.
    pub fn writes_bytes(&self) -> bool
        ensures { result ≡ spec.writes_bytes self.now }
    {
        match self {
            Command::Compile(asked) => matches!(asked.format, ProgramFormat::Raw),
            Command::Stack(asked) => matches!(asked.format, ProgramFormat::Raw),
            Command::Call(asked) => asked.recorded,
            _ => false,
        }
    }

    /// Whether a list is written, of what is found in each file.
    pub fn lists(&self) -> bool
        ensures { result ≡ spec.lists self.now }
    {
        match self {
            Command::Check(asked) => matches!(asked.format, CheckFormat::Json),
            _ => false,
        }
    }
}

/// A file of which no filter is asked for.
pub fn whole(path: &str) -> Named<'_>
    ensures { result ≡ spec.whole path.entry }
{
    Named { path, filter: None }
}
