// The program of a filter, of a profile or one that is given, in the form that is asked for.

ghost use Rattle.std.specs.Prelude.{◌≡◌, IfErr, IfOk};
ghost use Rattle.seccomp_answers.specs.Compiled.{instruction_bytes, program_bytes};
ghost use Rattle.seccomp_answers.specs.declared.kind.Subject.TheVariants.{Policy};
ghost use Rattle.seccomp_views.specs.Written.{IsWrittenAs};
ghost use Rattle.seccomp_answers.specs.declared.kind.Subject.TheVariants.{Profile};
ghost use Rattle.seccomptool.specs.Causes.{AreNamesTold, IsSizeTold, IsUncompiled, IsUncompiledAs, IsUncompiledProfile};
ghost use Rattle.seccomptool.specs.Commands.{IsCompiled, IsPlain, IsWrittenOf};

use crate::command::Compile;
use crate::made::{Made, shown};
use crate::notes::push_counted;
use seccomp_answers::chosen::{chosen_filter, refuse_name};
use seccomp_answers::error::AnswerError;
use seccomp_answers::findings::Verdict;
use seccomp_answers::kind::{Subject, subject_of};
use seccomp_answers::profile::compiled_of;
use seccomp_answers::program::program_of;
use seccomp_profiles::{CompileError, Container};
use seccomp_text::readable::TextKind;
use seccomp_tree::{FilterError, Layout, to_bpf_in};
use seccomp_views::notes::{each_once, push_install_notes, push_profile_notes};
use seccomp_views::program::{ProgramFormat, program_text};
use seccomp_views::text::Text;
use seccompiler::{BpfProgramRef, SeccompFilter, TargetArch};
use std::alloc::{AllocError, Global};

pub(crate) fn compile_made(
    alloc: Global,
    asked: &Compile<'_>,
    path: &str,
    given: &[u8],
) -> Result<Made, AnswerError>
    ensures made { IfOk result (λ made. IsCompiled asked.now given.now made.text.items × IsPlain made) }
    ensures cause { IfErr result (IsUncompiled asked.now given.now) }
{
    match subject_of(alloc, &asked.reading, given)? {
        Subject::Policy => policy_made(alloc, asked, path, given),
        Subject::Profile(container) => {
            refuse_name(alloc, asked.subject.filter)?;
            profile_made(alloc, asked, container, path, given)
        }
        Subject::Program => {
            refuse_name(alloc, asked.subject.filter)?;
            let program = program_of(alloc, given)?;
            Made::plain(
                alloc,
                program_written(alloc, asked.format, "program", &program),
            )
        }
    }
}

// Compiles a filter of a policy: the one of the name that is asked for, or else the only one. Only this filter is compiled, so that
// another one is too large is no error.
fn policy_made(
    alloc: Global,
    asked: &Compile<'_>,
    path: &str,
    policy: &[u8],
) -> Result<Made, AnswerError>
    ensures made { IfOk result (λ made. IsWrittenOf asked.now Policy policy.now made.text.items × IsPlain made) }
    ensures cause { IfErr result (IsUncompiledAs asked.now Policy policy.now) }
{
    let arch = asked.arch;
    let (name, chosen) = chosen_filter(alloc, arch, asked.subject.filter, policy)?;
    let program = match to_bpf_in(alloc, &chosen, asked.layout) {
        Ok(program) => program,
        Err(cause) => return Err(too_large(alloc, &chosen, name.as_str(), cause)),
    };
    let mut notes = Text::new(alloc);
    push_counted(&mut notes, asked.quiet, arch, path, policy);
    let text = program_written(alloc, asked.format, name.as_str(), &program);
    Made::of(text, Verdict::Same, notes)
}

fn profile_made(
    alloc: Global,
    asked: &Compile<'_>,
    container: &Container,
    path: &str,
    profile: &[u8],
) -> Result<Made, AnswerError>
    ensures made { IfOk result (λ made. IsWrittenOf asked.now (Profile container.entry) profile.now made.text.items × IsPlain made) }
    ensures cause { IfErr result (IsUncompiledProfile asked.now.arch container.now asked.now.strict profile.now) }
{
    let arch = asked.arch;
    let compiled = match compiled_of(alloc, arch, container, asked.strict, profile) {
        Ok(compiled) => compiled,
        Err(error) => return Err(uncompiled(alloc, arch, error)),
    };
    let mut notes = Text::new(alloc);
    if !asked.quiet {
        let listed = asked.reading.listed;
        push_profile_notes(&mut notes, arch, path, listed, &compiled, "killed");
        push_install_notes(&mut notes, path, &compiled);
    }
    let text = program_written(alloc, asked.format, "profile", &compiled.program);
    Made::of(text, Verdict::Same, notes)
}

// What is written of a program: its bytes, or a text as people read it.
pub(crate) fn program_written(
    alloc: Global,
    format: ProgramFormat,
    name: &str,
    program: BpfProgramRef<'_>,
) -> Result<Vec<u8>, AllocError>
    ensures { IfOk result (λ written. IsWrittenAs format program.now written.items) }
{
    let text = program_text(alloc, format, name, program);
    match format {
        ProgramFormat::Raw => text,
        _ => shown(text),
    }
}

// Why a filter of this name has no program in a layout: if it is too large, with the length that it would have, if that is known,
// and with its length in the other layout, where it fits.
pub(crate) fn too_large(
    alloc: Global,
    filter: &SeccompFilter,
    name: &str,
    cause: FilterError,
) -> AnswerError
    ensures { IsSizeTold cause result }
{
    let mut told = Text::new(alloc);
    told.push_readable(name, TextKind::Name);
    let (other, other_name) = match cause {
        FilterError::FilterTooLarge(length) => {
            told.push_format(format!(in alloc;
                ": needs {length} instructions in the linear layout; 4096 fit"
            ));
            (Layout::Tree, "tree")
        }
        FilterError::TreeTooLarge => {
            told.push_str(": needs more than 4096 instructions in the tree layout");
            (Layout::Linear, "linear")
        }
        cause => return cause.into(),
    };
    match to_bpf_in(alloc, filter, other) {
        Ok(program) => told.push_format(format!(in alloc;
            "; {} in the {other_name} layout",
            program.len()
        )),
        Err(FilterError::FilterTooLarge(_) | FilterError::TreeTooLarge) => {}
        Err(_) => told.fail(),
    }
    match told.finish_string() {
        Ok(told) => AnswerError::Fault(told),
        Err(error) => error.into(),
    }
}

/// Why a profile isn't compiled: the error, or the names that no call of the architecture has.
pub(crate) fn uncompiled(alloc: Global, arch: TargetArch, error: AnswerError) -> AnswerError
    ensures { AreNamesTold error result }
{
    let AnswerError::Profile(cause) = &error else {
        return error;
    };
    let CompileError::UnknownNames(names) = cause else {
        return error;
    };
    let told = match each_once(alloc, names) {
        Ok((count, names)) => format!(in alloc; "not system calls of {arch} ({count}){names}"),
        Err(error) => Err(error),
    };
    // Here, so that no branch below has to.
    drop(error);
    match told {
        Ok(told) => AnswerError::Fault(told),
        Err(error) => error.into(),
    }
}
