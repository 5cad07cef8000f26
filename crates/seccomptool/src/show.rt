// The programs of what is given, for people, or how long they are and how many steps they take.

ghost use Rattle.std.specs.Prelude.{IfErr, IfOk, OnOk};
ghost use Rattle.seccomptool.specs.Causes.{IsUnshown, IsUnshownAs};
ghost use Rattle.seccomptool.specs.Commands.{IsPlain, IsShown, IsShownUnless};

use crate::command::Show;
use crate::made::{Made, shown};
use seccomp_answers::error::AnswerError;
use seccomp_answers::kind::{Subject, subject_of};
use seccomp_answers::measures::{measure_of, stats_of};
use seccomp_answers::programs::programs_in;
use seccomp_answers::sides::{Side, ruled_by};
use seccomp_views::json::written;
use seccomp_views::program::{push_measure, push_program, push_programs, push_stats};
use seccomp_views::text::Text;
use std::alloc::Global;

pub(crate) fn show_made(alloc: Global, asked: &Show<'_>, given: &[u8]) -> Result<Made, AnswerError>
    ensures made { IfOk result (λ made. IsShown asked.now given.now × IsPlain made) }
    ensures cause { IfErr result (IsUnshown asked.now given.now) }
{
    let subject = subject_of(alloc, &asked.reading, given)?;
    let mut text = Text::new(alloc);
    push_shown(&mut text, asked, subject, given)?;
    let name = if asked.measured {
        "measures"
    } else {
        "programs"
    };
    Made::plain(alloc, shown(written(text, asked.json, name)))
}

// Adds the programs of what is given, or how long they are and how many steps they take: of a policy those of all filters, or of the
// one that is asked for.
fn push_shown(
    text: &mut Text,
    asked: &Show<'_>,
    subject: Subject<'_>,
    given: &[u8],
) -> Result<(), AnswerError>
    ensures shown { OnOk result (IsShownUnless asked.now.measured asked.now.arch subject.entry asked.now.layout given.now) }
    ensures cause { IfErr result (IsUnshownAs asked.now subject.entry given.now) }
{
    let (alloc, arch, filter, json) = (text.alloc(), asked.arch, asked.subject.filter, asked.json);
    if let Subject::Policy = subject {
        if asked.measured {
            push_stats(text, json, filter, &stats_of(alloc, arch, filter, given)?);
            return Ok(());
        }
        let programs = programs_in(alloc, arch, asked.layout, filter, given)?;
        push_programs(text, arch, json, filter, &programs);
        return Ok(());
    }
    let side = Side {
        kind: subject,
        filter,
        given,
    };
    let one = ruled_by(alloc, arch, side)?;
    let name = one.name.as_str();
    if asked.measured {
        let measure = measure_of(alloc, arch, &one.program)?;
        push_measure(text, json, name, None, measure);
        return Ok(());
    }
    push_program(text, arch, json, name, &one.program);
    Ok(())
}
