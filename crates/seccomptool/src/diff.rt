// On which calls a new side rules otherwise than an old one, or permits more.

ghost use Rattle.std.specs.Prelude.{◌≡◌, IfErr, IfOk, false};
ghost use Rattle.seccomptool.specs.Causes.{IsUncompared};
ghost use Rattle.seccomptool.specs.Commands.{IsCompared};

use crate::command::Diff;
use crate::made::{Made, shown};
use crate::notes::push_counted;
use crate::progress::Watch;
use seccomp_answers::diff::diff_of;
use seccomp_answers::error::AnswerError;
use seccomp_answers::kind::Subject;
use seccomp_answers::layers::Layer;
use seccomp_answers::sides::{Side, side_of};
use seccomp_views::diff::{Style, diff_text};
use seccomp_views::text::Text;
use std::alloc::Global;

// Adds the note on the warnings of a side, if it is a policy.
fn push_side_notes(notes: &mut Text, asked: &Diff<'_>, path: &str, side: Side<'_>) {
    if let Subject::Policy = side.kind {
        push_counted(notes, asked.quiet, asked.terms.target, path, side.given);
    }
}

pub(crate) fn diff_made(
    alloc: Global,
    asked: &Diff<'_>,
    old: &Layer<'_>,
    new: &Layer<'_>,
    progress: &mut Watch<'_>,
) -> Result<Made, AnswerError>
    ensures made { IfOk result (λ made. IsCompared asked.now old.now.text.items new.now.text.items made.verdict × (made.is_cut ≡ false)) }
    ensures cause { IfErr result (IsUncompared asked.now old.now.text.items new.now.text.items) }
{
    let terms = asked.terms;
    let (old_path, new_path) = (old.path, new.path);
    let old = side_of(alloc, &asked.reading, asked.old.filter, &old.text)?;
    let new = side_of(alloc, &asked.reading, asked.new.filter, &new.text)?;
    let found = diff_of(alloc, terms, old, new, progress);
    progress.end();
    let found = found?;
    let style = Style {
        json: asked.json,
        each: asked.each,
    };
    let text = diff_text(alloc, terms, style, old, new, &found);
    let verdict = found.verdict(asked.scope);
    // By one call, and not variant by variant.
    drop(found);
    let mut notes = Text::new(alloc);
    push_side_notes(&mut notes, asked, old_path, old);
    push_side_notes(&mut notes, asked, new_path, new);
    Made::of(shown(text), verdict, notes)
}
