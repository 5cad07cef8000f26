// The files that the arguments name.

ghost use Rattle.std.specs.List.{AllZip};
ghost use Rattle.std.specs.Prelude.{◌≡◌, IfOk, codes, map};
ghost use Rattle.clap.specs.Words.{first_value, found_of};
ghost use Rattle.seccomp_answers.specs.Chosen.{text_of};
ghost use Rattle.seccomptool.specs.Files as spec;
ghost use Rattle.seccomptool.specs.Files.{AreCalls, IsNamedBy, IsSubject, all_values, path_given};

use super::values::call_in;
use crate::command::{Calls, Named, whole};
use crate::outside::Outside;
use clap::ArgMatches;
use seccomp_views::text::Text;
use std::alloc::{AllocError, Global};

// The path that is given, or standard input.
pub(super) fn path_in<'a>(found: &ArgMatches<'a>, id: &str) -> &'a str
    ensures { result.now ≡ path_given (found_of found.now) id.now }
{
    found.get_str(id).unwrap_or("-")
}

// The path of the file that is written, if it isn't standard output.
pub(super) fn output_in<'a>(found: &ArgMatches<'a>) -> Option<&'a str>
    ensures { text_of result ≡ spec.output_in (found_of found.now) }
{
    match found.get_str("output") {
        Some("-" | "/dev/stdout" | "/dev/fd/1") => None,
        output => output,
    }
}

// A path, and the name of a filter, if one stands behind the last colon: none if nothing does, or if something is at the path that is
// the whole text.
pub(super) fn named_in<'a, O: Outside>(out: &O, text: &'a str) -> Named<'a>
    ensures { IsNamedBy (O.there out.now) text.now result }
{
    let Some((path, name)) = text.rsplit_once(':') else {
        return whole(text);
    };
    if out.is_there(text) {
        return whole(text);
    }
    if name.is_empty() {
        return whole(path);
    }
    Named {
        path,
        filter: Some(name),
    }
}

// The subject, and the name of the filter that is asked for: by --filter, or behind the subject's path.
pub(super) fn subject_in<'a, O: Outside>(
    out: &O,
    found: &ArgMatches<'a>,
    wrong: &mut Text,
) -> Named<'a>
    ensures { IsSubject (O.there out.now) (found_of found.now) result }
{
    let Named { path, filter } = named_in(out, path_in(found, "SUBJECT"));
    let given = found.get_str("filter");
    if given.is_some() && filter.is_some() {
        wrong.push_str("the filter is named twice: behind SUBJECT and by --filter\n");
    }
    Named {
        path,
        filter: match given {
            Some(name) => Some(name),
            None => filter,
        },
    }
}

// All paths that are given.
pub(super) fn paths_in<'a>(
    alloc: Global,
    found: &ArgMatches<'a>,
    id: &str,
) -> Result<Vec<&'a str>, AllocError>
    ensures { IfOk result (λ paths. map (λ path. path.now) paths.items ≡ all_values (found_of found.now) id.now) }
{
    match found.get_strs(id) {
        Some(paths) => Vec::from_slice(alloc, paths),
        None => Ok(Vec::new(alloc)),
    }
}

// All files that are given, each with the name of a filter.
pub(super) fn all_named_in<'a, O: Outside>(
    alloc: Global,
    out: &O,
    found: &ArgMatches<'a>,
    id: &str,
) -> Result<Vec<Named<'a>>, AllocError>
    ensures { IfOk result (λ all. AllZip (IsNamedBy (O.there out.now)) (all_values (found_of found.now) id.now) all.items) }
{
    let texts = paths_in(alloc, found, id)?;
    let mut all = Vec::new(alloc);
    for text in &texts {
        all.push(named_in(out, text))?;
    }
    Ok(all)
}

// Where the calls are that are explained.
pub(super) fn calls_in<'a>(found: &ArgMatches<'a>, wrong: &mut Text) -> Calls<'a>
    ensures { AreCalls (first_value (found_of found.now) (codes "CALL")) (first_value (found_of found.now) (codes "log")) (path_given (found_of found.now) (codes "records")) result }
{
    match (found.get_str("CALL"), found.get_str("log")) {
        (Some(_), _) => Calls::One(call_in(found, wrong)),
        (None, Some(path)) => Calls::Log(path),
        (None, None) => Calls::Records(path_in(found, "records")),
    }
}
