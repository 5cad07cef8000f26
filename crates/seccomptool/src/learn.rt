// A policy of the calls that a trace has.

mod arguments;
pub(crate) mod notes;

ghost use Rattle.std.specs.List.{AllZip};
ghost use Rattle.std.specs.Prelude.{◌≡◌, ◌⊎◌, Any, IfErr, IfOk, OnOk, string_bytes};
ghost use Rattle.seccomp_answers.specs.Chosen.{text_of};
ghost use Rattle.seccomp_answers.specs.Errors.{from_library};
ghost use Rattle.seccompiler.specs.Errors.{from_frontend};
ghost use Rattle.seccomp_learn.specs.Usual.{AreCloning, AreRunnable};
ghost use Rattle.seccomp_learn.specs.Written.{found_in};
ghost use Rattle.seccomptool.specs.Commands.{IsPlain};
ghost use Rattle.seccomptool.specs.Files.{start_file};
ghost use Rattle.seccomptool.specs.Learn.{AreIf, AreObserved, IsBase, IsLearned, IsLesson, IsStrangeOf, IsTaken, IsTraceOf, IsUnlearned, IsUnpickedInto, IsUntaken, IsUntaught, IsUnwritten, IsWrittenPolicy, OrMemory, Unless, clone3_filter, with_second};

use crate::command::Learn;
use crate::learn::arguments::{push_asked_notes, wanted_in};
use crate::learn::notes::{learned_json, path_at, push_notes, refuse_trace};
use crate::made::{Made, shown};
use crate::outside::Outside;
use seccomp_answers::chosen::{chosen_filter, named_filters};
use seccomp_answers::error::AnswerError;
use seccomp_answers::findings::Verdict;
use seccomp_answers::layers::Layer;
use seccomp_learn::{
    Kept, Lesson, Observation, Trace, cloning_calls, learn_within, profile_text, runnable_calls,
    take_filter, written_policy,
};
use seccomp_views::text::Text;
use seccomp_views::unit::{push_unit_notes, unit_text};
use seccompiler::{
    JsonFilter, JsonFilterMap, JsonFrontendError, JsonRule, SeccompAction, TargetArch,
};
use std::alloc::{AllocError, Global};
use std::collections::BTreeMap;

// The greatest errno that SystemCallErrorNumber= of systemd takes (`systemd.exec(5)`).
const UNIT_ERRNO_MAX: u32 = 4095;

/// What the calls of a trace are added to.
#[derive(Clone, Copy)]
pub enum Start<'a> {
    /// Nothing: other calls get this action.
    Otherwise(SeccompAction),
    /// A filter of the policy at this path.
    Into(&'a str),
}

impl<'a> Start<'a> {
    /// The path of the policy that calls are added to, if there is one.
    pub fn file(&self) -> Option<&'a str>
        ensures { result ≡ start_file self.now }
    {
        match *self {
            Start::Otherwise(_) => None,
            Start::Into(path) => Some(path),
        }
    }
}

/// An argument of a call, or all of them.
#[derive(Clone, Copy)]
pub struct AskedArguments<'a> {
    /// The call's name or number.
    pub call: &'a str,
    /// Which of its arguments.
    pub indices: [bool; 6],
}

// The name of a filter that calls are added to, the filter or what is learned, and the policy's other filters.
type Named<F> = (String, F, JsonFilterMap);

pub(crate) fn learn_made<O: Outside>(
    alloc: Global,
    out: &O,
    asked: &Learn<'_>,
    traced: &[Layer<'_>],
    policy: &[u8],
) -> Result<Made, AnswerError>
    ensures lesson { IfOk result (λ made. IsLesson O.reads asked.now traced.now policy.now made.text.items × IsPlain made) }
    ensures cause { IfErr result (IsUnlearned O.reads asked.now traced.now policy.now) }
{
    let traces = traces_of(alloc, out, asked, traced)?;
    let observed = observed_in(alloc, asked, &traces)?;
    let wanted = wanted_in(alloc, asked, &observed)?;
    let learned = learned_of(alloc, asked, &observed, &wanted, policy)?;
    let made = views_of(alloc, asked, &traces, &observed, &wanted, &learned);
    // Here, so that no branch has to.
    drop((traces, observed, wanted, learned));
    made
}

// What was read of these. What is no trace is rejected; and, if it is asked for, a trace of which something isn't understood.
fn traces_of<O: Outside>(
    alloc: Global,
    out: &O,
    asked: &Learn<'_>,
    traced: &[Layer<'_>],
) -> Result<Vec<Trace>, AnswerError>
    ensures read { IfOk result (λ traces. AllZip (IsTraceOf O.reads asked.now) traced.now traces.items) }
    ensures cause { IfErr result (OrMemory (λ error. Any (IsStrangeOf O.reads asked.now error) traced.now)) }
{
    let mut traces = Vec::new(alloc);
    for input in traced {
        let trace = out.trace(alloc, asked.arch, &input.text)?;
        refuse_trace(alloc, asked.strict, input.path, &trace)?;
        traces.push(trace)?;
    }
    Ok(traces)
}

// The calls that all traces have, and those that are allowed too.
fn observed_in(
    alloc: Global,
    asked: &Learn<'_>,
    traces: &[Trace],
) -> Result<Vec<Observation>, AllocError>
    ensures { IfOk result (λ observed. AreObserved asked.now traces.now observed.items) }
{
    let runnable = runnable_in(alloc, asked)?;
    let cloning = cloning_in(alloc, asked)?;
    let mut observed = Vec::new(alloc);
    for trace in traces {
        observed.extend_from_slice(&trace.observed)?;
    }
    observed.extend_from_slice(&runnable)?;
    observed.extend_from_slice(&cloning)?;
    Ok(observed)
}

// The calls that the C library makes by itself, if they are asked for.
fn runnable_in(alloc: Global, asked: &Learn<'_>) -> Result<Vec<Observation>, AllocError>
    ensures { IfOk result (λ calls. AreIf asked.now.runnable (AreRunnable asked.now.arch) calls.items) }
{
    if asked.runnable {
        return runnable_calls(alloc, asked.arch);
    }
    Ok(Vec::new(alloc))
}

// The calls by which threads and processes are made, if a second filter answers one of them.
fn cloning_in(alloc: Global, asked: &Learn<'_>) -> Result<Vec<Observation>, AllocError>
    ensures { IfOk result (λ calls. AreIf asked.now.old_clone (AreCloning asked.now.arch) calls.items) }
{
    if asked.old_clone {
        return cloning_calls(alloc, asked.arch);
    }
    Ok(Vec::new(alloc))
}

// What is written of what is learned, or an object with it, and the notes.
fn views_of(
    alloc: Global,
    asked: &Learn<'_>,
    traces: &[Trace],
    observed: &[Observation],
    wanted: &[Kept],
    learned: &Named<Lesson>,
) -> Result<Made, AnswerError>
    ensures made { IfOk result (λ made. IsPlain made × Unless asked.now.json (IsWrittenPolicy asked.now (found_in learned.now.2) (string_bytes learned.now.0) learned.now.1.learned.json made.text.items)) }
    ensures cause { IfErr result (OrMemory (IsUnwritten asked.now)) }
{
    let text = lesson_text(alloc, asked, learned)?;
    let notes = notes_in(alloc, asked, traces, wanted, &learned.1)?;
    if !asked.json {
        return Ok(Made::noting(text, Verdict::Same, notes.into_bytes()));
    }
    let kept = &learned.1.kept;
    let object = learned_json(alloc, asked, observed, kept, notes.as_str(), &text);
    let object = shown(object)?;
    Ok(Made::noting(object, Verdict::Same, notes.into_bytes()))
}

// The text of what is learned: a policy's, a profile's or a drop-in of systemd.
fn lesson_text(
    alloc: Global,
    asked: &Learn<'_>,
    learned: &Named<Lesson>,
) -> Result<Vec<u8>, AnswerError>
    ensures policy { IfOk result (λ text. IsWrittenPolicy asked.now (found_in learned.now.2) (string_bytes learned.now.0) learned.now.1.learned.json text.items) }
    ensures cause { IfErr result (OrMemory (IsUnwritten asked.now)) }
{
    let (name, lesson, others) = learned;
    let filter = &lesson.learned.json;
    if asked.as_profile {
        return Ok(shown(profile_text(alloc, asked.arch, filter))?);
    }
    if asked.as_unit {
        return Ok(shown(unit_text(alloc, filter))?);
    }
    Ok(written_policy(alloc, others, name.as_str(), filter)?)
}

// The notes on traces, and on what is learned.
fn notes_in(
    alloc: Global,
    asked: &Learn<'_>,
    traces: &[Trace],
    wanted: &[Kept],
    lesson: &Lesson,
) -> Result<String, AllocError> {
    let mut notes = Text::new(alloc);
    push_notes(&mut notes, asked, traces, wanted, &lesson.kept);
    push_asked_notes(&mut notes, asked, traces, &lesson.kept);
    if asked.as_unit {
        push_unit_notes(&mut notes, path_at(asked, 0), &lesson.learned.json);
    }
    notes.finish_string()
}

// The filter that allows the observed calls, with the values of the arguments that are wanted, and what it is added to.
fn learned_of(
    alloc: Global,
    asked: &Learn<'_>,
    observed: &[Observation],
    wanted: &[Kept],
    policy: &[u8],
) -> Result<Named<Lesson>, AnswerError>
    ensures learned { IfOk result (λ own. IsLearned asked.now wanted.now observed.now policy.now (string_bytes own.0) own.1 (found_in own.2)) }
    ensures cause { IfErr result (IsUntaught asked.now policy.now) }
{
    let (name, filter, mut others) = base_of(alloc, asked, policy)?;
    refuse_errno(alloc, asked.as_unit, &filter)?;
    let (arch, most) = (asked.arch, asked.most);
    push_second(alloc, asked.old_clone, name.as_str(), &mut others)?;
    match learn_within(alloc, arch, observed, wanted, most, filter) {
        Ok(lesson) => Ok((name, lesson, others)),
        Err(refusal) => Err(untaught(alloc, asked, policy, refusal)),
    }
}

// Why nothing is learned if the library rejects the filter so: what is told of the policy that it is of, if it is of one.
fn untaught(
    alloc: Global,
    asked: &Learn<'_>,
    policy: &[u8],
    refusal: JsonFrontendError,
) -> AnswerError
    ensures { IsUnpickedInto asked.now policy.now result ⊎ (result ≡ from_library (from_frontend refusal)) }
{
    if let Start::Into(_) = asked.start {
        if let Err(error) = chosen_filter(alloc, asked.arch, asked.name, policy) {
            return error;
        }
    }
    refusal.into()
}

// Rejects an errno that systemd doesn't take for other calls, if a drop-in is asked for.
fn refuse_errno(alloc: Global, as_unit: bool, filter: &JsonFilter) -> Result<(), AnswerError>
    ensures taken { OnOk result (IsTaken as_unit filter.now.mismatch_action) }
    ensures cause { IfErr result (IsUntaken as_unit filter.now.mismatch_action) }
{
    let SeccompAction::Errno(number) = filter.mismatch_action else {
        return Ok(());
    };
    if !as_unit || (1 <= number && number <= UNIT_ERRNO_MAX) {
        return Ok(());
    }
    let told = format!(in alloc;
        "systemd takes errno 1 to {UNIT_ERRNO_MAX} for other calls, found {number}"
    )?;
    Err(AnswerError::Fault(told))
}

// Adds the filter that answers `clone3` with ENOSYS, if it is asked for, in place of an older one of its name.
fn push_second(
    alloc: Global,
    is_asked: bool,
    name: &str,
    others: &mut JsonFilterMap,
) -> Result<(), AllocError>
    ensures { OnOk result (found_in others.new ≡ with_second is_asked name.now (found_in others.old)) }
{
    if !is_asked {
        return Ok(());
    }
    let second = format!(in alloc; "{name}_clone3")?;
    let filter = second_filter(alloc)?;
    drop(others.0.insert(second, filter)?);
    Ok(())
}

// The filter that answers `clone3` with ENOSYS.
fn second_filter(alloc: Global) -> Result<JsonFilter, AllocError>
    ensures { IfOk result (λ filter. filter ≡ clone3_filter) }
{
    let mut rules = Vec::new(alloc);
    rules.push(JsonRule {
        syscall: String::from_str(alloc, "clone3")?,
        conditions: None,
    })?;
    Ok(JsonFilter {
        mismatch_action: SeccompAction::Allow,
        match_action: SeccompAction::Errno(38),
        rules,
    })
}

// What calls are added to: nothing yet, or the filter that is asked for, or a policy's only one, if it allows what it lists.
fn base_of(
    alloc: Global,
    asked: &Learn<'_>,
    policy: &[u8],
) -> Result<Named<JsonFilter>, AnswerError>
    ensures base { IfOk result (λ base. IsBase asked.now.start (text_of asked.now.name) policy.now (string_bytes base.0) base.1 (found_in base.2)) }
    ensures cause { IfErr result (IsUntaught asked.now policy.now) }
{
    match asked.start {
        Start::Otherwise(action) => {
            let name = String::from_str(alloc, asked.name.unwrap_or("main"))?;
            let filter = JsonFilter {
                mismatch_action: action,
                match_action: SeccompAction::Allow,
                rules: Vec::new(alloc),
            };
            return Ok((name, filter, JsonFilterMap(BTreeMap::new(alloc))));
        }
        Start::Into(_) => {}
    }
    let (mut others, name) = named_filters(alloc, asked.arch, asked.name, policy)?;
    let Some(filter) = take_filter(&mut others, name.as_str()) else {
        return Err(AnswerError::NoFilter(name));
    };
    match filter.match_action {
        SeccompAction::Allow => Ok((name, filter, others)),
        _ => {
            drop((name, filter, others));
            let told = "The filter's match_action isn't allow, so it doesn't list what is allowed.";
            Err(AnswerError::Fault(String::from_str(alloc, told)?))
        }
    }
}
