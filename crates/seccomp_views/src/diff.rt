// What is written of a comparison: lines, or JSON.

use crate::alike::{begin_alike, merged, parts_alike};
use crate::json::{List, Object, OrNull, push_item, written};
use crate::lines::{part_value, push_alike, push_filter, push_finding};
use crate::text::Text;
use seccomp_answers::diff::{Diff, Found, NamedFound, Pair};
use seccomp_answers::findings::{Answer, Finding, Terms, Verdict, verdict_of};
use seccomp_answers::kind::Subject;
use seccomp_answers::sides::Side;
use seccomp_compare::Relation;
use seccomp_text::readable::TextKind;
use seccompiler::TargetArch;
use std::alloc::{AllocError, Global};

/// How what is found is written.
#[derive(Clone, Copy)]
pub struct Style {
    /// Whether it is JSON, with an item for each call.
    pub json: bool,
    /// Whether each call has a line of its own.
    pub each: bool,
}

// What is found of the calls of an architecture, or of all others.
#[derive(Drop)]
struct Section<'a> {
    // The name of the old side, and of the new one; none if the other one alone has it.
    old: Option<&'a str>,
    new: Option<&'a str>,
    arch: Option<&'a str>,
    // Whether what is found may depend on the instruction pointer.
    pointer: bool,
    verdict: Verdict,
    findings: &'a [Finding],
}

/// Of two policies what is found under each name. Of a pair of sides what is found on the architecture's calls, and then, if one of
/// these is a program, on the calls of others. As JSON an item for each.
pub fn diff_text(
    alloc: Global,
    terms: Terms,
    style: Style,
    old: Side<'_>,
    new: Side<'_>,
    found: &Diff,
) -> Result<Vec<u8>, AllocError> {
    let mut text = Text::new(alloc);
    match found {
        Diff::ByName(all) => {
            for named in all {
                push_named(&mut text, terms, style, named);
            }
        }
        Diff::OfPair(pair) => {
            let kinds = (old.kind, new.kind);
            push_pair(&mut text, terms, style, kinds, pair, false);
            if matches!(kinds, (Subject::Program, _) | (_, Subject::Program)) {
                push_pair(&mut text, terms, style, kinds, pair, true);
            }
        }
    }
    written(text, style.json, "compared")
}

// Adds what is found under a name.
fn push_named(text: &mut Text, terms: Terms, style: Style, named: &NamedFound) {
    let name = Some(named.name.as_str());
    let none: &[Finding] = &[];
    let (old, new, verdict, findings) = match &named.found {
        Found::OnlyOld => (name, None, Verdict::Different, none),
        Found::OnlyNew => (None, name, Verdict::Different, none),
        Found::Both(findings) => (name, name, verdict_of(findings), findings.as_slice()),
    };
    if !style.json {
        push_filter(text, named.name.as_str());
    }
    let section = Section {
        old,
        new,
        arch: Some(terms.target.name()),
        pointer: false,
        verdict,
        findings,
    };
    push_compared(text, terms, style, section);
}

// Adds what is found of a pair of sides, on the calls of the architecture or on those of others. The title is what is compared: a
// filter by its name, or both by theirs; else programs, or a profile.
fn push_pair(
    text: &mut Text,
    terms: Terms,
    style: Style,
    kinds: (Subject<'_>, Subject<'_>),
    pair: &Pair,
    others: bool,
) {
    let (old, new) = (pair.old_name.as_str(), pair.new_name.as_str());
    match kinds {
        _ if style.json => {}
        _ if others => text.push_str("other architectures"),
        (Subject::Policy, Subject::Policy) if old != new => {
            push_filter(text, old);
            text.push_str(" -> ");
            text.push_readable(new, TextKind::Name);
        }
        (Subject::Policy, _) => push_filter(text, old),
        (_, Subject::Policy) => push_filter(text, new),
        (Subject::Program, Subject::Program) => text.push_str("program"),
        _ => text.push_str("profile"),
    }
    let (arch, findings) = if others {
        (None, pair.others.as_slice())
    } else {
        (Some(terms.target.name()), pair.own.as_slice())
    };
    let section = Section {
        old: Some(old),
        new: Some(new),
        arch,
        pointer: pair.loads_pointer,
        verdict: verdict_of(findings),
        findings,
    };
    push_compared(text, terms, style, section);
}

// Adds what is found: as JSON an item, else behind a title the verdict and the lines of findings.
fn push_compared(text: &mut Text, terms: Terms, style: Style, section: Section<'_>) {
    let target = terms.target;
    let Ok(findings) = merged(text.alloc(), section.findings) else {
        return text.fail();
    };
    if style.json {
        let object = object_of(text.alloc(), target, section, &findings);
        return push_item(text, object);
    }
    let alike = matches!(terms.relation, Relation::Alike);
    text.push_str(match section.verdict {
        _ if section.new.is_none() => ": only in OLD\n",
        _ if section.old.is_none() => ": only in NEW\n",
        Verdict::Same if alike => ": same\n",
        Verdict::Same => ": nowhere more permissive\n",
        Verdict::Different if alike => ": different\n",
        Verdict::Different => ": more permissive\n",
        Verdict::Undecided => ": undecided\n",
    });
    for finding in &findings {
        push_found(text, target, style, section.pointer, &findings, *finding);
    }
}

// Adds the line of a finding. Of several that change alike, the first has a line for all.
fn push_found(
    text: &mut Text,
    target: TargetArch,
    style: Style,
    pointer: bool,
    findings: &[Finding],
    finding: Finding,
) {
    if !style.each
        && let Answer::Fails { old, new, .. } = finding.answer
    {
        let Ok(alike) = parts_alike(text.alloc(), findings, finding) else {
            return text.fail();
        };
        if let Some(first) = alike.first() {
            if begin_alike(*first, finding.part) {
                push_alike(text, target, &alike, old, new);
            }
            return;
        }
    }
    push_finding(text, target, pointer, finding);
}

// What is found, as an object.
fn object_of(
    alloc: Global,
    target: TargetArch,
    section: Section<'_>,
    findings: &[Finding],
) -> Object {
    let mut parts = List::new(alloc);
    for finding in findings {
        if !matches!(finding.answer, Answer::Holds) {
            parts.item(part_value(alloc, target, *finding));
        }
    }
    let verdict = match section.verdict {
        Verdict::Same => "same",
        Verdict::Different => "different",
        Verdict::Undecided => "undecided",
    };
    let mut object = Object::new(alloc);
    object.field("old", OrNull(section.old));
    object.field("new", OrNull(section.new));
    object.field("architecture", OrNull(section.arch));
    object.field("verdict", verdict);
    object.field("parts", parts);
    object
}
