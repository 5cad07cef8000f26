// What is said of the warnings of a policy.

use crate::check::format::{Lines, said_of_calls};
use seccomp_answers::check::FilterWarnings;
use seccomp_warnings::{Code, Comparison, Evasion, Subject, Warning, sibling_of};
use seccompiler::TargetArch;

// Where a warning stands among those of the entries of a filter: the entry, the condition or 0, and the code.
type Order = (usize, usize, usize);

/// Adds what is said of the warnings of all filters.
pub fn push_warnings(lines: &mut Lines<'_>, target: TargetArch, all: &[FilterWarnings]) {
    for own in all {
        let mut shown = 0;
        for warning in &own.warned.of_part.warnings {
            shown = push_evasions(lines, target, own, shown, order_of(*warning));
            push_warning(lines, own, *warning);
        }
        push_evasions(lines, target, own, shown, Some((usize::MAX, 0, 0)));
    }
}

// Where a warning stands, if it is about an entry.
fn order_of(warning: Warning) -> Option<Order> {
    match warning.subject {
        Subject::Entry(entry) => Some((entry, 0, warning.code as usize)),
        Subject::Condition(comparison) => Some(order_in(comparison, warning.code)),
        Subject::MismatchAction(_) | Subject::MismatchCall(_) | Subject::MatchAction(_) => None,
    }
}

// Where a warning about a condition stands.
fn order_in(comparison: Comparison, code: Code) -> Order {
    let place = comparison.place.saturating_add(1);
    (comparison.entry, place, code as usize)
}

// Adds what is said of a filter's evasions from this one on that stand in front of here, and gives how many are said then.
fn push_evasions(
    lines: &mut Lines<'_>,
    target: TargetArch,
    own: &FilterWarnings,
    from: usize,
    here: Option<Order>,
) -> usize {
    let mut shown = from;
    for evasion in own.warned.evasions.get(from..).unwrap_or(&[]) {
        if here <= Some(order_in(evasion.comparison, evasion.code)) {
            break;
        }
        push_evasion(lines, target, own, evasion);
        shown = shown.saturating_add(1);
    }
    shown
}

// Adds what is said of an evasion of a filter.
fn push_evasion(
    lines: &mut Lines<'_>,
    target: TargetArch,
    own: &FilterWarnings,
    evasion: &Evasion,
) {
    lines.key(own.name.as_str());
    lines.key("filter");
    lines.item(evasion.comparison.entry);
    lines.key("args");
    lines.item(evasion.comparison.place);
    let said = evasion.code.said();
    match said_of_calls(lines.text.alloc(), target, evasion, said) {
        Ok(said) => lines.push("warning", evasion.code.name(), said.as_str()),
        Err(_) => lines.text.fail(),
    }
}

// Adds what is said of a warning of a filter.
fn push_warning(lines: &mut Lines<'_>, own: &FilterWarnings, warning: Warning) {
    let code = warning.code;
    lines.key(own.name.as_str());
    match warning.subject {
        Subject::MismatchAction(_) => lines.key("mismatch_action"),
        Subject::MismatchCall(unlisted) => {
            lines.key("mismatch_action");
            lines.call = Some(unlisted.name());
        }
        Subject::MatchAction(_) => lines.key("match_action"),
        Subject::Entry(entry) => {
            lines.key("filter");
            lines.item(entry);
            if let Code::SiblingAllowed = code {
                lines.call = sibling_of(&own.warned.part, entry);
            }
        }
        Subject::Condition(comparison) => {
            lines.key("filter");
            lines.item(comparison.entry);
            lines.key("args");
            lines.item(comparison.place);
        }
    }
    if let Some(key) = code.key() {
        lines.key(key);
    }
    lines.push("warning", code.name(), code.said());
}
