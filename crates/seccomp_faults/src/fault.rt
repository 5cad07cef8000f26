// Faults of JSON values: where they are, and what is wrong there.

ghost use Rattle.std.specs.Prelude.{◌≡◌};
ghost use Rattle.seccomp_faults.specs.Faults as spec;

use crate::json_text::{Outline, Position};
use crate::table::{Form, is_of_profile};
use seccomp_text::steps::Step;
use seccompiler::TargetArch;

/// What is wrong with a value.
#[derive(Drop)]
pub enum Problem {
    /// It isn't of this form; this text shows it.
    Stands(String, Form),
    /// It is no call's name on this architecture, and this text shows it; this one may have been meant.
    UnknownCall(String, TargetArch, Option<&'static str>),
    /// It has this key, which no object of its form has.
    Strange(String),
    /// It lacks this key.
    Missing(&'static str),
    /// It lacks both of these keys of one thing.
    Neither(&'static str, &'static str),
    /// It has both of these keys of one thing.
    Both(&'static str, &'static str),
    /// Under this key is a number or an errno, but the action takes none.
    Beside(&'static str),
    /// It is a filter of two equal actions.
    SameActions,
    /// It is a filter whose program would have this many instructions in the linear layout on this
    /// architecture; in the tree layout it has so many, if they fit.
    TooLong(usize, Option<usize>, TargetArch),
}

/// The kinds of faults for which the library rejects a policy.
#[derive(Clone, Copy, PartialEq, Eq)]
pub enum Cause {
    /// The policy is no object.
    Top,
    /// A filter isn't made as it has to be.
    Shape,
    /// A name is that of no call of the architecture.
    Call,
    /// The index of a condition is none of an argument.
    Argument,
    /// An array of conditions is empty.
    Empty,
    /// A filter's actions are equal.
    Actions,
    /// A program would be too long.
    Length,
}

/// A fault: the way from the whole value to the place, and what is wrong there.
#[derive(Drop)]
pub struct Fault {
    /// The way to the value that is at fault.
    pub path: Vec<Step>,
    /// The form that it has to be of.
    pub form: Form,
    /// What is wrong with it.
    pub problem: Problem,
}

/// The kind of fault that a problem is.
pub fn cause_of(problem: &Problem) -> Cause
    ensures { result ≡ spec.cause_of problem.now }
{
    match problem {
        Problem::Stands(_, Form::Policy) => Cause::Top,
        Problem::Stands(_, Form::Argument) => Cause::Argument,
        Problem::Stands(_, Form::SomeConditions) => Cause::Empty,
        Problem::UnknownCall(_, _, _) => Cause::Call,
        Problem::SameActions => Cause::Actions,
        Problem::TooLong(_, _, _) => Cause::Length,
        _ => Cause::Shape,
    }
}

impl Outline {
    /// Where a fault stands: where its value does, or the key in it that no object of its form has.
    pub fn place_of(&self, fault: &Fault) -> Position {
        let mut value = self.whole;
        for step in &fault.path {
            value = match step {
                Step::Key(key) => self.under(value, key.as_str()),
                Step::Item(place) => self.item(value, *place),
            };
        }
        match &fault.problem {
            Problem::Strange(key) if !is_of_profile(fault.form) => {
                self.under(value, key.as_str()).key
            }
            _ => value.begins,
        }
    }
}
