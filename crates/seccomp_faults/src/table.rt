// The forms that values of a policy or a profile have to be of, and what each form has inside. docs/JSON.md and docs/OCI.md have the
// formats.

ghost use Rattle.std.specs.Prelude.{◌≡◌, map};
ghost use Rattle.seccomp_faults.specs.Table as spec;
ghost use Rattle.seccomp_faults.specs.Table.{row_of};

/// What a value has to be.
#[derive(Clone, Copy)]
pub enum Form {
    /// A policy: an object of filters, under any keys.
    Policy,
    /// A filter of a policy: an object.
    Filter,
    /// An entry of a filter: an object.
    Entry,
    /// A condition of an entry: an object.
    Condition,
    /// An action.
    Action,
    /// An array of entries.
    Entries,
    /// A text.
    Name,
    /// The name of a call of the architecture.
    Call,
    /// A comment: null or a text.
    Comment,
    /// Conditions: null or an array.
    Conditions,
    /// Not the empty array.
    SomeConditions,
    /// An index that a byte holds.
    Index,
    /// The index of an argument.
    Argument,
    /// The length of an argument.
    Length,
    /// An operator.
    Operator,
    /// The number of an action, which 32 bits hold.
    ActionNumber,
    /// A number that 64 bits hold: a condition's, or an operator's mask.
    Number,
    /// A profile: an object.
    Profile,
    /// An entry of a profile: an object.
    ProfileEntry,
    /// What an entry of a profile includes or excludes: null or an object.
    Criteria,
    /// A condition of an entry of a profile: an object.
    Comparison,
    /// An action of a profile, without a number.
    ProfileAction,
    /// The number beside an action: null or a number of 16 bits.
    ErrnoNumber,
    /// The errno beside an action: null or a text that gives one.
    ErrnoName,
    /// Null or an array.
    List,
    /// Null or an array of flags.
    Flags,
    /// A flag.
    Flag,
    /// Null or an array of texts.
    Texts,
    /// A text.
    Text,
    /// Null or a text.
    TextOrNull,
    /// Null or an array of a profile's entries.
    ProfileEntries,
    /// Null or an array of their conditions.
    Comparisons,
    /// The index of an argument, in a profile.
    ProfileIndex,
    /// A number that 64 bits hold, in a profile.
    ProfileNumber,
    /// Null or a number that 64 bits hold.
    NumberOrNull,
    /// An operator of a profile.
    ProfileOperator,
    /// Null or a version of the kernel.
    Version,
}

/// What is so of an object of some form.
#[derive(Clone, Copy)]
pub enum Rule {
    /// Under this key is a value of this form, if any.
    May(&'static str, Form),
    /// Under this key is a value of this form.
    Must(&'static str, Form),
    /// Under one of these keys is a value of this form, and under the other none.
    OneOf(&'static str, &'static str, Form),
    /// The two actions differ.
    ActionsDiffer,
    /// If the action under the first key takes no number, none is under the second.
    NoneBeside(&'static str, &'static str),
    /// Under one of these keys is nothing, or an empty value.
    NotBoth(&'static str, &'static str),
}

const FILTER: [Rule; 4] = [
    Rule::OneOf("mismatch_action", "default_action", Form::Action),
    Rule::OneOf("match_action", "filter_action", Form::Action),
    Rule::ActionsDiffer,
    Rule::Must("filter", Form::Entries),
];

const ENTRY: [Rule; 3] = [
    Rule::May("comment", Form::Comment),
    Rule::Must("syscall", Form::Call),
    Rule::May("args", Form::SomeConditions),
];

const CONDITION: [Rule; 5] = [
    Rule::May("comment", Form::Comment),
    Rule::Must("index", Form::Argument),
    Rule::Must("type", Form::Length),
    Rule::Must("op", Form::Operator),
    Rule::Must("val", Form::Number),
];

const ACTION: [Rule; 2] = [
    Rule::May("errno", Form::ActionNumber),
    Rule::May("trace", Form::ActionNumber),
];

const OPERATOR: [Rule; 1] = [Rule::May("masked_eq", Form::Number)];

const PROFILE: [Rule; 9] = [
    Rule::Must("defaultAction", Form::ProfileAction),
    Rule::May("defaultErrnoRet", Form::ErrnoNumber),
    Rule::May("defaultErrno", Form::ErrnoName),
    Rule::NoneBeside("defaultAction", "defaultErrnoRet"),
    Rule::NoneBeside("defaultAction", "defaultErrno"),
    Rule::May("architectures", Form::List),
    Rule::May("archMap", Form::List),
    Rule::May("flags", Form::Flags),
    Rule::May("syscalls", Form::ProfileEntries),
];

const PROFILE_ENTRY: [Rule; 12] = [
    Rule::May("comment", Form::TextOrNull),
    Rule::Must("action", Form::ProfileAction),
    Rule::May("errnoRet", Form::ErrnoNumber),
    Rule::May("errno", Form::ErrnoName),
    Rule::NoneBeside("action", "errnoRet"),
    Rule::NoneBeside("action", "errno"),
    Rule::May("name", Form::TextOrNull),
    Rule::May("names", Form::Texts),
    Rule::NotBoth("names", "name"),
    Rule::May("args", Form::Comparisons),
    Rule::May("includes", Form::Criteria),
    Rule::May("excludes", Form::Criteria),
];

const CRITERIA: [Rule; 3] = [
    Rule::May("caps", Form::Texts),
    Rule::May("arches", Form::Texts),
    Rule::May("minKernel", Form::Version),
];

const COMPARISON: [Rule; 4] = [
    Rule::Must("index", Form::ProfileIndex),
    Rule::Must("value", Form::ProfileNumber),
    Rule::May("valueTwo", Form::NumberOrNull),
    Rule::Must("op", Form::ProfileOperator),
];

/// What is so of an object of this form, in the order in which it is looked at.
pub fn rules_of(form: Form) -> &'static [Rule]
    ensures { map row_of result.now ≡ spec.rows_of form }
{
    match form {
        Form::Filter => &FILTER,
        Form::Entry => &ENTRY,
        Form::Condition => &CONDITION,
        Form::Action => &ACTION,
        Form::Operator => &OPERATOR,
        Form::Profile => &PROFILE,
        Form::ProfileEntry => &PROFILE_ENTRY,
        Form::Criteria => &CRITERIA,
        Form::Comparison => &COMPARISON,
        _ => &[],
    }
}

/// The form of the value under each key of an object of this form, which may have any keys.
pub fn member_of(form: Form) -> Option<Form>
    ensures { result ≡ spec.member_of form }
{
    match form {
        Form::Policy => Some(Form::Filter),
        _ => None,
    }
}

/// The form of each item of an array of this form.
pub fn item_of(form: Form) -> Option<Form>
    ensures { result ≡ spec.item_of form }
{
    match form {
        Form::Entries => Some(Form::Entry),
        Form::Conditions | Form::SomeConditions => Some(Form::Condition),
        Form::Flags => Some(Form::Flag),
        Form::Texts => Some(Form::Text),
        Form::ProfileEntries => Some(Form::ProfileEntry),
        Form::Comparisons => Some(Form::Comparison),
        _ => None,
    }
}

/// Whether the form is one of a part of a profile.
pub fn is_of_profile(form: Form) -> bool {
    form as u8 >= Form::Profile as u8
}

/// Whether each object is of this form, and its rules say what is so of it.
pub fn is_object(form: Form) -> bool {
    is_closed(form) || matches!(form, Form::Policy | Form::Profile)
}

/// Whether an object of this form has no key but those of its rules.
pub fn is_closed(form: Form) -> bool
    ensures { result ≡ spec.is_closed form }
{
    match form {
        Form::Filter | Form::Entry | Form::Condition => true,
        Form::ProfileEntry | Form::Criteria | Form::Comparison => true,
        _ => false,
    }
}

/// The form that a value has to be of first, before this one is looked at.
pub fn wider(form: Form) -> Option<Form>
    ensures { result ≡ spec.wider form }
{
    match form {
        Form::Call => Some(Form::Name),
        Form::SomeConditions => Some(Form::Conditions),
        Form::Argument => Some(Form::Index),
        _ => None,
    }
}
