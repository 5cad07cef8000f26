// The entries of a profile that say something in a container, with calls by number and conditions as the library has them.

ghost use Rattle.std.specs.Prelude.{◌≡◌, ◌↔◌, ◌<◌, ◌∷◌, ℕ, ◌≤◌, List, [], pos, Contains, IfOk, IfSome, IfNone, IsTrue, map, nat_eq};
ghost use Rattle.std.specs.List.{AllZip, list_any};
ghost use Rattle.seccompiler.specs.Policy.{Compares, Holds};
ghost use Rattle.seccomp_profiles.specs.Abis.{end_for, length_for, number_for};
ghost use Rattle.seccomp_profiles.specs.Concerns.{AreCallsOf, AreListsOf, IsConcernOf};
ghost use Rattle.seccomp_profiles.specs.Conditions.{compared_by, condition_of};
ghost use Rattle.seccomp_profiles.specs.Decision.{ConcernsOn, IsMet, Meets, ShareArgument, are_idle, is_idle, pass_all, rank_by, share, tested};
ghost use Rattle.seccomp_profiles.specs.Types.{AllOnArguments, AreOnArguments};

use crate::abis::{applies_on, number_of};
use crate::{Abi, Argument, Container, Entry, Operator};
use seccomp_entries::Action;
use seccompiler::{SeccompAction, SeccompCmpArgLen, SeccompCmpOp, SeccompCondition};
use std::alloc::{AllocError, Global};
use std::marker::Model;

/// What an entry says: its calls, its action, and when it decides one of these calls.
#[derive(Drop)]
pub(crate) struct Concern {
    /// The numbers of its calls; none if the entry says nothing in the container.
    pub(crate) numbers: Vec<u32>,
    /// Its action.
    pub(crate) action: Action,
    /// How soon it is asked.
    pub(crate) rank: u8,
    /// Lists of conditions. The entry's are met if all conditions of one of these lists hold.
    pub(crate) alternatives: Vec<Vec<SeccompCondition>>,
}

impl Model for Concern {
    ghost use Rattle.std.specs.Prelude.{map};
    ghost use Rattle.seccomp_profiles.specs.Concerns.{Concern};

    ghost Value = { Concern };

    ghost view = { λ c. record { numbers = c.numbers.items; action = c.action; rank = c.rank; alternatives = map (λ cs. cs.items) c.alternatives.items } };
}

/// What each entry of a profile of this default action says.
pub(crate) fn concerns_of(
    alloc: Global,
    abi: Abi,
    container: &Container,
    default: Action,
    entries: &[Entry],
) -> Result<Vec<Concern>, AllocError>
    requires { AllOnArguments entries.now }
    ensures { IfOk result (λ all. AllZip (IsConcernOf abi container.now default) entries.now all.items) }
{
    let mut concerns = Vec::with_capacity(alloc, entries.len())?;
    for entry in entries {
        concerns.push(concern_of(alloc, abi, container, default, entry)?)?;
    }
    Ok(concerns)
}

// What an entry says.
fn concern_of(
    alloc: Global,
    abi: Abi,
    container: &Container,
    default: Action,
    entry: &Entry,
) -> Result<Concern, AllocError>
    requires { AreOnArguments entry.now.args }
    ensures { IfOk result (IsConcernOf abi container.now default entry.now) }
{
    let numbers = numbers_in(alloc, abi, container, default, entry)?;
    let args = tested(entry.args.as_slice());
    let alternatives = alternatives_of(alloc, abi.arg_len(), args)?;
    Ok(Concern {
        numbers,
        action: entry.action,
        rank: rank(args, entry.action),
        alternatives,
    })
}

// The conditions that are tested: none, if no call fails them by a mask of 0.
#[tactic(auto, unfolding(crate::specs::Decision::tested))]
fn tested(args: &[Argument]) -> &[Argument]
    requires { AreOnArguments args.now }
    ensures value { result.now ≡ tested args.now }
    ensures on { AreOnArguments result.now }
{
    if pass_all(args) { &[] } else { args }
}

// Whether all have a mask of 0, or one that is enough.
fn pass_all(args: &[Argument]) -> bool
    ensures { result ≡ pass_all args.now }
{
    if share(args) {
        has_idle(args)
    } else {
        are_idle(args)
    }
}

// Whether the condition has a mask of 0.
fn is_idle(argument: &Argument) -> bool
    ensures { result ≡ is_idle argument.now }
{
    match argument.operator {
        Operator::MaskedEq => argument.value == 0,
        _ => false,
    }
}

// Whether one of the conditions does.
fn has_idle(args: &[Argument]) -> bool
    ensures { result ≡ list_any is_idle args.now }
{
    for argument in args {
        if is_idle(argument) {
            return true;
        }
    }
    false
}

// Whether each of them does.
fn are_idle(args: &[Argument]) -> bool
    ensures { result ≡ are_idle args.now }
{
    let mut rest = args;
    while let [first, others @ ..] = rest {
        if !is_idle(first) {
            return false;
        }
        rest = others;
    }
    true
}

/// How soon an entry of these conditions and this action is asked: the less the action permits, the sooner.
pub(crate) fn rank(args: &[Argument], action: Action) -> u8
    ensures value { result ≡ rank_by args.now action }
    ensures few { result < 9 }
{
    match args {
        [] => 0,
        [_, ..] => match action {
            Action::Own(SeccompAction::KillProcess) => 1,
            Action::Own(SeccompAction::KillThread) => 2,
            Action::Own(SeccompAction::Trap) => 3,
            Action::Own(SeccompAction::Errno(_)) => 4,
            Action::Notify => 5,
            Action::Own(SeccompAction::Trace(_)) => 6,
            Action::Own(SeccompAction::Log) => 7,
            Action::Own(SeccompAction::Allow) => 8,
        },
    }
}

// The numbers of the calls that an entry concerns, each once.
fn numbers_in(
    alloc: Global,
    abi: Abi,
    container: &Container,
    default: Action,
    entry: &Entry,
) -> Result<Vec<u32>, AllocError>
    ensures { IfOk result (λ numbers. AreCallsOf (end_for abi) (λ n. ConcernsOn abi container.now default n entry.now) numbers.items) }
{
    if entry.action == default || !applies_on(abi, container, entry) {
        return Ok(Vec::new(alloc));
    }
    let names = entry.names.as_slice();
    let mut numbers = Vec::with_capacity(alloc, names.len())?;
    for name in names {
        let Some(number) = number_of(abi, name.as_str()) else {
            continue;
        };
        if is_there(numbers.as_slice(), number) {
            continue;
        }
        numbers.push(number)?;
    }
    Ok(numbers)
}

fn is_there(numbers: &[u32], number: u32) -> bool
    ensures { IsTrue result ↔ Contains numbers.now number }
{
    numbers.contains(&number)
}

// Lists of conditions, one of which holds where these conditions are met.
fn alternatives_of(
    alloc: Global,
    arg_len: SeccompCmpArgLen,
    args: &[Argument],
) -> Result<Vec<Vec<SeccompCondition>>, AllocError>
    requires { AreOnArguments args.now }
    ensures { IfOk result (λ all. AreListsOf arg_len args.now (map (λ cs. cs.items) all.items)) }
{
    if share_argument(args) {
        return each_alone(alloc, arg_len, args);
    }
    let mut all = Vec::with_capacity(alloc, args.len())?;
    for argument in args {
        all.push(condition_of(arg_len, argument))?;
    }
    Ok(vec![in alloc; all]?)
}

// A list of each condition.
fn each_alone(
    alloc: Global,
    arg_len: SeccompCmpArgLen,
    args: &[Argument],
) -> Result<Vec<Vec<SeccompCondition>>, AllocError>
    requires { AreOnArguments args.now }
    ensures { IfOk result (λ all. map (λ cs. cs.items) all.items ≡ map (λ a. condition_of arg_len a ∷ []) args.now) }
{
    let mut all = Vec::with_capacity(alloc, args.len())?;
    for argument in args {
        let condition = condition_of(arg_len, argument);
        all.push(vec![in alloc; condition]?)?;
    }
    Ok(all)
}

/// The condition that holds if this one is met.
pub(crate) fn condition_of(arg_len: SeccompCmpArgLen, argument: &Argument) -> SeccompCondition
    requires { argument.now.index ≤ 5 }
    ensures is { result ≡ condition_of arg_len argument.now }
    ensures holds { (r : List ℕ) → Holds result r ↔ IsMet arg_len r argument.now }
{
    let (operator, value) = compared(argument);
    match SeccompCondition::new(argument.index, arg_len, operator, value) {
        Ok(condition) => condition,
        Err(_) => unreachable!(),
    }
}

/// The operator of a condition, and what it compares with. It takes no memory.
pub fn comparison(argument: &Argument) -> (SeccompCmpOp, u64)
    ensures { (x : ℕ) → Compares result.0 x result.1 ↔ Meets argument.now.operator x argument.now.value argument.now.value_two }
{
    compared(argument)
}

// The same, between private functions.
fn compared(argument: &Argument) -> (SeccompCmpOp, u64)
    ensures { result ≡ compared_by argument.now.operator argument.now.value argument.now.value_two }
{
    let (value, value_two) = (argument.value, argument.value_two);
    match argument.operator {
        Operator::Ne => (SeccompCmpOp::Ne, value),
        Operator::Lt => (SeccompCmpOp::Lt, value),
        Operator::Le => (SeccompCmpOp::Le, value),
        Operator::Eq => (SeccompCmpOp::Eq, value),
        Operator::Ge => (SeccompCmpOp::Ge, value),
        Operator::Gt => (SeccompCmpOp::Gt, value),
        Operator::MaskedEq => (SeccompCmpOp::MaskedEq(value), value_two),
    }
}

/// Whether two of the conditions are on one argument. It takes no memory.
pub fn share_argument(args: &[Argument]) -> bool
    ensures { IsTrue result ↔ ShareArgument args.now }
{
    share(args)
}

// The same, between private functions.
fn share(args: &[Argument]) -> bool
    ensures { result ≡ share args.now }
{
    let mut rest = args;
    while let [first, others @ ..] = rest {
        if has_index(others, first.index) {
            return true;
        }
        rest = others;
    }
    false
}

// Whether one of the conditions is on this argument.
fn has_index(args: &[Argument], index: u8) -> bool
    ensures { result ≡ list_any (λ b. nat_eq b.index index) args.now }
{
    for argument in args {
        if argument.index == index {
            return true;
        }
    }
    false
}
