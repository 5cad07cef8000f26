// What is so of an action.

ghost use Rattle.std.specs.Prelude.{◌↔◌, IsTrue};
ghost use Rattle.seccomp_warnings.specs.ActionWarnings.{Denies, IsSoOfAction, IsSoOfBoth, IsSoOfDefault, Permits};

use crate::code::Code;
use crate::warning::Actions;
use seccomp_entries::Action;
use seccompiler::SeccompAction;

// The greatest errno of Linux.
const GREATEST_ERRNO: u32 = 4095;

// The return value that fails a call with errno 0.
const ERRNO_0: u32 = 0x0005_0000;

// The return value that fails a call with errno 4, EINTR.
const ERRNO_EINTR: u32 = 0x0005_0004;

// Whether the action lets a call through.
pub(crate) fn permits(action: Action) -> bool
    ensures { IsTrue result ↔ Permits action }
{
    matches!(
        action,
        Action::Own(SeccompAction::Allow | SeccompAction::Log)
    )
}

// Whether the action denies a call, whoever is there: it leaves none to a tracer or a supervisor.
fn denies(action: Action) -> bool
    ensures { IsTrue result ↔ Denies action }
{
    match action {
        Action::Own(SeccompAction::Trace(_)) | Action::Notify => false,
        other => !permits(other),
    }
}

// Whether what a code says is so of both actions together.
pub(crate) fn is_so_of_both(code: Code, actions: Actions) -> bool
    ensures { IsTrue result ↔ IsSoOfBoth code actions }
{
    match code {
        Code::DeniesEverything => denies(actions.mismatch) && denies(actions.matching),
        _ => false,
    }
}

// Whether what a code says is so of an action.
pub(crate) fn is_so_of_action(code: Code, action: Action) -> bool
    ensures { IsTrue result ↔ IsSoOfAction code action }
{
    match (code, action) {
        (Code::FakeSuccess, action) => u32::from(action) == ERRNO_0,
        (Code::ErrnoTooLarge, Action::Own(SeccompAction::Errno(number))) => number > GREATEST_ERRNO,
        (Code::EndlessRetry, action) => u32::from(action) == ERRNO_EINTR,
        (Code::TraceWithoutTracer, Action::Own(SeccompAction::Trace(_))) => true,
        _ => false,
    }
}

// Whether what a code says is so of the action for calls that no entry matches, and of no other.
pub(crate) fn is_so_of_default(code: Code, action: Action) -> bool
    ensures { IsTrue result ↔ IsSoOfDefault code action }
{
    matches!(code, Code::AllowsByDefault) && permits(action)
}
