// Why no program or decision of arrays is given, and its code.

ghost use Rattle.std.specs.Prelude.{◌≡◌};
ghost use Rattle.seccompiler_c.specs.ArraysDemands.{arrays_code_of, arrays_fault_code};

use crate::code::Code;
use seccomp_tree::FilterError;
use seccompiler::BackendError;

/// Why no program of arrays is given.
#[derive(Clone, Copy)]
pub(crate) enum ArraysFault {
    /// Memory ran out.
    OutOfMemory,
    /// The value is no architecture's.
    UnknownArchitecture,
    /// The number names no layout.
    UnknownLayout,
    /// A kind names no action.
    UnknownAction,
    /// The counts of the chains don't add up to the rules, or those of the rules to the conditions.
    Counts,
    /// A condition's argument is above 5.
    Argument,
    /// A condition's length is unknown.
    Length,
    /// A condition's operator is unknown.
    Operator,
    /// A rule has no conditions.
    EmptyRule,
    /// The two actions are equal.
    EqualActions,
    /// The numbers of the chains don't ascend strictly.
    Order,
    /// A number of a chain doesn't fit 32 bits.
    Number,
    /// The program would have more than 4096 instructions.
    TooLarge,
    /// The program has more instructions than there is room for.
    NoRoom,
}

impl ArraysFault {
    /// The code of the fault.
    pub fn code(self) -> Code
        ensures { result ≡ arrays_fault_code self }
    {
        match self {
            ArraysFault::OutOfMemory => Code::OutOfMemory,
            ArraysFault::UnknownArchitecture => Code::UnknownArchitecture,
            ArraysFault::UnknownLayout => Code::UnknownLayout,
            ArraysFault::UnknownAction => Code::UnknownAction,
            ArraysFault::Counts => Code::BadCounts,
            ArraysFault::Argument => Code::BadArgument,
            ArraysFault::Length => Code::UnknownLength,
            ArraysFault::Operator => Code::UnknownOperator,
            ArraysFault::EmptyRule => Code::EmptyRule,
            ArraysFault::EqualActions => Code::EqualActions,
            ArraysFault::Order => Code::BadOrder,
            ArraysFault::Number => Code::BadNumber,
            ArraysFault::TooLarge => Code::TooLarge,
            ArraysFault::NoRoom => Code::NoRoom,
        }
    }

    /// The number of its code, which the exported functions answer.
    pub fn number(self) -> i64
        ensures { result ≡ arrays_code_of self }
    {
        self.code().number()
    }
}

/// The backend's `OutOfMemory` stays so; any other error is the filter's.
impl From<BackendError> for ArraysFault {
    ghost use Rattle.std.specs.Prelude.{◌≡◌};
    ghost use Rattle.seccompiler_c.specs.ArraysDemands.{arrays_fault_of};

    ghost from_gives = { λ refusal fault. fault ≡ arrays_fault_of refusal };

    fn from(refusal: BackendError) -> ArraysFault {
        match refusal {
            BackendError::OutOfMemory => ArraysFault::OutOfMemory,
            _ => ArraysFault::TooLarge,
        }
    }
}

/// `OutOfMemory` stays so; any other error is that the filter is too large.
impl From<FilterError> for ArraysFault {
    ghost use Rattle.std.specs.Prelude.{◌≡◌};
    ghost use Rattle.seccompiler_c.specs.ArraysDemands.{arrays_refusal};

    ghost from_gives = { λ refusal fault. fault ≡ arrays_refusal refusal };

    fn from(refusal: FilterError) -> ArraysFault {
        match refusal {
            FilterError::OutOfMemory => ArraysFault::OutOfMemory,
            _ => ArraysFault::TooLarge,
        }
    }
}
