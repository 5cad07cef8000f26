// The codes that stand in place of an answer, their numbers and their sentences.

ghost use Rattle.std.specs.Prelude.{◌≡◌, ◌<ℤ◌, pos, IfSome, IfNone};
ghost use Rattle.seccompiler_c.specs.Codes.{code_number, code_text};

use crate::codes::{
    SECCOMPILER_BAD_ARGUMENT, SECCOMPILER_BAD_COUNTS, SECCOMPILER_BAD_NUMBER,
    SECCOMPILER_BAD_ORDER, SECCOMPILER_EMPTY_RULE, SECCOMPILER_EQUAL_ACTIONS, SECCOMPILER_NO_FILE,
    SECCOMPILER_NO_FILTER, SECCOMPILER_NO_ROOM, SECCOMPILER_NOT_CHECKED, SECCOMPILER_OUT_OF_MEMORY,
    SECCOMPILER_REJECTED, SECCOMPILER_TOO_LARGE, SECCOMPILER_UNDECIDED, SECCOMPILER_UNKNOWN_ACTION,
    SECCOMPILER_UNKNOWN_ARCHITECTURE, SECCOMPILER_UNKNOWN_CALL, SECCOMPILER_UNKNOWN_LAYOUT,
    SECCOMPILER_UNKNOWN_LENGTH, SECCOMPILER_UNKNOWN_OPERATOR, SECCOMPILER_UNKNOWN_RELATION,
};

/// Why an exported function has no other answer.
#[derive(Clone, Copy)]
pub(crate) enum Code {
    /// Memory ran out.
    OutOfMemory,
    /// The value is no architecture's.
    UnknownArchitecture,
    /// The number names no layout.
    UnknownLayout,
    /// The policy has a fault.
    Rejected,
    /// The policy has no such filter.
    NoFilter,
    /// The program would have more than 4096 instructions.
    TooLarge,
    /// The program has more instructions than the array.
    NoRoom,
    /// The instructions are no checked program.
    NotChecked,
    /// The number names no relation.
    UnknownRelation,
    /// No system call has the name.
    UnknownCall,
    /// A kind names no action.
    UnknownAction,
    /// The counts of chains or rules don't add up.
    BadCounts,
    /// A condition's argument is above 5.
    BadArgument,
    /// A condition's length is unknown.
    UnknownLength,
    /// A condition's operator is unknown.
    UnknownOperator,
    /// A rule has no conditions.
    EmptyRule,
    /// The two actions are equal.
    EqualActions,
    /// The numbers of the chains don't ascend strictly.
    BadOrder,
    /// A number of a chain doesn't fit 32 bits.
    BadNumber,
    /// A comparison found no answer.
    Undecided,
    /// A file can't be read.
    NoFile,
}

impl Code {
    /// The code of a number, if it is one's.
    pub fn of(number: i64) -> Option<Code>
        ensures found { IfSome result (λ code. number ≡ code_number code) }
        ensures not_found { IfNone result ((code : Code) → number ≡ code_number code → ⊥) }
    {
        match number {
            SECCOMPILER_OUT_OF_MEMORY => Some(Code::OutOfMemory),
            SECCOMPILER_UNKNOWN_ARCHITECTURE => Some(Code::UnknownArchitecture),
            SECCOMPILER_UNKNOWN_LAYOUT => Some(Code::UnknownLayout),
            SECCOMPILER_REJECTED => Some(Code::Rejected),
            SECCOMPILER_NO_FILTER => Some(Code::NoFilter),
            SECCOMPILER_TOO_LARGE => Some(Code::TooLarge),
            SECCOMPILER_NO_ROOM => Some(Code::NoRoom),
            SECCOMPILER_NOT_CHECKED => Some(Code::NotChecked),
            SECCOMPILER_UNKNOWN_RELATION => Some(Code::UnknownRelation),
            SECCOMPILER_UNKNOWN_CALL => Some(Code::UnknownCall),
            SECCOMPILER_UNKNOWN_ACTION => Some(Code::UnknownAction),
            SECCOMPILER_BAD_COUNTS => Some(Code::BadCounts),
            SECCOMPILER_BAD_ARGUMENT => Some(Code::BadArgument),
            SECCOMPILER_UNKNOWN_LENGTH => Some(Code::UnknownLength),
            SECCOMPILER_UNKNOWN_OPERATOR => Some(Code::UnknownOperator),
            SECCOMPILER_EMPTY_RULE => Some(Code::EmptyRule),
            SECCOMPILER_EQUAL_ACTIONS => Some(Code::EqualActions),
            SECCOMPILER_BAD_ORDER => Some(Code::BadOrder),
            SECCOMPILER_BAD_NUMBER => Some(Code::BadNumber),
            SECCOMPILER_UNDECIDED => Some(Code::Undecided),
            SECCOMPILER_NO_FILE => Some(Code::NoFile),
            _ => None,
        }
    }

    /// The number of the code, which is below 0 and no other code's.
    pub fn number(self) -> i64
        ensures number { result ≡ code_number self }
        ensures negative { result <ℤ pos 0 }
        ensures own { (other : Code) → result ≡ code_number other → other ≡ self }
    {
        match self {
            Code::OutOfMemory => SECCOMPILER_OUT_OF_MEMORY,
            Code::UnknownArchitecture => SECCOMPILER_UNKNOWN_ARCHITECTURE,
            Code::UnknownLayout => SECCOMPILER_UNKNOWN_LAYOUT,
            Code::Rejected => SECCOMPILER_REJECTED,
            Code::NoFilter => SECCOMPILER_NO_FILTER,
            Code::TooLarge => SECCOMPILER_TOO_LARGE,
            Code::NoRoom => SECCOMPILER_NO_ROOM,
            Code::NotChecked => SECCOMPILER_NOT_CHECKED,
            Code::UnknownRelation => SECCOMPILER_UNKNOWN_RELATION,
            Code::UnknownCall => SECCOMPILER_UNKNOWN_CALL,
            Code::UnknownAction => SECCOMPILER_UNKNOWN_ACTION,
            Code::BadCounts => SECCOMPILER_BAD_COUNTS,
            Code::BadArgument => SECCOMPILER_BAD_ARGUMENT,
            Code::UnknownLength => SECCOMPILER_UNKNOWN_LENGTH,
            Code::UnknownOperator => SECCOMPILER_UNKNOWN_OPERATOR,
            Code::EmptyRule => SECCOMPILER_EMPTY_RULE,
            Code::EqualActions => SECCOMPILER_EQUAL_ACTIONS,
            Code::BadOrder => SECCOMPILER_BAD_ORDER,
            Code::BadNumber => SECCOMPILER_BAD_NUMBER,
            Code::Undecided => SECCOMPILER_UNDECIDED,
            Code::NoFile => SECCOMPILER_NO_FILE,
        }
    }

    /// What the code means, in a sentence.
    pub fn text(self) -> &'static str
        ensures { result.now ≡ code_text self }
    {
        match self {
            Code::OutOfMemory => "Out of memory.",
            Code::UnknownArchitecture => "Unknown architecture.",
            Code::UnknownLayout => "Unknown layout.",
            Code::Rejected => "The policy is rejected.",
            Code::NoFilter => "The policy has no such filter.",
            Code::TooLarge => "The program would have more than 4096 instructions.",
            Code::NoRoom => "The program has more instructions than the array.",
            Code::NotChecked => "The instructions are no program that may be run.",
            Code::UnknownRelation => "Unknown relation.",
            Code::UnknownCall => "Unknown system call.",
            Code::UnknownAction => "Unknown action.",
            Code::BadCounts => "The counts don't add up to the rules or the conditions.",
            Code::BadArgument => "The argument of a condition is above 5.",
            Code::UnknownLength => "The length of a condition is neither 4 nor 8.",
            Code::UnknownOperator => "The operator of a condition is above 6.",
            Code::EmptyRule => "A rule has no conditions.",
            Code::EqualActions => "The two actions are the same.",
            Code::BadOrder => "The numbers of the chains don't ascend; sort their rules with them.",
            Code::BadNumber => "The number of a chain is below 0 or above 4294967295.",
            Code::Undecided => "The comparison is undecided.",
            Code::NoFile => "The file can't be read.",
        }
    }
}
