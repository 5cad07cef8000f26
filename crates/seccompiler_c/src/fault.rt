// Why an exported function has no other answer, its code and its text.

ghost use Rattle.std.specs.Prelude.{◌≡◌};
ghost use Rattle.seccompiler_c.specs.Codes.{code_of, fault_code};

use crate::code::Code;
use seccomp_tree::FilterError;
use seccompiler::JsonFrontendError;
use std::fmt;

/// Why a policy, a program of it or a decision of it is not given.
#[derive(Drop)]
pub(crate) enum Fault {
    /// Memory ran out.
    OutOfMemory,
    /// The value is no architecture's.
    UnknownArchitecture,
    /// The number names no layout.
    UnknownLayout,
    /// The text has this fault, which is neither out of memory nor a reader's.
    Text(JsonFrontendError),
    /// No filter of the text has the name.
    NoFilter,
    /// The text has no more filters than the index.
    NoIndex,
    /// The filter is rejected so, and memory didn't run out.
    Filter(FilterError),
    /// The program has so many instructions, and there is room for less.
    NoRoom(usize),
}

impl Fault {
    /// The code of the fault.
    pub fn code(&self) -> Code
        ensures { result ≡ fault_code self.now }
    {
        match self {
            Fault::OutOfMemory => Code::OutOfMemory,
            Fault::UnknownArchitecture => Code::UnknownArchitecture,
            Fault::UnknownLayout => Code::UnknownLayout,
            Fault::Text(_) => Code::Rejected,
            Fault::NoFilter | Fault::NoIndex => Code::NoFilter,
            Fault::Filter(_) => Code::TooLarge,
            Fault::NoRoom(_) => Code::NoRoom,
        }
    }

    /// The number of its code, which the exported functions answer.
    pub fn number(&self) -> i64
        ensures { result ≡ code_of self.now }
    {
        self.code().number()
    }
}

/// The fault's text: the library's own if the library rejects it.
impl fmt::Display for Fault {
    ghost use Rattle.std.specs.Fmt.{DisplaysOnOk};
    ghost use Rattle.seccompiler.specs.Texts.{WritesOne};
    ghost use Rattle.seccompiler_c.specs.Messages.{fault_text, IsFaultText};

    ghost output = { fault_text };

    fn fmt<W: fmt::Write>(&self, f: &mut fmt::Formatter<W>) -> fmt::Result
        ensures writes { DisplaysOnOk W.write_str_gives f.old result (fault_text self.now) f.new }
        ensures text { WritesOne W.write_str_gives (IsFaultText self.now) f.old result f.new }
    {
        match self {
            Fault::OutOfMemory => f.write_str("Out of memory."),
            Fault::UnknownArchitecture => f.write_str("Unknown architecture."),
            Fault::UnknownLayout => f.write_str("Unknown layout."),
            Fault::Text(error) => error.fmt(f),
            Fault::NoFilter => f.write_str("No filter has this name."),
            Fault::NoIndex => f.write_str("No filter has this index."),
            Fault::Filter(error) => write!(f, "{error}"),
            Fault::NoRoom(length) => write!(
                f,
                "The array has too little room for the program: it has {length} instructions."
            ),
        }
    }
}

/// The front end's `OutOfMemory` stays so; any other error is the text's.
impl From<JsonFrontendError> for Fault {
    ghost use Rattle.std.specs.Prelude.{◌≡◌};
    ghost use Rattle.seccompiler_c.specs.Policies.{from_frontend};

    ghost from_gives = { λ refusal fault. fault ≡ from_frontend refusal };

    fn from(refusal: JsonFrontendError) -> Fault {
        match refusal {
            JsonFrontendError::OutOfMemory => Fault::OutOfMemory,
            refusal => Fault::Text(refusal),
        }
    }
}

/// `OutOfMemory` stays so; any other error is the filter's.
impl From<FilterError> for Fault {
    ghost use Rattle.std.specs.Prelude.{◌≡◌};
    ghost use Rattle.seccompiler_c.specs.Policies.{from_filter};

    ghost from_gives = { λ refusal fault. fault ≡ from_filter refusal };

    fn from(refusal: FilterError) -> Fault {
        match refusal {
            FilterError::OutOfMemory => Fault::OutOfMemory,
            refusal => Fault::Filter(refusal),
        }
    }
}
