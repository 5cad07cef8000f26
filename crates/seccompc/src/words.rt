// The words that the program is called with.

ghost use Rattle.std.specs.Prelude.{◌≡◌, ℤ, [], ◌∷◌, IfSome, IfNone, map, codes, string_bytes};
ghost use Rattle.seccompc.specs.declared.words.Command.{Command};
ghost use Rattle.seccompc.specs.Words.{IsSignedText, IsSigned64, IsCommand};

use seccomp_text::numbers::read_digits;

/// A command of the program.
#[derive(Clone, Copy)]
pub enum Command<'a> {
    /// Compile a filter of one condition, and trace its program on the records of standard input.
    Probe {
        /// The architecture's name.
        arch: &'a str,
        /// The call number that the filter has a rule for.
        nr: i64,
        /// Which argument the condition compares, numbered from 0.
        index: u8,
        /// What the argument has to equal.
        value: u64,
    },
    /// List the programs of the policy on standard input.
    List {
        /// The architecture's name.
        arch: &'a str,
    },
    /// Trace the program of a policy's filter on the records of standard input.
    Run {
        /// The architecture's name.
        arch: &'a str,
        /// The file that has the policy.
        file: &'a str,
        /// The filter's name.
        name: &'a str,
    },
}

/// Reads the arguments after the program's name as a command, or `None` if they are none. Takes no memory.
///
/// The commands are `probe ARCH NR INDEX VALUE`, `list ARCH` and `run ARCH FILE NAME`. ARCH, FILE and NAME are
/// any texts. NR, INDEX and VALUE are one or more ASCII digits, NR with at most one `-` in front, and fit
/// `i64`, `u8` and `u64`.
pub fn read_words(words: &[String]) -> Option<Command<'_>>
    ensures read { IfSome result (IsCommand (map string_bytes words.now)) }
    ensures unread { IfNone result ((command : Command) → IsCommand (map string_bytes words.now) command → ⊥) }
{
    let (command, words) = words.split_first()?;
    match command.as_str() {
        "probe" => read_probe(words),
        "list" => read_list(words),
        "run" => read_run(words),
        _ => None,
    }
}

// The probe that the words after `probe` ask for.
fn read_probe(words: &[String]) -> Option<Command<'_>>
    ensures read { IfSome result (IsCommand (codes "probe" ∷ map string_bytes words.now)) }
    ensures unread { IfNone result ((command : Command) → IsCommand (codes "probe" ∷ map string_bytes words.now) command → ⊥) }
{
    match words {
        [arch, nr, index, value] => probe_of(
            arch.as_str(),
            nr.as_str(),
            index.as_str(),
            value.as_str(),
        ),
        _ => None,
    }
}

// The listing that the words after `list` ask for.
fn read_list(words: &[String]) -> Option<Command<'_>>
    ensures read { IfSome result (IsCommand (codes "list" ∷ map string_bytes words.now)) }
    ensures unread { IfNone result ((command : Command) → IsCommand (codes "list" ∷ map string_bytes words.now) command → ⊥) }
{
    match words {
        [arch] => Some(Command::List {
            arch: arch.as_str(),
        }),
        _ => None,
    }
}

// The run that the words after `run` ask for.
fn read_run(words: &[String]) -> Option<Command<'_>>
    ensures read { IfSome result (IsCommand (codes "run" ∷ map string_bytes words.now)) }
    ensures unread { IfNone result ((command : Command) → IsCommand (codes "run" ∷ map string_bytes words.now) command → ⊥) }
{
    match words {
        [arch, file, name] => Some(Command::Run {
            arch: arch.as_str(),
            file: file.as_str(),
            name: name.as_str(),
        }),
        _ => None,
    }
}

// The probe of an architecture's name and three numbers' texts.
fn probe_of<'a>(arch: &'a str, nr: &str, index: &str, value: &str) -> Option<Command<'a>>
    ensures read { IfSome result (IsCommand (codes "probe" ∷ arch.now ∷ nr.now ∷ index.now ∷ value.now ∷ [])) }
    ensures unread { IfNone result ((command : Command) → IsCommand (codes "probe" ∷ arch.now ∷ nr.now ∷ index.now ∷ value.now ∷ []) command → ⊥) }
{
    Some(Command::Probe {
        arch,
        nr: read_signed(nr)?,
        index: u8::try_from(read_digits(index, 10)?).ok()?,
        value: read_digits(value, 10)?,
    })
}

// The number that a text of decimal digits writes, a `-` in front or not, if 64 bits hold it.
fn read_signed(text: &str) -> Option<i64>
    ensures read { IfSome result (IsSignedText text.now) }
    ensures unread { IfNone result ((z : ℤ) → IsSigned64 z → IsSignedText text.now z → ⊥) }
{
    if text.starts_with('+') {
        return None;
    }
    text.parse().ok()
}
