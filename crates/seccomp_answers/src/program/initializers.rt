// Programs as C has them: initializers of `struct sock_filter`, as `tcpdump -dd` and `compile --format c` write them.

ghost use Rattle.std.specs.Prelude.{◌≡◌, ◌≤◌, ◌↔◌, IfErr, IsTrue, length};
ghost use Rattle.seccomp_answers.specs.Kinds.{BeginsAsInitializers, BeginsInitializer, behind_space};
ghost use Rattle.seccomp_answers.specs.Programs.{IsOfProgram};

use crate::calls::read_number;
use crate::error::AnswerError;
use crate::program::fault::ProgramFault;
use std::alloc::Global;

// What stands next in `{ CODE, JT, JF, K },`, by its place from 0, of which the last ones are K's and the comma's.
const OPERAND: u8 = 7;

const BEHIND: u8 = 9;
// Nothing but semicolons, behind the brace that closes all.
const END: u8 = 10;

#[derive(Drop)]
struct Reader {
    // 8 for each instruction; those of the last one may be fewer.
    bytes: Vec<u8>,
    next: u8,
    // Whether braces stand around all instructions.
    is_braced: bool,
    line: usize,
    // Whether memory ran out.
    is_missing: bool,
}

// Whether a text begins with a brace and then a digit, a brace or a comment, as no text of JSON does.
pub(crate) fn begins_as_initializers(text: &[u8]) -> bool
    ensures { IsTrue result ↔ BeginsAsInitializers text.now }
{
    let outer = behind_space(text);
    if outer.is_empty() || outer[0] != b'{' {
        return false;
    }
    let inner = behind_space(&outer[1..]);
    !inner.is_empty() && begins_initializer(inner[0])
}

// Whether a digit, a brace or a comment begins with this byte.
fn begins_initializer(byte: u8) -> bool
    ensures { IsTrue result ↔ BeginsInitializer byte }
{
    byte.is_ascii_digit() || byte == b'{' || byte == b'/'
}

// What stands behind the white space that a text begins with.
fn behind_space(text: &[u8]) -> &[u8]
    ensures { result.now ≡ behind_space text.now }
{
    text.trim_ascii_start()
}

/// The bytes of the instructions that a text initializes: four numbers each, decimal or hexadecimal, in braces. Braces may stand
/// around all, a comma behind the last one, and comments anywhere.
pub(crate) fn bytes_of_initializers(alloc: Global, text: &[u8]) -> Result<Vec<u8>, AnswerError>
    ensures { IfErr result IsOfProgram }
{
    let mut reader = Reader {
        bytes: Vec::new(alloc),
        next: 0,
        is_braced: false,
        line: 1,
        is_missing: false,
    };
    let mut rest = text;
    // A piece has a byte at least, while there is a rest.
    for _ in 0..text.len() {
        let (piece, behind) = rest.split_at(piece_len(rest));
        if !reader.take(piece) {
            return Err(reader.fault());
        }
        rest = behind;
    }
    match reader.next {
        _ if reader.is_missing => Err(reader.fault()),
        END => Ok(reader.bytes),
        0 | BEHIND if !reader.is_braced => Ok(reader.bytes),
        _ => Err(reader.fault()),
    }
}

// How long the white space, the comment, the number or the mark is that a text begins with.
fn piece_len(text: &[u8]) -> usize
    ensures { result ≤ length text.now }
{
    for place in 1..text.len() {
        let is_behind = match text {
            [b'/', b'/', ..] => text[place] == b'\n',
            [b'/', b'*', ..] => place > 3 && text[place - 2] == b'*' && text[place - 1] == b'/',
            [first, ..] if first.is_ascii_alphanumeric() => !text[place].is_ascii_alphanumeric(),
            _ => true,
        };
        if is_behind {
            return place;
        }
    }
    text.len()
}

impl Reader {
    // Whether a piece may stand here; then it is taken.
    fn take(&mut self, piece: &[u8]) -> bool {
        let first = piece.first().copied().unwrap_or(b' ');
        if first.is_ascii_whitespace() || (first == b'/' && piece.len() > 1) {
            for byte in piece {
                self.line = self.line.saturating_add((*byte == b'\n') as usize);
            }
            return true;
        }
        self.next = match (self.next, first) {
            (1, b'{') if self.bytes.is_empty() && !self.is_braced => {
                self.is_braced = true;
                1
            }
            (1 | 3 | 5 | OPERAND, _) => {
                let (greatest, size) = match self.next {
                    OPERAND => (0xffff_ffff, 4),
                    1 => (255, 2),
                    _ => (255, 1),
                };
                let number = read_number(str::from_utf8(piece).unwrap_or("")).unwrap_or(u64::MAX);
                if number > greatest {
                    return false;
                }
                let bytes = number.to_le_bytes();
                self.is_missing |= self.bytes.extend_from_slice(&bytes[..size]).is_err();
                self.next.saturating_add(1)
            }
            (0, b'{') | (2 | 4 | 6, b',') | (8, b'}') => self.next.saturating_add(1),
            (BEHIND, b',') => 0,
            (0 | BEHIND, b'}') if self.is_braced => END,
            (END, b';') => END,
            _ => return false,
        };
        true
    }

    fn fault(&self) -> AnswerError
        ensures { IsOfProgram result }
    {
        let expected = match self.next {
            _ if self.is_missing => return AnswerError::OutOfMemory,
            0 => "an opening brace",
            1 | 3 | 5 => "a number from 0 to 255",
            OPERAND => "a number from 0 to 4294967295",
            8 => "a closing brace",
            END => "the end",
            _ => "a comma",
        };
        AnswerError::Program(ProgramFault::Text(self.line, expected))
    }
}
