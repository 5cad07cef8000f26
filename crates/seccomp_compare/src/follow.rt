// Runs of a program on all records of a set at once.

ghost use Rattle.std.specs.Prelude.{◌≡◌, ◌≢◌, ℕ, ◌+◌, ◌*◌, ◌<◌, length, List, IfSome};
ghost use Rattle.seccompiler.specs.Machine.{IsRecord, word_at};
ghost use Rattle.seccomp_compare.specs.Machine.{IsFine, IsChecked, Does};
ghost use Rattle.seccomp_compare.specs.WordSets.{HasValue};
ghost use Rattle.seccomp_compare.specs.RecordSets.{IsIn, accumulator, Reaches};

use crate::values::{Values, outcome};
use seccompiler::bpf::{BpfProgramRef, JUMP, LOAD, MASK, RETURN, sock_filter};

/// The state of a run: a place, and 32 bits of the record under a mask in the accumulator.
#[derive(Clone, Copy)]
pub struct At {
    /// The place of the next instruction.
    pub place: usize,
    /// Which 32 bits of the record the accumulator has, counted from 0.
    pub word: usize,
    /// The bits of it that the accumulator has.
    pub mask: u32,
}

// Where an instruction that doesn't return leads from here, if it leads all records of the set to one place.
fn step(instruction: sock_filter, at: At, length: usize, part: &[Values; 16]) -> Option<At>
    requires fine { IsFine instruction at.place length }
    requires goes_on { instruction.code ≢ RETURN }
    requires next { at.place + 1 < length }
    requires word { at.word < 16 }
    ensures does { IfSome result (λ to. (r : List ℕ) → IsRecord r → IsIn part.now r → Does instruction r at.place (accumulator r at) to.place (accumulator r to)) }
    ensures later { IfSome result (λ to. at.place < to.place) }
    ensures within { IfSome result (λ to. to.place < length) }
    ensures word { IfSome result (λ to. to.word < 16) }
{
    let At { place, word, mask } = at;
    let next = place + 1;
    let k = instruction.k;
    match instruction.code {
        LOAD => Some(At {
            place: next,
            word: k as usize / 4,
            mask: u32::MAX,
        }),
        MASK => Some(At {
            place: next,
            word,
            mask: mask & k,
        }),
        JUMP => Some(At {
            place: next + k as usize,
            word,
            mask,
        }),
        _ => {
            if outcome(part[word], mask, instruction)? {
                Some(At {
                    place: next + instruction.jt as usize,
                    word,
                    mask,
                })
            } else {
                Some(At {
                    place: next + instruction.jf as usize,
                    word,
                    mask,
                })
            }
        }
    }
}

/// Goes on from here as far as all records of the set go together: to a return, or to a test whose outcome is not
/// known of them.
pub(crate) fn follow(prog: BpfProgramRef<'_>, from: At, part: &[Values; 16]) -> At
    requires checked { IsChecked prog.now }
    requires within { from.place < length prog.now }
    requires word { from.word < 16 }
    ensures reaches { (r : List ℕ) → IsRecord r → IsIn part.now r → Reaches prog.now r from → Reaches prog.now r result }
    ensures within { result.place < length prog.now }
    ensures word { result.word < 16 }
{
    let mut at = from;
    while prog[at.place].code != RETURN {
        let Some(next) = step(prog[at.place], at, prog.len(), part) else {
            return at;
        };
        at = next;
    }
    at
}
