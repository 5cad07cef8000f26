// Sets of call records, each by what is known of its 16 words.

ghost use Rattle.std.specs.Prelude.{◌≡◌, ◌≢◌, ℕ, ◌*◌, ◌^◌, ◌<◌, ◌⊎◌, List, Some, slice_get, IsTrue, false};
ghost use Rattle.seccompiler.specs.Machine.{IsRecord, word_at};
ghost use Rattle.seccomp_compare.specs.declared.values.Values.{Values};
ghost use Rattle.seccomp_compare.specs.WordSets.{HasValue, IsTight};
ghost use Rattle.seccomp_compare.specs.RecordSets.{IsIn, AreTight, LeavesSome};

use crate::follow::At;
use crate::values::{Values, halves};
use seccompiler::bpf::sock_filter;

/// The set in which the 32 bits of this index are one of these values.
pub(crate) fn narrowed(part: &[Values; 16], word: usize, values: Values) -> [Values; 16]
    requires word { word < 16 }
    requires tight { AreTight part.now }
    requires values { IsTight values }
    ensures tight { AreTight result }
    ensures to { (r : List ℕ) → IsIn part.now r → HasValue values (word_at r (4 * word)) → IsIn result r }
    ensures back { ((x : ℕ) → x < 2 ^ 32 → HasValue values x → (s : Values) → slice_get part.now word ≡ Some s → HasValue s x)
        → (r : List ℕ) → IsRecord r → IsIn result r → IsIn part.now r }
    ensures here { slice_get result word ≡ Some values }
    ensures others { (r : List ℕ) → IsIn result r → (w : ℕ) (s : Values) → w ≢ word → slice_get part.now w ≡ Some s → HasValue s (word_at r (4 * w)) }
{
    let mut narrow = *part;
    narrow[word] = values;
    narrow
}

/// Two parts of a set, by what the test of an instruction depends on here.
pub(crate) fn split(part: &[Values; 16], at: At, test: sock_filter) -> ([Values; 16], [Values; 16])
    requires word { at.word < 16 }
    requires tight { AreTight part.now }
    requires some { LeavesSome part.now }
    ensures cover { (r : List ℕ) → IsRecord r → IsIn part.now r → IsIn result.0 r ⊎ IsIn result.1 r }
    ensures from_low { (r : List ℕ) → IsRecord r → IsIn result.0 r → IsIn part.now r }
    ensures from_high { (r : List ℕ) → IsRecord r → IsIn result.1 r → IsIn part.now r }
    ensures low { AreTight result.0 }
    ensures high { AreTight result.1 }
{
    let (lower, upper) = halves(part[at.word], at.mask, test);
    (
        narrowed(part, at.word, lower),
        narrowed(part, at.word, upper),
    )
}

/// The record of the least numbers under the masks of their bounds.
pub(crate) fn member(part: &[Values; 16]) -> [u8; 64]
    requires tight { AreTight part.now }
    requires some { LeavesSome part.now }
    ensures record_is { IsRecord result }
    ensures within { IsIn part.now result }
{
    let mut call = [0; 64];
    for (word, values) in part.iter().enumerate() {
        write_word(&mut call, word, values.least | values.value);
    }
    call
}

// Writes a word of a record.
pub(crate) fn write_word(call: &mut [u8; 64], word: usize, value: u32)
    requires word { word < 16 }
    requires record_was { IsRecord call.old }
    ensures record_is { IsRecord call.new }
    ensures here { word_at call.new (4 * word) ≡ value }
    ensures others { (w : ℕ) → w ≢ word → word_at call.new (4 * w) ≡ word_at call.old (4 * w) }
{
    let [a, b, c, d] = value.to_le_bytes();
    let k = 4 * word;
    call[k] = a;
    call[k + 1] = b;
    call[k + 2] = c;
    call[k + 3] = d;
}

/// Whether some bounds leave no number.
pub(crate) fn is_empty(part: &[Values; 16]) -> bool
    ensures empty { IsTrue result → (r : List ℕ) → IsIn part.now r → ⊥ }
    ensures some { result ≡ false → LeavesSome part.now }
{
    for values in part.iter() {
        if values.least > values.most {
            return true;
        }
    }
    false
}
