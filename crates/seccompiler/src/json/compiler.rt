// From JSON filters, and from a text of them, to filters.

ghost use Rattle.std.specs.Prelude.{◌≡◌, ◌↔◌, ◌⊎◌, ℕ, ℤ, List, All, Contains, IfSome, IfOk, IfErr, OnOk, MatchResult, Err, alloc_error, string_cmp};
ghost use Rattle.std.specs.BTreeMap as tree;
ghost use Rattle.std.specs.HashMap.{get_by_text};
ghost use Rattle.std.specs.List.Sorted.{IsStrictlySortedBy};
ghost use Rattle.std.specs.Map.{keys_of};
ghost use Rattle.std.specs.Ordering.{int_cmp};
ghost use Rattle.serde_json.specs.Data.{Data};
ghost use Rattle.serde_json.specs.View.{view};
ghost use Rattle.seccompiler.specs.Errors.{IsNoMemoryInFrontend};
ghost use Rattle.seccompiler.specs.JsonAnswers.{OfEachText, OfValue, ArePoliciesOf, HasPolicy, TellsFrontendFault};
ghost use Rattle.seccompiler.specs.JsonEntries.{PoliciesMatchEntries};
ghost use Rattle.seccompiler.specs.JsonFilters.{IsReadBack, under};
ghost use Rattle.seccompiler.specs.JsonSteps.{IsNoFailedRead, IsPolicyRefusal};
ghost use Rattle.seccompiler.specs.Reads.{Reads};
ghost use Rattle.seccompiler.specs.Policy.{Filter};
ghost use Rattle.seccompiler.specs.Compiled.{numbers_of};
ghost use Rattle.seccompiler.specs.SyscallTable.{IsTableNumber};
ghost use Rattle.seccompiler.specs.JsonPolicyOf.{Fault, IsFirstFault, IsPolicyOf};
ghost use Rattle.seccompiler.specs.JsonWidened.{DecideAlikeOff, KeepsMatches, MatchesOn, IsPolicyBefore, IsWidened};

use crate::backend::TargetArch;
use crate::filter::SeccompFilter;
use crate::json::error::JsonFrontendError;
use crate::json::filter_map::lent_filters;
use crate::json::lent::lent;
use crate::json::policy::{lent_seccomp_filter, widened_numbers};
use crate::json::texts::{value_from, value_of};
use crate::json::types::JsonFilter;
use serde_json::Value;
use std::alloc::Global;
use std::collections::{BTreeMap, HashMap};
use std::io::Read;
use std::marker::Model;

/// Makes filters of JSON policies, for one architecture.
#[derive(Clone, Copy, Debug)]
pub struct JsonCompiler {
    arch: TargetArch,
}

impl Model for JsonCompiler {
    ghost use Rattle.seccompiler.specs.declared.backend.TargetArch.{TargetArch};

    ghost Value = { TargetArch };

    ghost view = { λ compiler. compiler.arch };

    ghost inverse = { λ arch. record { arch = arch } };
}

impl JsonCompiler {
    /// A compiler for an architecture.
    ///
    /// ```
    /// let compiler = JsonCompiler::new(TargetArch::aarch64);
    /// ```
    pub fn new(arch: TargetArch) -> Self
        ensures { result ≡ arch }
    {
        JsonCompiler { arch }
    }

    /// Makes the filter that a JSON filter stands for: its policy on this architecture.
    ///
    /// Each entry's call number becomes a key of the filter's map. A call of which some entry has no
    /// conditions matches always, whatever other entries it has: its chain is empty. The chain of
    /// any other call has one rule for each of its entries, in order. The filter has the JSON
    /// filter's actions.
    ///
    /// In the Rust crate an entry without conditions has no effect beside entries with conditions;
    /// `widened` says which calls that makes a difference for.
    ///
    /// # Errors
    ///
    /// The first fault is reported, in this order: of the entries, one after the other, `SyscallName` with
    /// the call's name and this architecture if the architecture has no such call, else
    /// `Backend(InvalidArgumentNumber)` if a condition's index is above 5, else `Backend(EmptyRule)` if
    /// the list of conditions is there and empty; after all entries `Backend(IdenticalActions)` if the two
    /// actions are equal. `OutOfMemory`, if memory runs out, may be returned instead of any of these, and no
    /// other error in place of the first.
    pub fn make_seccomp_filter(
        &self,
        alloc: Global,
        filter: &JsonFilter,
    ) -> Result<SeccompFilter, JsonFrontendError>
        ensures policy { IfOk result (IsPolicyOf self.now filter.now) }
        ensures refusal { IfErr result (IsPolicyRefusal self.now filter.now) }
        ensures numbers { IfOk result (λ f. All IsTableNumber (numbers_of f.chains)) }

        // Each JSON filter has one policy or one first fault, never both and never neither.
        ensures only_policy { (f g : Filter) → IsPolicyOf self.now filter.now f → IsPolicyOf self.now filter.now g → f ≡ g }
        ensures only_fault { (a b : Fault) → IsFirstFault self.now filter.now a → IsFirstFault self.now filter.now b → a ≡ b }
        ensures not_both { (f : Filter) (fault : Fault) → IsPolicyOf self.now filter.now f → IsFirstFault self.now filter.now fault → ⊥ }
        ensures one_of_both { ((f : Filter) × IsPolicyOf self.now filter.now f) ⊎ ((fault : Fault) × IsFirstFault self.now filter.now fault) }

        // The policy of each JSON filter matches exactly the records that meet one of its entries.
        ensures entries { PoliciesMatchEntries self.now }
    {
        match lent(alloc, filter) {
            Ok(lent) => lent_seccomp_filter(alloc, self.arch, &lent),
            Err(_) => Err(JsonFrontendError::OutOfMemory),
        }
    }

    /// The numbers of the calls that have both an entry without conditions and one with conditions,
    /// ascending, each once.
    ///
    /// These are the calls on which a filter that was written for the Rust crate may mean something
    /// else here. On each of them it matches, whatever the arguments, if the Rust crate's filter
    /// matches only if the conditions of some entry hold. On every other call both decide the same,
    /// and what the Rust crate's filter matches is matched here too.
    ///
    /// # Errors
    ///
    /// Those of `make_seccomp_filter`, in the same order.
    pub fn widened(&self, alloc: Global, filter: &JsonFilter) -> Result<Vec<i64>, JsonFrontendError>
        ensures numbers { IfOk result (λ numbers. (number : ℤ) → Contains numbers.items number ↔ IsWidened self.now filter.now number) }
        ensures ascending { IfOk result (λ numbers. IsStrictlySortedBy int_cmp numbers.items) }
        ensures policies { OnOk result (((before : Filter) × IsPolicyBefore self.now filter.now before) × ((now : Filter) × IsPolicyOf self.now filter.now now)) }
        ensures refusal { IfErr result (IsPolicyRefusal self.now filter.now) }

        // What the list says of every call record, by the Rust crate's policy and by this one.
        ensures same_elsewhere { IfOk result (λ numbers. DecideAlikeOff numbers.items self.now filter.now) }
        ensures matches_there { IfOk result (λ numbers. MatchesOn numbers.items self.now filter.now) }
        ensures keeps_matches { KeepsMatches self.now filter.now }
    {
        widened_numbers(alloc, self.arch, filter)
    }

    /// Reads a text of JSON filters, and makes each filter, as `make_seccomp_filter` does.
    ///
    /// The map has the text's names, each with its filter; the filters' call numbers are within 0 to
    /// 462.
    ///
    /// # Errors
    ///
    /// The first of these that is there:
    ///
    /// - `SerdeJson` if the bytes are no JSON text;
    /// - `RepeatedKey` if `repeats_key` finds that a name is repeated;
    /// - `NotAnObject` if the text is no object;
    /// - `Shape` with the least name, in byte order, whose value is no filter;
    /// - what `make_seccomp_filter` rejects, of the least name with such a filter.
    ///
    /// `OutOfMemory` may be returned instead of each, if memory runs out. As there is no reader, none is `Read`.
    ///
    /// # Examples
    ///
    /// ```
    /// let text = br#"{"main": {"mismatch_action": "trap", "match_action": "allow", "filter": []}}"#;
    /// let policies = JsonCompiler::new(TargetArch::x86_64).policies_of(alloc, text)?;
    /// assert!(rt; policies.contains_key("main"));
    /// ```
    pub fn policies_of(
        &self,
        alloc: Global,
        text: &[u8],
    ) -> Result<BTreeMap<String, SeccompFilter>, JsonFrontendError>
        ensures policies { IfOk result (λ m. OfValue text.now (ArePoliciesOf self.now (tree.get_by_text m))) }
        ensures read_back { IfOk result (λ m. (d : Data) → ArePoliciesOf self.now (tree.get_by_text m) d → IsReadBack (HasPolicy self.now) m d) }
        ensures numbers { IfOk result (λ m. (name : List ℕ) → IfSome (tree.get_by_text m name) (λ f. All IsTableNumber (numbers_of f.chains))) }
        ensures fault { IfErr result (TellsFrontendFault self.now text.now) }
        ensures no_reader { IfErr result IsNoFailedRead }
        ensures memory { IfErr result IsNoMemoryInFrontend }
    {
        let value = value_of(alloc, text)?;
        policies_in(alloc, &value, self.arch)
    }

    /// Reads a text of JSON filters to its end, and makes each filter, as `make_seccomp_filter` does.
    ///
    /// The map has the text's names, each with its filter; the filters' call numbers are within 0 to
    /// 462. The text is what the reader gives, which the contract names if the reader's type says what it
    /// reads, as a slice does. For a reader whose type doesn't, as a file, it says that there
    /// is a text of which all this holds.
    ///
    /// # Errors
    ///
    /// The first of these that is there:
    ///
    /// - `Read` if the reader fails;
    /// - `SerdeJson` if the bytes are no JSON text;
    /// - `RepeatedKey` if `repeats_key` finds that a name is repeated;
    /// - `NotAnObject` if the text is no object;
    /// - `Shape` with the least name, in byte order, whose value is no filter;
    /// - what `make_seccomp_filter` rejects, of the least name with such a filter.
    ///
    /// `OutOfMemory` may be returned instead of each, if memory runs out, in the reader too.
    ///
    /// # Examples
    ///
    /// ```
    /// let text = r#"{"main": {"mismatch_action": "trap", "match_action": "allow", "filter": []}}"#;
    /// let compiler = JsonCompiler::new(TargetArch::aarch64);
    /// let filters = compiler.compile(alloc, text.as_bytes())?;
    /// assert!(rt; filters.get("main").is_some());
    /// ```
    pub fn compile<R: Read + Drop>(
        &self,
        alloc: Global,
        reader: R,
    ) -> Result<HashMap<String, SeccompFilter>, JsonFrontendError>
        ensures policies { IfOk result (λ m. Reads (R.remaining reader) (λ text. OfValue text (ArePoliciesOf self.now (get_by_text m)))) }
        ensures numbers { IfOk result (λ m. (name : List ℕ) → IfSome (get_by_text m name) (λ f. All IsTableNumber (numbers_of f.chains))) }
        ensures fault { IfErr result (λ e. Reads (R.remaining reader) (λ text. TellsFrontendFault self.now text e)) }
        ensures memory { IfErr result IsNoMemoryInFrontend }
    {
        let value = value_from(alloc, reader)?;
        let policies = listed_policies(alloc, &value, self.arch)?;
        match policies.into_iter().collect(alloc) {
            Ok(filters) => Ok(filters),
            Err(_) => Err(JsonFrontendError::OutOfMemory),
        }
    }
}

/// Makes each filter of a text's value, as [`JsonCompiler::policies_of`] does of the text: for whoever has read it.
///
/// # Errors
///
/// Those of [`JsonCompiler::policies_of`], in the same order, but for the two of a text that has no value.
pub fn policies_in(
    alloc: Global,
    value: &Value,
    arch: TargetArch,
) -> Result<BTreeMap<String, SeccompFilter>, JsonFrontendError>
    ensures policies { IfOk result (λ m. ArePoliciesOf arch (tree.get_by_text m) (view value.now)) }
    ensures read_back { IfOk result (λ m. (d : Data) → ArePoliciesOf arch (tree.get_by_text m) d → IsReadBack (HasPolicy arch) m d) }
    ensures numbers { IfOk result (λ m. (name : List ℕ) → IfSome (tree.get_by_text m name) (λ f. All IsTableNumber (numbers_of f.chains))) }
    ensures fault { IfErr result (λ e. OfEachText (view value.now) (λ text. TellsFrontendFault arch text e)) }
    ensures no_reader { IfErr result IsNoFailedRead }
    ensures memory { IfErr result IsNoMemoryInFrontend }
{
    let policies = listed_policies(alloc, value, arch)?;
    match policies.into_iter().collect(alloc) {
        Ok(filters) => Ok(filters),
        Err(_) => Err(JsonFrontendError::OutOfMemory),
    }
}

/// The same in the order of their names.
pub(crate) fn listed_policies(
    alloc: Global,
    value: &Value,
    arch: TargetArch,
) -> Result<Vec<(String, SeccompFilter)>, JsonFrontendError>
    ensures { MatchResult result
        (λ policies. IsStrictlySortedBy string_cmp (keys_of policies.items) × ArePoliciesOf arch (under policies.items) (view value.now))
        (λ e. OfEachText (view value.now) (λ text. TellsFrontendFault arch text e) × IsNoFailedRead e × IsNoMemoryInFrontend e) }
{
    let filters = lent_filters(alloc, value)?;
    let Ok(mut policies) = Vec::with_capacity(alloc, filters.len()) else {
        return Err(JsonFrontendError::OutOfMemory);
    };
    for (name, filter) in filters {
        match lent_seccomp_filter(alloc, arch, &filter) {
            Ok(policy) => policies.push_reserved((name, policy)),
            Err(error) => return Err(error),
        }
    }
    Ok(policies)
}
