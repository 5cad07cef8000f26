// Filters and decisions with several return values, what is asked of them, and comparisons with filters.

use crate::question::Question;
use seccomp_compare::Relation::{self, Alike, AtMostAsPermissive};
use seccomp_compare::machine::check;
use seccomp_compare::{Calls, Comparison, compare_filters, compare_program};
use seccomp_tree::{Decision, Decisions, DefaultValue, TreeError, to_tree_bpf};
use seccompiler::{BackendError, SeccompFilter, SeccompRule, sock_filter};
use std::collections::BTreeMap;

impl<'a> Question<'a> {
    fn chain(&mut self) -> Vec<SeccompRule> {
        let mut rules = Vec::new(self.alloc);
        for _ in 0..self.number::<u64>() {
            if let Some(rule) = self.rule() {
                self.is_short |= rules.push(rule).is_err();
            }
        }
        rules
    }

    /// A filter: architecture, both actions, and so many calls, each its number and its rules.
    pub(crate) fn filter(&mut self) -> Option<SeccompFilter> {
        let (arch, mismatch, matched) = (self.arch(), self.action(), self.action());
        let mut chains = BTreeMap::new(self.alloc);
        for _ in 0..self.number::<u64>() {
            let (number, chain) = (self.number(), self.chain());
            self.is_short |= chains.insert(number, chain).is_err();
        }
        self.kept(SeccompFilter::new(chains, mismatch, matched, arch))
    }

    /// What is asked of a filter: how long its program is, what it decides, whether a copy is equal; and of its programs.
    pub(crate) fn about_filter(&mut self) {
        let Some(filter) = self.filter() else {
            return;
        };
        match self.word() {
            "length" => self.tell(&filter.program_len()),
            "decide" => {
                let decided = filter.decide(&self.record());
                self.tell(&decided);
            }
            "copy" => {
                if let Some(copy) = self.kept(filter.clone(self.alloc)) {
                    let is_equal = copy == filter && copy.program_len() == filter.program_len();
                    self.tell(&is_equal);
                }
            }
            asked => {
                let made = match asked {
                    "linear" => self.kept(filter.to_bpf(self.alloc)),
                    _ => self.kept(to_tree_bpf(self.alloc, &filter)),
                };
                if let Some(program) = made {
                    self.about_program(&program, &filter);
                }
            }
        }
    }

    // A relation, the most sets of calls, and of which calls: all, those of an architecture, or those of its numbers from one to another.
    fn comparison(&mut self) -> (Relation, usize, Calls) {
        let relation = *[Alike]
            .get(self.number::<usize>())
            .unwrap_or(&AtMostAsPermissive);
        let (most, kind, arch) = (self.number(), self.number::<u64>(), self.arch());
        let calls = match kind {
            0 => Calls::all(),
            1 => Calls::of_arch(arch),
            _ => Calls::of_numbers(arch, self.number(), self.number()),
        };
        (relation, most, calls)
    }

    /// What two filters have in common: whether they are equal, and what they decide, with both values for a call that differs.
    pub(crate) fn about_filters(&mut self) {
        let (Some(first), Some(second)) = (self.filter(), self.filter()) else {
            return;
        };
        if self.word() == "equal" {
            return self.tell(&(first == second));
        }
        let (relation, most, calls) = self.comparison();
        let compared = compare_filters(self.alloc, &first, &second, &calls, relation, most);
        match self.kept(compared) {
            Some(Comparison::Fails(record)) => {
                self.tell(&first.decide(&record));
                self.tell(&second.decide(&record));
            }
            Some(answer) => self.tell(&matches!(answer, Comparison::Holds)),
            None => {}
        }
    }

    // What is asked of one of a filter's programs; it may be compared with the filter.
    fn about_program(&mut self, program: &[sock_filter], filter: &SeccompFilter) {
        let asked = self.word();
        if asked != "compare" || !check(program) {
            return self.about_code(asked, program);
        }
        let (relation, most, calls) = self.comparison();
        let compared = compare_program(self.alloc, program, filter, &calls, relation, most);
        if let Some(answer) = self.kept(compared) {
            self.tell(&matches!(answer, Comparison::Holds));
        }
    }

    // Decisions of a call: so many, each the value, and the conditions under which it is given.
    fn rulings(&mut self) -> Vec<Decision> {
        let mut made = Vec::new(self.alloc);
        for _ in 0..self.number::<u64>() {
            let (value, conditions) = (self.number(), self.conditions());
            self.is_short |= made.push(Decision { conditions, value }).is_err();
        }
        made
    }

    // Decisions: architecture, so many default values, each after the number from which it is given, and so many calls.
    fn decisions(&mut self) -> Option<Decisions> {
        let arch = self.arch();
        let mut defaults = Vec::new(self.alloc);
        for _ in 0..self.number::<u64>() {
            let (start, value) = (self.number(), self.number());
            self.is_short |= defaults.push(DefaultValue { start, value }).is_err();
        }
        let mut calls = BTreeMap::new(self.alloc);
        for _ in 0..self.number::<u64>() {
            let (number, rulings) = (self.number(), self.rulings());
            self.is_short |= calls.insert(number, rulings).is_err();
        }
        Decisions::new(arch, defaults, calls)
    }

    /// What is asked of decisions: what a call gets, or of their program.
    pub(crate) fn about_decisions(&mut self) {
        let Some(decisions) = self.decisions() else {
            return;
        };
        match self.word() {
            "decide" => {
                let decided = decisions.decide(&self.record());
                self.tell(&decided);
            }
            asked => match decisions.to_bpf(self.alloc) {
                Ok(program) => self.about_code(asked, &program),
                Err(TreeError::OutOfMemory) => self.tell(&BackendError::OutOfMemory),
                Err(TreeError::TooLarge) => self.tell(&"too large"),
            },
        }
    }
}
