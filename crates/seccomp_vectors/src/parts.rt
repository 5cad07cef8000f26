// Questions by what they are about, and those about conditions, rules, architectures and names of calls.

use crate::question::Question;
use seccompiler::SeccompAction::{Allow, Errno, KillProcess, KillThread, Log, Trap};
use seccompiler::SeccompCmpArgLen::{Dword, Qword};
use seccompiler::SeccompCmpOp::{Eq, Ge, Gt, Le, Lt, MaskedEq, Ne};
use seccompiler::backend::build_arch_validation_sequence;
use seccompiler::bpf::{RETURN, bpf_stmt};
use seccompiler::{
    BpfProgram, SeccompAction, SeccompCondition, SeccompRule, SyscallTable, TargetArch,
};

impl<'a> Question<'a> {
    pub(crate) fn answer_to(&mut self, line: &'a str) {
        let (words, text) = line.split_once('\t').unwrap_or((line, ""));
        self.words = words.split_whitespace();
        self.text = text;
        self.answer.clear();
        self.is_short = false;
        match self.word() {
            "code" => {
                let (code, asked) = (self.program(), self.word());
                self.about_code(asked, &code);
            }
            "condition" => self.about_condition(),
            "rule" => self.about_rule(),
            "filter" => self.about_filter(),
            "filters" => self.about_filters(),
            "decisions" => self.about_decisions(),
            "action" => {
                let word = u32::from(self.action());
                self.tell(&word);
            }
            "call" => self.look_up(),
            "text" => self.about_text(),
            "reader" => self.about_reader(),
            "entries" => self.about_entries(),
            _ => self.about_arch(),
        }
    }

    pub(crate) fn arch(&mut self) -> TargetArch {
        let all = [TargetArch::x86_64, TargetArch::aarch64];
        *all.get(self.number::<usize>())
            .unwrap_or(&TargetArch::riscv64)
    }

    /// An action: its kind and its number.
    pub(crate) fn action(&mut self) -> SeccompAction {
        let (kind, number) = (self.number::<usize>(), self.number());
        let all = [Allow, Errno(number), KillProcess, KillThread, Log];
        *all.get(kind).unwrap_or(&Trap)
    }

    /// The record of a call, as eight numbers of eight bytes.
    pub(crate) fn record(&mut self) -> [u8; 64] {
        let mut record = [0; 64];
        for place in 0..8 {
            let start = 8 * place;
            record[start..start + 8].copy_from_slice(&self.number::<u64>().to_le_bytes());
        }
        record
    }

    // A condition: argument, bytes, operator, mask and value.
    fn condition(&mut self) -> Option<SeccompCondition> {
        let (index, bytes, place) = (self.number(), self.number::<u64>(), self.number::<usize>());
        let length = if bytes == 4 { Dword } else { Qword };
        let (all, masked) = ([Eq, Ne, Gt, Ge, Lt, Le], MaskedEq(self.number()));
        let operator = all.get(place).copied().unwrap_or(masked);
        let made = SeccompCondition::new(index, length, operator, self.number());
        self.kept(made)
    }

    pub(crate) fn conditions(&mut self) -> Vec<SeccompCondition> {
        let mut made = Vec::new(self.alloc);
        for _ in 0..self.number::<u64>() {
            if let Some(condition) = self.condition() {
                self.is_short |= made.push(condition).is_err();
            }
        }
        made
    }

    pub(crate) fn rule(&mut self) -> Option<SeccompRule> {
        let made = SeccompRule::new(self.conditions());
        self.kept(made)
    }

    // A buffer for code of this length, with two instructions in front of it and three behind: each returns 7.
    fn blank(&mut self, length: usize) -> BpfProgram {
        let mut made = Vec::new(self.alloc);
        for _ in 0..length.saturating_add(5) {
            self.is_short |= made.push(bpf_stmt(RETURN, 7)).is_err();
        }
        made
    }

    // What is asked of a condition: offsets, halves of its value, and its length; its code; or the buffer after its `write`.
    fn about_condition(&mut self) {
        let Some(condition) = self.condition() else {
            return;
        };
        let (asked, offset) = (self.word(), self.number::<u8>().clamp(1, 248));
        let length = condition.code_len();
        match asked {
            "facts" => {
                let (high, low) = condition.get_data_offsets();
                let (first, second) = condition.split_value();
                self.tell(&high);
                self.tell(&low);
                self.tell(&first);
                self.tell(&second);
                self.tell(&length);
            }
            "code" => self.about_made(asked, condition.to_bpf(self.alloc, offset)),
            _ => {
                let mut buffer = self.blank(length);
                if length + 2 < buffer.len() {
                    condition.write(&mut buffer[2..length + 2], offset);
                }
                self.tell_code(&buffer);
            }
        }
    }

    // What is asked of a rule: whether a copy is equal, or another rule, whether it holds for a call; and its code.
    fn about_rule(&mut self) {
        let Some(rule) = self.rule() else {
            return;
        };
        match self.word() {
            "copy" => {
                if let Some(copy) = self.kept(rule.clone(self.alloc)) {
                    self.tell(&(copy == rule));
                }
            }
            "equal" => {
                let other = self.rule();
                self.tell(&(other == Some(rule)));
            }
            "holds" => {
                let holds = rule.holds(&self.record());
                self.tell(&holds);
            }
            "buffer" => {
                let length = rule.code_len();
                let mut buffer = self.blank(length);
                if length < buffer.len().saturating_sub(2) {
                    rule.write(&mut buffer[2..length + 2]);
                }
                self.tell_code(&buffer);
            }
            asked => self.about_made(asked, rule.to_bpf(self.alloc)),
        }
    }

    // The number of a call's name, if it has one, and how many names are compared.
    fn look_up(&mut self) {
        let table = SyscallTable::new(self.arch());
        let found = table.lookup(self.text);
        if found.number != table.get_syscall_nr(self.text) {
            return self.tell(&"two numbers");
        }
        if let Some(number) = found.number {
            self.tell(&number);
        }
        self.tell(&found.compared);
    }

    // What is asked of an architecture by its name: its guard, or its name and value.
    fn about_arch(&mut self) {
        let Some(arch) = self.kept(TargetArch::from_text(self.alloc, self.text)) else {
            return;
        };
        if self.word() == "guard" {
            return self.about_made("code", build_arch_validation_sequence(self.alloc, arch));
        }
        self.tell(&arch);
        self.tell(&arch.get_audit_value());
    }
}
