// Code, what is asked of it, and a kernel that gives the answers of a row and counts what it is asked.

use crate::question::Question;
use seccompiler::bpf::{bpf_jump, bpf_stmt};
use seccompiler::machine::{check, first_unfit, run};
use seccompiler::{
    BackendError, BpfProgram, BpfProgramRef, Kernel, apply_filter, apply_filter_all_threads,
    sock_filter,
};

impl<'a> Question<'a> {
    /// So many instructions: code and k, and jt and jf, which are both 0 if it isn't a jump.
    pub(crate) fn program(&mut self) -> BpfProgram {
        let mut made = Vec::new(self.alloc);
        for _ in 0..self.number::<u64>() {
            let (code, k) = (self.number(), self.number());
            let instruction = match (self.number(), self.number()) {
                (0, 0) => bpf_stmt(code, k),
                (jt, jf) => bpf_jump(code, k, jt, jf),
            };
            self.is_short |= made.push(instruction).is_err();
        }
        made
    }

    pub(crate) fn about_made(&mut self, asked: &str, made: Result<BpfProgram, BackendError>) {
        if let Some(code) = self.kept(made) {
            self.about_code(asked, &code);
        }
    }

    /// What is asked of code: itself, where a kernel doesn't take it, what it returns for a call after which steps, and installing it.
    pub(crate) fn about_code(&mut self, asked: &str, code: &[sock_filter]) {
        match asked {
            "count" => self.tell(&code.len()),
            "check" => {
                self.tell(&check(code));
                if let Some(place) = first_unfit(code) {
                    self.tell(&place);
                }
            }
            "run" if check(code) => {
                let outcome = run(code, &self.record());
                self.tell(&outcome.word);
                self.tell(&outcome.steps);
            }
            "install" => self.install(code),
            _ => self.tell_code(code),
        }
    }

    // How often each call was made, and how installing ended: for all threads if the flags are not 0.
    fn install(&mut self, program: &[sock_filter]) {
        if program.len() > 65535 {
            return;
        }
        let mut kernel = ScriptedKernel {
            flags: self.number(),
            program,
            no_new_privs: (self.number(), self.number()),
            mode_filter: (self.number(), self.number()),
            privileges: 0,
            filters: 0,
        };
        let installed = match kernel.flags {
            0 => apply_filter(&mut kernel, program),
            _ => apply_filter_all_threads(&mut kernel, program),
        };
        self.tell(&kernel.privileges);
        self.tell(&kernel.filters);
        if self.kept(installed).is_some() {
            self.tell(&"installed");
        }
    }
}

// A kernel with one answer to each of its calls: code and errno.
#[derive(Drop)]
struct ScriptedKernel<'a> {
    flags: u64,
    program: BpfProgramRef<'a>,
    no_new_privs: (i32, i32),
    mode_filter: (i64, i32),
    // How often each is called. A filter counts only after the other, with these flags and this program.
    privileges: u32,
    filters: u32,
}

impl Kernel for ScriptedKernel<'_> {
    ghost use Rattle.std.specs.Prelude.{⊤};

    // Rows say what the calls answer, so nothing is said of it here.
    ghost no_new_privs = { λ before code number after. ⊤ };

    ghost mode_filter = { λ before flags program code number after. ⊤ };

    fn set_no_new_privs(&mut self) -> (i32, i32) {
        self.privileges = self.privileges.saturating_add(1);
        self.no_new_privs
    }

    fn set_mode_filter(&mut self, flags: u64, prog: BpfProgramRef<'_>) -> (i64, i32) {
        if self.privileges == 1 && flags == self.flags && prog == self.program {
            self.filters = self.filters.saturating_add(1);
        }
        self.mode_filter
    }
}
