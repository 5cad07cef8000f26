// How long programs are, and how many steps they take.

ghost use Rattle.std.specs.Prelude.{IfErr};
ghost use Rattle.seccomp_compare.specs.Machine.{IsChecked};
ghost use Rattle.seccomp_answers.specs.Chosen.{text_of};
ghost use Rattle.seccomp_answers.specs.Causes.{AreUncompiledInSome};

use crate::chosen::refuse_missing;
use crate::error::AnswerError;
use crate::policy::policies_in;
use crate::programs::compiled_in;
use seccomp_compare::machine::run;
use seccomp_tree::Layout;
use seccompiler::bpf::{JUMP, LOAD, MASK, RETURN};
use seccompiler::{BpfProgramRef, TargetArch, sock_filter};
use std::alloc::{AllocError, Global};

/// How long a program is, and how many steps it takes.
#[derive(Clone, Copy)]
pub struct Measure {
    /// How many instructions it has.
    pub length: usize,
    /// The most instructions on a way through it.
    pub most: usize,
    /// Its steps on a call whose number is the greatest, which no filter lists.
    pub passing: usize,
}

/// The numbers of a filter's programs.
#[derive(Drop)]
pub struct FilterStats {
    pub name: String,
    /// Those of its program in the linear layout.
    pub linear: Measure,
    /// Those of its program as a tree.
    pub tree: Measure,
}

/// Measures the programs of all filters of a policy's text, in byte order of the filters' names. That a program in the linear layout
/// is too large is reported before that a tree is.
///
/// # Errors
///
/// Those of [`programs_in`](crate::programs::programs_in), in the linear layout and then as trees.
pub fn stats_of(
    alloc: Global,
    target: TargetArch,
    asked: Option<&str>,
    text: &[u8],
) -> Result<Vec<FilterStats>, AnswerError>
    ensures { IfErr result (AreUncompiledInSome target (text_of asked.entry) text.now) }
{
    let filters = policies_in(alloc, target, text)?;
    refuse_missing(alloc, asked, &filters)?;
    let linear = compiled_in(alloc, target, Layout::Linear, &filters)?;
    let trees = compiled_in(alloc, target, Layout::Tree, &filters)?;
    let mut all = Vec::new(alloc);
    for (made, tree) in linear.iter().zip(&trees) {
        all.push(FilterStats {
            name: made.name.clone()?,
            linear: made.measure,
            tree: tree.measure,
        })?;
    }
    Ok(all)
}

/// The measure of a program for this architecture.
pub fn measure_of(
    alloc: Global,
    target: TargetArch,
    program: BpfProgramRef<'_>,
) -> Result<Measure, AllocError>
    requires { IsChecked program.now }
{
    // The most instructions on a way from a place to a return, of the last place first. Whether a record takes it is not asked.
    let mut most = Vec::new(alloc);
    for place in (0..program.len()).rev() {
        let behind = most_behind(program[place], &most);
        most.push(behind.saturating_add(1))?;
    }
    Ok(Measure {
        length: program.len(),
        most: most_after(&most, 0),
        passing: run(program, &passing_record(target)).steps,
    })
}

// The most instructions on a way to a return behind an instruction, by those of the places behind it, the last one first.
fn most_behind(instruction: sock_filter, most: &[usize]) -> usize {
    let sock_filter { code, jt, jf, k } = instruction;
    match code {
        RETURN => 0,
        LOAD | MASK => most_after(most, 0),
        JUMP => most_after(most, k as usize),
        _ => most_after(most, jt as usize).max(most_after(most, jf as usize)),
    }
}

// The number of the next place but so many.
fn most_after(most: &[usize], skipped: usize) -> usize {
    let place = most.len().saturating_sub(skipped).saturating_sub(1);
    match most.get(place) {
        Some(number) => *number,
        None => 0,
    }
}

// The record of the greatest call number, with arguments that are 0.
fn passing_record(target: TargetArch) -> [u8; 64] {
    let mut record = [0; 64];
    record[..4].copy_from_slice(&u32::MAX.to_le_bytes());
    record[4..8].copy_from_slice(&target.get_audit_value().to_le_bytes());
    record
}
