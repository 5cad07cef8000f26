// What holds together: several policies, profiles and programs.

ghost use Rattle.std.specs.Prelude.{All, IfErr, IfOk};
ghost use Rattle.std.specs.List.{AllZip};
ghost use Rattle.seccomp_compare.specs.Machine.{IsChecked};
ghost use Rattle.seccomp_answers.specs.Causes.{IsOfLayers, IsUnlayered};
ghost use Rattle.seccomp_answers.specs.Explain.{IsOfStack};
ghost use Rattle.seccomp_answers.specs.Layers.{IsLayer, IsStackExplained};

use crate::calls::number_for;
use crate::error::AnswerError;
use crate::explain::{Explained, Explanation, Why};
use crate::kind::Reading;
use crate::sides::{ruled_by, side_of};
use seccomp_stack::{Decision, run};
use seccompiler::{BpfProgram, TargetArch};
use std::alloc::{AllocError, Global};

/// A policy, a profile or a program that holds together with others.
#[derive(Drop)]
pub struct Layer<'a> {
    /// Its path.
    pub path: &'a str,
    /// The filter that is asked for, of a policy; its only one if none is.
    pub filter: Option<&'a str>,
    /// Its bytes.
    pub text: Vec<u8>,
}

/// The program of each layer.
///
/// # Errors
///
/// The error of the first layer that has no program, with its path. `OutOfMemory` if memory runs out.
pub fn programs_of(
    alloc: Global,
    target: TargetArch,
    reading: &Reading,
    layers: &[Layer<'_>],
) -> Result<Vec<BpfProgram>, AnswerError>
    ensures programs { IfOk result (λ programs. AllZip (IsLayer target reading.now) layers.now programs.items) }
    ensures checked { IfOk result (λ programs. All (λ p. IsChecked p.items) programs.items) }
    ensures cause { IfErr result (IsOfLayers target reading.now layers.now) }
{
    let mut programs = Vec::new(alloc);
    for layer in layers {
        programs.push(program_of(alloc, target, reading, layer)?)?;
    }
    Ok(programs)
}

// The program of a layer.
fn program_of(
    alloc: Global,
    target: TargetArch,
    reading: &Reading,
    layer: &Layer<'_>,
) -> Result<BpfProgram, AnswerError>
    ensures program { IfOk result (IsLayer target reading.now layer.now) }
    ensures checked { IfOk result (λ p. IsChecked p.items) }
    ensures cause { IfErr result (IsUnlayered target reading.now layer.now) }
{
    let side = side_of(alloc, reading, layer.filter, &layer.text)?;
    match ruled_by(alloc, target, side) {
        Ok(ruled) => Ok(ruled.program),
        Err(error) => Err(AnswerError::at_path(alloc, layer.path, error)),
    }
}

/// What the programs of layers decide together on records, and which of them does.
///
/// # Errors
///
/// The error of a layer that has no program, with its path. `OutOfMemory` if memory runs out.
pub fn stack_explanation(
    alloc: Global,
    target: TargetArch,
    reading: &Reading,
    layers: &[Layer<'_>],
    records: &[[u8; 64]],
) -> Result<Explanation, AnswerError>
    ensures explained { IfOk result (IsStackExplained target reading.now layers.now records.now) }
    ensures cause { IfErr result (IsOfLayers target reading.now layers.now) }
{
    let programs = programs_of(alloc, target, reading, layers)?;
    let records = decided_on(alloc, target, &programs, records)?;
    Ok(Explanation {
        name: None,
        default: None,
        entries: Vec::new(alloc),
        places: Vec::new(alloc),
        records,
    })
}

// What programs decide together on each of these records.
fn decided_on(
    alloc: Global,
    target: TargetArch,
    programs: &[BpfProgram],
    records: &[[u8; 64]],
) -> Result<Vec<Explained>, AllocError>
    requires { All (λ p. IsChecked p.items) programs.now }
    ensures { IfOk result (λ all. AllZip (IsOfStack target programs.now) records.now all.items) }
{
    let mut all = Vec::with_capacity(alloc, records.len())?;
    for call in records {
        let Decision { word, place, steps } = run(programs, call);
        let number = number_for(target, call);
        let why = Why::Layer {
            number,
            place,
            steps,
        };
        all.push(Explained { word, why })?;
    }
    Ok(all)
}
