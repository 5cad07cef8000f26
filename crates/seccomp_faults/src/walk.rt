// The walk through a value that has to be of some form.

ghost use Rattle.std.specs.Prelude.{◌≡◌, All, IfOk, OnOk, Some};
ghost use Rattle.serde_json.specs.Data.{Data};
ghost use Rattle.serde_json.specs.View.{view};
ghost use Rattle.seccompiler.specs.declared.backend.TargetArch.{TargetArch};
ghost use Rattle.seccomp_faults.specs.Faults.{IsFault, step_to};
ghost use Rattle.seccomp_faults.specs.Table.{IsInside};
ghost use Rattle.seccomp_faults.specs.declared.table.Form.{Form};

use crate::fault::Fault;
use crate::level::level;
use crate::part::Part;
use crate::table::Form;
use seccomp_text::steps::Step;
use seccompiler::TargetArch;
use serde_json::Value;
use std::alloc::{AllocError, Global};

// The same step.
fn copy_of(alloc: Global, step: &Step) -> Result<Step, AllocError>
    ensures inside { IfOk result (λ copy. (outer inner : Form) → IsInside outer step.now inner → IsInside outer copy inner) }
    ensures leads { IfOk result (λ copy. (d : Data) → step_to copy d ≡ step_to step.now d) }
{
    match step {
        Step::Key(key) => Ok(Step::Key(String::from_str(alloc, key.as_str())?)),
        Step::Item(place) => Ok(Step::Item(*place)),
    }
}

// The fault of a value inside, as one of the outer one.
fn led(alloc: Global, step: &Step, mut fault: Fault) -> Result<Fault, AllocError>
    ensures { (target : TargetArch) (outer inner : Form) (d there : Data) → IsInside outer step.now inner → step_to step.now d ≡ Some there
        → IsFault target inner there fault → IfOk result (IsFault target outer d) }
{
    fault.path.insert(0, copy_of(alloc, step)?)?;
    Ok(fault)
}

// Adds the faults of a value inside, to which the step leads.
fn add_inside(
    found: &mut Vec<Fault>,
    alloc: Global,
    step: &Step,
    faults: Vec<Fault>,
) -> Result<(), AllocError>
    ensures { (target : TargetArch) (outer inner : Form) (d there : Data) → IsInside outer step.now inner → step_to step.now d ≡ Some there
        → All (IsFault target inner there) faults.items → All (IsFault target outer d) found.old.items
        → OnOk result (All (IsFault target outer d) found.new.items) }
{
    for fault in faults {
        found.push(led(alloc, step, fault)?)?;
    }
    Ok(())
}

/// All faults of a value that has to be of the form: of an object its own keys first, and then what the form's rules say, one
/// after the other, each with all that is inside. An unknown name of a call gets a suggestion, which takes time, if fewer than
/// `most` faults are in front of it.
pub(crate) fn walk(
    alloc: Global,
    target: TargetArch,
    most: usize,
    form: Form,
    value: &Value,
) -> Result<Vec<Fault>, AllocError>
    ensures { IfOk result (λ found. All (IsFault target form (view value.now)) found.items) }
{
    let mut found = Vec::new(alloc);
    for part in level(alloc, target, most > 0, form, value)? {
        match part {
            Part::Broken(problem) => {
                let path = Vec::new(alloc);
                found.push(Fault {
                    path,
                    form,
                    problem,
                })?;
            }
            Part::Inner(step, inside, inner) => {
                let left = most.saturating_sub(found.len());
                let faults = walk(alloc, target, left, inside, inner)?;
                add_inside(&mut found, alloc, &step, faults)?;
            }
        }
    }
    Ok(found)
}
