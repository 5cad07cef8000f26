// What is left to do of a comparison: sets of records, and where the two programs stand on them.

ghost use Rattle.std.specs.Prelude.{◌≡◌, ◌<◌, ℕ, List, None, length, IfOk, IfSome};
ghost use Rattle.seccompiler.specs.declared.bpf.sock_filter.{sock_filter};
ghost use Rattle.seccomp_compare.specs.Machine.{IsChecked};
ghost use Rattle.seccomp_compare.specs.RecordSets.{AreTight, IsIn, LeavesSome};
ghost use Rattle.seccomp_compare.specs.CompareTasks.{EndsWithin, IsTask, AreParts, IsProgress, StopsWithin};

use crate::follow::{At, follow};
use crate::sets::{is_empty, member, split};
use crate::values::Values;
use crate::{End, Relation, Stop, is_related};
use seccompiler::bpf::{BpfProgramRef, RETURN, sock_filter};
use std::alloc::{AllocError, Global};

// A set of records, and where the two programs stand on them.
#[derive(Clone, Copy)]
pub(crate) struct Task {
    pub(crate) part: [Values; 16],
    pub(crate) p_at: At,
    pub(crate) q_at: At,
}

// What comes of a set.
#[derive(Clone, Copy)]
pub(crate) enum Progress {
    // The relation holds for all its records.
    Done,
    // It doesn't for this one.
    Shows([u8; 64]),
    // Two tasks are left of it.
    Splits(Task, Task),
}

/// Compares two programs on the records of a set, looking at so many parts of it at most.
pub(crate) fn compare_on(
    alloc: Global,
    p: BpfProgramRef<'_>,
    q: BpfProgramRef<'_>,
    part: &[Values; 16],
    relation: Relation,
    most: usize,
) -> Result<End, AllocError>
    requires p_checked { IsChecked p.now }
    requires q_checked { IsChecked q.now }
    requires tight { AreTight part.now }
    ensures { IfOk result (λ end. EndsWithin relation p.now q.now part.now end) }
{
    let start = At {
        place: 0,
        word: 0,
        mask: 0,
    };
    let mut tasks = Vec::new(alloc);
    tasks.push(Task {
        part: *part,
        p_at: start,
        q_at: start,
    })?;
    for _ in 0..most {
        let Some(task) = tasks.pop() else {
            return Ok(End::Holds);
        };
        match advance(p, q, relation, &task) {
            Progress::Done => {}
            Progress::Shows(call) => return Ok(End::Fails(call)),
            Progress::Splits(low, high) => {
                tasks.push(high)?;
                tasks.push(low)?;
            }
        }
    }
    while let Some(task) = tasks.pop() {
        if let Some(stop) = stop_on(p, q, &task) {
            return Ok(End::Stops(stop));
        }
    }
    Ok(End::Holds)
}

// Where both programs stand on a record of the set, as far as all its records go together; none if it has no record.
fn stop_on(p: BpfProgramRef<'_>, q: BpfProgramRef<'_>, task: &Task) -> Option<Stop>
    requires p_checked { IsChecked p.now }
    requires q_checked { IsChecked q.now }
    requires task { IsTask p.now q.now task.now }
    ensures stops { IfSome result (StopsWithin p.now q.now task.now.part) }
    ensures empty { result ≡ None → (r : List ℕ) → IsIn task.now.part r → ⊥ }
{
    if is_empty(&task.part) {
        return None;
    }
    let stand = followed(p, q, task);
    Some(Stop {
        call: member(&stand.part),
        place: stand.p_at.place,
        other_place: stand.q_at.place,
    })
}

// Goes on with both programs as far as all records of the set go together.
fn advance(p: BpfProgramRef<'_>, q: BpfProgramRef<'_>, relation: Relation, task: &Task) -> Progress
    requires p_checked { IsChecked p.now }
    requires q_checked { IsChecked q.now }
    requires task { IsTask p.now q.now task.now }
    ensures { IsProgress relation p.now q.now task.now.part result }
{
    if is_empty(&task.part) {
        return Progress::Done;
    }
    let stand = followed(p, q, task);
    let Task { part, p_at, q_at } = stand;
    if p[p_at.place].code != RETURN {
        let (low, high) = parts_of(&stand, p_at, p[p_at.place]);
        return Progress::Splits(low, high);
    }
    if q[q_at.place].code != RETURN {
        let (low, high) = parts_of(&stand, q_at, q[q_at.place]);
        return Progress::Splits(low, high);
    }
    if is_related(relation, p[p_at.place].k, q[q_at.place].k) {
        return Progress::Done;
    }
    Progress::Shows(member(&part))
}

// The same set, and where the two programs stand as far as all its records go together.
fn followed(p: BpfProgramRef<'_>, q: BpfProgramRef<'_>, task: &Task) -> Task
    requires p_checked { IsChecked p.now }
    requires q_checked { IsChecked q.now }
    requires task { IsTask p.now q.now task.now }
    ensures task { IsTask p.now q.now result }
    ensures same { result.part ≡ task.now.part }
{
    let part = task.part;
    Task {
        part,
        p_at: follow(p, task.p_at, &part),
        q_at: follow(q, task.q_at, &part),
    }
}

// Two tasks, by what the test of an instruction depends on where a program stands.
fn parts_of(task: &Task, at: At, test: sock_filter) -> (Task, Task)
    requires word { at.word < 16 }
    requires tight { AreTight task.now.part }
    requires some { LeavesSome task.now.part }
    ensures { (p q : List sock_filter) → IsTask p q task.now → AreParts p q task.now.part result.0 result.1 }
{
    let Task { part, p_at, q_at } = *task;
    let (low, high) = split(&part, at, test);
    (
        Task {
            part: low,
            p_at,
            q_at,
        },
        Task {
            part: high,
            p_at,
            q_at,
        },
    )
}
