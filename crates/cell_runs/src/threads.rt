ghost use Rattle.std.specs.Prelude.{◌≡◌, All, IfOk, map, length};
ghost use Rattle.typed_trees.specs.Views.{view_tree};
ghost use Rattle.stack_code.specs.Compiled.{compiled};
ghost use Rattle.task_code.specs.Asking.{CodeAsks};
ghost use Rattle.task_code.specs.Live.{CodeFits};
ghost use Rattle.code_laws.specs.Checked.{IsChecked};
ghost use Rattle.cell_meaning.specs.Asking.{with_inputs};
ghost use Rattle.cell_meaning.specs.Histories.{IsLegal, IsWhole};
ghost use Rattle.cell_crew.specs.Courses.{SuitTasks};
ghost use Rattle.cell_crew.specs.Crew.{AskAsPrograms};

use crate::crew::crew_of;
use cell_core::Core;
use cell_gate::open_gate;
use cell_meaning::Askers;
use free_crew::run_free;
use outside::Pace;
use rapid_model::Cell;
use std::alloc::{AllocError, Global};
use std::sync::Wait;
use std::thread::Threads;
use task_machine::Machine;
use typed_trees::Tree;

/// Runs the tasks of a cell, given their trees, on threads. All memory is taken before the first event.
pub fn free_tasks<A: Askers, R: Threads + Wait + Sync, P: Pace + Sync>(
    rt: &R,
    alloc: Global,
    cell: Cell,
    trees: &[Tree],
    pace: &P,
) -> Result<Core, AllocError>
    requires one_each { length trees.now ≡ length cell.tasks }
    requires checked { All IsChecked (map view_tree trees.now) }
    requires programs { AskAsPrograms CodeFits CodeAsks A.asks (map compiled (map view_tree trees.now)) }
    requires suit { SuitTasks CodeFits CodeAsks cell (map compiled (map view_tree trees.now)) }
    ensures cell { IfOk result (λ core. core.cell ≡ cell) }
    ensures legal { IfOk result (λ core. IsLegal (with_inputs A.asks cell) cell core.history) }
    ensures whole { IfOk result (λ core. IsWhole (with_inputs A.asks cell) cell core.history) }
{
    let machines = crew_of(alloc, trees)?;
    let Ok(core) = Core::new(alloc, cell) else {
        return Err(AllocError);
    };
    let Ok((gate, passes)) = open_gate(alloc, core) else {
        return Err(AllocError);
    };
    Ok(run_free::<A, Machine, R, P>(rt, gate, machines, passes, pace).core)
}
