ghost use Rattle.std.specs.Prelude.{◌≡◌, All, IfOk, map, length};
ghost use Rattle.typed_trees.specs.Views.{view_tree};
ghost use Rattle.stack_code.specs.Compiled.{compiled};
ghost use Rattle.task_code.specs.Asking.{CodeAsks};
ghost use Rattle.task_code.specs.Live.{CodeFits};
ghost use Rattle.code_laws.specs.Checked.{IsChecked};
ghost use Rattle.cell_meaning.specs.Asking.{with_inputs};
ghost use Rattle.cell_meaning.specs.Histories.{IsLegal, IsWhole};
ghost use Rattle.cell_meaning.specs.Turns.{IsByTurns};
ghost use Rattle.cell_crew.specs.Courses.{SuitTasks};
ghost use Rattle.cell_crew.specs.Crew.{AskAsPrograms};

use crate::crew::crew_of;
use cell_core::Core;
use cell_crew::run_round;
use cell_meaning::Askers;
use rapid_model::Cell;
use std::alloc::{AllocError, Global};
use task_machine::Machine;
use typed_trees::Tree;

/// Runs the tasks of a cell, given their trees, round-robin. All memory is taken before the first event.
pub fn run_tasks<A: Askers>(alloc: Global, cell: Cell, trees: &[Tree]) -> Result<Core, AllocError>
    requires one_each { length trees.now ≡ length cell.tasks }
    requires checked { All IsChecked (map view_tree trees.now) }
    requires programs { AskAsPrograms CodeFits CodeAsks A.asks (map compiled (map view_tree trees.now)) }
    requires suit { SuitTasks CodeFits CodeAsks cell (map compiled (map view_tree trees.now)) }
    ensures cell { IfOk result (λ core. core.cell ≡ cell) }
    ensures by_turns { IfOk result (λ core. IsByTurns (with_inputs A.asks cell) cell core.history) }
    ensures legal { IfOk result (λ core. IsLegal (with_inputs A.asks cell) cell core.history) }
    ensures whole { IfOk result (λ core. IsWhole (with_inputs A.asks cell) cell core.history) }
{
    let machines = crew_of(alloc, trees)?;
    match Core::new(alloc, cell) {
        Ok(core) => Ok(run_round::<A, Machine>(core, machines).core),
        Err(_) => Err(AllocError),
    }
}
