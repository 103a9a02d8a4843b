ghost use Rattle.std.specs.Prelude.{◌≡◌, All, IfOk, map, length};
ghost use Rattle.typed_trees.specs.Views.{view_tree};
ghost use Rattle.stack_code.specs.Compiled.{compiled};
ghost use Rattle.task_code.specs.Asking.{CodeAsks};
ghost use Rattle.task_code.specs.Live.{CodeFits};
ghost use Rattle.code_laws.specs.Checked.{IsChecked};
ghost use Rattle.cell_meaning.specs.Asking.{with_inputs};
ghost use Rattle.cell_meaning.specs.Histories.{IsLegal};
ghost use Rattle.cell_crew.specs.Courses.{SuitTasks};
ghost use Rattle.cell_crew.specs.Crew.{AskAsPrograms};
ghost use Rattle.cell_state.specs.States.{IsStateAfter};

use crate::crew::crew_of;
use cell_core::Core;
use cell_meaning::Askers;
use cell_state::{CellState, code_states_are_tree_states, state_of};
use rapid_model::{Cell, Event};
use std::alloc::{AllocError, Global};
use typed_trees::Tree;

/// A state of a cell, and a core of the cell, which is of no further use but for its names.
#[derive(Drop)]
pub struct Stated {
    pub core: Core,
    pub state: CellState,
}

/// The state of a cell after a legal history, given the trees of its tasks.
pub fn state_reached<A: Askers>(
    alloc: Global,
    cell: Cell,
    trees: &[Tree],
    events: &[Event],
) -> Result<Stated, AllocError>
    requires one_each { length trees.now ≡ length cell.tasks }
    requires checked { All IsChecked (map view_tree trees.now) }
    requires programs { AskAsPrograms CodeFits CodeAsks A.asks (map compiled (map view_tree trees.now)) }
    requires suit { SuitTasks CodeFits CodeAsks cell (map compiled (map view_tree trees.now)) }
    requires legal { IsLegal (with_inputs A.asks cell) cell events.now }
    ensures cell { IfOk result (λ stated. stated.core.cell ≡ cell) }
    ensures state { IfOk result (λ stated. IsStateAfter cell (map view_tree trees.now) events.now stated.state) }
{
    code_states_are_tree_states::<A>();
    let mut machines = crew_of(alloc, trees)?;
    match Core::new(alloc, cell) {
        Ok(mut core) => {
            let state = state_of::<A>(alloc, &mut core, machines.as_mut_slice(), events)?;
            Ok(Stated { core, state })
        }
        Err(_) => Err(AllocError),
    }
}
