ghost use Rattle.std.specs.Prelude.{◌≡◌, ◌≤◌, All, IfOk, map, length};
ghost use Rattle.typed_trees.specs.Views.{view_tree};
ghost use Rattle.stack_code.specs.Compiled.{compiled};
ghost use Rattle.task_code.specs.Asking.{CodeAsks};
ghost use Rattle.task_code.specs.Live.{CodeFits};
ghost use Rattle.code_laws.specs.Checked.{IsChecked};
ghost use Rattle.cell_meaning.specs.Asking.{with_inputs};
ghost use Rattle.cell_crew.specs.Courses.{SuitTasks};
ghost use Rattle.cell_crew.specs.Crew.{AskAsPrograms};
ghost use Rattle.history_audit.specs.Audits.{IsAudit};

use crate::crew::crew_of;
use cell_core::Core;
use cell_meaning::Askers;
use history_audit::{AuditFault, audit};
use rapid_model::{Cell, Event, Fate};
use std::alloc::{AllocError, Global};
use task_machine::Machine;
use typed_trees::Tree;

/// What was found of a history, and a core of its cell, which is of no further use but for its names.
#[derive(Drop)]
pub struct Audited {
    pub core: Core,
    pub found: Result<bool, AuditFault>,
}

/// What is found of a history of a cell, given the trees of its tasks.
pub fn audit_history<A: Askers>(
    alloc: Global,
    cell: Cell,
    trees: &[Tree],
    events: &[Event],
    fates: &[Fate],
) -> Result<Audited, AllocError>
    requires one_each { length trees.now ≡ length cell.tasks }
    requires checked { All IsChecked (map view_tree trees.now) }
    requires programs { AskAsPrograms CodeFits CodeAsks A.asks (map compiled (map view_tree trees.now)) }
    requires suit { SuitTasks CodeFits CodeAsks cell (map compiled (map view_tree trees.now)) }
    requires actors { All (λ e. e.actor ≤ length cell.tasks) events.now }
    requires few { length fates.now ≤ length cell.tasks }
    ensures cell { IfOk result (λ audited. audited.core.cell ≡ cell) }
    ensures found { IfOk result (λ audited. IsAudit (with_inputs A.asks cell) cell events.now fates.now audited.found) }
{
    let mut machines = crew_of(alloc, trees)?;
    match Core::new(alloc, cell) {
        Ok(mut core) => {
            let found = audit::<A, Machine>(&mut core, machines.as_mut_slice(), events, fates);
            Ok(Audited { core, found })
        }
        Err(_) => Err(AllocError),
    }
}
