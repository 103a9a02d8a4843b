//! The turn of a task.
ghost use Rattle.std.specs.Prelude.{◌≡◌, ◌<◌, length};
ghost use Rattle.rapid_model.specs.Own.{part_of};
ghost use Rattle.cell_meaning.specs.Asking.{with_inputs};
ghost use Rattle.cell_meaning.specs.Histories.{IsLegal};
ghost use Rattle.cell_meaning.specs.Premises.{AsksWhatItMay};
ghost use Rattle.cell_meaning.specs.Turns.{TakesTurn};
ghost use Rattle.cell_crew.specs.Courses.{SuitsTask};
ghost use Rattle.cell_crew.specs.Crew.{AsksAsProgram};
ghost use Rattle.cell_crew.specs.UnderWay.{UnderWay};

use crate::TaskMachine;
use crate::asking::ask;
use cell_core::Core;
use cell_meaning::Askers;

/// The turn of a task, by its number from 0 in script order: it adds its event if it can.
pub(crate) fn turn<A: Askers, M: TaskMachine>(core: &mut Core, machine: &mut M, task: u32)
    requires task { task < length core.old.cell.tasks }
    requires program { AsksAsProgram M.fits M.asks A.asks task (M.program machine.old) }
    requires suits { SuitsTask M.fits M.asks core.old.cell task (M.program machine.old) }
    requires may { AsksWhatItMay (with_inputs A.asks core.old.cell) core.old.cell }
    requires legal { IsLegal (with_inputs A.asks core.old.cell) core.old.cell core.old.history }
    requires under_way { UnderWay M.stands_for M.due machine.old (part_of task core.old.history) }
    ensures cell { core.new.cell ≡ core.old.cell }
    ensures program { M.program machine.new ≡ M.program machine.old }
    ensures legal { IsLegal (with_inputs A.asks core.old.cell) core.old.cell core.new.history }
    ensures under_way { UnderWay M.stands_for M.due machine.new (part_of task core.new.history) }
    ensures turn { TakesTurn (with_inputs A.asks core.old.cell) core.old.cell task core.old.history core.new.history }
{
    if core.ended(task) {
        return;
    }
    if let Some(answer) = ask::<A>(core, task, machine.last()) {
        // A machine gets no answer to its End.
        if !core.ended(task) {
            machine.next(answer);
        }
    }
}
