//! Requests of machines to the core.
ghost use Rattle.std.specs.Prelude.{◌≡◌, [], map};
ghost use Rattle.std.specs.List.{AllByRecursion};
ghost use Rattle.rapid_model.specs.Own.{answers_of};
ghost use Rattle.cell_meaning.specs.Asking.{with_inputs};
ghost use Rattle.cell_meaning.specs.Histories.{IsLegal};
ghost use Rattle.cell_meaning.specs.Premises.{AsksWhatItMay};
ghost use Rattle.cell_crew.specs.UnderWay.{AreUnderWay};
ghost use Rattle.cell_crew.specs.Turned.{CameOf};

use crate::TaskMachine;
use cell_core::{Core, Served};
use cell_meaning::Askers;
use rapid_model::{Answer, Request};

/// Has each machine, none of which has asked anything, ask its first request.
pub fn ask_first<M: TaskMachine>(machines: &mut [M])
    requires { AllByRecursion M.is_fresh machines.old }
    ensures programs { map M.program machines.new ≡ map M.program machines.old }
    ensures under_way { AreUnderWay M.stands_for M.due machines.new [] }
{
    for machine in machines.iter_mut() {
        machine.first();
    }
}

/// Serves an actor's request: the answer, or None if it cannot be answered now.
pub(crate) fn ask<A: Askers>(core: &mut Core, actor: u32, request: &Request) -> Option<Answer>
    requires asked { with_inputs A.asks core.old.cell actor (answers_of actor core.old.history) request.now }
    requires may { AsksWhatItMay (with_inputs A.asks core.old.cell) core.old.cell }
    requires legal { IsLegal (with_inputs A.asks core.old.cell) core.old.cell core.old.history }
    ensures cell { core.new.cell ≡ core.old.cell }
    ensures legal { IsLegal (with_inputs A.asks core.old.cell) core.old.cell core.new.history }
    ensures came { CameOf (with_inputs A.asks core.old.cell) core.old.cell core.old.history actor request.now core.new.history result }
{
    match core.serve(actor, request) {
        Served::Answered(answer) => Some(answer),
        Served::Spent | Served::NotYet => None,
    }
}
