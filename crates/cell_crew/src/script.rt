//! The turn of the input script.
ghost use Rattle.std.specs.Prelude.{◌≡◌, length};
ghost use Rattle.cell_meaning.specs.Asking.{with_inputs};
ghost use Rattle.cell_meaning.specs.Histories.{IsLegal};
ghost use Rattle.cell_meaning.specs.Premises.{AsksWhatItMay};
ghost use Rattle.cell_meaning.specs.Turns.{TakesTurn};

use crate::asking::ask;
use cell_core::Core;
use cell_meaning::Askers;
use rapid_model::Request;

/// The turn of the input script: it does the next step if there is one and it is open.
pub(crate) fn feed<A: Askers>(core: &mut Core)
    requires may { AsksWhatItMay (with_inputs A.asks core.old.cell) core.old.cell }
    requires legal { IsLegal (with_inputs A.asks core.old.cell) core.old.cell core.old.history }
    ensures cell { core.new.cell ≡ core.old.cell }
    ensures legal { IsLegal (with_inputs A.asks core.old.cell) core.old.cell core.new.history }
    ensures turn { TakesTurn (with_inputs A.asks core.old.cell) core.old.cell (length core.old.cell.tasks) core.old.history core.new.history }
{
    if core.all_inputs_done() {
        return;
    }
    let index = core.inputs_done();
    let script = core.task_count();
    let _answer = ask::<A>(core, script, &Request::Input { index });
}
