//! One event, done again by the core.

ghost use Rattle.std.specs.Prelude.{◌≡◌};
ghost use Rattle.rapid_model.specs.Own.{answers_of};
ghost use Rattle.rapid_model.specs.declared.request.Request.{Request};
ghost use Rattle.cell_meaning.specs.Asking.{with_inputs};
ghost use Rattle.cell_meaning.specs.Histories.{IsLegal};
ghost use Rattle.cell_meaning.specs.Premises.{AsksWhatItMay};
ghost use Rattle.history_audit.specs.Followed.{Followed};

use crate::requests::{same_answer, same_request};
use crate::wrong::Wrong;
use cell_core::{Core, Served};
use cell_meaning::Askers;
use rapid_model::{Event, Request};

/// Serves the one request that the event's actor asks now: adds the event, or returns what is wrong with it, and may
/// have added another one then.
pub(crate) fn serve<A: Askers>(core: &mut Core, event: &Event, due: &Request) -> Option<Wrong>
    requires asked { with_inputs A.asks core.old.cell event.now.actor (answers_of event.now.actor core.old.history) due.now }
    requires alone { (other : Request) → with_inputs A.asks core.old.cell event.now.actor (answers_of event.now.actor core.old.history) other → other ≡ due.now }
    requires may { AsksWhatItMay (with_inputs A.asks core.old.cell) core.old.cell }
    requires legal { IsLegal (with_inputs A.asks core.old.cell) core.old.cell core.old.history }
    ensures cell { core.new.cell ≡ core.old.cell }
    ensures followed { Followed (with_inputs A.asks core.old.cell) core.old.cell core.old.history event.now core.new.history result }
{
    if !same_request(&event.request, due) {
        return Some(Wrong::Asks(due.copy()));
    }
    match core.serve(event.actor, due) {
        Served::Spent => Some(Wrong::Spent),
        Served::NotYet => Some(Wrong::Waits),
        Served::Answered(answer) => {
            if same_answer(&event.answer, &answer) {
                None
            } else {
                Some(Wrong::Answers(answer))
            }
        }
    }
}
