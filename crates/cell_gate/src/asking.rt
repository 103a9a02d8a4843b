//! What a pass asks of the core in its turn.
ghost use Rattle.std.specs.Prelude.{◌≡◌, ◌<◌, length, IsTrue, IsFalse};
ghost use Rattle.rapid_model.specs.Own.{is_held, part_of};
ghost use Rattle.cell_meaning.specs.MayAsk.{may_ask};
ghost use Rattle.cell_gate.specs.Causes.{is_over, may_wait};
ghost use Rattle.cell_gate.specs.Turn.{Acts, Rises, Feeds};

use crate::acted::Acted;
use crate::fed::Fed;
use crate::now::Now;
use cell_core::{Core, Served};
use rapid_model::Request;

/// Makes a request that is always enabled.
pub(crate) fn try_act(core: &mut Core, actor: u32, request: &Request) -> Acted
    requires may { IsTrue (may_ask core.old.cell actor (part_of actor core.old.history) request.now) }
    requires plain { IsFalse (may_wait request.now) }
    ensures { Acts core.old actor request.now result core.new }
{
    match core.serve(actor, request) {
        Served::Answered(answer) => Acted::Done(answer),
        Served::Spent => Acted::Spent,
        Served::NotYet => unreachable!(),
    }
}

/// Asks for a held task to go on.
pub(crate) fn try_rise(core: &mut Core, task: u32) -> Now
    requires task { task < length core.old.cell.tasks }
    requires held { IsTrue (is_held (part_of task core.old.history)) }
    ensures { Rises core.old task result core.new }
{
    // Its contract states that the task has not ended, since it is held.
    let _held = core.held(task);
    match core.serve(task, &Request::Rise) {
        Served::Answered(_) => Now::Woken,
        Served::Spent => Now::Spent,
        Served::NotYet => {
            if core.stalled() {
                Now::Stalled
            } else {
                Now::NotYet
            }
        }
    }
}

/// Asks for the next step of the input script.
pub(crate) fn try_feed(core: &mut Core) -> Fed
    ensures { Feeds core.old result core.new }
{
    if is_over(core) {
        return Fed::Over;
    }
    let script = core.task_count();
    let index = core.inputs_done();
    match core.serve(script, &Request::Input { index }) {
        Served::Answered(_) => Fed::Given,
        Served::Spent => unreachable!(),
        Served::NotYet => Fed::NotYet,
    }
}

/// Whether no step of the input script will ever be done.
fn is_over(core: &Core) -> bool
    ensures { result ≡ is_over core.now.cell core.now.history }
{
    core.all_inputs_done() || core.all_ended() || core.spent() || core.stalled()
}
