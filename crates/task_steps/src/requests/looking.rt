//! Looks and waits.

ghost use Rattle.std.specs.Prelude.{◌≡◌, ◌≢◌, ◌<◌, length, Some};
ghost use Rattle.rapid_model.specs.declared.request.Request.TheVariants as requests;
ghost use Rattle.stack_code.specs.CodeData.{CodeData};
ghost use Rattle.stack_code.specs.Steps.{act, looks};
ghost use Rattle.stack_code.specs.declared.op.Op.TheVariants as ops;
ghost use Rattle.task_steps.specs.Alike.{Goes, Turns, with_stack};
ghost use Rattle.task_steps.specs.Doing.{here_of};
ghost use Rattle.task_steps.specs.declared.requests.pending.Pending.TheVariants as pendings;
ghost use Rattle.task_steps.specs.Phases as phases;
ghost use Rattle.task_steps.specs.declared.steps.way.Way.TheVariants as ways;

use crate::requests::pending::Pending;
use crate::routines::loaded::LoadedCode;
use crate::steps::done::Done;
use crate::steps::stage::Stage;
use crate::steps::way::Way;
use crate::task::Task;
use rapid_model::Request;

/// Makes the request a Look. Writes nothing if the last request was one too.
fn ask_look(asked: &mut Request)
    ensures { asked.new ≡ requests.Look }
{
    match asked {
        Request::Look => {}
        other => *other = Request::Look,
    }
}

/// Waits for the answer to a Look. Writes nothing if the last request was one too.
fn await_look(then: &mut Pending)
    ensures { then.new ≡ pendings.Looked }
{
    match then {
        Pending::Looked => {}
        other => *other = Pending::Looked,
    }
}

impl Task {
    /// Asks whether the statement may begin, and keeps its position.
    pub(crate) fn look(&mut self, loaded: &LoadedCode) -> Option<Way>
        requires within { self.old.conf.pc < length loaded.now.ops }
        ensures room { self.new.room ≡ self.old.room }
        ensures stay { result ≡ Some ways.Stay }
        ensures begun { self.new.phase ≢ phases.New }
        ensures goes { Goes loaded.now (looks (here_of loaded.now self.old.conf)) self.old.data' result self.new }
    {
        self.place = Some(loaded.owner(self.pc).at);
        ask_look(&mut self.asked);
        await_look(&mut self.then);
        self.stage = Stage::Asking;
        Some(Way::Stay)
    }

    /// Goes on if the condition is TRUE; else the task waits for a change by another actor.
    pub(crate) fn wait(&mut self, to: u32) -> Option<Done>
        ensures rest { self.new ≡ with_stack self.new.conf.stack self.old }
        ensures turns { (code : CodeData) → Turns code (act (here_of code self.old.conf) (ops.Wait to)) self.old.data' result self.new }
    {
        let ready = self.pop_truth()?;
        if ready {
            return Some(Done::Next);
        }
        let seen = self.frames.seen();
        Some(Done::Ask {
            request: Request::Hold { seen },
            then: Pending::Held(to),
        })
    }
}
