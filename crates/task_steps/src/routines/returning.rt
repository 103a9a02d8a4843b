//! How routines and ERROR parts are left (RAPID Instructions: RETURN, RETRY, TRYNEXT, RAISE).

ghost use Rattle.std.specs.Prelude.{◌≡◌, []};
ghost use Rattle.rapid_model.specs.declared.value.Value.{Value};
ghost use Rattle.stack_code.specs.CodeData.{CodeData};
ghost use Rattle.stack_code.specs.Raising.{raised_again, retried, returned, skipped};
ghost use Rattle.stack_code.specs.Steps.{act};
ghost use Rattle.stack_code.specs.declared.op.Op.TheVariants as ops;
ghost use Rattle.task_steps.specs.Alike.{Turns};
ghost use Rattle.task_steps.specs.Doing.{came, here_of};
ghost use Rattle.task_steps.specs.Points.{behind_part, conf_in, point, saved_in};

use crate::operands::owning::resumed_at;
use crate::requests::pending::Pending;
use crate::routines::left::Left;
use crate::steps::done::Done;
use crate::task::Task;
use rapid_model::{Fate, Request, Value};
use task_code::{Code, How};

impl Task {
    /// Returns from the running routine, with its result if it has one.
    pub(crate) fn back(&mut self, value: Option<Value>) -> Option<Done>
        ensures phase { self.new.phase ≡ self.old.phase }
        ensures room { self.new.room ≡ self.old.room }
        ensures turns { (code : CodeData) → Turns code (returned (saved_in code self.old.conf.saved) value) self.old.data' result self.new }
    {
        match self.leave() {
            Some(Left::Started) => Some(Done::End(Fate::Done)),
            Some(Left::Called) => match value {
                Some(value) => Some(Done::value(value)),
                None => Some(Done::Next),
            },
            Some(Left::Trapped) => Some(Done::Ask {
                request: Request::Leave,
                then: Pending::Left,
            }),
            None => None,
        }
    }

    /// Returns from the running routine, with the value on top as its result.
    pub(crate) fn back_with(&mut self) -> Option<Done>
        ensures phase { self.new.phase ≡ self.old.phase }
        ensures room { self.new.room ≡ self.old.room }
        ensures turns { (code : CodeData) → Turns code (act (here_of code self.old.conf) ops.BackWith) self.old.data' result self.new }
    {
        let value = self.pop_value()?;
        self.back(Some(value))
    }

    /// Runs the statement that failed again.
    pub(crate) fn retry(&mut self, code: &Code) -> Option<Done>
        ensures phase { self.new.phase ≡ self.old.phase }
        ensures room { self.new.room ≡ self.old.room }
        ensures data { self.new.data' ≡ self.old.data' }
        ensures on { let c = conf_in code.now self.old.conf in retried c c.frame.failed ≡ came (here_of code.now self.new.conf) result }
    {
        let failed = self.frame.failed?;
        self.go_behind_part(resumed_at(code, failed.place, How::Retry));
        Some(Done::Stay)
    }

    /// Goes on after the statement that failed.
    pub(crate) fn skip(&mut self, code: &Code) -> Option<Done>
        ensures phase { self.new.phase ≡ self.old.phase }
        ensures room { self.new.room ≡ self.old.room }
        ensures data { self.new.data' ≡ self.old.data' }
        ensures on { let c = conf_in code.now self.old.conf in skipped c c.frame.failed ≡ came (here_of code.now self.new.conf) result }
    {
        let failed = self.frame.failed?;
        self.go_behind_part(resumed_at(code, failed.place, How::Next));
        Some(Done::Stay)
    }

    /// Leaves the running ERROR part and goes to another place.
    fn go_behind_part(&mut self, pc: u32)
        ensures { self.new ≡ record self.old { conf = point pc [] (behind_part self.old.conf.frame) self.old.conf.saved } }
    {
        self.operands.clear();
        self.way = None;
        self.frame.failed = None;
        self.pc = pc;
    }

    /// Raises the error of the running ERROR part in the statement that called the routine.
    pub(crate) fn again(&self) -> Option<Done>
        ensures { (code : CodeData) → raised_again code (conf_in code self.now.conf) (conf_in code self.now.conf).frame.failed ≡ came (here_of code self.now.conf) result }
    {
        let failed = self.frame.failed?;
        Some(Done::Escape(failed.error))
    }
}
