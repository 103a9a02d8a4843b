//! Errors (RAPID Overview, error recovery).

ghost use Rattle.std.specs.Prelude.{◌≡◌, ◌≢◌, None, Some, []};
ghost use Rattle.task_code.specs.Leads.{Runs};
ghost use Rattle.rapid_meaning.specs.Data.{below_first};
ghost use Rattle.task_steps.specs.Alike.{Follows};
ghost use Rattle.task_steps.specs.Doing.{leaves_with, raised_at};
ghost use Rattle.task_steps.specs.Savings.{left_by};
ghost use Rattle.task_steps.specs.declared.routines.left.Left.TheVariants as lefts;
ghost use Rattle.task_steps.specs.Phases as phases;

use crate::routines::failed::Failed;
use crate::routines::left::Left;
use crate::routines::row::Row;
use crate::task::Task;
use rapid_model::{Fate, Fault};
use task_code::{Code, handler_of};

impl Task {
    /// Leaves the running routine; the one below it, if there is one, is again where it waited, and in its move if a
    /// trap put one aside. `None` if there is nothing below.
    pub(crate) fn leave(&mut self) -> Option<Left>
        ensures saved { self.old.conf.saved ≡ left_by result self.new.conf }
        ensures data { self.new.data' ≡ record self.old.data' { frames = below_first self.old.data'.frames } }
        ensures phase { self.new.phase ≡ self.old.phase }
        ensures room { self.new.room ≡ self.old.room }
        ensures trapped { result ≡ Some lefts.Trapped → self.new.conf.stack ≡ [] }
        ensures called { result ≡ Some lefts.Called → self.new.conf.way ≡ None }
    {
        self.frames.leave();
        self.way = None;
        let row = self.rows.pop()?;
        self.operands.close();
        match row {
            Row::Started => Some(Left::Started),
            Row::Called { at, frame } => {
                self.pc = at;
                self.frame = frame;
                Some(Left::Called)
            }
            Row::Trapped { at, frame, way } => {
                self.operands.clear();
                self.pc = at;
                self.frame = frame;
                self.way = way;
                Some(Left::Trapped)
            }
        }
    }

    /// Raises an error of the operation at a place of the running routine: into its ERROR part, if it has one and is
    /// not in it, else out of the routine.
    #[cycle(raising)]
    pub(crate) fn raise(&mut self, code: &Code, place: u32, error: u8)
        requires going { self.old.phase ≡ phases.Going }
        requires runs { Runs code.now (raised_at code.now place self.old.conf error) self.old.data' }
        ensures room { self.new.room ≡ self.old.room }
        ensures begun { self.new.phase ≢ phases.New }
        ensures on { Follows code.now (raised_at code.now place self.old.conf error) self.old.data' self.new }
    {
        if self.frame.failed.is_some() {
            return self.raise_out(code, error);
        }
        match handler_of(code.marks(), self.frame.routine) {
            Some(handler) => {
                self.operands.clear();
                self.way = None;
                self.frame.failed = Some(Failed { place, error });
                self.errno = error;
                self.pc = handler;
            }
            None => self.raise_out(code, error),
        }
    }

    /// Raises an error out of the running routine: the statement that called it has the error; out of the first routine
    /// or a trap it ends the task.
    #[cycle(raising)]
    pub(crate) fn raise_out(&mut self, code: &Code, error: u8)
        requires going { self.old.phase ≡ phases.Going }
        requires runs { Runs code.now (leaves_with code.now self.old.conf error) self.old.data' }
        ensures room { self.new.room ≡ self.old.room }
        ensures begun { self.new.phase ≢ phases.New }
        ensures on { Follows code.now (leaves_with code.now self.old.conf error) self.old.data' self.new }
    {
        match self.leave() {
            Some(Left::Called) => {
                let place = self.pc;
                self.raise(code, place, error);
            }
            Some(Left::Started) => self.end(Fate::Fault(Fault::Unhandled(error))),
            Some(Left::Trapped) => self.end(Fate::Fault(Fault::Unhandled(error))),
            None => unreachable!(),
        }
    }
}
