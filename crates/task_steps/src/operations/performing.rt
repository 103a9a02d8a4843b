//! Performs each operation: the common ones in place, the others by their outcome.

ghost use Rattle.std.specs.Prelude.{◌≡◌, ◌≢◌, ◌<◌, length, Some};
ghost use Rattle.task_code.specs.Leads.{Runs};
ghost use Rattle.stack_code.specs.Steps.{act};
ghost use Rattle.task_steps.specs.Alike.{Goes};
ghost use Rattle.task_steps.specs.Doing.{here_of};
ghost use Rattle.task_steps.specs.Others.{IsOther};
ghost use Rattle.task_steps.specs.Seen.{room_of};
ghost use Rattle.task_steps.specs.Phases as phases;
ghost use Rattle.task_steps.specs.declared.steps.way.Way.TheVariants as ways;

use crate::operands::pushing::whole_at;
use crate::routines::loaded::LoadedCode;
use crate::steps::way::Way;
use crate::task::Task;
use stack_code::Op;
use typed_trees::Root;

impl Task {
    /// Performs an operation, if the task is at it, and returns how the task goes on.
    pub(crate) fn perform(&mut self, loaded: &LoadedCode, op: &Op) -> Option<Way>
        requires within { self.old.conf.pc < length loaded.now.ops }
        requires going { self.old.phase ≡ phases.Going }
        requires room { self.old.room ≡ room_of loaded.now }
        requires runs { Runs loaded.now (act (here_of loaded.now self.old.conf) op.now) self.old.data' }
        ensures room { self.new.room ≡ self.old.room }
        ensures going { result ≢ Some ways.Stay → self.new.phase ≡ phases.Going }
        ensures begun { self.new.phase ≢ phases.New }
        ensures goes { Goes loaded.now (act (here_of loaded.now self.old.conf) op.now) self.old.data' result self.new }
    {
        let code = loaded.code();
        match op {
            Op::Push(datum) => self.put_kept(code, datum),
            Op::Slot(slot) => self.put_place(code, whole_at(Root::Slot(*slot))),
            Op::Local(at) => self.local(code, *at),
            Op::Load => self.load(code),
            Op::Store => self.store(code),
            Op::Binary(operator) => self.binary(*operator),
            Op::Jump(to) => Some(Way::Jump(*to)),
            Op::JumpTrue(to) => self.jump_if(*to),
            Op::JumpFalse(to) => self.jump_unless(*to),
            Op::Turn(at, to) => self.turn(*at, *to),
            Op::Step(at, to) => self.step_on(code, *at, *to),
            Op::Look => self.look(loaded),
            _ => self.perform_other(loaded, op),
        }
    }

    /// Performs an operation that is not done in place.
    fn perform_other(&mut self, loaded: &LoadedCode, op: &Op) -> Option<Way>
        requires other { IsOther op.now }
        requires within { self.old.conf.pc < length loaded.now.ops }
        requires going { self.old.phase ≡ phases.Going }
        requires room { self.old.room ≡ room_of loaded.now }
        requires runs { Runs loaded.now (act (here_of loaded.now self.old.conf) op.now) self.old.data' }
        ensures room { self.new.room ≡ self.old.room }
        ensures going { result ≢ Some ways.Stay → self.new.phase ≡ phases.Going }
        ensures begun { self.new.phase ≢ phases.New }
        ensures goes { Goes loaded.now (act (here_of loaded.now self.old.conf) op.now) self.old.data' result self.new }
    {
        let done = self.operate(loaded, op);
        self.settle(loaded.code(), done)
    }
}
