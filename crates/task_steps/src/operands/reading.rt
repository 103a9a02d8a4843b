//! Operations without operands that read the state of the task.

ghost use Rattle.std.specs.Prelude.{◌≡◌, slice_get};
ghost use Rattle.rapid_meaning.specs.Places.{kept_place, own_place};
ghost use Rattle.stack_code.specs.CodeData.{CodeData};
ghost use Rattle.stack_code.specs.Steps.{act};
ghost use Rattle.stack_code.specs.declared.op.Op.TheVariants as ops;
ghost use Rattle.task_code.specs.Leads.{Runs};
ghost use Rattle.task_steps.specs.Alike.{Goes, Turns, with_stack};
ghost use Rattle.task_steps.specs.Doing.{came, here_of};
ghost use Rattle.task_steps.specs.Seen.{room_of};

use crate::operands::pushing::{place_pushed, whole, whole_at};
use crate::steps::done::Done;
use crate::steps::way::Way;
use crate::task::Task;
use machine_stacks::Held;
use rapid_model::{Fate, Fault};
use task_code::Code;
use typed_trees::{Lvalue, Root};

impl Task {
    /// A copy of an operand, by the number of those above it, if there is one.
    fn operand(&self, above: usize) -> Option<Held>
        ensures { result ≡ slice_get self.now.conf.stack above }
    {
        self.operands.peek(above)
    }

    /// Pushes a copy of the operand on top.
    pub(crate) fn dup(&self) -> Option<Done>
        ensures { (code : CodeData) → act (here_of code self.now.conf) ops.Dup ≡ came (here_of code self.now.conf) result }
    {
        match self.operand(0) {
            Some(held) => Some(Done::Push(held)),
            None => None,
        }
    }

    /// Pushes a copy of the operand below the top.
    pub(crate) fn over(&self) -> Option<Done>
        ensures { (code : CodeData) → act (here_of code self.now.conf) ops.Over ≡ came (here_of code self.now.conf) result }
    {
        match self.operand(1) {
            Some(held) => Some(Done::Push(held)),
            None => None,
        }
    }

    /// Pushes the number of the task's last error.
    pub(crate) fn last_error(&self) -> Option<Done>
        ensures { (code : CodeData) → Turns code (act (here_of code self.now.conf) ops.Errno) self.now.data' result self.now }
    {
        Some(Done::value(whole(u16::from(self.errno))))
    }

    /// Tests that no trap is under way.
    pub(crate) fn still(&self) -> Option<Done>
        ensures { (code : CodeData) → Turns code (act (here_of code self.now.conf) ops.Still) self.now.data' result self.now }
    {
        if self.trapped {
            Some(Done::End(Fate::Fault(Fault::MoveInTrap)))
        } else {
            Some(Done::Next)
        }
    }

    /// The place of a datum of the frame.
    #[tactic(auto, using(crate::proofs::Readings::below_count))]
    pub(crate) fn own_place(&self, at: u32) -> Lvalue
        ensures { result ≡ own_place at self.now.data'.frames }
    {
        let frame = self.frames.count().saturating_sub(1) as u8;
        whole_at(Root::Frame { frame, at })
    }

    /// The place that a reference parameter of the frame stands for.
    fn kept_place(&self, at: u32) -> Option<Lvalue>
        ensures { result ≡ kept_place at self.now.data'.frames }
    {
        let count = self.frames.count();
        if count == 0 {
            return None;
        }
        self.frames.place(count - 1, at as usize)
    }

    /// Pushes the place of a datum of the frame.
    pub(crate) fn local(&mut self, code: &Code, at: u32) -> Option<Way>
        requires room { self.old.room ≡ room_of code.now }
        requires runs { Runs code.now (act (here_of code.now self.old.conf) (ops.Local at)) self.old.data' }
        ensures rest { self.new ≡ with_stack self.new.conf.stack self.old }
        ensures goes { Goes code.now (act (here_of code.now self.old.conf) (ops.Local at)) self.old.data' result self.new }
    {
        let place = self.own_place(at);
        self.put_place(code, place)
    }

    /// Pushes the place that a reference parameter stands for.
    pub(crate) fn reference(&self, at: u32) -> Option<Done>
        ensures { (code : CodeData) → Turns code (act (here_of code self.now.conf) (ops.Ref at)) self.now.data' result self.now }
    {
        match self.kept_place(at) {
            Some(place) => place_pushed(place),
            None => None,
        }
    }
}
