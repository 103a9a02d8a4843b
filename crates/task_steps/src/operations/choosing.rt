//! The method for each kind of an operation that has several.

ghost use Rattle.std.specs.Prelude.{◌≡◌};
ghost use Rattle.stack_code.specs.CodeData.{CodeData};
ghost use Rattle.stack_code.specs.Steps.{act};
ghost use Rattle.stack_code.specs.declared.op.Op.TheVariants as ops;
ghost use Rattle.task_steps.specs.Alike.{with_stack};
ghost use Rattle.task_steps.specs.Doing.{came, here_of};

use crate::requests::requests::confirmed;
use crate::steps::done::Done;
use crate::task::Task;
use rapid_model::Request;
use stack_code::{IrqOp, OrderOn, TailKind, UnaryOp, ZoneOp};

impl Task {
    /// An operator with one operand.
    pub(crate) fn unary(&mut self, operator: UnaryOp) -> Option<Done>
        ensures on { (code : CodeData) → act (here_of code self.old.conf) (ops.Unary operator) ≡ came (here_of code self.new.conf) result }
        ensures rest { self.new ≡ with_stack self.new.conf.stack self.old }
    {
        match operator {
            UnaryOp::Minus => self.minus(),
            UnaryOp::Not => self.not(),
        }
    }

    /// Orders an interrupt.
    pub(crate) fn order(&mut self, on: OrderOn, single: bool) -> Option<Done>
        ensures on { (code : CodeData) → act (here_of code self.old.conf) (ops.Order on single) ≡ came (here_of code self.new.conf) result }
        ensures rest { self.new ≡ with_stack self.new.conf.stack self.old }
    {
        match on {
            OrderOn::Signal(signal) => self.order_on_signal(signal, single),
            OrderOn::Pers(pers) => self.order_on_pers(pers, single),
        }
    }

    /// Changes an interrupt, or all of them.
    pub(crate) fn change_interrupt(&mut self, change: IrqOp) -> Option<Done>
        ensures on { (code : CodeData) → act (here_of code self.old.conf) (ops.Irq change) ≡ came (here_of code self.new.conf) result }
        ensures rest { self.new ≡ with_stack self.new.conf.stack self.old }
    {
        match change {
            IrqOp::Sleep => self.sleep(),
            IrqOp::Watch => self.watch(),
            IrqOp::Delete => self.delete(),
            IrqOp::Disable => confirmed(Request::Disable),
            IrqOp::Enable => confirmed(Request::Enable),
        }
    }

    /// Changes a zone.
    pub(crate) fn change_zone(&mut self, change: ZoneOp) -> Option<Done>
        ensures on { (code : CodeData) → act (here_of code self.old.conf) (ops.Zone change) ≡ came (here_of code self.new.conf) result }
        ensures rest { self.new ≡ with_stack self.new.conf.stack self.old }
    {
        match change {
            ZoneOp::On => self.zone_on(),
            ZoneOp::Off => self.zone_off(),
            ZoneOp::Free => self.zone_free(),
        }
    }

    /// Writes a text, and what follows it, to the operator.
    pub(crate) fn tell(&mut self, tail: TailKind) -> Option<Done>
        ensures on { (code : CodeData) → act (here_of code self.old.conf) (ops.Say tail) ≡ came (here_of code self.new.conf) result }
        ensures rest { self.new ≡ with_stack self.new.conf.stack self.old }
    {
        match tail {
            TailKind::None => self.say(),
            TailKind::Num => self.say_num(),
            TailKind::Bool => self.say_truth(),
        }
    }
}
