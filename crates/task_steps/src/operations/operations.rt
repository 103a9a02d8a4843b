//! Operations that pop their operands and do not touch data.

ghost use Rattle.std.specs.Prelude.{◌≡◌};
ghost use Rattle.stack_code.specs.CodeData.{CodeData};
ghost use Rattle.rapid_model.specs.declared.function.Function.TheVariants as functions;
ghost use Rattle.typed_trees.specs.declared.datum.Datum.TheVariants.{Plain};
ghost use Rattle.stack_code.specs.Functions.{of_value};
ghost use Rattle.stack_code.specs.Operands.{on_value};
ghost use Rattle.stack_code.specs.Steps.{act, pushes};
ghost use Rattle.stack_code.specs.declared.irq_op.IrqOp.TheVariants as irqs;
ghost use Rattle.stack_code.specs.declared.op.Op.TheVariants as ops;
ghost use Rattle.stack_code.specs.declared.order_on.OrderOn.TheVariants as orders;
ghost use Rattle.stack_code.specs.declared.tail_kind.TailKind.TheVariants as kinds;
ghost use Rattle.stack_code.specs.declared.unary_op.UnaryOp.TheVariants as unary;
ghost use Rattle.stack_code.specs.declared.zone_op.ZoneOp.TheVariants as zones;
ghost use Rattle.task_steps.specs.Alike.{with_stack};
ghost use Rattle.task_steps.specs.Doing.{came, gone, here_of};

use crate::operands::pushing::{narrowed, of_one, of_two};
use crate::operations::combining::{dropped, gone_on, jumped, minus, not, raised};
use crate::requests::requests::{
    aimed, connected, freed, known, ordered_on_pers, ordered_on_signal, said, said_num, said_truth,
    signal_written, supervised, tied, zoned,
};
use crate::steps::done::Done;
use crate::steps::way::Way;
use crate::task::Task;
use rapid_model::{Function, PartName, Request};
use task_code::Code;

impl Task {
    /// A leading minus.
    pub(crate) fn minus(&mut self) -> Option<Done>
        ensures on { (code : CodeData) → act (here_of code self.old.conf) (ops.Unary unary.Minus) ≡ came (here_of code self.new.conf) result }
        ensures rest { self.new ≡ with_stack self.new.conf.stack self.old }
    {
        let value = self.pop_value()?;
        minus(&value)
    }

    /// NOT.
    pub(crate) fn not(&mut self) -> Option<Done>
        ensures on { (code : CodeData) → act (here_of code self.old.conf) (ops.Unary unary.Not) ≡ came (here_of code self.new.conf) result }
        ensures rest { self.new ≡ with_stack self.new.conf.stack self.old }
    {
        let value = self.pop_value()?;
        not(&value)
    }

    /// Sets a signal.
    pub(crate) fn put_signal(&mut self, signal: u32) -> Option<Done>
        ensures on { (code : CodeData) → act (here_of code self.old.conf) (ops.PutSignal signal) ≡ came (here_of code self.new.conf) result }
        ensures rest { self.new ≡ with_stack self.new.conf.stack self.old }
    {
        let value = self.pop_value()?;
        signal_written(signal, &value)
    }

    /// RAISE with a number.
    pub(crate) fn raise_number(&mut self) -> Option<Done>
        ensures on { (code : CodeData) → act (here_of code self.old.conf) (ops.Raise) ≡ came (here_of code self.new.conf) result }
        ensures rest { self.new ≡ with_stack self.new.conf.stack self.old }
    {
        let value = self.pop_value()?;
        raised(&value)
    }

    /// Narrows the place on top to a part.
    pub(crate) fn narrow(&mut self, name: PartName) -> Option<Done>
        ensures on { (code : CodeData) → act (here_of code self.old.conf) (ops.Part name) ≡ came (here_of code self.new.conf) result }
        ensures rest { self.new ≡ with_stack self.new.conf.stack self.old }
    {
        let place = self.pop_place()?;
        narrowed(name, place)
    }

    /// A predefined function of one value.
    pub(crate) fn function(&mut self, function: Function) -> Option<Done>
        ensures on { (code : CodeData) → on_value self.old.conf.stack (λ value rest. pushes (here_of code self.old.conf) rest Plain (of_value function value)) ≡ came (here_of code self.new.conf) result }
        ensures rest { self.new ≡ with_stack self.new.conf.stack self.old }
    {
        let value = self.pop_value()?;
        of_one(function, &value)
    }

    /// NumToStr.
    pub(crate) fn num_to_str(&mut self) -> Option<Done>
        ensures on { (code : CodeData) → act (here_of code self.old.conf) (ops.Func functions.NumToStr) ≡ came (here_of code self.new.conf) result }
        ensures rest { self.new ≡ with_stack self.new.conf.stack self.old }
    {
        let second = self.pop_value()?;
        let first = self.pop_value()?;
        of_two(Function::NumToStr, &first, &second)
    }

    /// Jumps if a bool is TRUE.
    pub(crate) fn jump_if(&mut self, to: u32) -> Option<Way>
        ensures on { (code : CodeData) → act (here_of code self.old.conf) (ops.JumpTrue to) ≡ gone code result self.new }
        ensures rest { self.new ≡ with_stack self.new.conf.stack self.old }
    {
        let truth = self.pop_truth()?;
        Some(jumped(truth, to))
    }

    /// Jumps if a bool is FALSE.
    pub(crate) fn jump_unless(&mut self, to: u32) -> Option<Way>
        ensures on { (code : CodeData) → act (here_of code self.old.conf) (ops.JumpFalse to) ≡ gone code result self.new }
        ensures rest { self.new ≡ with_stack self.new.conf.stack self.old }
    {
        let truth = self.pop_truth()?;
        Some(gone_on(truth, to))
    }

    /// Drops the operand on top.
    pub(crate) fn drop_top(&mut self) -> Option<Done>
        ensures on { (code : CodeData) → act (here_of code self.old.conf) (ops.Drop) ≡ came (here_of code self.new.conf) result }
        ensures rest { self.new ≡ with_stack self.new.conf.stack self.old }
    {
        let _top = self.pop_datum()?;
        dropped()
    }

    /// Begins a move.
    pub(crate) fn aim(&mut self, code: &Code) -> Option<Done>
        ensures on { act (here_of code.now self.old.conf) ops.Aim ≡ came (here_of code.now self.new.conf) result }
        ensures rest { self.new ≡ with_stack self.new.conf.stack self.old }
    {
        let speed = self.pop_value()?;
        let target = self.pop_value()?;
        aimed(&target, &speed, code.axes())
    }

    /// Connects an interrupt to a trap.
    pub(crate) fn connect(&mut self, trap: u32) -> Option<Done>
        ensures on { (code : CodeData) → act (here_of code self.old.conf) (ops.Connect trap) ≡ came (here_of code self.new.conf) result }
        ensures rest { self.new ≡ with_stack self.new.conf.stack self.old }
    {
        let old = self.pop_mark()?;
        let place = self.pop_place()?;
        connected(place, old, trap)
    }

    /// Orders an interrupt on a signal's value.
    pub(crate) fn order_on_signal(&mut self, signal: u32, single: bool) -> Option<Done>
        ensures on { (code : CodeData) → act (here_of code self.old.conf) (ops.Order (orders.Signal signal) single) ≡ came (here_of code self.new.conf) result }
        ensures rest { self.new ≡ with_stack self.new.conf.stack self.old }
    {
        let number = self.pop_mark()?;
        let value = self.pop_value()?;
        ordered_on_signal(number, signal, &value, single)
    }

    /// Orders an interrupt on a persistent.
    pub(crate) fn order_on_pers(&mut self, pers: u32, single: bool) -> Option<Done>
        ensures on { (code : CodeData) → act (here_of code self.old.conf) (ops.Order (orders.Pers pers) single) ≡ came (here_of code self.new.conf) result }
        ensures rest { self.new ≡ with_stack self.new.conf.stack self.old }
    {
        let number = self.pop_mark()?;
        ordered_on_pers(number, pers, single)
    }

    /// An interrupt sleeps.
    pub(crate) fn sleep(&mut self) -> Option<Done>
        ensures on { (code : CodeData) → act (here_of code self.old.conf) (ops.Irq irqs.Sleep) ≡ came (here_of code self.new.conf) result }
        ensures rest { self.new ≡ with_stack self.new.conf.stack self.old }
    {
        let number = self.pop_mark()?;
        known(Request::Sleep { number })
    }

    /// An interrupt wakes.
    pub(crate) fn watch(&mut self) -> Option<Done>
        ensures on { (code : CodeData) → act (here_of code self.old.conf) (ops.Irq irqs.Watch) ≡ came (here_of code self.new.conf) result }
        ensures rest { self.new ≡ with_stack self.new.conf.stack self.old }
    {
        let number = self.pop_mark()?;
        known(Request::Watch { number })
    }

    /// An interrupt is deleted.
    pub(crate) fn delete(&mut self) -> Option<Done>
        ensures on { (code : CodeData) → act (here_of code self.old.conf) (ops.Irq irqs.Delete) ≡ came (here_of code self.new.conf) result }
        ensures rest { self.new ≡ with_stack self.new.conf.stack self.old }
    {
        let number = self.pop_mark()?;
        known(Request::Delete { number })
    }

    /// Supervises a zone.
    pub(crate) fn zone_set(&mut self, temporary: bool) -> Option<Done>
        ensures on { (code : CodeData) → act (here_of code self.old.conf) (ops.ZoneSet temporary) ≡ came (here_of code self.new.conf) result }
        ensures rest { self.new ≡ with_stack self.new.conf.stack self.old }
    {
        let shape = self.pop_shape()?;
        let old = self.pop_mark()?;
        let place = self.pop_place()?;
        supervised(place, old, temporary, shape)
    }

    /// Ties a signal to a zone.
    pub(crate) fn zone_tie(&mut self, temporary: bool, signal: u32) -> Option<Done>
        ensures on { (code : CodeData) → act (here_of code self.old.conf) (ops.ZoneTie temporary signal) ≡ came (here_of code self.new.conf) result }
        ensures rest { self.new ≡ with_stack self.new.conf.stack self.old }
    {
        let value = self.pop_value()?;
        let shape = self.pop_shape()?;
        let old = self.pop_mark()?;
        let place = self.pop_place()?;
        tied(place, old, temporary, shape, signal, &value)
    }

    /// Switches a zone on.
    pub(crate) fn zone_on(&mut self) -> Option<Done>
        ensures on { (code : CodeData) → act (here_of code self.old.conf) (ops.Zone zones.On) ≡ came (here_of code self.new.conf) result }
        ensures rest { self.new ≡ with_stack self.new.conf.stack self.old }
    {
        let zone = self.pop_mark()?;
        let _place = self.pop_place()?;
        zoned(Request::ZoneOn { zone })
    }

    /// Switches a zone off.
    pub(crate) fn zone_off(&mut self) -> Option<Done>
        ensures on { (code : CodeData) → act (here_of code self.old.conf) (ops.Zone zones.Off) ≡ came (here_of code self.new.conf) result }
        ensures rest { self.new ≡ with_stack self.new.conf.stack self.old }
    {
        let zone = self.pop_mark()?;
        let _place = self.pop_place()?;
        zoned(Request::ZoneOff { zone })
    }

    /// Frees a zone.
    pub(crate) fn zone_free(&mut self) -> Option<Done>
        ensures on { (code : CodeData) → act (here_of code self.old.conf) (ops.Zone zones.Free) ≡ came (here_of code self.new.conf) result }
        ensures rest { self.new ≡ with_stack self.new.conf.stack self.old }
    {
        let zone = self.pop_mark()?;
        let place = self.pop_place()?;
        freed(place, zone)
    }

    /// Writes a text to the operator.
    pub(crate) fn say(&mut self) -> Option<Done>
        ensures on { (code : CodeData) → act (here_of code self.old.conf) (ops.Say kinds.None) ≡ came (here_of code self.new.conf) result }
        ensures rest { self.new ≡ with_stack self.new.conf.stack self.old }
    {
        let text = self.pop_value()?;
        said(text)
    }

    /// Writes a text followed by a num to the operator.
    pub(crate) fn say_num(&mut self) -> Option<Done>
        ensures on { (code : CodeData) → act (here_of code self.old.conf) (ops.Say kinds.Num) ≡ came (here_of code self.new.conf) result }
        ensures rest { self.new ≡ with_stack self.new.conf.stack self.old }
    {
        let number = self.pop_value()?;
        let text = self.pop_value()?;
        said_num(text, &number)
    }

    /// Writes a text followed by a bool to the operator.
    pub(crate) fn say_truth(&mut self) -> Option<Done>
        ensures on { (code : CodeData) → act (here_of code self.old.conf) (ops.Say kinds.Bool) ≡ came (here_of code self.new.conf) result }
        ensures rest { self.new ≡ with_stack self.new.conf.stack self.old }
    {
        let truth = self.pop_value()?;
        let text = self.pop_value()?;
        said_truth(text, &truth)
    }
}
