//! Operators with two operands, applied in place.

ghost use Rattle.std.specs.Prelude.{◌≡◌, ◌≢◌, Some, [], drop, slice_get};
ghost use Rattle.rapid_model.specs.declared.value.Value.TheVariants as values;
ghost use Rattle.typed_trees.specs.declared.datum.Datum.TheVariants.{Plain};
ghost use Rattle.rapid_values.specs.Operators.{num_or_fault};
ghost use Rattle.rapid_meaning.specs.Values.{applied};
ghost use Rattle.stack_code.specs.CodeData.{CodeData};
ghost use Rattle.stack_code.specs.Steps.{act, pushes};
ghost use Rattle.stack_code.specs.declared.op.Op.TheVariants as ops;
ghost use Rattle.task_steps.specs.Alike.{with_stack};
ghost use Rattle.task_steps.specs.Doing.{gone, here_of};

use crate::steps::way::Way;
use crate::task::Task;
use rapid_model::{Fate, Fault, Operator, Value};
use rapid_num::Num;
use rapid_values::{Applied, apply};

impl Task {
    /// An operator with two operands.
    pub(crate) fn binary(&mut self, operator: Operator) -> Option<Way>
        ensures on { (code : CodeData) → act (here_of code self.old.conf) (ops.Binary operator) ≡ gone code result self.new }
        ensures rest { self.new ≡ with_stack self.new.conf.stack self.old }
    {
        match (self.num_at(1), self.num_at(0)) {
            (Some(left), Some(right)) => self.combine_nums(operator, left, right),
            _ => self.combine_values(operator),
        }
    }

    /// An operator with two operands, which are these nums. A sum or a difference makes no value on the way.
    fn combine_nums(&mut self, operator: Operator, left: Num, right: Num) -> Option<Way>
        requires right { slice_get self.old.conf.stack 0 ≡ Some (Plain (values.Num right)) }
        requires left { slice_get self.old.conf.stack 1 ≡ Some (Plain (values.Num left)) }
        ensures on { (code : CodeData) → act (here_of code self.old.conf) (ops.Binary operator) ≡ gone code result self.new }
        ensures rest { self.new ≡ with_stack self.new.conf.stack self.old }
    {
        match operator {
            Operator::Add => self.put_number(left.add(right)),
            Operator::Sub => self.put_number(left.sub(right)),
            _ => self.combine(operator, &Value::Num(left), &Value::Num(right)),
        }
    }

    /// Replaces the two operands on top by a num, if it is in range.
    fn put_number(&mut self, number: Option<Num>) -> Option<Way>
        requires { drop 1 self.old.conf.stack ≢ [] }
        ensures on { (code : CodeData) → pushes (here_of code self.old.conf) (drop 1 (drop 1 self.old.conf.stack)) Plain (applied (num_or_fault number)) ≡ gone code result self.new }
        ensures rest { self.new ≡ with_stack self.new.conf.stack self.old }
    {
        match number {
            Some(number) => {
                self.drop_operand();
                self.set_top_num(number);
                Some(Way::Next)
            }
            None => Some(Way::End(Fate::Fault(Fault::NumRange))),
        }
    }

    /// An operator with two operands, if they are values.
    fn combine_values(&mut self, operator: Operator) -> Option<Way>
        ensures on { (code : CodeData) → act (here_of code self.old.conf) (ops.Binary operator) ≡ gone code result self.new }
        ensures rest { self.new ≡ with_stack self.new.conf.stack self.old }
    {
        let right = self.value_at(0)?;
        let left = self.value_at(1)?;
        self.combine(operator, &left, &right)
    }

    /// An operator with two operands, which are these values.
    fn combine(&mut self, operator: Operator, left: &Value, right: &Value) -> Option<Way>
        requires right { slice_get self.old.conf.stack 0 ≡ Some (Plain right.now) }
        requires left { slice_get self.old.conf.stack 1 ≡ Some (Plain left.now) }
        ensures on { (code : CodeData) → act (here_of code self.old.conf) (ops.Binary operator) ≡ gone code result self.new }
        ensures rest { self.new ≡ with_stack self.new.conf.stack self.old }
    {
        match apply(operator, left, right) {
            Applied::Gives(value) => {
                self.drop_operand();
                self.set_top_value(value);
                Some(Way::Next)
            }
            Applied::Raises(error) => Some(Way::Raise(error)),
            Applied::OutOfRange => Some(Way::End(Fate::Fault(Fault::NumRange))),
            Applied::Unfit => None,
        }
    }
}
