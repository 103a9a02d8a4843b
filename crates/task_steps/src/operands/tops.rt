//! Operands read and written in place.

ghost use Rattle.std.specs.Prelude.{◌≡◌, ◌≢◌, Bool, List, [], ◌∷◌, drop, slice_get, Some, IfSome};
ghost use Rattle.std.specs.Option.{option_and_then};
ghost use Rattle.rapid_model.specs.declared.value.Value.TheVariants as values;
ghost use Rattle.typed_trees.specs.declared.datum.Datum.{Datum};
ghost use Rattle.typed_trees.specs.declared.datum.Datum.TheVariants.{Place, Plain};
ghost use Rattle.typed_trees.specs.declared.datum.Lvalue.{Lvalue};
ghost use Rattle.rapid_meaning.specs.Doings.{Doing};
ghost use Rattle.stack_code.specs.Confs.{Conf};
ghost use Rattle.stack_code.specs.Operands.{on_place, on_truth};
ghost use Rattle.machine_stacks.specs.Forms.{as_value};
ghost use Rattle.task_steps.specs.Alike.{popped, with_stack};

use crate::task::Task;
use rapid_model::Value;
use rapid_num::Num;
use typed_trees::Lvalue;

impl Task {
    /// The value of an operand, by the number of those above it, if it is a value.
    pub(crate) fn value_at(&self, above: usize) -> Option<Value>
        ensures { result ≡ option_and_then as_value (slice_get self.now.conf.stack above) }
    {
        match self.operands.peek(above) {
            Some(held) => held.into_value(),
            None => None,
        }
    }

    /// The num of an operand, by the number of those above it, if it is a num.
    pub(crate) fn num_at(&self, above: usize) -> Option<Num>
        ensures { IfSome result (λ n. slice_get self.now.conf.stack above ≡ Some (Plain (values.Num n))) }
    {
        self.operands.num(above)
    }

    /// The place that an operand stands for, by the number of those above it, if it stands for one.
    pub(crate) fn place_at(&self, above: usize) -> Option<Lvalue>
        ensures { IfSome result (λ place. slice_get self.now.conf.stack above ≡ Some (Place place)) }
    {
        self.operands.place(above)
    }

    /// The bool on top, if there is one.
    pub(crate) fn top_truth(&self) -> Option<bool>
        ensures some { IfSome result (λ truth. self.now.conf.stack ≢ []) }
        ensures on { (next : Bool → List Datum → Doing Conf) → on_truth self.now.conf.stack next ≡ popped result (drop 1 self.now.conf.stack) next }
    {
        self.operands.truth(0)
    }

    /// The place on top, if there is one.
    pub(crate) fn top_place(&self) -> Option<Lvalue>
        ensures some { IfSome result (λ place. self.now.conf.stack ≢ []) }
        ensures on { (next : Lvalue → List Datum → Doing Conf) → on_place self.now.conf.stack next ≡ popped result (drop 1 self.now.conf.stack) next }
    {
        self.operands.place(0)
    }

    /// Replaces the operand on top by a num.
    pub(crate) fn set_top_num(&mut self, number: Num)
        requires { self.old.conf.stack ≢ [] }
        ensures { self.new ≡ with_stack (Plain (values.Num number) ∷ drop 1 self.old.conf.stack) self.old }
    {
        self.operands.set_top_num(number);
    }

    /// Replaces the operand on top by a value.
    pub(crate) fn set_top_value(&mut self, value: Value)
        requires { self.old.conf.stack ≢ [] }
        ensures { self.new ≡ with_stack (Plain value ∷ drop 1 self.old.conf.stack) self.old }
    {
        self.operands.set_top_value(value);
    }

    /// Drops the operand on top.
    pub(crate) fn drop_operand(&mut self)
        requires { self.old.conf.stack ≢ [] }
        ensures { self.new ≡ with_stack (drop 1 self.old.conf.stack) self.old }
    {
        self.operands.drop_top();
    }
}
