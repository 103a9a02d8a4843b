//! Popping operands. Each returns none if the operand is missing or has another form.

ghost use Rattle.std.specs.Prelude.{◌≡◌, ◌∷◌, Bool, ℕ, List, Option};
ghost use Rattle.rapid_num.specs.declared.shape.Shape.{Shape};
ghost use Rattle.rapid_model.specs.declared.value.Value.{Value};
ghost use Rattle.typed_trees.specs.declared.datum.Datum.{Datum};
ghost use Rattle.typed_trees.specs.declared.datum.Lvalue.{Lvalue};
ghost use Rattle.rapid_meaning.specs.Doings.{Doing};
ghost use Rattle.stack_code.specs.Confs.{Conf};
ghost use Rattle.stack_code.specs.Operands.{on_mark, on_place, on_shape, on_top, on_truth, on_value};
ghost use Rattle.task_steps.specs.Alike.{heaped, popped, with_stack};

use crate::task::Task;
use machine_stacks::Held;
use rapid_model::Value;
use rapid_num::Shape;
use typed_trees::Lvalue;

fn value_in(held: Held) -> Option<Value>
    ensures { (rest : List Datum) (next : Value → List Datum → Doing Conf) → on_value (held ∷ rest) next ≡ popped result rest next }
{
    held.into_value()
}

fn mark_in(held: &Held) -> Option<u8>
    ensures { (rest : List Datum) (next : ℕ → List Datum → Doing Conf) → on_mark (held.now ∷ rest) next ≡ popped result rest next }
{
    held.mark()
}

fn shape_in(held: &Held) -> Option<Option<Shape>>
    ensures { (rest : List Datum) (next : Option Shape → List Datum → Doing Conf) → on_shape (held.now ∷ rest) next ≡ popped result rest next }
{
    held.shape()
}

impl Task {
    /// The operand on top.
    pub(crate) fn pop(&mut self) -> Option<Held>
        ensures stack { self.old.conf.stack ≡ heaped result self.new.conf.stack }
        ensures rest { self.new ≡ with_stack self.new.conf.stack self.old }
    {
        if self.operands.len() == 0 {
            return None;
        }
        Some(self.operands.pop())
    }

    /// Any operand.
    pub(crate) fn pop_datum(&mut self) -> Option<Held>
        ensures on { (next : Datum → List Datum → Doing Conf) → on_top self.old.conf.stack next ≡ popped result self.new.conf.stack next }
        ensures rest { self.new ≡ with_stack self.new.conf.stack self.old }
    {
        self.pop()
    }

    /// A value.
    pub(crate) fn pop_value(&mut self) -> Option<Value>
        ensures on { (next : Value → List Datum → Doing Conf) → on_value self.old.conf.stack next ≡ popped result self.new.conf.stack next }
        ensures rest { self.new ≡ with_stack self.new.conf.stack self.old }
    {
        let held = self.pop()?;
        value_in(held)
    }

    /// A place.
    pub(crate) fn pop_place(&mut self) -> Option<Lvalue>
        ensures on { (next : Lvalue → List Datum → Doing Conf) → on_place self.old.conf.stack next ≡ popped result self.new.conf.stack next }
        ensures rest { self.new ≡ with_stack self.new.conf.stack self.old }
    {
        let place = self.top_place()?;
        self.drop_operand();
        Some(place)
    }

    /// The number of an interrupt or of a zone.
    pub(crate) fn pop_mark(&mut self) -> Option<u8>
        ensures on { (next : ℕ → List Datum → Doing Conf) → on_mark self.old.conf.stack next ≡ popped result self.new.conf.stack next }
        ensures rest { self.new ≡ with_stack self.new.conf.stack self.old }
    {
        let held = self.pop()?;
        mark_in(&held)
    }

    /// A shape, if it was defined.
    pub(crate) fn pop_shape(&mut self) -> Option<Option<Shape>>
        ensures on { (next : Option Shape → List Datum → Doing Conf) → on_shape self.old.conf.stack next ≡ popped result self.new.conf.stack next }
        ensures rest { self.new ≡ with_stack self.new.conf.stack self.old }
    {
        let held = self.pop()?;
        shape_in(&held)
    }

    /// A bool.
    pub(crate) fn pop_truth(&mut self) -> Option<bool>
        ensures on { (next : Bool → List Datum → Doing Conf) → on_truth self.old.conf.stack next ≡ popped result self.new.conf.stack next }
        ensures rest { self.new ≡ with_stack self.new.conf.stack self.old }
    {
        let truth = self.top_truth()?;
        self.drop_operand();
        Some(truth)
    }
}
