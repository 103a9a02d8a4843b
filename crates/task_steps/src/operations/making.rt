//! Records and predefined functions.

ghost use Rattle.std.specs.Prelude.{◌≡◌, List, length, if◌then◌else◌};
ghost use Rattle.rapid_model.specs.declared.value.Value.{Value};
ghost use Rattle.rapid_values.specs.Values.{made_of};
ghost use Rattle.typed_trees.specs.declared.datum.Datum.{Datum};
ghost use Rattle.typed_trees.specs.declared.datum.Datum.TheVariants.{Plain};
ghost use Rattle.rapid_meaning.specs.Doings.{Doing, Misfit, or_misfit};
ghost use Rattle.stack_code.specs.CodeData.{CodeData};
ghost use Rattle.stack_code.specs.Confs.{Conf};
ghost use Rattle.stack_code.specs.Operands.{on_values};
ghost use Rattle.stack_code.specs.Steps.{Here, act, pushes};
ghost use Rattle.stack_code.specs.declared.op.Op.TheVariants as ops;
ghost use Rattle.task_steps.specs.Alike.{with_stack};
ghost use Rattle.task_steps.specs.Doing.{came, here_of};

use crate::requests::requests::bit_kept;
use crate::steps::done::Done;
use crate::task::Task;
use rapid_model::{Function, Sort, Value};
use rapid_values::{component_sorts, record_of};

impl Task {
    /// Makes a record of its components.
    pub(crate) fn pack(&mut self, sort: Sort) -> Option<Done>
        ensures on { (code : CodeData) → act (here_of code self.old.conf) (ops.Pack sort) ≡ came (here_of code self.new.conf) result }
        ensures rest { self.new ≡ with_stack self.new.conf.stack self.old }
    {
        let mut values = blanks();
        let parts = &mut values[..component_sorts(sort).len()];
        if self.pop_values(parts) {
            packed(sort, parts)
        } else {
            None
        }
    }

    /// Pops as many values as the slice has and writes them over it, in the order in which they were pushed. False if
    /// one of them is missing.
    fn pop_values(&mut self, values: &mut [Value]) -> bool
        ensures on { (next : List Value → List Datum → Doing Conf) → on_values (length values.old) self.old.conf.stack next ≡ (if result then next values.new self.new.conf.stack else Misfit) }
        ensures rest { self.new ≡ with_stack self.new.conf.stack self.old }
    {
        let mut left = values.len();
        while left > 0 {
            let Some(value) = self.pop_value() else {
                return false;
            };
            left -= 1;
            values[left] = value;
        }
        true
    }

    /// A predefined function.
    pub(crate) fn call_function(&mut self, function: Function) -> Option<Done>
        ensures on { (code : CodeData) → act (here_of code self.old.conf) (ops.Func function) ≡ came (here_of code self.new.conf) result }
        ensures rest { self.new ≡ with_stack self.new.conf.stack self.old }
    {
        match function {
            Function::NumToStr => self.num_to_str(),
            _ => self.function(function),
        }
    }

    /// Tests that the num on top is a signal's value.
    pub(crate) fn bit(&mut self) -> Option<Done>
        ensures on { (code : CodeData) → act (here_of code self.old.conf) ops.Bit ≡ came (here_of code self.new.conf) result }
        ensures rest { self.new ≡ with_stack self.new.conf.stack self.old }
    {
        let value = self.pop_value()?;
        bit_kept(value)
    }
}

/// Placeholders for the components of a record, of which there are at most six.
fn blanks() -> [Value; 6] {
    [
        Value::Bool(false),
        Value::Bool(false),
        Value::Bool(false),
        Value::Bool(false),
        Value::Bool(false),
        Value::Bool(false),
    ]
}

/// Pushes the record of these components.
#[tactic(auto, unfolding(rapid_meaning::specs::Doings::after))]
fn packed(sort: Sort, parts: &[Value]) -> Option<Done>
    ensures { (h : Here) → pushes h h.conf.stack Plain (or_misfit (made_of sort parts.now)) ≡ came h result }
{
    let value = record_of(sort, parts)?;
    Some(Done::value(value))
}
