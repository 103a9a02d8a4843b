ghost use Rattle.std.specs.Prelude.{◌≡◌};
ghost use Rattle.typed_trees.specs.declared.datum.Datum.TheVariants.{Plain};

use crate::requests::pending::Pending;
use machine_stacks::Held;
use rapid_model::{Fate, Request, Value};

/// The outcome of an operation, once its operands are popped and its data are written.
#[derive(Drop)]
pub(crate) enum Done {
    /// Goes on to the next operation.
    Next,
    /// Pushes this, and goes on to the next operation.
    Push(Held),
    /// Goes on at another place.
    Jump(u32),
    /// Goes on where the task is now.
    Stay,
    /// Raises an error of this number in its statement.
    Raise(u8),
    /// Raises an error of this number out of the running routine.
    Escape(u8),
    /// Asks this, and goes on with the answer.
    Ask { request: Request, then: Pending },
    /// Ends the task.
    End(Fate),
}

impl Done {
    /// Pushes a value.
    pub(crate) fn value(value: Value) -> Done
        ensures { result ≡ Done.Push (Plain value) }
    {
        Done::Push(Held::of_value(value))
    }
}
