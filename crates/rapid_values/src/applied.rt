ghost use Rattle.std.specs.Prelude.{◌≡◌};
ghost use Rattle.rapid_values.specs.Operators.{num_or_fault};

use rapid_model::Value;
use rapid_num::Num;

/// The result of an operator on two values.
#[derive(Debug, Drop)]
pub enum Applied {
    /// A value.
    Gives(Value),
    /// An error with this number, which a routine may handle: 101 for division by zero, 102 for a string of more than
    /// 80 characters (RAPID Overview, error recovery).
    Raises(u8),
    /// A num out of range, which is a fault.
    OutOfRange,
    /// The operator does not take operands of these types.
    Unfit,
}

impl Applied {
    /// A bool.
    pub(crate) fn truth(value: bool) -> Applied
        ensures { result ≡ Applied.Gives (Value.Bool value) }
    {
        Applied::Gives(Value::Bool(value))
    }

    /// A num if it is in range, else a fault.
    pub(crate) fn num_or_fault(num: Option<Num>) -> Applied
        ensures { result ≡ num_or_fault num }
    {
        match num {
            Some(num) => Applied::Gives(Value::Num(num)),
            None => Applied::OutOfRange,
        }
    }
}
