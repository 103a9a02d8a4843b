//! Operators on outcomes (RAPID Overview, expressions).

ghost use Rattle.std.specs.Prelude.{◌≡◌};
ghost use Rattle.constant_meaning.specs.Constants.{applied, decides, on_right, opposite, value_or_not_known, with_sign};
ghost use Rattle.constant_meaning.specs.declared.outcome.Outcome.TheVariants as outcomes;

use crate::outcome::Outcome;
use rapid_model::{Operator, Value};
use rapid_values::{Applied, apply};

/// A value, or NotKnown if there is none.
pub(crate) fn value_or_not_known(value: Option<Value>) -> Outcome
    ensures { result ≡ value_or_not_known value }
{
    match value {
        Some(value) => Outcome::Value(value),
        None => Outcome::NotKnown,
    }
}

/// Whether the left operand decides, so that the right one is skipped: FALSE before AND, TRUE before OR.
pub(crate) fn decides(operator: Operator, left: &Value) -> bool
    ensures { result ≡ decides operator left.now }
{
    match (operator, left) {
        (Operator::And, Value::Bool(truth)) => !*truth,
        (Operator::Or, Value::Bool(truth)) => *truth,
        _ => false,
    }
}

/// An operator on a value and the outcome of its right operand.
pub(crate) fn on_right(operator: Operator, left: &Value, right: Outcome) -> Outcome
    ensures { result ≡ on_right operator left.now right }
{
    match right {
        Outcome::Value(value) => applied(apply(operator, left, &value)),
        other => other,
    }
}

/// The result of an operator, as an outcome.
fn applied(answer: Applied) -> Outcome
    ensures { result ≡ applied answer }
{
    match answer {
        Applied::Gives(value) => Outcome::Value(value),
        Applied::Raises(number) => Outcome::Raises(number),
        Applied::OutOfRange => Outcome::OutOfRange,
        Applied::Unfit => Outcome::NotKnown,
    }
}

/// NOT of an outcome.
pub(crate) fn opposite(operand: Outcome) -> Outcome
    ensures { result ≡ opposite operand }
{
    match operand {
        Outcome::Value(Value::Bool(truth)) => Outcome::Value(Value::Bool(!truth)),
        Outcome::Value(_) => Outcome::NotKnown,
        other => other,
    }
}

/// A leading sign on an outcome.
pub(crate) fn with_sign(minus: bool, operand: Outcome) -> Outcome
    ensures { result ≡ with_sign minus operand }
{
    match operand {
        Outcome::Value(value) => signed(minus, &value),
        other => other,
    }
}

/// A leading sign on a value, which must be a num.
fn signed(minus: bool, operand: &Value) -> Outcome
    ensures { result ≡ with_sign minus (outcomes.Value operand.now) }
{
    let Value::Num(number) = operand else {
        return Outcome::NotKnown;
    };
    let number = if minus { number.negated() } else { *number };
    Outcome::Value(Value::Num(number))
}
