//! Operators on values (RAPID Overview, expressions; RAPID Kernel, operators).
ghost use Rattle.std.specs.Prelude.{◌≡◌, if◌then◌else◌};
ghost use Rattle.rapid_model.specs.Truths.{same_truth};
ghost use Rattle.rapid_values.specs.Equality.{are_alike, same};
ghost use Rattle.rapid_values.specs.Operators.{apply, of_form, of_truths};

use crate::applied::Applied;
use crate::equality::{are_alike, same_value};
use crate::num_operators::of_nums;
use crate::text_operators::of_texts;
use rapid_model::{Operator, Value};

/// The result of an operator on its left and right operands, both already evaluated, also for AND and OR (RAPID
/// Overview, expressions; RAPID Kernel, operators). `=` and `<>` compare any two values of the same form. Arithmetic
/// and orderings take nums; AND, OR and XOR take bools; `+` also concatenates strings.
pub fn apply(operator: Operator, left: &Value, right: &Value) -> Applied
    ensures { result ≡ apply operator left.now right.now }
{
    match operator {
        Operator::Equal => compared(true, left, right),
        Operator::NotEqual => compared(false, left, right),
        _ => of_form(operator, left, right),
    }
}

/// Whether two values of the same form are equal, or, with `equal` false, whether they differ.
fn compared(equal: bool, left: &Value, right: &Value) -> Applied
    ensures { result ≡ (if are_alike left.now right.now then Applied.Gives (Value.Bool (same_truth equal (same left.now right.now))) else Applied.Unfit) }
{
    if !are_alike(left, right) {
        return Applied::Unfit;
    }
    Applied::truth(same_value(left, right) == equal)
}

/// The operators other than `=` and `<>`.
fn of_form(operator: Operator, left: &Value, right: &Value) -> Applied
    ensures { result ≡ of_form operator left.now right.now }
{
    match (left, right) {
        (Value::Num(left), Value::Num(right)) => of_nums(operator, *left, *right),
        (Value::Bool(left), Value::Bool(right)) => of_truths(operator, *left, *right),
        (Value::Text(left), Value::Text(right)) => of_texts(operator, left, right),
        _ => Applied::Unfit,
    }
}

fn of_truths(operator: Operator, left: bool, right: bool) -> Applied
    ensures { result ≡ of_truths operator left right }
{
    match operator {
        Operator::And => Applied::truth(left && right),
        Operator::Or => Applied::truth(left || right),
        Operator::Xor => Applied::truth(left != right),
        _ => Applied::Unfit,
    }
}
