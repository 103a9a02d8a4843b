//! Operators on strings (RAPID Overview, expressions).
ghost use Rattle.std.specs.Prelude.{◌≡◌};
ghost use Rattle.rapid_values.specs.Operators.{joined, of_texts};

use crate::applied::Applied;
use rapid_limits::LONGEST_STRING;
use rapid_model::{ERR_STRTOOLNG, Operator, Text, Value};

/// The result of an operator other than `=` and `<>` on two strings.
pub(crate) fn of_texts(operator: Operator, left: &Text, right: &Text) -> Applied
    ensures { result ≡ of_texts operator left.now right.now }
{
    match operator {
        Operator::Add => joined(left, right),
        _ => Applied::Unfit,
    }
}

/// Two strings concatenated: at most 80 characters, else an error.
fn joined(left: &Text, right: &Text) -> Applied
    ensures { result ≡ joined left.now right.now }
{
    let bytes = right.bytes();
    if left.bytes().len() + bytes.len() > LONGEST_STRING {
        return Applied::Raises(ERR_STRTOOLNG);
    }
    let mut text = left.copy();
    for byte in bytes {
        text.push(*byte);
    }
    Applied::Gives(Value::Text(text))
}
