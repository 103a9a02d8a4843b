//! Operators on nums (RAPID Overview, expressions; RAPID Kernel, operators).
ghost use Rattle.std.specs.Prelude.{◌≡◌, int_lt};
ghost use Rattle.rapid_num.specs.Arithmetic.{quotient_of, remainder_of, whole_quotient_of};
ghost use Rattle.rapid_values.specs.Operators.{num_or_fault, of_nums, unless_zero};

use crate::applied::Applied;
use rapid_model::{ERR_DIVZERO, Operator, Value};
use rapid_num::Num;

/// The result of an operator other than `=` and `<>` on two nums.
pub(crate) fn of_nums(operator: Operator, left: Num, right: Num) -> Applied
    ensures { result ≡ of_nums operator left right }
{
    match operator {
        Operator::Add => Applied::num_or_fault(left.add(right)),
        Operator::Sub => Applied::num_or_fault(left.sub(right)),
        Operator::Mul => Applied::num_or_fault(left.mul(right)),
        Operator::Div => quotient(left, right),
        Operator::IntDiv => whole_quotient(left, right),
        Operator::Mod => remainder(left, right),
        Operator::Less => Applied::truth(is_less(left, right)),
        Operator::Greater => Applied::truth(is_less(right, left)),
        Operator::LessEqual => Applied::truth(!is_less(right, left)),
        Operator::GreaterEqual => Applied::truth(!is_less(left, right)),
        _ => Applied::Unfit,
    }
}

fn is_less(left: Num, right: Num) -> bool
    ensures { result ≡ int_lt left right }
{
    left.thousandths() < right.thousandths()
}

/// The quotient, unless the divisor is zero.
fn quotient(left: Num, right: Num) -> Applied
    ensures { result ≡ unless_zero right (num_or_fault (quotient_of left right)) }
{
    if right.thousandths() == 0 {
        return Applied::Raises(ERR_DIVZERO);
    }
    Applied::num_or_fault(left.div(right))
}

/// The integer quotient, DIV, unless the divisor is zero.
fn whole_quotient(left: Num, right: Num) -> Applied
    ensures { result ≡ unless_zero right (num_or_fault (whole_quotient_of left right)) }
{
    if right.thousandths() == 0 {
        return Applied::Raises(ERR_DIVZERO);
    }
    Applied::num_or_fault(left.int_div(right))
}

/// The remainder, MOD, unless the divisor is zero.
fn remainder(left: Num, right: Num) -> Applied
    ensures { result ≡ unless_zero right (Applied.Gives (Value.Num (remainder_of left right))) }
{
    if right.thousandths() == 0 {
        return Applied::Raises(ERR_DIVZERO);
    }
    Applied::Gives(Value::Num(left.modulo(right)))
}
