//! Which type the place of an expression requires.

ghost use Rattle.std.specs.Prelude.{◌≡◌, length};
ghost use Rattle.rapid_model.specs.Sorts.{is_compared};
ghost use Rattle.rapid_values.specs.Components.{components};
ghost use Rattle.named_data.specs.Wants;

use crate::wanted::Wanted;
use data_scopes::same_sort;
use rapid_model::{Operator, Sort};
use rule_checks::TypeRule;

/// Whether values of the type are compared by `=` and `<>` (RAPID Overview, expressions).
fn is_compared(sort: Sort) -> bool
    ensures { result ≡ is_compared sort }
{
    matches!(
        sort,
        Sort::Num
            | Sort::Bool
            | Sort::Text
            | Sort::RobJoint
            | Sort::ExtJoint
            | Sort::JointTarget
            | Sort::SpeedData
    )
}

/// Whether an operator takes operands of the type, both of the same type (RAPID Overview, expressions).
pub fn suits(operator: Operator, sort: Sort) -> bool
    ensures { result ≡ Wants.suits operator sort }
{
    match operator {
        Operator::Equal | Operator::NotEqual => is_compared(sort),
        Operator::And | Operator::Or | Operator::Xor => same_sort(sort, Sort::Bool),
        Operator::Add => matches!(sort, Sort::Num | Sort::Text),
        _ => same_sort(sort, Sort::Num),
    }
}

/// The type of an operator's result on operands of this type.
pub fn comes_to(operator: Operator, sort: Sort) -> Sort
    ensures { result ≡ Wants.comes_to operator sort }
{
    match operator {
        Operator::Add => sort,
        Operator::Sub | Operator::Mul | Operator::Div | Operator::IntDiv | Operator::Mod =>
            Sort::Num,
        _ => Sort::Bool,
    }
}

/// Whether a type meets the requirement.
pub fn fits(want: Wanted, sort: Sort) -> bool
    ensures { result ≡ Wants.fits want sort }
{
    match want {
        Wanted::Any | Wanted::Brackets(_) => true,
        Wanted::Is(wanted) | Wanted::Same(wanted) => same_sort(sort, wanted),
        Wanted::Fits(operator) => suits(operator, sort),
        Wanted::Nothing | Wanted::Reference | Wanted::ReferenceTo(_) | Wanted::Meeting => false,
    }
}

/// The rule that a value of a wrong type breaks.
pub fn clash(want: Wanted) -> TypeRule
    ensures { result ≡ Wants.clash want }
{
    match want {
        Wanted::Reference | Wanted::ReferenceTo(_) => TypeRule::BadRef,
        Wanted::Meeting => TypeRule::SyncName,
        _ => TypeRule::TypeClash,
    }
}

/// The rule that brackets break if their type is not known.
pub fn untyped(want: Wanted) -> TypeRule
    ensures { result ≡ Wants.untyped want }
{
    match want {
        Wanted::Meeting => TypeRule::SyncName,
        _ => TypeRule::TypeClash,
    }
}

/// What is required inside parentheses.
pub fn inside(want: Wanted) -> Wanted
    ensures { result ≡ Wants.inside want }
{
    match want {
        Wanted::Reference | Wanted::Meeting => Wanted::Any,
        Wanted::ReferenceTo(sort) => Wanted::Brackets(sort),
        other => other,
    }
}

/// Whether parentheses are allowed there, if what is inside them is.
pub fn hands_on(want: Wanted) -> bool
    ensures { result ≡ Wants.hands_on want }
{
    !matches!(
        want,
        Wanted::Reference | Wanted::ReferenceTo(_) | Wanted::Meeting
    )
}
