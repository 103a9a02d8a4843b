//! Evaluation of expressions that are known before the run (RAPID Kernel, constant expressions).

ghost use Rattle.std.specs.Prelude.{◌≡◌, ℕ, map};
ghost use Rattle.rapid_model.specs.declared.sort.Sort.{Sort};
ghost use Rattle.typed_trees.specs.Plain.{Stored, exprs_of, steps_of};
ghost use Rattle.typed_trees.specs.Views.{view_expr, view_place, view_step};
ghost use Rattle.constant_meaning.specs.Constants.{along, are_constant, are_constant_steps, between, constant_value, constant_values, elements_of, is_constant, made};

use crate::arrays::Arrays;
use crate::components::{blanks, keep};
use crate::elements::{array_of, element_at};
use crate::operands::{decides, on_right, opposite, value_or_not_known, with_sign};
use crate::outcome::Outcome;
use rapid_model::{Operator, Sort, Value};
use rapid_values::record_of;
use typed_trees::{Expr, ExprForm, TreePlace};

/// Evaluates an expression whose value is known before the run (RAPID Kernel, constant expressions): operands from left
/// to right, and the right operand of AND and OR only if the left one does not decide. Brackets are taken as a record;
/// the elements of an array are evaluated one by one.
#[cycle(constants)]
#[tactic(auto, unfolding(crate::specs::Constants::constant_value))]
pub fn constant_value(arrays: &Arrays<'_>, expr: &Expr) -> Outcome
    ensures { result ≡ constant_value (elements_of arrays.now) (view_expr expr.now) }
{
    match &expr.form {
        ExprForm::Number(number) => Outcome::Value(Value::Num(*number)),
        ExprForm::Const(value) => Outcome::Value(value.copy()),
        ExprForm::Place(place) => at_place(arrays, place),
        ExprForm::Group(inner) => constant_value(arrays, inner),
        ExprForm::Aggregate(components) => aggregate(arrays, components, expr.sort),
        ExprForm::Not(operand) => opposite(constant_value(arrays, operand)),
        ExprForm::Signed { minus, operand } => with_sign(*minus, constant_value(arrays, operand)),
        ExprForm::Chain { first, rest } => chain(arrays, rest, constant_value(arrays, first)),
        ExprForm::Errno | ExprForm::Signal(_) | ExprForm::Builtin { .. } | ExprForm::Call { .. } =>
            Outcome::NotKnown,
    }
}

/// The value at a place: a part of an element of a constant array.
#[cycle(constants)]
#[tactic(auto, unfolding(crate::specs::Constants::constant_value))]
fn at_place(arrays: &Arrays<'_>, place: &TreePlace) -> Outcome
    ensures { (at : ℕ) (sort : Sort) → result ≡ constant_value (elements_of arrays.now) (Stored at sort (view_place place.now)) }
{
    let Some(index) = &place.index else {
        return Outcome::NotKnown;
    };
    let Some(elements) = array_of(arrays, place.root) else {
        return Outcome::NotKnown;
    };
    element_at(elements, place.part, constant_value(arrays, index))
}

/// The value of a record type with these components. No type has more than six, so a seventh shows that there are too
/// many, and those after it are only evaluated.
#[cycle(constants)]
fn aggregate(arrays: &Arrays<'_>, components: &Vec<Expr>, sort: Sort) -> Outcome
    ensures { result ≡ made sort (constant_values (elements_of arrays.now) (exprs_of (map view_expr components.now.items))) }
{
    let mut values = blanks();
    let mut count = 0;
    for component in components {
        match constant_value(arrays, component) {
            Outcome::Value(value) => count = keep(&mut values, count, value),
            other => return other,
        }
    }
    value_or_not_known(record_of(sort, &values[..count]))
}

/// The outcome of operators of one level, from left to right, given the outcome on their left.
#[cycle(constants)]
fn chain(arrays: &Arrays<'_>, rest: &Vec<(Operator, Expr)>, first: Outcome) -> Outcome
    ensures { result ≡ along (elements_of arrays.now) first (steps_of (map view_step rest.now.items)) }
{
    let mut left = first;
    for (operator, right) in rest {
        left = between(arrays, right, *operator, left);
    }
    left
}

/// The outcome of an operator and its right operand, given the outcome on their left.
#[cycle(constants)]
fn between(arrays: &Arrays<'_>, right: &Expr, operator: Operator, left: Outcome) -> Outcome
    ensures { result ≡ between operator left (constant_value (elements_of arrays.now) (view_expr right.now)) }
{
    let Outcome::Value(value) = left else {
        return left;
    };
    if decides(operator, &value) {
        return Outcome::Value(value);
    }
    on_right(operator, &value, constant_value(arrays, right))
}

/// Whether everything in an expression is known before the run (RAPID Kernel, constant expressions): no variable,
/// persistent, signal or call anywhere, not even in parts that are skipped.
#[cycle(constants_only)]
#[tactic(auto, unfolding(crate::specs::Constants::is_constant))]
pub fn is_constant(arrays: &Arrays<'_>, expr: &Expr) -> bool
    ensures { result ≡ is_constant (elements_of arrays.now) (view_expr expr.now) }
{
    match &expr.form {
        ExprForm::Number(_) | ExprForm::Const(_) => true,
        ExprForm::Place(place) => is_constant_place(arrays, place),
        ExprForm::Group(inner) => is_constant(arrays, inner),
        ExprForm::Aggregate(components) => are_constant(arrays, components),
        ExprForm::Not(operand) => is_constant(arrays, operand),
        ExprForm::Signed { operand, .. } => is_constant(arrays, operand),
        ExprForm::Chain { first, rest } => {
            is_constant(arrays, first) && are_constant_steps(arrays, rest)
        }
        ExprForm::Errno | ExprForm::Signal(_) | ExprForm::Builtin { .. } | ExprForm::Call { .. } =>
            false,
    }
}

/// Whether a place is an element of a constant array, with a constant index.
#[cycle(constants_only)]
#[tactic(auto, unfolding(crate::specs::Constants::is_constant))]
fn is_constant_place(arrays: &Arrays<'_>, place: &TreePlace) -> bool
    ensures { (at : ℕ) (sort : Sort) → result ≡ is_constant (elements_of arrays.now) (Stored at sort (view_place place.now)) }
{
    let Some(index) = &place.index else {
        return false;
    };
    array_of(arrays, place.root).is_some() && is_constant(arrays, index)
}

/// Whether each expression of a list is constant (RAPID Kernel, constant expressions), as the components of a record
/// and the elements of an array must be in an initial value.
#[cycle(constants_only)]
pub fn are_constant(arrays: &Arrays<'_>, components: &Vec<Expr>) -> bool
    ensures { result ≡ are_constant (elements_of arrays.now) (exprs_of (map view_expr components.now.items)) }
{
    for component in components {
        if !is_constant(arrays, component) {
            return false;
        }
    }
    true
}

/// Whether each operand after the first is constant.
#[cycle(constants_only)]
fn are_constant_steps(arrays: &Arrays<'_>, rest: &Vec<(Operator, Expr)>) -> bool
    ensures { result ≡ are_constant_steps (elements_of arrays.now) (steps_of (map view_step rest.now.items)) }
{
    for (_, right) in rest {
        if !is_constant(arrays, right) {
            return false;
        }
    }
    true
}
