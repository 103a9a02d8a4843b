//! The number of operations of expressions. Each fails only if it is 2^32 or more.

ghost use Rattle.std.specs.Prelude.{◌≡◌, ◌≤◌, IfOk, map};
ghost use Rattle.typed_trees.specs.Plain.{MoreArgs, NoArgs, args_of, exprs_of, steps_of};
ghost use Rattle.typed_trees.specs.Views.{view_arg, view_expr, view_place, view_step};
ghost use Rattle.stack_code.specs.Sizes;

use crate::builtin_form::{BuiltinForm, form_of};
use crate::numbers::sum;
use rapid_model::{Function, Operator, PartName};
use std::alloc::AllocError;
use typed_trees::{Arg, Expr, ExprForm, TreePlace};

/// The number of operations of an expression.
#[cycle(sizes)]
pub fn expr_size(expr: &Expr) -> Result<u32, AllocError>
    ensures { IfOk result (λ size. size ≡ Sizes.expr_size (view_expr expr.now)) }
{
    match &expr.form {
        ExprForm::Number(_) | ExprForm::Const(_) | ExprForm::Errno | ExprForm::Signal(_) => Ok(1),
        ExprForm::Place(place) => sum(place_size(place)?, 1),
        ExprForm::Group(inner) => expr_size(inner),
        ExprForm::Aggregate(values) => sum(exprs_size(values)?, 1),
        ExprForm::Builtin { function, args } => builtin_size(*function, args),
        ExprForm::Call { args, .. } => sum(args_size(args)?, 1),
        ExprForm::Not(operand) => sum(expr_size(operand)?, 1),
        ExprForm::Signed { minus, operand } => sum(expr_size(operand)?, sign_size(*minus)),
        ExprForm::Chain { first, rest } => sum(expr_size(first)?, steps_size(rest)?),
    }
}

/// The number of operations of the expressions of a list.
#[cycle(sizes)]
fn exprs_size(exprs: &Vec<Expr>) -> Result<u32, AllocError>
    ensures { IfOk result (λ size. size ≡ Sizes.exprs_size (exprs_of (map view_expr exprs.now.items))) }
{
    let mut size = 0;
    for expr in exprs {
        size = sum(size, expr_size(expr)?)?;
    }
    Ok(size)
}

/// The number of operations of operators with their right operands.
#[cycle(sizes)]
fn steps_size(steps: &Vec<(Operator, Expr)>) -> Result<u32, AllocError>
    ensures { IfOk result (λ size. size ≡ Sizes.steps_size (steps_of (map view_step steps.now.items))) }
{
    let mut size = 0;
    for (operator, operand) in steps {
        size = sum(size, sum(operator_size(*operator), expr_size(operand)?)?)?;
    }
    Ok(size)
}

/// The number of operations of a place.
#[cycle(sizes)]
pub fn place_size(place: &TreePlace) -> Result<u32, AllocError>
    ensures { IfOk result (λ size. size ≡ Sizes.place_size (view_place place.now)) }
{
    match &place.index {
        None => Ok(1 + part_size(place.part)),
        Some(index) => sum(expr_size(index)?, 2 + part_size(place.part)),
    }
}

/// The number of operations of the arguments of a call.
#[cycle(sizes)]
pub fn args_size(args: &Vec<Arg>) -> Result<u32, AllocError>
    ensures { IfOk result (λ size. size ≡ Sizes.args_size (args_of (map view_arg args.now.items))) }
{
    let mut size = 0;
    for arg in args {
        size = sum(size, arg_size(arg)?)?;
    }
    Ok(size)
}

/// The number of operations of an argument.
#[cycle(sizes)]
fn arg_size(arg: &Arg) -> Result<u32, AllocError>
    ensures { IfOk result (λ size. size ≡ Sizes.args_size (MoreArgs (view_arg arg.now) NoArgs)) }
{
    match arg {
        Arg::Value(value) => expr_size(value),
        Arg::Place(place) => place_size(place),
        _ => Ok(0),
    }
}

/// The number of operations of the call of a predefined function.
#[cycle(sizes)]
fn builtin_size(function: Function, args: &Vec<Arg>) -> Result<u32, AllocError>
    ensures { IfOk result (λ size. size ≡ Sizes.builtin_size function (args_of (map view_arg args.now.items))) }
{
    match form_of(args) {
        BuiltinForm::Nothing | BuiltinForm::Array(_) => Ok(1),
        BuiltinForm::Values | BuiltinForm::Place => sum(args_size(args)?, 1),
        BuiltinForm::Signal(_) => Ok(signal_size(function)),
        BuiltinForm::Other => Ok(0),
    }
}

/// The number of operations that narrow a place to a part: none for the whole.
fn part_size(part: PartName) -> u32
    ensures value { result ≡ Sizes.part_size part }
    ensures small { result ≤ 1 }
{
    match part {
        PartName::Whole => 0,
        _ => 1,
    }
}

/// The number of operations of an operator, its right operand apart.
pub(crate) fn operator_size(operator: Operator) -> u32
    ensures { result ≡ Sizes.operator_size operator }
{
    match operator {
        Operator::And | Operator::Or => 3,
        _ => 1,
    }
}

/// The number of operations of a leading sign.
fn sign_size(minus: bool) -> u32
    ensures { result ≡ Sizes.sign_size minus }
{
    if minus { 1 } else { 0 }
}

/// The number of operations of a predefined function of a signal.
fn signal_size(function: Function) -> u32
    ensures { result ≡ Sizes.signal_size function }
{
    match function {
        Function::TestDI => 3,
        _ => 1,
    }
}
