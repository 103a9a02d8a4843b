//! The most operands on a frame's stack while a form runs. Each fails only if the number is 2^32 or more.

ghost use Rattle.std.specs.Prelude.{◌≡◌, ◌+◌, IfOk, map, max};
ghost use Rattle.typed_trees.specs.Plain.{MoreArgs, TypedArgs, args_of, exprs_of, steps_of};
ghost use Rattle.typed_trees.specs.Views.{view_arg, view_expr, view_place, view_step};
ghost use Rattle.stack_code.specs.Needs;

use crate::builtin_form::{BuiltinForm, form_of};
use crate::numbers::sum;
use rapid_model::{Function, Operator};
use std::alloc::AllocError;
use typed_trees::{Arg, Expr, ExprForm, TreePlace};

/// The operands that an expression needs, its value included.
#[cycle(needs)]
pub fn expr_need(expr: &Expr) -> Result<u32, AllocError>
    ensures { IfOk result (λ need. need ≡ Needs.expr_need (view_expr expr.now)) }
{
    match &expr.form {
        ExprForm::Number(_) | ExprForm::Const(_) | ExprForm::Errno | ExprForm::Signal(_) => Ok(1),
        ExprForm::Place(place) => place_need(place),
        ExprForm::Group(inner) => expr_need(inner),
        ExprForm::Aggregate(values) => Ok(more(1, exprs_need(values)?)),
        ExprForm::Builtin { function, args } => builtin_need(*function, args),
        ExprForm::Call { args, .. } => Ok(more(1, args_need(args)?)),
        ExprForm::Not(operand) => expr_need(operand),
        ExprForm::Signed { operand, .. } => expr_need(operand),
        ExprForm::Chain { first, rest } => Ok(more(expr_need(first)?, steps_need(rest)?)),
    }
}

/// The operands that the expressions of a list need; their values stay on the stack.
#[cycle(needs)]
fn exprs_need(exprs: &Vec<Expr>) -> Result<u32, AllocError>
    ensures { IfOk result (λ need. need ≡ Needs.exprs_need (exprs_of (map view_expr exprs.now.items))) }
{
    let mut most = 0;
    let mut depth = 0;
    for expr in exprs {
        most = more(most, sum(depth, expr_need(expr)?)?);
        depth = sum(depth, 1)?;
    }
    Ok(more(most, depth))
}

/// The operands that operators need with their right operands, the left one included.
#[cycle(needs)]
fn steps_need(steps: &Vec<(Operator, Expr)>) -> Result<u32, AllocError>
    ensures { IfOk result (λ need. need ≡ Needs.steps_need (steps_of (map view_step steps.now.items))) }
{
    let mut most = 0;
    for (operator, operand) in steps {
        most = more(most, operand_need(*operator, expr_need(operand)?)?);
    }
    Ok(more(most, 1))
}

/// The operands that a place needs, itself included.
#[cycle(needs)]
pub fn place_need(place: &TreePlace) -> Result<u32, AllocError>
    ensures { IfOk result (λ need. need ≡ Needs.place_need (view_place place.now)) }
{
    match &place.index {
        None => Ok(1),
        Some(index) => sum(1, expr_need(index)?),
    }
}

/// The operands that the arguments of a call need; they stay on the stack.
#[cycle(needs)]
pub fn args_need(args: &Vec<Arg>) -> Result<u32, AllocError>
    ensures { IfOk result (λ need. need ≡ Needs.args_need (args_of (map view_arg args.now.items))) }
{
    let mut most = 0;
    let mut depth = 0;
    for arg in args {
        let (need, left) = arg_need(arg)?;
        most = more(most, sum(depth, need)?);
        depth = sum(depth, left)?;
    }
    Ok(more(most, depth))
}

/// The operands that an argument needs, and how many of them stay on the stack.
#[cycle(needs)]
fn arg_need(arg: &Arg) -> Result<(u32, u32), AllocError>
    ensures { IfOk result (λ need. (rest : TypedArgs) → Needs.args_need (MoreArgs (view_arg arg.now) rest) ≡ max need.0 (need.1 + Needs.args_need rest)) }
{
    match arg {
        Arg::Value(value) => Ok((expr_need(value)?, 1)),
        Arg::Place(place) => Ok((place_need(place)?, 1)),
        _ => Ok((0, 0)),
    }
}

/// The operands that the call of a predefined function needs, its value included.
#[cycle(needs)]
fn builtin_need(function: Function, args: &Vec<Arg>) -> Result<u32, AllocError>
    ensures { IfOk result (λ need. need ≡ Needs.builtin_need function (args_of (map view_arg args.now.items))) }
{
    match form_of(args) {
        BuiltinForm::Values | BuiltinForm::Place => args_need(args),
        BuiltinForm::Signal(_) => Ok(signal_need(function)),
        BuiltinForm::Nothing | BuiltinForm::Array(_) | BuiltinForm::Other => Ok(1),
    }
}

/// The greater of two numbers of operands.
pub fn more(need: u32, other: u32) -> u32
    ensures { result ≡ max need other }
{
    if need < other { other } else { need }
}

/// The operands that a right operand needs with the left one, of which AND and OR drop a copy first.
fn operand_need(operator: Operator, need: u32) -> Result<u32, AllocError>
    ensures { IfOk result (λ most. most ≡ Needs.operand_need operator need) }
{
    match operator {
        Operator::And | Operator::Or => Ok(more(2, need)),
        _ => sum(1, need),
    }
}

/// The operands that a predefined function of a signal needs.
fn signal_need(function: Function) -> u32
    ensures { result ≡ Needs.signal_need function }
{
    match function {
        Function::TestDI => 2,
        _ => 1,
    }
}
