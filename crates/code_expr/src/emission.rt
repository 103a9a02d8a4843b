//! Emits expressions, places and arguments at the end of a block. Each fails only if an allocation fails or there are
//! 2^32 operations or more; the block is then of no use.

ghost use Rattle.std.specs.Prelude.{OnOk, map};
ghost use Rattle.stack_code.specs.Placed.{Own};
ghost use Rattle.typed_trees.specs.Plain.{MoreArgs, MoreSteps, NoArgs, NoSteps, args_of, exprs_of, steps_of};
ghost use Rattle.typed_trees.specs.Views.{view_arg, view_expr, view_place, view_step};
ghost use Rattle.code_expr.specs.Adds.{AddsArgs, AddsBuiltin, AddsExpr, AddsExprs, AddsPlace, AddsSteps};

use crate::block::Block;
use crate::builtin_form::{BuiltinForm, form_of};
use crate::context::Context;
use crate::leaves::{add_part, add_sign, add_signal, add_skip, push};
use crate::numbers::sum;
use crate::sizes::expr_size;
use rapid_model::{Function, Operator};
use stack_code::{Op, Pushed, UnaryOp};
use std::alloc::AllocError;
use typed_trees::{Arg, Expr, ExprForm, TreePlace};

/// Emits an expression, which pushes its value (RAPID Kernel, expressions).
#[cycle(emission)]
pub fn add_expr(context: &Context<'_>, expr: &Expr, code: &mut Block) -> Result<(), AllocError>
    ensures { OnOk result ((own : Own) → AddsExpr own context.now code.old code.new (view_expr expr.now)) }
{
    match &expr.form {
        ExprForm::Number(number) => code.put(Op::Push(Pushed::number(*number))),
        ExprForm::Const(value) => code.put(Op::Push(Pushed::value(context.alloc(), value.copy())?)),
        ExprForm::Errno => code.put(Op::Errno),
        ExprForm::Signal(signal) => code.put(Op::GetSignal(*signal)),
        ExprForm::Place(place) => {
            add_place(context, place, code)?;
            code.put(Op::Load)
        }
        ExprForm::Group(inner) => add_expr(context, inner, code),
        ExprForm::Aggregate(values) => {
            add_exprs(context, values, code)?;
            code.put(Op::Pack(expr.sort))
        }
        ExprForm::Builtin { function, args } => add_builtin(context, *function, args, code),
        ExprForm::Call { routine, args } => {
            add_args(context, args, code)?;
            code.put(Op::Call(*routine))
        }
        ExprForm::Not(operand) => {
            add_expr(context, operand, code)?;
            code.put(Op::Unary(UnaryOp::Not))
        }
        ExprForm::Signed { minus, operand } => {
            add_expr(context, operand, code)?;
            add_sign(*minus, code)
        }
        ExprForm::Chain { first, rest } => {
            add_expr(context, first, code)?;
            add_steps(context, rest, code)
        }
    }
}

/// Emits the expressions of a list, in order.
#[cycle(emission)]
fn add_exprs(context: &Context<'_>, exprs: &Vec<Expr>, code: &mut Block) -> Result<(), AllocError>
    ensures { OnOk result ((own : Own) → AddsExprs own context.now code.old code.new (exprs_of (map view_expr exprs.now.items))) }
{
    for expr in exprs {
        add_expr(context, expr, code)?;
    }
    Ok(())
}

/// Emits operators and their right operands, in order.
#[cycle(emission)]
fn add_steps(
    context: &Context<'_>,
    steps: &Vec<(Operator, Expr)>,
    code: &mut Block,
) -> Result<(), AllocError>
    ensures { OnOk result ((own : Own) → AddsSteps own context.now code.old code.new (steps_of (map view_step steps.now.items))) }
{
    for (operator, operand) in steps {
        add_step(context, *operator, operand, code)?;
    }
    Ok(())
}

/// Emits an operator and its right operand, which AND and OR skip if the left one decides.
#[cycle(emission)]
fn add_step(
    context: &Context<'_>,
    operator: Operator,
    operand: &Expr,
    code: &mut Block,
) -> Result<(), AllocError>
    ensures { OnOk result ((own : Own) → AddsSteps own context.now code.old code.new (MoreSteps operator (view_expr operand.now) NoSteps)) }
{
    match operator {
        Operator::And => {
            let past = code.behind(sum(3, expr_size(operand)?)?)?;
            add_skip(Op::JumpFalse(past), code)?;
            add_expr(context, operand, code)
        }
        Operator::Or => {
            let past = code.behind(sum(3, expr_size(operand)?)?)?;
            add_skip(Op::JumpTrue(past), code)?;
            add_expr(context, operand, code)
        }
        _ => {
            add_expr(context, operand, code)?;
            code.put(Op::Binary(operator))
        }
    }
}

/// Emits a place: its root, then the index of an element, then the part.
#[cycle(emission)]
pub fn add_place(
    context: &Context<'_>,
    place: &TreePlace,
    code: &mut Block,
) -> Result<(), AllocError>
    ensures { OnOk result ((own : Own) → AddsPlace own context.now code.old code.new (view_place place.now)) }
{
    code.put(context.root_op(place.root))?;
    match &place.index {
        None => add_part(place.part, code),
        Some(index) => {
            add_expr(context, index, code)?;
            code.put(context.index_op(place.root))?;
            add_part(place.part, code)
        }
    }
}

/// Emits the arguments of a call, in order: values and places are pushed.
#[cycle(emission)]
pub fn add_args(context: &Context<'_>, args: &Vec<Arg>, code: &mut Block) -> Result<(), AllocError>
    ensures { OnOk result ((own : Own) → AddsArgs own context.now code.old code.new (args_of (map view_arg args.now.items))) }
{
    for arg in args {
        add_arg(context, arg, code)?;
    }
    Ok(())
}

/// Emits an argument.
#[cycle(emission)]
fn add_arg(context: &Context<'_>, arg: &Arg, code: &mut Block) -> Result<(), AllocError>
    ensures { OnOk result ((own : Own) → AddsArgs own context.now code.old code.new (MoreArgs (view_arg arg.now) NoArgs)) }
{
    match arg {
        Arg::Value(value) => add_expr(context, value, code),
        Arg::Place(place) => add_place(context, place, code),
        _ => Ok(()),
    }
}

/// Emits the call of a predefined function. Of a lent array only the length is pushed.
#[cycle(emission)]
fn add_builtin(
    context: &Context<'_>,
    function: Function,
    args: &Vec<Arg>,
    code: &mut Block,
) -> Result<(), AllocError>
    ensures { OnOk result ((own : Own) → AddsBuiltin own context.now code.old code.new function (args_of (map view_arg args.now.items))) }
{
    match form_of(args) {
        BuiltinForm::Nothing => code.put(Op::Here),
        BuiltinForm::Values => {
            add_args(context, args, code)?;
            code.put(Op::Func(function))
        }
        BuiltinForm::Signal(signal) => add_signal(function, signal, code),
        BuiltinForm::Place => {
            add_args(context, args, code)?;
            code.put(Op::TestSet)
        }
        BuiltinForm::Array(root) => code.put(push(context.length_at(root))),
        BuiltinForm::Other => Ok(()),
    }
}
