//! Emits statements and lists, with the rows of their owners, if their sizes are next. Each statement begins with its
//! Look and an empty stack. Each fails only if an allocation fails or there are 2^32 operations or more; what it
//! appended is then of no use.

ghost use Rattle.std.specs.Prelude.{◌≡◌, ◌+◌, ℕ, [], ◌∷◌, map, IfOk, OnOk};
ghost use Rattle.stack_code.specs.Sizes.{values_size};
ghost use Rattle.typed_trees.specs.Plain.{exprs_of, stmts_of};
ghost use Rattle.typed_trees.specs.Views.{view_expr, view_list, view_stmt};
ghost use Rattle.code_expr.specs.Adds.{end_of};
ghost use Rattle.code_expr.specs.Contexts.{routine_of, tree_of};
ghost use Rattle.code_stmt.specs.Lays.{LaysArms, LaysCases, LaysElse, LaysList, LaysStmt};
ghost use Rattle.code_stmt.specs.Parts.{arms_in, cases_in, else_in};
ghost use Rattle.code_stmt.specs.Sizing.{Taking, arms_sizes, cases_sizes, else_sizes, stmt_sizes, stmts_sizes};
ghost use Rattle.code_stmt.specs.Views.{view_own};

use crate::own::Own;
use crate::owned::{add_bounds, add_op, add_simple, add_value, add_values_of, own_of};
use crate::sizes::SizesLeft;
use crate::values::values_size;
use crate::written::Written;
use code_expr::{Context, sum};
use stack_code::Op;
use std::alloc::AllocError;
use typed_trees::{Expr, Form, Stmt};

/// Emits a statement, which owns its operations except those of the lists in it (RAPID Kernel, statements).
#[cycle(statements)]
pub(crate) fn add_stmt(
    context: &Context<'_>,
    labels: &[u32],
    stmt: &Stmt,
    sizes: &mut SizesLeft,
    out: &mut Written,
) -> Result<(), AllocError>
    ensures { OnOk result (Taking sizes.old sizes.new (stmt_sizes (tree_of context.now) (routine_of context.now) (view_stmt stmt.now)) (LaysStmt context.now labels.now out.old out.new (view_stmt stmt.now))) }
{
    let own = own_of(context, stmt, out.code.end()?, sizes)?;
    match &stmt.form {
        Form::Label(_) => Ok(()),
        Form::If { .. } => {
            add_op(Op::Look, &own, out)?;
            add_arms(context, labels, stmt, &own, sizes, out)?;
            add_else(context, labels, stmt, sizes, out)
        }
        Form::IfOne { test, then } => {
            add_op(Op::Look, &own, out)?;
            add_value(context, test, &own, out)?;
            add_op(Op::JumpFalse(own.next), &own, out)?;
            add_stmt(context, labels, then, sizes, out)
        }
        Form::For {
            local,
            bounds,
            list,
        } => {
            let variable = context.local_start(*local);
            let turn = add_bounds(context, labels, *local, bounds, &own, out)?;
            add_op(Op::Turn(variable, own.next), &own, out)?;
            add_op(Op::Look, &own, out)?;
            add_list(context, labels, list, sizes, out)?;
            add_op(Op::Step(variable, turn), &own, out)
        }
        Form::While { test, list } => {
            add_op(Op::Look, &own, out)?;
            add_value(context, test, &own, out)?;
            add_op(Op::JumpFalse(own.next), &own, out)?;
            add_list(context, labels, list, sizes, out)?;
            add_op(Op::Jump(own.retry), &own, out)
        }
        Form::Test { value, .. } => {
            add_op(Op::Look, &own, out)?;
            add_value(context, value, &own, out)?;
            add_cases(context, labels, stmt, &own, sizes, out)?;
            add_op(Op::Drop, &own, out)?;
            add_else(context, labels, stmt, sizes, out)
        }
        _ => add_simple(context, labels, stmt, &own, out),
    }
}

/// Emits the statements of a list, in order.
#[cycle(statements)]
pub(crate) fn add_list(
    context: &Context<'_>,
    labels: &[u32],
    list: &Vec<Stmt>,
    sizes: &mut SizesLeft,
    out: &mut Written,
) -> Result<(), AllocError>
    ensures { OnOk result (Taking sizes.old sizes.new (stmts_sizes (tree_of context.now) (routine_of context.now) (stmts_of (view_list list.now))) (LaysList context.now labels.now out.old out.new (stmts_of (view_list list.now)))) }
{
    for stmt in list {
        add_stmt(context, labels, stmt, sizes, out)?;
    }
    Ok(())
}

/// Emits IF and ELSEIF of a statement, with their lists: a condition that is FALSE jumps to the next, and the end of a
/// list jumps past the statement (RAPID Kernel, IF).
#[cycle(statements)]
fn add_arms(
    context: &Context<'_>,
    labels: &[u32],
    stmt: &Stmt,
    own: &Own,
    sizes: &mut SizesLeft,
    out: &mut Written,
) -> Result<(), AllocError>
    ensures { OnOk result (Taking sizes.old sizes.new (arms_sizes (tree_of context.now) (routine_of context.now) (arms_in (view_stmt stmt.now))) (LaysArms context.now labels.now (view_own own.now) out.old out.new (arms_in (view_stmt stmt.now)))) }
{
    let Form::If { arms, .. } = &stmt.form else {
        return Ok(());
    };
    for (test, list) in arms {
        add_value(context, test, own, out)?;
        add_op(Op::JumpFalse(behind_list(2, sizes, out)?), own, out)?;
        add_list(context, labels, list, sizes, out)?;
        add_op(Op::Jump(own.next), own, out)?;
    }
    Ok(())
}

/// Emits the CASEs of a statement, with their lists. The value tested stays on the stack until a list begins (RAPID
/// Kernel, TEST).
#[cycle(statements)]
fn add_cases(
    context: &Context<'_>,
    labels: &[u32],
    stmt: &Stmt,
    own: &Own,
    sizes: &mut SizesLeft,
    out: &mut Written,
) -> Result<(), AllocError>
    ensures { OnOk result (Taking sizes.old sizes.new (cases_sizes (tree_of context.now) (routine_of context.now) (cases_in (view_stmt stmt.now))) (LaysCases context.now labels.now (view_own own.now) out.old out.new (cases_in (view_stmt stmt.now)))) }
{
    let Form::Test { cases, .. } = &stmt.form else {
        return Ok(());
    };
    for (values, list) in cases {
        add_values_of(context, values, case_list(values, out)?, own, out)?;
        add_op(Op::Jump(behind_list(3, sizes, out)?), own, out)?;
        add_op(Op::Drop, own, out)?;
        add_list(context, labels, list, sizes, out)?;
        add_op(Op::Jump(own.next), own, out)?;
    }
    Ok(())
}

/// The place after a list, whose size is next, and `others` more operations.
fn behind_list(others: u32, sizes: &mut SizesLeft, out: &Written) -> Result<u32, AllocError>
    ensures { IfOk result (λ place. (size : ℕ) → Taking sizes.old sizes.new (size ∷ []) (place ≡ end_of out.now.code + (size + others))) }
{
    out.code.behind(sum(sizes.next(), others)?)
}

/// The place at which the list of a CASE drops the value tested: after its values and a jump.
fn case_list(values: &Vec<Expr>, out: &Written) -> Result<u32, AllocError>
    ensures { IfOk result (λ place. place ≡ end_of out.now.code + (values_size (exprs_of (map view_expr values.now.items)) + 1)) }
{
    out.code.behind(sum(values_size(values)?, 1)?)
}

/// Emits the list of ELSE or DEFAULT of a statement, if there is one.
#[cycle(statements)]
fn add_else(
    context: &Context<'_>,
    labels: &[u32],
    stmt: &Stmt,
    sizes: &mut SizesLeft,
    out: &mut Written,
) -> Result<(), AllocError>
    ensures { OnOk result (Taking sizes.old sizes.new (else_sizes (tree_of context.now) (routine_of context.now) (else_in (view_stmt stmt.now))) (LaysElse context.now labels.now out.old out.new (else_in (view_stmt stmt.now)))) }
{
    match &stmt.form {
        Form::If { other, .. } => match other {
            Some(list) => add_list(context, labels, list, sizes, out),
            None => Ok(()),
        },
        Form::Test { other, .. } => match other {
            Some(list) => add_list(context, labels, list, sizes, out),
            None => Ok(()),
        },
        _ => Ok(()),
    }
}
