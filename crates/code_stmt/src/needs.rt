//! The most operands on a frame's stack while a statement runs; it begins and ends with none. Each fails only if an
//! allocation fails or the number is 2^32 or more.

ghost use Rattle.std.specs.Prelude.{◌≡◌, IfOk};
ghost use Rattle.stack_code.specs.Needs;
ghost use Rattle.typed_trees.specs.Plain.{stmts_of};
ghost use Rattle.typed_trees.specs.Views.{view_list, view_stmt};
ghost use Rattle.code_expr.specs.Contexts.{routine_of, tree_of};
ghost use Rattle.code_stmt.specs.Parts.{arms_in, cases_in, else_in};

use crate::piece_sizes::pieces_need;
use crate::pieces::{bounds_pieces, pieces_of};
use crate::values::values_need;
use code_expr::{Context, expr_need, more};
use std::alloc::AllocError;
use typed_trees::{Form, Stmt};

/// The operands that a statement needs.
#[cycle(needs)]
fn stmt_need(context: &Context<'_>, stmt: &Stmt) -> Result<u32, AllocError>
    ensures { IfOk result (λ need. need ≡ Needs.stmt_need (tree_of context.now) (routine_of context.now) (view_stmt stmt.now)) }
{
    match &stmt.form {
        Form::Label(_) => Ok(0),
        Form::If { .. } => Ok(more(arms_need(context, stmt)?, else_need(context, stmt)?)),
        Form::IfOne { test, then } => Ok(more(expr_need(test)?, stmt_need(context, then)?)),
        Form::For {
            local,
            bounds,
            list,
        } => {
            let before = pieces_need(&bounds_pieces(context, *local, bounds)?)?;
            Ok(more(before, list_need(context, list)?))
        }
        Form::While { test, list } => Ok(more(expr_need(test)?, list_need(context, list)?)),
        Form::Test { value, .. } => {
            let lists = more(cases_need(context, stmt)?, else_need(context, stmt)?);
            Ok(more(expr_need(value)?, lists))
        }
        _ => pieces_need(&pieces_of(context, stmt)?),
    }
}

/// The operands that the statements of a list need.
#[cycle(needs)]
pub(crate) fn list_need(context: &Context<'_>, list: &Vec<Stmt>) -> Result<u32, AllocError>
    ensures { IfOk result (λ need. need ≡ Needs.stmts_need (tree_of context.now) (routine_of context.now) (stmts_of (view_list list.now))) }
{
    let mut most = 0;
    for stmt in list {
        most = more(most, stmt_need(context, stmt)?);
    }
    Ok(most)
}

/// The operands that IF and ELSEIF of a statement need, with their lists.
#[cycle(needs)]
fn arms_need(context: &Context<'_>, stmt: &Stmt) -> Result<u32, AllocError>
    ensures { IfOk result (λ need. need ≡ Needs.arms_need (tree_of context.now) (routine_of context.now) (arms_in (view_stmt stmt.now))) }
{
    let mut most = 0;
    let Form::If { arms, .. } = &stmt.form else {
        return Ok(most);
    };
    for (test, list) in arms {
        most = more(most, more(expr_need(test)?, list_need(context, list)?));
    }
    Ok(most)
}

/// The operands that the CASEs of a statement need, with their lists and the value tested.
#[cycle(needs)]
fn cases_need(context: &Context<'_>, stmt: &Stmt) -> Result<u32, AllocError>
    ensures { IfOk result (λ need. need ≡ Needs.cases_need (tree_of context.now) (routine_of context.now) (cases_in (view_stmt stmt.now))) }
{
    let Form::Test { cases, .. } = &stmt.form else {
        return Ok(1);
    };
    let mut most = 0;
    for (values, list) in cases {
        most = more(most, more(values_need(values)?, list_need(context, list)?));
    }
    Ok(more(most, 1))
}

/// The operands that the list of ELSE or DEFAULT of a statement needs, if there is one.
#[cycle(needs)]
fn else_need(context: &Context<'_>, stmt: &Stmt) -> Result<u32, AllocError>
    ensures { IfOk result (λ need. need ≡ Needs.else_need (tree_of context.now) (routine_of context.now) (else_in (view_stmt stmt.now))) }
{
    match &stmt.form {
        Form::If { other, .. } => match other {
            Some(list) => list_need(context, list),
            None => Ok(0),
        },
        Form::Test { other, .. } => match other {
            Some(list) => list_need(context, list),
            None => Ok(0),
        },
        _ => Ok(0),
    }
}
