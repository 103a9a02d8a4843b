//! Finds in one pass where statements end, the places of their labels, and the sizes of each statement and of each list
//! of IF, ELSEIF and CASE. Each fails only if an allocation fails or there are 2^32 operations or more.

ghost use Rattle.std.specs.Prelude.{◌≡◌, ◌++◌, IfOk, OnOk};
ghost use Rattle.stack_code.specs.Sizes;
ghost use Rattle.stack_code.specs.StmtLayouts;
ghost use Rattle.typed_trees.specs.Plain.{stmts_of};
ghost use Rattle.typed_trees.specs.Views.{view_list, view_stmt};
ghost use Rattle.code_expr.specs.Contexts.{routine_of, tree_of};
ghost use Rattle.code_stmt.specs.Labelled.{Passes};
ghost use Rattle.code_stmt.specs.Parts.{arms_in, cases_in, else_in};
ghost use Rattle.code_stmt.specs.Sizing.{arms_sizes, cases_sizes, else_sizes, inner_sizes, list_sizes, stmt_sizes, stmts_sizes};

use crate::piece_sizes::pieces_size;
use crate::pieces::{bounds_pieces, pieces_of};
use crate::values::values_size;
use code_expr::{Context, expr_size, sum};
use std::alloc::AllocError;
use typed_trees::{Form, Stmt};

/// The place after a statement that begins at `pc`. Appends the places of its labels, and its size before those of its
/// parts.
#[cycle(ends)]
fn behind_stmt(
    context: &Context<'_>,
    stmt: &Stmt,
    pc: u32,
    labels: &mut Vec<u32>,
    sizes: &mut Vec<u32>,
) -> Result<u32, AllocError>
    ensures passed { IfOk result (λ end. let tree = tree_of context.now in let routine = routine_of context.now in Passes labels.old.items labels.new.items pc end (Sizes.stmt_size tree routine (view_stmt stmt.now)) (λ at. StmtLayouts.stmt_labels tree routine at (view_stmt stmt.now))) }
    ensures sizes { OnOk result (sizes.new.items ≡ sizes.old.items ++ stmt_sizes (tree_of context.now) (routine_of context.now) (view_stmt stmt.now)) }
{
    let slot = sizes.len();
    sizes.push(0)?;
    let end = behind_inside(context, stmt, pc, labels, sizes)?;
    sizes[slot] = end - pc;
    Ok(end)
}

/// The same, without the statement's own size.
#[cycle(ends)]
fn behind_inside(
    context: &Context<'_>,
    stmt: &Stmt,
    pc: u32,
    labels: &mut Vec<u32>,
    sizes: &mut Vec<u32>,
) -> Result<u32, AllocError>
    ensures passed { IfOk result (λ end. let tree = tree_of context.now in let routine = routine_of context.now in Passes labels.old.items labels.new.items pc end (Sizes.stmt_size tree routine (view_stmt stmt.now)) (λ at. StmtLayouts.stmt_labels tree routine at (view_stmt stmt.now))) }
    ensures sizes { OnOk result (sizes.new.items ≡ sizes.old.items ++ inner_sizes (tree_of context.now) (routine_of context.now) (view_stmt stmt.now)) }
{
    match &stmt.form {
        Form::Label(_) => {
            labels.push(pc)?;
            Ok(pc)
        }
        Form::If { .. } => {
            let end = behind_arms(context, stmt, sum(pc, 1)?, labels, sizes)?;
            behind_else(context, stmt, end, labels, sizes)
        }
        Form::IfOne { test, then } => {
            let first = sum(sum(sum(pc, 1)?, expr_size(test)?)?, 1)?;
            behind_stmt(context, then, first, labels, sizes)
        }
        Form::For {
            local,
            bounds,
            list,
        } => {
            let turn = sum(
                sum(pc, 1)?,
                pieces_size(&bounds_pieces(context, *local, bounds)?)?,
            )?;
            let end = behind_list(context, list, sum(turn, 2)?, labels, sizes)?;
            sum(end, 1)
        }
        Form::While { test, list } => {
            let first = sum(sum(sum(pc, 1)?, expr_size(test)?)?, 1)?;
            let end = behind_list(context, list, first, labels, sizes)?;
            sum(end, 1)
        }
        Form::Test { value, .. } => {
            let first = sum(sum(pc, 1)?, expr_size(value)?)?;
            let end = behind_cases(context, stmt, first, labels, sizes)?;
            behind_else(context, stmt, sum(end, 1)?, labels, sizes)
        }
        _ => sum(sum(pc, 1)?, pieces_size(&pieces_of(context, stmt)?)?),
    }
}

/// The place after the statements of a list. Appends the places of their labels, and their sizes.
#[cycle(ends)]
pub(crate) fn behind_list(
    context: &Context<'_>,
    list: &Vec<Stmt>,
    pc: u32,
    labels: &mut Vec<u32>,
    sizes: &mut Vec<u32>,
) -> Result<u32, AllocError>
    ensures passed { IfOk result (λ end. let tree = tree_of context.now in let routine = routine_of context.now in Passes labels.old.items labels.new.items pc end (Sizes.stmts_size tree routine (stmts_of (view_list list.now))) (λ at. StmtLayouts.stmts_labels tree routine at (stmts_of (view_list list.now)))) }
    ensures sizes { OnOk result (sizes.new.items ≡ sizes.old.items ++ stmts_sizes (tree_of context.now) (routine_of context.now) (stmts_of (view_list list.now))) }
{
    let mut end = pc;
    for stmt in list {
        end = behind_stmt(context, stmt, end, labels, sizes)?;
    }
    Ok(end)
}

/// The same, and the size of the list before the others.
#[cycle(ends)]
fn behind_sized(
    context: &Context<'_>,
    list: &Vec<Stmt>,
    pc: u32,
    labels: &mut Vec<u32>,
    sizes: &mut Vec<u32>,
) -> Result<u32, AllocError>
    ensures passed { IfOk result (λ end. let tree = tree_of context.now in let routine = routine_of context.now in Passes labels.old.items labels.new.items pc end (Sizes.stmts_size tree routine (stmts_of (view_list list.now))) (λ at. StmtLayouts.stmts_labels tree routine at (stmts_of (view_list list.now)))) }
    ensures sizes { OnOk result (sizes.new.items ≡ sizes.old.items ++ list_sizes (tree_of context.now) (routine_of context.now) (stmts_of (view_list list.now))) }
{
    let slot = sizes.len();
    sizes.push(0)?;
    let end = behind_list(context, list, pc, labels, sizes)?;
    sizes[slot] = end - pc;
    Ok(end)
}

/// The place after IF and ELSEIF of a statement, with their lists.
#[cycle(ends)]
fn behind_arms(
    context: &Context<'_>,
    stmt: &Stmt,
    pc: u32,
    labels: &mut Vec<u32>,
    sizes: &mut Vec<u32>,
) -> Result<u32, AllocError>
    ensures passed { IfOk result (λ end. let tree = tree_of context.now in let routine = routine_of context.now in Passes labels.old.items labels.new.items pc end (Sizes.arms_size tree routine (arms_in (view_stmt stmt.now))) (λ at. StmtLayouts.arms_labels tree routine at (arms_in (view_stmt stmt.now)))) }
    ensures sizes { OnOk result (sizes.new.items ≡ sizes.old.items ++ arms_sizes (tree_of context.now) (routine_of context.now) (arms_in (view_stmt stmt.now))) }
{
    let mut end = pc;
    let Form::If { arms, .. } = &stmt.form else {
        return Ok(end);
    };
    for (test, list) in arms {
        let first = sum(sum(end, expr_size(test)?)?, 1)?;
        end = sum(behind_sized(context, list, first, labels, sizes)?, 1)?;
    }
    Ok(end)
}

/// The place after the CASEs of a statement, with their lists.
#[cycle(ends)]
fn behind_cases(
    context: &Context<'_>,
    stmt: &Stmt,
    pc: u32,
    labels: &mut Vec<u32>,
    sizes: &mut Vec<u32>,
) -> Result<u32, AllocError>
    ensures passed { IfOk result (λ end. let tree = tree_of context.now in let routine = routine_of context.now in Passes labels.old.items labels.new.items pc end (Sizes.cases_size tree routine (cases_in (view_stmt stmt.now))) (λ at. StmtLayouts.cases_labels tree routine at (cases_in (view_stmt stmt.now)))) }
    ensures sizes { OnOk result (sizes.new.items ≡ sizes.old.items ++ cases_sizes (tree_of context.now) (routine_of context.now) (cases_in (view_stmt stmt.now))) }
{
    let mut end = pc;
    let Form::Test { cases, .. } = &stmt.form else {
        return Ok(end);
    };
    for (values, list) in cases {
        let first = sum(sum(end, values_size(values)?)?, 2)?;
        end = sum(behind_sized(context, list, first, labels, sizes)?, 1)?;
    }
    Ok(end)
}

/// The place after the list of ELSE or DEFAULT of a statement, if there is one.
#[cycle(ends)]
fn behind_else(
    context: &Context<'_>,
    stmt: &Stmt,
    pc: u32,
    labels: &mut Vec<u32>,
    sizes: &mut Vec<u32>,
) -> Result<u32, AllocError>
    ensures passed { IfOk result (λ end. let tree = tree_of context.now in let routine = routine_of context.now in Passes labels.old.items labels.new.items pc end (Sizes.else_size tree routine (else_in (view_stmt stmt.now))) (λ at. StmtLayouts.else_labels tree routine at (else_in (view_stmt stmt.now)))) }
    ensures sizes { OnOk result (sizes.new.items ≡ sizes.old.items ++ else_sizes (tree_of context.now) (routine_of context.now) (else_in (view_stmt stmt.now))) }
{
    match &stmt.form {
        Form::If { other, .. } => match other {
            Some(list) => behind_list(context, list, pc, labels, sizes),
            None => Ok(pc),
        },
        Form::Test { other, .. } => match other {
            Some(list) => behind_list(context, list, pc, labels, sizes),
            None => Ok(pc),
        },
        _ => Ok(pc),
    }
}
