//! Appends operations of one statement, with the row of their owner. Each fails only if an allocation fails or there
//! are 2^32 operations or more; what it appended is then of no use.

ghost use Rattle.std.specs.Prelude.{◌≡◌, ◌+◌, [], ◌∷◌, IfOk, OnOk, map, option_map};
ghost use Rattle.rapid_meaning.specs.Layouts.{local_start};
ghost use Rattle.stack_code.specs.ExprLayouts.{expr_code, put};
ghost use Rattle.stack_code.specs.Pieces;
ghost use Rattle.stack_code.specs.Sizes;
ghost use Rattle.stack_code.specs.StmtLayouts;
ghost use Rattle.stack_code.specs.StmtLayouts.{pieces_code, values_code};
ghost use Rattle.stack_code.specs.declared.op.Op.TheVariants as ops;
ghost use Rattle.typed_trees.specs.Plain.{exprs_of};
ghost use Rattle.typed_trees.specs.Views.{view_expr, view_stmt};
ghost use Rattle.code_expr.specs.Adds.{end_of};
ghost use Rattle.code_expr.specs.Contexts.{routine_of, tree_of};
ghost use Rattle.code_stmt.specs.Lays.{Lays};
ghost use Rattle.code_stmt.specs.Sizing.{Taking};
ghost use Rattle.code_stmt.specs.Views.{view_own};

use crate::own::Own;
use crate::piece_code::add_pieces;
use crate::pieces::{bounds_pieces, pieces_of};
use crate::sizes::SizesLeft;
use crate::values::add_values;
use crate::written::Written;
use code_expr::{Context, add_expr, sum};
use rapid_model::At;
use stack_code::Op;
use std::alloc::AllocError;
use typed_trees::{Bounds, Expr, Stmt};

/// The owner of the operations of a statement that begins at `pc`, if its size is the next one.
pub(crate) fn own_of(
    context: &Context<'_>,
    stmt: &Stmt,
    pc: u32,
    sizes: &mut SizesLeft,
) -> Result<Own, AllocError>
    ensures { IfOk result (λ own. let tree = tree_of context.now in let routine = routine_of context.now in Taking sizes.old sizes.new (Sizes.stmt_size tree routine (view_stmt stmt.now) ∷ []) (view_own own ≡ StmtLayouts.own_of tree routine pc (view_stmt stmt.now))) }
{
    let next = sum(pc, sizes.next())?;
    let at = at_byte(context, stmt.at)?;
    Ok(Own {
        retry: pc,
        next,
        at,
    })
}

/// A position in the routine's module.
pub(crate) fn at_byte(context: &Context<'_>, byte: usize) -> Result<At, AllocError>
    ensures module { IfOk result (λ at. at.«module» ≡ (routine_of context.now).«module») }
    ensures byte { IfOk result (λ at. at.byte ≡ byte) }
{
    match u32::try_from(byte) {
        Ok(byte) => Ok(At {
            module: context.module(),
            byte,
        }),
        Err(_) => Err(AllocError),
    }
}

/// Appends an operation.
pub(crate) fn add_op(op: Op, own: &Own, out: &mut Written) -> Result<(), AllocError>
    ensures { OnOk result (Lays out.old out.new 1 (λ pc ps. put (view_own own.now) op ps)) }
{
    let first = out.code.end()?;
    out.code.put(op)?;
    out.close(first, own)
}

/// Appends an expression.
pub(crate) fn add_value(
    context: &Context<'_>,
    expr: &Expr,
    own: &Own,
    out: &mut Written,
) -> Result<(), AllocError>
    ensures { OnOk result (Lays out.old out.new (Sizes.expr_size (view_expr expr.now)) (λ pc ps. expr_code (tree_of context.now) (routine_of context.now) (view_own own.now) pc (view_expr expr.now) ps)) }
{
    let first = out.code.end()?;
    add_expr(context, expr, &mut out.code)?;
    out.close(first, own)
}

/// Appends the values of a CASE, which jump to its list if one equals the value tested.
pub(crate) fn add_values_of(
    context: &Context<'_>,
    values: &Vec<Expr>,
    list: u32,
    own: &Own,
    out: &mut Written,
) -> Result<(), AllocError>
    ensures { OnOk result (Lays out.old out.new (Sizes.values_size (exprs_of (map view_expr values.now.items))) (λ pc ps. values_code (tree_of context.now) (routine_of context.now) (view_own own.now) list pc (exprs_of (map view_expr values.now.items)) ps)) }
{
    let first = out.code.end()?;
    add_values(context, values, list, &mut out.code)?;
    out.close(first, own)
}

/// Appends a statement that has no list and is no label.
pub(crate) fn add_simple(
    context: &Context<'_>,
    labels: &[u32],
    stmt: &Stmt,
    own: &Own,
    out: &mut Written,
) -> Result<(), AllocError>
    ensures { OnOk result (let tree = tree_of context.now in let routine = routine_of context.now in let pieces = Pieces.pieces tree routine (view_stmt stmt.now) in Lays out.old out.new (1 + Sizes.pieces_size pieces) (λ pc ps. put (view_own own.now) ops.Look (pieces_code tree routine labels.now (view_own own.now) (pc + 1) pieces ps))) }
{
    let first = out.code.end()?;
    out.code.put(Op::Look)?;
    add_pieces(
        context,
        labels,
        own,
        pieces_of(context, stmt)?,
        &mut out.code,
    )?;
    out.close(first, own)
}

/// Appends a FOR up to its Turn, and returns the place of the Turn.
pub(crate) fn add_bounds(
    context: &Context<'_>,
    labels: &[u32],
    local: u32,
    bounds: &Bounds,
    own: &Own,
    out: &mut Written,
) -> Result<u32, AllocError>
    ensures laid { OnOk result (let tree = tree_of context.now in let routine = routine_of context.now in let b = bounds.now in let pieces = Pieces.bounds_pieces (local_start routine local) (view_expr b.first) (view_expr b.last) (option_map view_expr b.step) in Lays out.old out.new (1 + Sizes.pieces_size pieces) (λ pc ps. put (view_own own.now) ops.Look (pieces_code tree routine labels.now (view_own own.now) (pc + 1) pieces ps))) }
    ensures turn { IfOk result (λ turn. turn ≡ end_of out.new.code) }
{
    let first = out.code.end()?;
    out.code.put(Op::Look)?;
    let pieces = bounds_pieces(context, local, bounds)?;
    add_pieces(context, labels, own, pieces, &mut out.code)?;
    out.close(first, own)?;
    let turn = out.code.end()?;
    Ok(turn)
}
