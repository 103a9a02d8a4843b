//! The pieces of statements that have no list (RAPID Kernel, statements). Each fails only if an allocation fails.

ghost use Rattle.std.specs.Prelude.{◌≡◌, ◌+◌, [], ◌∷◌, None, Some, option_map, IfOk};
ghost use Rattle.rapid_meaning.specs.Layouts.{local_start};
ghost use Rattle.stack_code.specs.Pieces;
ghost use Rattle.stack_code.specs.Pieces.{OfExpr, Does};
ghost use Rattle.typed_trees.specs.Views.{view_expr, view_stmt};
ghost use Rattle.code_expr.specs.Contexts.{routine_of, tree_of};
ghost use Rattle.code_stmt.specs.Views.{view_pieces};

use crate::piece::Piece;
use crate::steps::instruction_pieces;
use code_expr::{Context, sum};
use rapid_model::Operator;
use stack_code::Op;
use std::alloc::{AllocError, Global};
use typed_trees::{Bounds, Expr, Form, Stmt};

/// The pieces of a statement; none if it has a list or is a label.
pub(crate) fn pieces_of<'a>(
    context: &Context<'_>,
    stmt: &'a Stmt,
) -> Result<Vec<Piece<'a>>, AllocError>
    ensures { IfOk result (λ v. view_pieces v.items ≡ Pieces.pieces (tree_of context.now) (routine_of context.now) (view_stmt stmt.now)) }
{
    let alloc = context.alloc();
    match &stmt.form {
        Form::Assign { place, value } => {
            let pieces = [
                Piece::Place(place),
                Piece::Expr(value),
                Piece::Does(Op::Store),
            ];
            Ok(Vec::from_array(alloc, pieces)?)
        }
        Form::Instruct { instruction, args } => instruction_pieces(context, *instruction, args),
        Form::Call { routine, args } => {
            let pieces = [Piece::Args(args), Piece::Does(Op::Call(*routine))];
            Ok(Vec::from_array(alloc, pieces)?)
        }
        Form::Goto(label) => Ok(Vec::from_array(alloc, [Piece::GoesTo(*label)])?),
        Form::Return(None) => of_op(alloc, Op::Back),
        Form::Return(Some(value)) => of_value(alloc, value, Op::BackWith),
        Form::Exit => of_op(alloc, Op::Exit),
        Form::Raise(None) => of_op(alloc, Op::Again),
        Form::Raise(Some(number)) => of_value(alloc, number, Op::Raise),
        Form::Retry => of_op(alloc, Op::Retry),
        Form::TryNext => of_op(alloc, Op::Next),
        Form::Connect { place, trap } => {
            let pieces = [
                Piece::Place(place),
                Piece::Does(Op::Dup),
                Piece::Does(Op::Load),
                Piece::Does(Op::Connect(*trap)),
            ];
            Ok(Vec::from_array(alloc, pieces)?)
        }
        Form::Label(_)
        | Form::If { .. }
        | Form::IfOne { .. }
        | Form::For { .. }
        | Form::While { .. }
        | Form::Test { .. } => Ok(Vec::new(alloc)),
    }
}

/// One operation.
fn of_op<'a>(alloc: Global, op: Op) -> Result<Vec<Piece<'a>>, AllocError>
    ensures { IfOk result (λ v. view_pieces v.items ≡ Does op ∷ []) }
{
    Ok(Vec::from_array(alloc, [Piece::Does(op)])?)
}

/// A value, and the operation that takes it.
fn of_value<'a>(alloc: Global, value: &'a Expr, op: Op) -> Result<Vec<Piece<'a>>, AllocError>
    ensures { IfOk result (λ v. view_pieces v.items ≡ OfExpr (view_expr value.now) ∷ Does op ∷ []) }
{
    Ok(Vec::from_array(alloc, [Piece::Expr(value), Piece::Does(op)])?)
}

/// The pieces of a FOR before its first turn: all three values are evaluated, then stored as its variable, last value
/// and step. A missing step follows from the other two (RAPID Kernel, FOR).
pub(crate) fn bounds_pieces<'a>(
    context: &Context<'_>,
    local: u32,
    bounds: &'a Bounds,
) -> Result<Vec<Piece<'a>>, AllocError>
    ensures { IfOk result (λ v. let b = bounds.now in view_pieces v.items ≡ Pieces.bounds_pieces (local_start (routine_of context.now) local) (view_expr b.first) (view_expr b.last) (option_map view_expr b.step)) }
{
    let alloc = context.alloc();
    let variable = context.local_start(local);
    let last = sum(variable, 1)?;
    let step = sum(variable, 2)?;
    match &bounds.step {
        Some(given) => stepped(alloc, bounds, variable, last, step, given),
        None => unstepped(alloc, bounds, variable, last, step),
    }
}

/// The pieces of a FOR with a step, if its data have these numbers.
fn stepped<'a>(
    alloc: Global,
    bounds: &'a Bounds,
    variable: u32,
    last: u32,
    step: u32,
    given: &'a Expr,
) -> Result<Vec<Piece<'a>>, AllocError>
    requires last { last ≡ variable + 1 }
    requires step { step ≡ variable + 2 }
    ensures { IfOk result (λ v. let b = bounds.now in view_pieces v.items ≡ Pieces.bounds_pieces variable (view_expr b.first) (view_expr b.last) (Some (view_expr given.now))) }
{
    let pieces = [
        Piece::Does(Op::Local(variable)),
        Piece::Expr(&bounds.first),
        Piece::Does(Op::Local(last)),
        Piece::Expr(&bounds.last),
        Piece::Does(Op::Local(step)),
        Piece::Expr(given),
        Piece::Does(Op::Store),
        Piece::Does(Op::Store),
        Piece::Does(Op::Store),
    ];
    Ok(Vec::from_array(alloc, pieces)?)
}

/// The pieces of a FOR without a step, if its data have these numbers: it counts down if the first value is greater
/// than the last.
fn unstepped<'a>(
    alloc: Global,
    bounds: &'a Bounds,
    variable: u32,
    last: u32,
    step: u32,
) -> Result<Vec<Piece<'a>>, AllocError>
    requires last { last ≡ variable + 1 }
    requires step { step ≡ variable + 2 }
    ensures { IfOk result (λ v. let b = bounds.now in view_pieces v.items ≡ Pieces.bounds_pieces variable (view_expr b.first) (view_expr b.last) None) }
{
    let pieces = [
        Piece::Does(Op::Local(variable)),
        Piece::Expr(&bounds.first),
        Piece::Does(Op::Local(last)),
        Piece::Expr(&bounds.last),
        Piece::Does(Op::Store),
        Piece::Does(Op::Store),
        Piece::Does(Op::Local(step)),
        Piece::Does(Op::Local(variable)),
        Piece::Does(Op::Load),
        Piece::Does(Op::Local(last)),
        Piece::Does(Op::Load),
        Piece::Does(Op::Binary(Operator::Greater)),
        Piece::Chooses,
        Piece::Does(Op::Store),
    ];
    Ok(Vec::from_array(alloc, pieces)?)
}
