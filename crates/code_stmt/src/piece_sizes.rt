//! The number of operations of the pieces of a statement, and the operands that they need. Each fails only if the
//! number is 2^32 or more.

ghost use Rattle.std.specs.Prelude.{◌≡◌, IfOk};
ghost use Rattle.stack_code.specs.Needs;
ghost use Rattle.stack_code.specs.Sizes;
ghost use Rattle.code_stmt.specs.Depths;
ghost use Rattle.code_stmt.specs.Views.{view_piece, view_pieces};

use crate::piece::Piece;
use code_expr::{args_need, args_size, expr_need, expr_size, more, place_need, place_size, sum};
use stack_code::Op;
use std::alloc::AllocError;

/// The number of operations of pieces.
pub(crate) fn pieces_size(pieces: &Vec<Piece<'_>>) -> Result<u32, AllocError>
    ensures { IfOk result (λ size. size ≡ Sizes.pieces_size (view_pieces pieces.now.items)) }
{
    let mut size = 0;
    for piece in pieces {
        size = sum(size, piece_size(piece)?)?;
    }
    Ok(size)
}

/// The number of operations of a piece.
fn piece_size(piece: &Piece<'_>) -> Result<u32, AllocError>
    ensures { IfOk result (λ size. size ≡ Sizes.piece_size (view_piece piece.now)) }
{
    match piece {
        Piece::Expr(expr) => expr_size(expr),
        Piece::Place(place) => place_size(place),
        Piece::Args(args) => args_size(args),
        Piece::Does(_) | Piece::Waits | Piece::GoesTo(_) => Ok(1),
        Piece::Chooses | Piece::Travels => Ok(4),
    }
}

/// The operands that pieces need, from an empty stack on.
pub(crate) fn pieces_need(pieces: &Vec<Piece<'_>>) -> Result<u32, AllocError>
    ensures { IfOk result (λ need. need ≡ Needs.pieces_need 0 (view_pieces pieces.now.items)) }
{
    let mut most = 0;
    let mut depth = 0;
    for piece in pieces {
        most = more(most, sum(depth, piece_need(piece)?)?);
        depth = depth_behind(piece, depth)?;
    }
    Ok(more(most, depth))
}

/// The operands that a piece needs.
fn piece_need(piece: &Piece<'_>) -> Result<u32, AllocError>
    ensures { IfOk result (λ need. need ≡ Depths.piece_need (view_piece piece.now)) }
{
    match piece {
        Piece::Expr(expr) => expr_need(expr),
        Piece::Place(place) => place_need(place),
        Piece::Args(args) => args_need(args),
        Piece::Does(_) | Piece::Waits | Piece::GoesTo(_) | Piece::Chooses | Piece::Travels => Ok(0),
    }
}

/// An upper bound for the operands on the stack after a piece, if there were `depth` before it.
fn depth_behind(piece: &Piece<'_>, depth: u32) -> Result<u32, AllocError>
    ensures { IfOk result (λ behind. behind ≡ Depths.depth_behind (view_piece piece.now) depth) }
{
    match piece {
        Piece::Expr(_) | Piece::Place(_) => sum(depth, 1),
        Piece::Does(op) => depth_behind_op(op, depth),
        Piece::Waits => Ok(depth.saturating_sub(1)),
        Piece::Travels => Ok(depth.saturating_sub(2)),
        Piece::Args(_) | Piece::GoesTo(_) | Piece::Chooses => Ok(depth),
    }
}

/// An upper bound for the operands on the stack after an operation, if there were `depth` before it.
fn depth_behind_op(op: &Op, depth: u32) -> Result<u32, AllocError>
    ensures { IfOk result (λ behind. behind ≡ Needs.depth_behind op.now depth) }
{
    match op {
        Op::Push(_) | Op::Dup | Op::Over | Op::Local(_) | Op::GetSignal(_) => sum(depth, 1),
        Op::Binary(_) => Ok(depth.saturating_sub(1)),
        Op::Store => Ok(depth.saturating_sub(2)),
        _ => Ok(depth),
    }
}
