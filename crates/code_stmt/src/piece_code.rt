//! Emits the pieces of a statement at the end of a block. Each fails only if an allocation fails or there are 2^32
//! operations or more; the block is then of no use.

ghost use Rattle.std.specs.Prelude.{◌≡◌, ℕ, [], ◌∷◌, List, OnOk};
ghost use Rattle.stack_code.specs.Pieces;
ghost use Rattle.stack_code.specs.Placed.{Own as OwnData};
ghost use Rattle.stack_code.specs.Sizes;
ghost use Rattle.stack_code.specs.StmtLayouts.{label_at, pieces_code};
ghost use Rattle.typed_trees.specs.Plain.{TypedRoutine, TypedTree};
ghost use Rattle.code_expr.specs.Adds.{Adds};
ghost use Rattle.code_expr.specs.Contexts.{routine_of, tree_of};
ghost use Rattle.code_stmt.specs.Views.{view_own, view_piece, view_pieces};

use crate::own::Own;
use crate::piece::Piece;
use code_expr::{Block, Context, add_args, add_expr, add_place, push, push_down};
use stack_code::Op;
use std::alloc::AllocError;

/// Emits pieces, in order.
pub(crate) fn add_pieces(
    context: &Context<'_>,
    labels: &[u32],
    own: &Own,
    pieces: Vec<Piece<'_>>,
    code: &mut Block,
) -> Result<(), AllocError>
    ensures { OnOk result (Adds (view_own own.now) code.old code.new (Sizes.pieces_size (view_pieces pieces.entry.items)) (λ pc ps. pieces_code (tree_of context.now) (routine_of context.now) labels.now (view_own own.now) pc (view_pieces pieces.entry.items) ps)) }
{
    for piece in pieces {
        add_piece(context, labels, own, piece, code)?;
    }
    Ok(())
}

/// Emits a piece.
fn add_piece(
    context: &Context<'_>,
    labels: &[u32],
    own: &Own,
    piece: Piece<'_>,
    code: &mut Block,
) -> Result<(), AllocError>
    ensures { OnOk result (Adds (view_own own.now) code.old code.new (Sizes.pieces_size (view_piece piece.entry ∷ [])) (λ pc ps. pieces_code (tree_of context.now) (routine_of context.now) labels.now (view_own own.now) pc (view_piece piece.entry ∷ []) ps)) }
{
    match piece {
        Piece::Expr(expr) => add_expr(context, expr, code),
        Piece::Place(place) => add_place(context, place, code),
        Piece::Args(args) => add_args(context, args, code),
        Piece::Does(op) => code.put(op),
        Piece::Waits => code.put(Op::Wait(own.retry)),
        Piece::GoesTo(label) => code.put(Op::Jump(label_at(labels, label))),
        Piece::Chooses => add_choice(code),
        Piece::Travels => add_travel(code),
    }
}

/// Pops a bool, and pushes -1 if it is TRUE, else 1.
fn add_choice(code: &mut Block) -> Result<(), AllocError>
    ensures { OnOk result ((tree : TypedTree) (routine : TypedRoutine) (labels : List ℕ) (own : OwnData) → Adds own code.old code.new 4 (λ pc ps. pieces_code tree routine labels own pc (Pieces.Chooses Pieces.push_down (Pieces.push 1) ∷ []) ps)) }
{
    let other = code.behind(3)?;
    let past = code.behind(4)?;
    code.put(Op::JumpFalse(other))?;
    code.put(push_down())?;
    code.put(Op::Jump(past))?;
    code.put(push(1))
}

/// Pops a speed and a target, and moves the arm: after each setpoint but the last a Look, and back.
fn add_travel(code: &mut Block) -> Result<(), AllocError>
    ensures { OnOk result ((tree : TypedTree) (routine : TypedRoutine) (labels : List ℕ) (own : OwnData) → Adds own code.old code.new 4 (λ pc ps. pieces_code tree routine labels own pc (Pieces.Travels ∷ []) ps)) }
{
    let next = code.behind(1)?;
    let past = code.behind(4)?;
    code.put(Op::Aim)?;
    code.put(Op::Point(past))?;
    code.put(Op::Look)?;
    code.put(Op::Jump(next))
}

/// The place of a label, by its number; 0 if there is none.
fn label_at(labels: &[u32], label: u32) -> u32
    ensures { result ≡ label_at labels.now label }
{
    match labels.get(label as usize) {
        Some(place) => *place,
        None => 0,
    }
}
