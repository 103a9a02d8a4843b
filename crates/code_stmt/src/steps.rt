//! The pieces of instructions, step by step (RAPID Instructions).

ghost use Rattle.std.specs.Prelude.{◌≡◌, map, option_map, Some, IfOk};
ghost use Rattle.rapid_meaning.specs.Instructions.{needed, options};
ghost use Rattle.stack_code.specs.Pieces;
ghost use Rattle.stack_code.specs.Pieces.{Does};
ghost use Rattle.stack_code.specs.Recipes;
ghost use Rattle.stack_code.specs.declared.op.Op.TheVariants as ops;
ghost use Rattle.stack_code.specs.declared.order_on.OrderOn.TheVariants as orders;
ghost use Rattle.typed_trees.specs.Plain.{args_of};
ghost use Rattle.typed_trees.specs.Views.{view_arg, view_place};
ghost use Rattle.code_expr.specs.Contexts.{routine_of, tree_of};
ghost use Rattle.code_stmt.specs.Views.{view_args, view_piece, view_pieces};

use crate::arguments::{has, parted};
use crate::given::{meeting_at, place_at, signal_at, value_at};
use crate::piece::Piece;
use crate::tails::{tail_in, tail_kind_in};
use code_expr::{Context, push};
use rapid_model::Instruction;
use stack_code::{Op, OrderOn, Step, recipe};
use std::alloc::AllocError;
use typed_trees::{Arg, TreePlace, TreeRoot};

/// The pieces of an instruction. Fails only if an allocation fails.
pub(crate) fn instruction_pieces<'a>(
    context: &Context<'_>,
    instruction: Instruction,
    args: &'a Vec<Arg>,
) -> Result<Vec<Piece<'a>>, AllocError>
    ensures { IfOk result (λ v. let given = args_of (map view_arg args.now.items) in view_pieces v.items ≡ Pieces.pieces_of_steps (tree_of context.now) (routine_of context.now) (needed given) (options given) (Recipes.recipe instruction)) }
{
    let given = parted(context.alloc(), args)?;
    pieces_of_steps(context, recipe(instruction), &given.needed, &given.options)
}

/// The pieces of steps, in order. Fails only if an allocation fails.
fn pieces_of_steps<'a>(
    context: &Context<'_>,
    steps: &[Step],
    args: &[&'a Arg],
    options: &[&'a Arg],
) -> Result<Vec<Piece<'a>>, AllocError>
    ensures { IfOk result (λ v. view_pieces v.items ≡ Pieces.pieces_of_steps (tree_of context.now) (routine_of context.now) (view_args args.now) (view_args options.now) steps.now) }
{
    let mut pieces = Vec::new(context.alloc());
    for step in steps {
        match piece_of(context, *step, args, options) {
            Some(piece) => pieces.push(piece)?,
            None => {}
        }
    }
    Ok(pieces)
}

/// The piece of a step; `None` if its argument is missing or has another form.
fn piece_of<'a>(
    context: &Context<'_>,
    step: Step,
    args: &[&'a Arg],
    options: &[&'a Arg],
) -> Option<Piece<'a>>
    ensures { option_map view_piece result ≡ Pieces.piece_of (tree_of context.now) (routine_of context.now) (view_args args.now) (view_args options.now) step }
{
    match step {
        Step::Value(number) => Some(Piece::Expr(value_at(args, number)?)),
        Step::Place(number) => Some(Piece::Place(place_at(args, number)?)),
        Step::Count(count) => does(push(count)),
        Step::Drop => does(Op::Drop),
        Step::Dup => does(Op::Dup),
        Step::Over => does(Op::Over),
        Step::Load => does(Op::Load),
        Step::Store => does(Op::Store),
        Step::Bit => does(Op::Bit),
        Step::Still => does(Op::Still),
        Step::Travel => Some(Piece::Travels),
        Step::TestSet => does(Op::TestSet),
        Step::Binary(operator) => does(Op::Binary(operator)),
        Step::Irq(change) => does(Op::Irq(change)),
        Step::Zone(change) => does(Op::Zone(change)),
        Step::Wait => Some(Piece::Waits),
        Step::GetSignal(number) => does(Op::GetSignal(signal_at(args, number)?)),
        Step::PutSignal(number) => does(Op::PutSignal(signal_at(args, number)?)),
        Step::OrderSignal(number) => does(signal_order(signal_at(args, number)?, options)),
        Step::OrderPers(number) => does(pers_order(context, place_at(args, number)?, options)),
        Step::TaskSet(number) => does(task_set(context, place_at(args, number)?)),
        Step::Arrive(number) => does(arrival(context, meeting_at(args, number)?)),
        Step::Shape(home) => does(Op::Shape(has(b"Inside", options), home)),
        Step::ZoneSet => does(Op::ZoneSet(has(b"Temp", options))),
        Step::ZoneTie(number) => does(zone_tie(signal_at(args, number)?, options)),
        Step::Tail => Some(Piece::Expr(tail_in(options)?)),
        Step::Say => does(Op::Say(tail_kind_in(options)?)),
    }
}

/// An operation.
fn does<'a>(op: Op) -> Option<Piece<'a>>
    ensures { option_map view_piece result ≡ Some (Does op) }
{
    Some(Piece::Does(op))
}

/// Orders an interrupt on a signal.
fn signal_order(signal: u32, options: &[&Arg]) -> Op
    ensures { result ≡ Pieces.order_of (orders.Signal signal) (view_args options.now) }
{
    Op::Order(OrderOn::Signal(signal), has(b"Single", options))
}

/// Orders an interrupt on the persistent of a place; on number 0 if it is none.
fn pers_order(context: &Context<'_>, watched: &TreePlace, options: &[&Arg]) -> Op
    ensures { result ≡ Pieces.order_of (orders.Pers (Pieces.watched_number (tree_of context.now) (view_place watched.now))) (view_args options.now) }
{
    let pers = match watched.root {
        TreeRoot::Pers(row) => context.cell_number(row),
        _ => 0,
    };
    Op::Order(OrderOn::Pers(pers), has(b"Single", options))
}

/// Ties a signal to a shape.
fn zone_tie(signal: u32, options: &[&Arg]) -> Op
    ensures { result ≡ Pieces.tie_of signal (view_args options.now) }
{
    Op::ZoneTie(has(b"Temp", options), signal)
}

/// Pushes the set of the tasks that an array names.
fn task_set(context: &Context<'_>, list: &TreePlace) -> Op
    ensures { result ≡ ops.TaskSet (Pieces.list_length (tree_of context.now) (routine_of context.now) (view_place list.now)) }
{
    Op::TaskSet(context.length_at(list.root))
}

/// Arrives at a meeting of the tree.
fn arrival(context: &Context<'_>, meeting: u32) -> Op
    ensures { result ≡ ops.Arrive (Pieces.meeting_number (tree_of context.now) meeting) }
{
    Op::Arrive(context.meeting_number(meeting))
}
