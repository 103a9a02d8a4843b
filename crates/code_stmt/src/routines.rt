//! Emits a routine: its list, its end, and its ERROR part with an end of its own. Each fails only if an allocation
//! fails or there are 2^32 operations or more.

ghost use Rattle.std.specs.Prelude.{◌≡◌, ◌+◌, ◌++◌, max, option_map, IfOk, OnOk};
ghost use Rattle.stack_code.specs.Compiled;
ghost use Rattle.stack_code.specs.ExprLayouts.{put};
ghost use Rattle.stack_code.specs.Needs;
ghost use Rattle.code_expr.specs.Adds.{end_of};
ghost use Rattle.code_expr.specs.Contexts.{routine_of, tree_of};
ghost use Rattle.code_stmt.specs.Lays.{Lays, LaysPart, LaysRoutine};
ghost use Rattle.code_stmt.specs.Sizing.{Taking, part_sizes, routine_sizes};

use crate::ends::behind_list;
use crate::needs::list_need;
use crate::own::Own;
use crate::owned::{add_op, at_byte};
use crate::sizes::SizesLeft;
use crate::statements::add_list;
use crate::written::Written;
use code_expr::{Context, more, sum};
use rapid_model::RoutineKind;
use stack_code::Op;
use std::alloc::AllocError;

/// The places of a routine's labels, the sizes of its statements, and where its ERROR part begins, if it has one.
#[derive(Drop)]
pub(crate) struct RoutinePlaces {
    pub(crate) labels: Vec<u32>,
    pub(crate) sizes: Vec<u32>,
    pub(crate) part: u32,
}

/// The places of a routine that begins at `pc`.
pub(crate) fn places_of(context: &Context<'_>, pc: u32) -> Result<RoutinePlaces, AllocError>
    ensures labels { IfOk result (λ places. places.labels.items ≡ Compiled.routine_labels (tree_of context.now) (routine_of context.now) pc) }
    ensures sizes { IfOk result (λ places. places.sizes.items ≡ routine_sizes (tree_of context.now) (routine_of context.now)) }
    ensures part { IfOk result (λ places. places.part ≡ Compiled.part_start (tree_of context.now) (routine_of context.now) pc) }
{
    let routine = context.routine();
    let mut labels = Vec::new(context.alloc());
    let mut sizes = Vec::new(context.alloc());
    let end = behind_list(context, &routine.list, pc, &mut labels, &mut sizes)?;
    let part = sum(end, 1)?;
    find_part(context, part, &mut labels, &mut sizes)?;
    Ok(RoutinePlaces {
        labels,
        sizes,
        part,
    })
}

/// Appends the labels and sizes of a routine's ERROR part, if it has one, which would begin here.
fn find_part(
    context: &Context<'_>,
    part: u32,
    labels: &mut Vec<u32>,
    sizes: &mut Vec<u32>,
) -> Result<(), AllocError>
    ensures labels { OnOk result (labels.new.items ≡ labels.old.items ++ Compiled.part_labels (tree_of context.now) (routine_of context.now) part (routine_of context.now).handler) }
    ensures sizes { OnOk result (sizes.new.items ≡ sizes.old.items ++ part_sizes (tree_of context.now) (routine_of context.now) (routine_of context.now).handler) }
{
    match &context.routine().handler {
        None => Ok(()),
        Some(list) => {
            let _past = behind_list(context, list, part, labels, sizes)?;
            Ok(())
        }
    }
}

/// Emits a routine whose labels have these places and whose sizes are next.
pub(crate) fn add_routine(
    context: &Context<'_>,
    labels: &[u32],
    sizes: &mut SizesLeft,
    out: &mut Written,
) -> Result<(), AllocError>
    ensures { OnOk result (Taking sizes.old sizes.new (routine_sizes (tree_of context.now) (routine_of context.now)) (LaysRoutine context.now labels.now out.old out.new)) }
{
    let routine = context.routine();
    add_list(context, labels, &routine.list, sizes, out)?;
    add_end(context, end_op(routine.kind), out)?;
    add_part(context, labels, sizes, out)
}

/// Emits a routine's ERROR part, if it has one. Its end raises its error in the caller (RAPID Kernel, error recovery).
fn add_part(
    context: &Context<'_>,
    labels: &[u32],
    sizes: &mut SizesLeft,
    out: &mut Written,
) -> Result<(), AllocError>
    ensures { OnOk result (Taking sizes.old sizes.new (part_sizes (tree_of context.now) (routine_of context.now) (routine_of context.now).handler) (LaysPart context.now labels.now out.old out.new (routine_of context.now).handler)) }
{
    match &context.routine().handler {
        None => Ok(()),
        Some(list) => {
            add_list(context, labels, list, sizes, out)?;
            add_end(context, Op::Again, out)
        }
    }
}

/// Emits the end of a list, which is no statement and owns itself.
fn add_end(context: &Context<'_>, op: Op, out: &mut Written) -> Result<(), AllocError>
    ensures { OnOk result (Lays out.old out.new 1 (λ pc ps. put (Compiled.own_end (routine_of context.now) pc) op ps)) }
{
    let retry = out.code.end()?;
    let own = Own {
        retry,
        next: sum(retry, 1)?,
        at: at_byte(context, context.routine().at)?,
    };
    add_op(op, &own, out)
}

/// The operation at the end of a routine's list, which a FUNC does not reach (RAPID Kernel, routine declarations).
fn end_op(kind: RoutineKind) -> Op
    ensures { result ≡ Compiled.end_op kind }
{
    match kind {
        RoutineKind::Func => Op::NoBack,
        RoutineKind::Proc | RoutineKind::Trap => Op::Back,
    }
}

/// The most operands on the stack of a routine's frame.
pub fn routine_need(context: &Context<'_>) -> Result<u32, AllocError>
    ensures { IfOk result (λ need. let routine = routine_of context.now in need ≡ max (Needs.stmts_need (tree_of context.now) routine routine.list) (Compiled.part_need (tree_of context.now) routine routine.handler)) }
{
    let routine = context.routine();
    let list = list_need(context, &routine.list)?;
    match &routine.handler {
        None => Ok(list),
        Some(part) => Ok(more(list, list_need(context, part)?)),
    }
}

/// The place of a routine's ERROR part, if it has one; it would begin at `part`.
pub(crate) fn handler_of(context: &Context<'_>, part: u32) -> Option<u32>
    ensures { result ≡ option_map (λ list. part) (routine_of context.now).handler }
{
    match context.routine().handler {
        Some(_) => Some(part),
        None => None,
    }
}
