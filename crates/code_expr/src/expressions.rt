ghost use Rattle.std.specs.Prelude.{◌≡◌, ◌<◌, [], ◌++◌, length, map, Some, slice_get, IfOk, OnOk, OnErr};
ghost use Rattle.typed_trees.specs.Plain.{TypedRoutine};
ghost use Rattle.typed_trees.specs.Views.{view_expr, view_tree};
ghost use Rattle.stack_code.specs.ExprLayouts.{expr_code};
ghost use Rattle.stack_code.specs.Placed.{Own};

use crate::block::Block;
use crate::context::Context;
use crate::emission::add_expr;
use crate::numbers::count_of;
use crate::starts::{local_starts, slot_starts};
use rapid_num::Memory;
use stack_code::Op;
use std::alloc::{AllocError, Global};
use typed_trees::{Expr, Tree};

/// Appends the operations of an expression of a routine, by the routine's number in a checked tree: they push its value
/// (RAPID Kernel, expressions). Fails only if an allocation fails or the code would have 2^32 operations or more; the
/// code is then unchanged. The compiler emits whole routines; this is for a tool that compiles one expression.
pub fn emit_expr(
    alloc: Global,
    tree: &Tree,
    routine: u32,
    expr: &Expr,
    code: &mut Vec<Op>,
) -> Result<(), Memory>
    requires { routine < length tree.now.routines.items }
    ensures ok { OnOk result ((r : TypedRoutine) (own : Own) → slice_get (view_tree tree.now).routines routine ≡ Some r → code.new.items ≡ code.old.items ++ map (λ p. p.op) (expr_code (view_tree tree.now) r own (length code.old.items) (view_expr expr.now) [])) }
    ensures err { OnErr result (code.new.items ≡ code.old.items) }
{
    let Ok(mut block) = block_of(alloc, tree, routine, expr, code.len()) else {
        return Err(Memory);
    };
    match code.append(&mut block.ops) {
        Ok(()) => Ok(()),
        Err(_) => Err(Memory),
    }
}

/// The operations of an expression of a routine, from a place on. Fails as `emit_expr` does.
fn block_of(
    alloc: Global,
    tree: &Tree,
    routine: u32,
    expr: &Expr,
    start: usize,
) -> Result<Block, AllocError>
    requires { routine < length tree.now.routines.items }
    ensures { IfOk result (λ block. (r : TypedRoutine) (own : Own) → slice_get (view_tree tree.now).routines routine ≡ Some r → block.ops.items ≡ map (λ p. p.op) (expr_code (view_tree tree.now) r own start (view_expr expr.now) [])) }
{
    let here = &tree.routines[routine as usize];
    let slots = slot_starts(alloc, tree)?;
    let locals = local_starts(alloc, here)?;
    let context = Context::new(alloc, tree, here, &slots, &locals);
    let mut block = Block::new(alloc, count_of(start)?);
    add_expr(&context, expr, &mut block)?;
    Ok(block)
}
