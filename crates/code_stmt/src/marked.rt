//! Emits routines, with the marks that error recovery needs.

ghost use Rattle.std.specs.Prelude.{◌≡◌, ◌<◌, [], ◌++◌, List, Some, length, slice_get, OnOk, OnErr, ◌∷◌};
ghost use Rattle.stack_code.specs.Compiled.{routine_code};
ghost use Rattle.stack_code.specs.Placed.{Placed};
ghost use Rattle.typed_trees.specs.Plain.{TypedRoutine};
ghost use Rattle.typed_trees.specs.Views.{view_tree};
ghost use Rattle.code_expr.specs.Contexts.{routine_of, tree_of};
ghost use Rattle.code_stmt.specs.Marked.{Kept, Marked, Stand, handler_at};

use crate::commits::{commit, last_row};
use crate::routines::{add_routine, handler_of, places_of};
use crate::sizes::SizesLeft;
use crate::written::Written;
use code_expr::{Block, Context, count_of, local_starts, slot_starts};
use rapid_num::Memory;
use stack_code::{Marks, Op};
use std::alloc::{AllocError, Global};
use typed_trees::Tree;

/// Appends the operations of a routine, by its number, and to the marks their owners and the place of its ERROR part
/// (RAPID Kernel, routine declarations). The tree is checked, and its `pers_of` and `meeting_of` are filled. The marks
/// have the owners of all of the code and the handlers of the routines before. Fails only if an allocation fails or the
/// code would have 2^32 operations or more; code and marks are then unchanged. The compiler calls `add_marked`, which
/// shares the starts of the modules' data; this is for a tool that compiles one routine.
pub fn emit_routine(
    alloc: Global,
    tree: &Tree,
    routine: u32,
    code: &mut Vec<Op>,
    marks: &mut Marks,
) -> Result<(), Memory>
    requires { routine < length tree.now.routines.items }
    ensures laid { OnOk result ((r : TypedRoutine) (placed : List Placed) → slice_get (view_tree tree.now).routines routine ≡ Some r → Stand code.old.items marks.old.owners.items placed → Stand code.new.items marks.new.owners.items (placed ++ routine_code (view_tree tree.now) (length placed) r [])) }
    ensures handler { OnOk result ((r : TypedRoutine) → slice_get (view_tree tree.now).routines routine ≡ Some r → marks.new.handlers.items ≡ marks.old.handlers.items ++ handler_at (view_tree tree.now) r (length code.old.items) ∷ []) }
    ensures kept { OnErr result (Kept code.old.items code.new.items marks.old marks.new) }
{
    match emit_numbered(alloc, tree, routine, code, marks) {
        Ok(()) => Ok(()),
        Err(_) => Err(Memory),
    }
}

/// The same, with the error type of what it calls.
fn emit_numbered(
    alloc: Global,
    tree: &Tree,
    routine: u32,
    code: &mut Vec<Op>,
    marks: &mut Marks,
) -> Result<(), AllocError>
    requires { routine < length tree.now.routines.items }
    ensures laid { OnOk result ((r : TypedRoutine) → slice_get (view_tree tree.now).routines routine ≡ Some r → Marked (view_tree tree.now) r code.old.items code.new.items marks.old marks.new) }
    ensures kept { OnErr result (Kept code.old.items code.new.items marks.old marks.new) }
{
    let here = &tree.routines[routine as usize];
    let slots = slot_starts(alloc, tree)?;
    let locals = local_starts(alloc, here)?;
    let context = Context::new(alloc, tree, here, &slots, &locals);
    add_marked(&context, code, marks)
}

/// Appends the operations of the routine of a context, and to the marks their owners and the place of its ERROR part.
/// Fails only if an allocation fails or the code would have 2^32 operations or more; code and marks are then unchanged.
pub fn add_marked(
    context: &Context<'_>,
    code: &mut Vec<Op>,
    marks: &mut Marks,
) -> Result<(), AllocError>
    ensures laid { OnOk result (Marked (tree_of context.now) (routine_of context.now) code.old.items code.new.items marks.old marks.new) }
    ensures kept { OnErr result (Kept code.old.items code.new.items marks.old marks.new) }
{
    let start = count_of(code.len())?;
    let places = places_of(context, start)?;
    let mut out = Written {
        code: Block::new(context.alloc(), start),
        owners: last_row(context.alloc(), &marks.owners)?,
    };
    let mut sizes = SizesLeft::new(places.sizes);
    add_routine(context, &places.labels, &mut sizes, &mut out)?;
    commit(code, marks, out, handler_of(context, places.part))
}
