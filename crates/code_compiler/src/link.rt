ghost use Rattle.std.specs.Prelude.{◌≡◌, IfOk};
ghost use Rattle.stack_code.specs.Compiled.{compiled};
ghost use Rattle.typed_trees.specs.Views.{view_tree};

use crate::data::{slots_of, sorts_of, tasks_of};
use crate::routines::routines_of;
use rapid_num::Memory;
use stack_code::LinkedCode;
use std::alloc::{AllocError, Global};
use typed_trees::Tree;

/// Links the routines of a checked task whose `pers_of` and `meeting_of` are filled. Fails only if an allocation fails
/// or there are 2^32 or more operations or first values.
pub fn link_routines(alloc: Global, tree: &Tree) -> Result<LinkedCode, Memory>
    ensures { IfOk result (λ code. code ≡ compiled (view_tree tree.now)) }
{
    match code_of(alloc, tree) {
        Ok(code) => Ok(code),
        Err(_) => Err(Memory),
    }
}

/// The same, with the error type of what it calls.
fn code_of(alloc: Global, tree: &Tree) -> Result<LinkedCode, AllocError>
    ensures { IfOk result (λ code. code ≡ compiled (view_tree tree.now)) }
{
    let linked = routines_of(alloc, tree)?;
    let slots = slots_of(alloc, tree)?;
    let tasks = tasks_of(alloc, tree)?;
    let sorts = sorts_of(alloc, tree)?;
    Ok(LinkedCode {
        ops: linked.ops,
        routines: linked.rows,
        marks: linked.marks,
        slots,
        firsts: linked.firsts,
        tasks,
        sorts,
        deepest: linked.deepest,
        main: tree.main,
        axes: tree.axes,
    })
}
