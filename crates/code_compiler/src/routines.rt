//! Links routines in order. Each fails only if an allocation fails or a count is 2^32 or more.

ghost use Rattle.std.specs.Prelude.{◌≡◌, [], map, flat_map, IfOk, OnOk};
ghost use Rattle.rapid_meaning.specs.Frames.{first_values};
ghost use Rattle.rapid_meaning.specs.Layouts.{slot_widths};
ghost use Rattle.stack_code.specs.Compiled;
ghost use Rattle.stack_code.specs.Firsts.{in_full};
ghost use Rattle.typed_trees.specs.Views.{view_routine, view_tree};
ghost use Rattle.code_expr.specs.Starts.{AreStarts};
ghost use Rattle.code_compiler.specs.Linking.{Links};

use crate::firsts::add_firsts;
use crate::linked::Linked;
use crate::rows::routine_row;
use code_expr::{Context, count_of, local_starts, more, slot_starts, sum};
use code_stmt::{add_marked, routine_need};
use stack_code::Marks;
use std::alloc::{AllocError, Global};
use typed_trees::{Routine, Tree};

/// The routines of a tree.
pub(crate) fn routines_of(alloc: Global, tree: &Tree) -> Result<Linked, AllocError>
    ensures ops { IfOk result (λ l. l.ops.items ≡ map (λ p. p.op) (Compiled.placed_in (view_tree tree.now))) }
    ensures rows { IfOk result (λ l. l.rows.items ≡ Compiled.routine_rows (view_tree tree.now) 0 0 (view_tree tree.now).routines) }
    ensures owners { IfOk result (λ l. l.marks.owners.items ≡ Compiled.owner_rows (Compiled.placed_in (view_tree tree.now))) }
    ensures handlers { IfOk result (λ l. l.marks.handlers.items ≡ Compiled.handlers_of (view_tree tree.now) 0 (view_tree tree.now).routines) }
    ensures firsts { IfOk result (λ l. in_full l.firsts.items ≡ flat_map first_values (view_tree tree.now).routines) }
    ensures deepest { IfOk result (λ l. l.deepest ≡ Compiled.deepest_in (view_tree tree.now) (view_tree tree.now).routines) }
{
    let slots = slot_starts(alloc, tree)?;
    let mut linked = no_routines(alloc);
    for routine in &tree.routines {
        add_routine(alloc, tree, routine, &slots, &mut linked)?;
    }
    Ok(linked)
}

/// No routines.
fn no_routines(alloc: Global) -> Linked
    ensures ops { result.ops.items ≡ [] }
    ensures rows { result.rows.items ≡ [] }
    ensures owners { result.marks.owners.items ≡ [] }
    ensures handlers { result.marks.handlers.items ≡ [] }
    ensures firsts { result.firsts.items ≡ [] }
    ensures values { result.values ≡ 0 }
    ensures deepest { result.deepest ≡ 0 }
{
    Linked {
        ops: Vec::new(alloc),
        rows: Vec::new(alloc),
        marks: Marks {
            owners: Vec::new(alloc),
            handlers: Vec::new(alloc),
        },
        firsts: Vec::new(alloc),
        values: 0,
        deepest: 0,
    }
}

/// Links one more routine of a tree, with the starts of the modules' data.
fn add_routine(
    alloc: Global,
    tree: &Tree,
    routine: &Routine,
    slots: &[u32],
    linked: &mut Linked,
) -> Result<(), AllocError>
    requires { AreStarts slots.now (slot_widths (view_tree tree.now)) }
    ensures { OnOk result (Links (view_tree tree.now) (view_routine routine.now) linked.old linked.new) }
{
    let locals = local_starts(alloc, routine)?;
    let context = Context::new(alloc, tree, routine, slots, &locals);
    let entry = count_of(linked.ops.len())?;
    let deepest = more(linked.deepest, routine_need(&context)?);
    add_marked(&context, &mut linked.ops, &mut linked.marks)?;
    let first = linked.values;
    let values = add_firsts(alloc, routine, &mut linked.firsts)?;
    linked
        .rows
        .push(routine_row(routine, entry, first, values))?;
    linked.values = sum(first, values)?;
    linked.deepest = deepest;
    Ok(())
}
