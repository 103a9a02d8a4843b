//! Lengths of arrays.

ghost use Rattle.std.specs.Prelude.{◌≡◌};
ghost use Rattle.rapid_meaning.specs.Layouts;
ghost use Rattle.typed_trees.specs.Plain.{TypedRoutine, TypedTree};
ghost use Rattle.typed_trees.specs.Views.{view_routine, view_tree};
ghost use Rattle.typed_trees.specs.declared.expr.TreeRoot.TheVariants as roots;

use typed_trees::{Routine, Tree};

/// The length of a datum of the modules, if it is an array.
pub(crate) fn slot_length(tree: &Tree, row: u32) -> Option<u16>
    ensures { (r : TypedRoutine) → result ≡ Layouts.length_at (view_tree tree.now) r (roots.Slot row) }
{
    tree.slots.get(row as usize)?.len
}

/// The length of a datum of a routine, if it is an array. The parameters come first and are no arrays.
pub(crate) fn local_length(routine: &Routine, row: u32) -> Option<u16>
    ensures { (t : TypedTree) → result ≡ Layouts.length_at t (view_routine routine.now) (roots.Local row) }
{
    let number = (row as usize).checked_sub(routine.params.len())?;
    routine.locals.get(number)?.len
}

/// The length of a persistent, if it is an array.
pub(crate) fn pers_length(tree: &Tree, row: u32) -> Option<u16>
    ensures { (r : TypedRoutine) → result ≡ Layouts.length_at (view_tree tree.now) r (roots.Pers row) }
{
    tree.pers.get(row as usize)?.len
}
