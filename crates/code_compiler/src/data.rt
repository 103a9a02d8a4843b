//! The code's tables of a task's data and names. Each fails only if an allocation fails.

ghost use Rattle.std.specs.Prelude.{◌≡◌, flat_map, IfOk};
ghost use Rattle.stack_code.specs.Compiled;
ghost use Rattle.typed_trees.specs.Views.{view_tree};

use rapid_model::NameText;
use stack_code::PersSort;
use std::alloc::{AllocError, Global};
use typed_trees::{Datum, Tree};

/// The first values of the modules' data, one for each element.
pub(crate) fn slots_of(alloc: Global, tree: &Tree) -> Result<Vec<Datum>, AllocError>
    ensures { IfOk result (λ slots. slots.items ≡ flat_map (λ row. row.first) (view_tree tree.now).slots) }
{
    let mut slots = Vec::new(alloc);
    for row in &tree.slots {
        row.first.append_to(alloc, &mut slots)?;
    }
    Ok(slots)
}

/// The names of all tasks of the script.
pub(crate) fn tasks_of(alloc: Global, tree: &Tree) -> Result<Vec<NameText>, AllocError>
    ensures { IfOk result (λ tasks. tasks.items ≡ (view_tree tree.now).tasks) }
{
    let mut tasks = Vec::with_capacity(alloc, tree.tasks.len())?;
    for name in &tree.tasks {
        tasks.push(name.copy())?;
    }
    Ok(tasks)
}

/// The type of each persistent, by its number in the cell.
pub(crate) fn sorts_of(alloc: Global, tree: &Tree) -> Result<Vec<PersSort>, AllocError>
    ensures { IfOk result (λ sorts. sorts.items ≡ Compiled.sorts_of (view_tree tree.now).pers_of (view_tree tree.now).pers) }
{
    let mut sorts = Vec::new(alloc);
    for (number, row) in tree.pers_of.iter().zip(tree.pers.iter()) {
        let sort = PersSort {
            pers: *number,
            sort: row.sort,
        };
        sorts.push(sort)?;
    }
    Ok(sorts)
}
