//! The persistents of a cell, and for each tree the numbers of its own.

ghost use Rattle.std.specs.Prelude.{[], Ok, map};
ghost use Rattle.typed_trees.specs.Views.{view_tree};
ghost use Rattle.cell_assembly.specs.Cells;
ghost use Rattle.cell_assembly.specs.Parts.{view_lists, view_numbered, view_pers_tables};
ghost use Rattle.cell_assembly.specs.Views.{Gives};

use crate::cell_fault::CellFault;
use crate::number::next;
use crate::numbered::Numbered;
use crate::one_pers::all_pers;
use crate::pers_tables::PersTables;
use crate::persistents::Persistents;
use std::alloc::Global;
use typed_trees::Tree;

/// The numbers of one more tree's persistents. Fails only if an allocation fails.
fn with_list(lists: Vec<Vec<u32>>, tree: Numbered) -> Result<PersTables, CellFault>
    ensures { Gives view_pers_tables result (Ok (Cells.with_list (record { pers = []; lists = view_lists lists }) (view_numbered tree))) }
{
    let Numbered { pers, numbers } = tree;
    let mut lists = lists;
    lists.push(numbers)?;
    Ok(PersTables { pers, lists })
}

/// The persistents of the trees, one per task.
pub(crate) fn trees_pers(alloc: Global, trees: &[Tree]) -> Result<PersTables, CellFault>
    ensures { Gives view_pers_tables result (Cells.trees_pers (record { pers = []; lists = [] }) 0 (map view_tree trees.now)) }
{
    let mut tables = PersTables {
        pers: Persistents::new(alloc),
        lists: Vec::new(alloc),
    };
    let mut task = 0;
    for tree in trees {
        let PersTables { pers, lists } = tables;
        let none = Numbered {
            pers,
            numbers: Vec::new(alloc),
        };
        let numbered = all_pers(alloc, none, task, &tree.pers)?;
        tables = with_list(lists, numbered)?;
        task = next(task)?;
    }
    Ok(tables)
}
