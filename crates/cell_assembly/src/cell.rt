//! The cell of a script and its trees.

ghost use Rattle.std.specs.Prelude.{◌≡◌, [], length, map, IsTrue, Ok, IfErr};
ghost use Rattle.std.specs.List.{list_all};
ghost use Rattle.rapid_model.specs.CellData.{is_pers_cell};
ghost use Rattle.typed_trees.specs.Sound.{has_sound_pers};
ghost use Rattle.typed_trees.specs.Views.{view_tree};
ghost use Rattle.cell_assembly.specs.Made;
ghost use Rattle.cell_assembly.specs.Views.{Gives, view_info, view_made};

use crate::cell_fault::CellFault;
use crate::make::cell_tables;
use crate::own_numbers::number_trees;
use crate::pers_cells::pers_cells;
use crate::pers_info::PersInfo;
use crate::rows::{copy_signals, copy_zones, task_rows};
use crate::tables::CellTables;
use rapid_model::{Cell, NameText, Script, Sequence};
use std::alloc::Global;
use typed_trees::Tree;

/// The cell of a script and of its tasks' trees. Persistents are numbered by task, module and place, meetings by the
/// first use of their names, and each tree is given the cell's numbers of its own, `pers_of` and `meeting_of`. A
/// persistent starts with the script's values, otherwise with those of the first declaration that gives any, otherwise
/// with the initial values of its type. `Clash` if two declarations of a global persistent differ in type or length, at
/// the later one; `Script` if a value of the script fits no persistent, with its key and rule. Then, and after out of
/// memory, the trees stay the same.
pub fn make_cell(alloc: Global, script: &Script, trees: &mut [Tree]) -> Result<Cell, CellFault>
    requires one_each { length trees.old ≡ length script.now.tasks }
    requires sound { IsTrue (list_all has_sound_pers (map view_tree trees.old)) }
    ensures made { Gives (view_made (map view_tree trees.new)) result (Made.make_cell script.now (map view_tree trees.old)) }
    ensures unchanged { IfErr result (λ _. trees.new ≡ trees.old) }
{
    let CellTables {
        pers,
        pers_of,
        meetings,
        meeting_of,
    } = cell_tables(alloc, script.pers().as_slice(), trees)?;
    let cell = cell_of(alloc, script, &pers, meetings)?;
    number_trees(trees, pers_of, meeting_of);
    Ok(cell)
}

/// The cell of a script, with these persistents and meetings. Fails only if an allocation fails.
fn cell_of(
    alloc: Global,
    script: &Script,
    pers: &[PersInfo],
    meetings: Vec<NameText>,
) -> Result<Cell, CellFault>
    requires { IsTrue (list_all (is_pers_cell (length script.now.tasks)) (map Made.pers_cell (map view_info pers.now))) }
    ensures { Gives (λ cell. cell) result (Ok (Made.cell_of script.now (record { pers = map view_info pers.now; pers_of = []; meetings = meetings.items; meeting_of = [] }))) }
{
    let steps = script.steps();
    let tasks = task_rows(alloc, script.tasks().as_slice())?;
    let signals = copy_signals(alloc, script.signals().as_slice())?;
    let first = pers_cells(alloc, pers)?;
    let zones = copy_zones(alloc, script.zones().as_slice())?;
    let inputs = Vec::from_slice(alloc, script.inputs().as_slice())?;
    Ok(Cell {
        steps,
        tasks: Sequence::from_vec(tasks),
        signals: Sequence::from_vec(signals),
        pers: Sequence::from_vec(first),
        meetings: Sequence::from_vec(meetings),
        zones: Sequence::from_vec(zones),
        inputs: Sequence::from_vec(inputs),
    })
}
