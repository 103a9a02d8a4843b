//! The meetings of a cell, and for each tree the numbers of its own.

ghost use Rattle.std.specs.Prelude.{[], Ok, map};
ghost use Rattle.typed_trees.specs.Views.{view_tree};
ghost use Rattle.cell_assembly.specs.Cells;
ghost use Rattle.cell_assembly.specs.Parts.{view_lists, view_meetings, view_meeting_tables};
ghost use Rattle.cell_assembly.specs.Views.{Gives};

use crate::cell_fault::CellFault;
use crate::meeting_names::MeetingNames;
use crate::meeting_tables::MeetingTables;
use crate::met::Met;
use crate::number::number_of;
use rapid_model::NameText;
use std::alloc::Global;
use typed_trees::Tree;

/// One more name of a meeting, which has this number if it is known. Fails only if an allocation fails.
fn met(before: Met, name: &NameText, number: Option<u32>) -> Result<Met, CellFault>
    ensures { Gives view_meetings result (Ok (Cells.met (view_meetings before) name.now number)) }
{
    let Met { names, numbers } = before;
    let mut numbers = numbers;
    match number {
        Some(number) => {
            numbers.push(number)?;
            Ok(Met { names, numbers })
        }
        None => {
            numbers.push(number_of(names.len())?)?;
            let names = names.with_name(name.copy())?;
            Ok(Met { names, numbers })
        }
    }
}

/// The meetings of a tree, in order. Fails only if an allocation fails.
fn meet_all(before: Met, names: &[NameText]) -> Result<Met, CellFault>
    ensures { Gives view_meetings result (Ok (Cells.meet_all (view_meetings before) names.now)) }
{
    let mut more = before;
    for name in names {
        let number = more.names.meeting_number(name);
        more = met(more, name, number)?;
    }
    Ok(more)
}

/// The numbers of one more tree's meetings. Fails only if an allocation fails.
fn meetings_with(lists: Vec<Vec<u32>>, tree: Met) -> Result<MeetingTables, CellFault>
    ensures { Gives view_meeting_tables result (Ok (Cells.meetings_with (record { names = []; lists = view_lists lists }) (view_meetings tree))) }
{
    let Met { names, numbers } = tree;
    let mut lists = lists;
    lists.push(numbers)?;
    Ok(MeetingTables { names, lists })
}

/// The meetings of the trees, one per task: meetings with the same name are the same. Fails only if an allocation
/// fails.
pub(crate) fn trees_meetings(alloc: Global, trees: &[Tree]) -> Result<MeetingTables, CellFault>
    ensures { Gives view_meeting_tables result (Ok (Cells.trees_meetings (record { names = []; lists = [] }) (map view_tree trees.now))) }
{
    let mut tables = MeetingTables {
        names: MeetingNames::new(alloc),
        lists: Vec::new(alloc),
    };
    for tree in trees {
        let MeetingTables { names, lists } = tables;
        let none = Met {
            names,
            numbers: Vec::new(alloc),
        };
        let all = meet_all(none, &tree.meetings)?;
        tables = meetings_with(lists, all)?;
    }
    Ok(tables)
}
