ghost use Rattle.std.specs.Prelude.{map};
ghost use Rattle.typed_trees.specs.Views.{view_tree};
ghost use Rattle.cell_assembly.specs.Cells;
ghost use Rattle.cell_assembly.specs.Views.{Gives, view_tables};

use crate::cell_fault::CellFault;
use crate::giving::give_all;
use crate::meeting_tables::MeetingTables;
use crate::meetings::trees_meetings;
use crate::pers_tables::PersTables;
use crate::tables::CellTables;
use crate::trees::trees_pers;
use rapid_model::PersValue;
use std::alloc::Global;
use typed_trees::Tree;

/// The persistents and meetings of a cell of these trees, one per task in script order, with the script's values.
pub fn cell_tables(
    alloc: Global,
    values: &[PersValue],
    trees: &[Tree],
) -> Result<CellTables, CellFault>
    ensures { Gives view_tables result (Cells.cell_tables values.now (map view_tree trees.now)) }
{
    let PersTables {
        pers,
        lists: pers_of,
    } = trees_pers(alloc, trees)?;
    let pers = give_all(pers, values)?.into_infos();
    let MeetingTables {
        names,
        lists: meeting_of,
    } = trees_meetings(alloc, trees)?;
    Ok(CellTables {
        pers,
        pers_of,
        meetings: names.into_names(),
        meeting_of,
    })
}
