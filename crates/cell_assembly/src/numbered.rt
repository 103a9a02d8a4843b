ghost use Rattle.std.specs.Prelude.{Ok};
ghost use Rattle.cell_assembly.specs.Cells;
ghost use Rattle.cell_assembly.specs.Parts.{view_numbered};
ghost use Rattle.cell_assembly.specs.Views.{Gives, view_info};

use crate::cell_fault::CellFault;
use crate::number::number_of;
use crate::pers_info::PersInfo;
use crate::persistents::Persistents;

/// The persistents of the cell so far, and the numbers of those of the current tree.
#[derive(Drop)]
pub(crate) struct Numbered {
    pub(crate) pers: Persistents,
    pub(crate) numbers: Vec<u32>,
}

/// One more persistent, the tree's own. Fails only if an allocation fails.
pub(crate) fn added(before: Numbered, info: PersInfo) -> Result<Numbered, CellFault>
    ensures { Gives view_numbered result (Ok (Cells.added (view_numbered before) (view_info info))) }
{
    let Numbered { pers, numbers } = before;
    let mut numbers = numbers;
    numbers.push(number_of(pers.len())?)?;
    let pers = pers.with_info(info)?;
    Ok(Numbered { pers, numbers })
}
