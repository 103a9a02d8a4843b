//! The values of a cell's persistents.

ghost use Rattle.std.specs.Prelude.{◌≡◌, ◌<◌, ◌-◌, IfOk, IsTrue, Some, map, slice_get};
ghost use Rattle.rapid_model.specs.Paths.{has_element};
ghost use Rattle.rapid_model.specs.Sorts.{width};
ghost use Rattle.cell_meaning.specs.Stored.{persistent_after, persistents_after};

use cell_core::Core;
use rapid_model::{PartName, Path, PersCell, Value};
use std::alloc::{AllocError, Global};

/// The elements of each persistent after the core's history. Fails only if an allocation fails, or the cell has more
/// than 2^32 persistents.
pub(crate) fn persistents(alloc: Global, core: &Core) -> Result<Vec<Vec<Value>>, AllocError>
    ensures { IfOk result (λ all. map (λ elements. elements.items) all.items ≡ persistents_after core.now.cell core.now.history) }
{
    let mut all = Vec::new(alloc);
    for (number, row) in core.cell().pers().as_slice().iter().enumerate() {
        let Ok(pers) = u32::try_from(number) else {
            return Err(AllocError);
        };
        let values = elements(alloc, core, pers, row)?;
        all.push(values)?;
    }
    Ok(all)
}

/// The elements of the persistent with this number and row.
fn elements(alloc: Global, core: &Core, pers: u32, row: &PersCell) -> Result<Vec<Value>, AllocError>
    requires { slice_get core.now.cell.pers pers ≡ Some row.now }
    ensures { IfOk result (λ elements. elements.items ≡ persistent_after core.now.cell core.now.history pers) }
{
    // Brings in the limits of cells.
    let _steps = core.cell().steps();
    let mut values = Vec::new(alloc);
    for k in 0..element_count(row) {
        values.push(element(core, pers, row, k))?;
    }
    Ok(values)
}

/// The number of elements of a persistent.
fn element_count(row: &PersCell) -> u16
    ensures { result ≡ width row.now.len }
{
    match row.len {
        None => 1,
        Some(len) => len,
    }
}

/// An element of the persistent with this number and row, by its index from 0.
fn element(core: &Core, pers: u32, row: &PersCell, k: u16) -> Value
    requires row { slice_get core.now.cell.pers pers ≡ Some row.now }
    requires within { k < width row.now.len }
    ensures { slice_get (persistent_after core.now.cell core.now.history pers) k ≡ Some result }
{
    let path = Path {
        index: element_number(row, k),
        part: PartName::Whole,
    };
    core.pers(pers, &path)
}

/// The number of an element in paths: from 1 in an array, and 0 for the one of what is none.
fn element_number(row: &PersCell, k: u16) -> u16
    requires { k < width row.now.len }
    ensures there { IsTrue (has_element row.now.len result) }
    ensures same { result - 1 ≡ k }
{
    match row.len {
        None => 0,
        Some(_len) => k + 1,
    }
}
