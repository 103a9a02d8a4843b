//! The rows of a cell's persistents, with their first values.

ghost use Rattle.std.specs.Prelude.{◌≡◌, ◌<◌, length, map, IfOk, IsTrue};
ghost use Rattle.std.specs.List.{list_all};
ghost use Rattle.rapid_model.specs.Sorts.{is_value_of, width};
ghost use Rattle.persist_store.specs.Rows.{IsAdded, IsLaid, row_of};
ghost use Rattle.persist_store.specs.Stores.{first_row};

use crate::place::Place;
use crate::rows::Rows;
use rapid_model::{Cell, PersCell};
use rapid_values::value_is_full;
use std::alloc::{AllocError, Global};

/// The place of each persistent, and the rows. Fails only if an allocation fails, or a row has 2^32 items.
pub(crate) fn laid_out(alloc: Global, cell: &Cell) -> Result<(Vec<Place>, Rows), AllocError>
    ensures rows { IfOk result (λ r. map (row_of r.1) r.0.items ≡ map first_row cell.now.pers) }
    ensures laid { IfOk result (λ r. IsLaid r.1 r.0.items) }
{
    // Brings in the limits of cells.
    let _steps = cell.steps();
    let mut places = Vec::new(alloc);
    let mut rows = Rows::new(alloc);
    for row in cell.pers().as_slice() {
        let place = lay(&mut rows, row)?;
        places.push(place)?;
    }
    Ok((places, rows))
}

/// Appends the first values of a persistent, one per element, to their row.
fn lay(rows: &mut Rows, row: &PersCell) -> Result<Place, AllocError>
    requires some { 0 < width row.now.len }
    requires count { length row.now.first ≡ width row.now.len }
    requires sorts { IsTrue (list_all (is_value_of row.now.sort) row.now.first) }
    ensures { IfOk result (λ place. IsAdded rows.old rows.new row.now place) }
{
    let Ok(from) = u32::try_from(rows.len(row.sort)) else {
        return Err(AllocError);
    };
    for value in row.first.as_slice() {
        value_is_full(value);
        rows.push(value)?;
    }
    Ok(Place {
        sort: row.sort,
        len: row.len,
        from,
    })
}
