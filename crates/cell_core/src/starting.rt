//! The actors before the first event.

ghost use Rattle.std.specs.Prelude.{◌≡◌, true, IfOk};
ghost use Rattle.std.specs.List.{list_all};
ghost use Rattle.rapid_model.specs.Lengths.{is_full};
ghost use Rattle.cell_meaning.specs.Premises.{StartsFull};
ghost use Rattle.cell_core.specs.Boards.{actors_of};

use crate::actor::Actor;
use rapid_model::{Cell, PersCell, TaskRow, Value};
use rapid_values::value_is_full;
use std::alloc::{AllocError, Global};

/// The tasks, each with its arm, and the input script, which has none.
pub(crate) fn actors_of(alloc: Global, rows: &[TaskRow]) -> Result<Vec<Actor>, AllocError>
    ensures { IfOk result (λ actors. actors.items ≡ actors_of rows.now) }
{
    let mut actors = Vec::new(alloc);
    for row in rows {
        actors.push(Actor::new(row.arm))?;
    }
    actors.push(Actor::new(None))?;
    Ok(actors)
}

/// The initial values of a cell's persistents are values of a program: their lists have the lengths of their types.
pub(crate) fn starts_full(cell: &Cell)
    ensures { StartsFull cell.now }
{
    rows_are_full(cell.pers().as_slice());
}

fn rows_are_full(rows: &[PersCell])
    ensures { list_all (λ row. list_all is_full row.first) rows.now ≡ true }
{
    for row in rows {
        are_full(row.first.as_slice());
    }
}

fn are_full(values: &[Value])
    ensures { list_all is_full values.now ≡ true }
{
    for value in values {
        value_is_full(value);
    }
}
