ghost use Rattle.std.specs.Prelude.{IsTrue};
ghost use Rattle.std.specs.List.{list_all};
ghost use Rattle.rapid_model.specs.Lengths.{is_full};
ghost use Rattle.cell_meaning.specs.Premises.{StartsFull};

use rapid_model::{Cell, Value};
use rapid_values::value_is_full;

/// A law for a given cell: its persistents' first values are as long as their types say.
pub fn starts_full(cell: &Cell)
    ensures { StartsFull cell.now }
{
    let rows = cell.pers().as_slice();
    for row in rows {
        are_full(row.first.as_slice());
    }
}

fn are_full(values: &[Value])
    ensures { IsTrue (list_all is_full values.now) }
{
    for value in values {
        value_is_full(value);
    }
}
