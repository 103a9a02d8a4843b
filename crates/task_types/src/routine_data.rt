ghost use Rattle.std.specs.Prelude.{◌≡◌, drop, map};
ghost use Rattle.typed_trees.specs.Views.{view_local};
ghost use Rattle.data_scopes.specs.Scopes.{list_at};

use std::alloc::Global;
use std::marker::Model;
use std::vec::IntoIter;
use typed_trees::LocalRow;

/// The rows of the data of the remaining routines: a list for each, in the order of the routines.
#[derive(Drop)]
pub(crate) struct RoutineData {
    rows: IntoIter<Vec<LocalRow>>,
}

impl Model for RoutineData {
    ghost use Rattle.std.specs.Prelude.{List, map};
    ghost use Rattle.std.specs.Vec.Iter.{into_iter_items};
    ghost use Rattle.typed_trees.specs.Plain.{TypedLocal};
    ghost use Rattle.typed_trees.specs.Views.{view_local};

    ghost Value = { List (List TypedLocal) };

    ghost view = { λ d. map (λ rows. map view_local rows.items) (into_iter_items d.rows) };
}

impl RoutineData {
    /// The rows of all routines.
    pub(crate) fn new(rows: Vec<Vec<LocalRow>>) -> RoutineData
        ensures { result ≡ map (λ rows. map view_local rows.items) rows.items }
    {
        RoutineData {
            rows: rows.into_iter(),
        }
    }

    /// Takes the rows of the next routine.
    pub(crate) fn next(&mut self, alloc: Global) -> Vec<LocalRow>
        ensures taken { map view_local result.items ≡ list_at self.old 0 }
        ensures left { self.new ≡ drop 1 self.old }
    {
        match self.rows.next() {
            Some(rows) => rows,
            None => Vec::new(alloc),
        }
    }
}
