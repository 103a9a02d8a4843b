ghost use Rattle.std.specs.Prelude.{◌<◌, is_some, IsTrue};
ghost use Rattle.rapid_model.specs.Paths.{fits_part, part_sort};
ghost use Rattle.board_tests.specs.Rows.{row_sort};

use crate::cell::board_cell;
use crate::written::Written;
use persist_store::{IndexRange, Store};
use rapid_model::{PartName, Path, Value};
use std::alloc::Global;
use std::marker::Model;
use std::test::Fail;

/// The store of the persistents of the cell.
#[derive(Drop)]
pub(crate) struct Kept {
    store: Store,
}

impl Model for Kept {
    ghost use Rattle.std.specs.Prelude.{◌≡◌, List};
    ghost use Rattle.persist_store.specs.Stores.{PersData};
    ghost use Rattle.board_tests.specs.Boards.{sorts_of};
    ghost use Rattle.board_tests.specs.Rows.{row_sorts};

    ghost Value = { List PersData };

    ghost view = { λ k. k.store };

    ghost invariant = { λ k. sorts_of k.store ≡ row_sorts };
}

impl Kept {
    #[tactic(auto, using(crate::proofs::Sorts::first_sorts))]
    pub(crate) fn new(alloc: Global) -> Result<Kept, Fail> {
        let cell = board_cell(alloc)?;
        let store = Store::new(alloc, &cell).ok().ok_or("memory")?;
        Ok(Kept { store })
    }

    /// Whether the part of an element is this value, or, if no value is expected, whether there is no such element.
    #[tactic(auto, using(crate::proofs::Sorts::sort_at))]
    pub(crate) fn reads(&self, pers: u32, path: &Path, wanted: Option<Written>) -> bool {
        if !has_part(pers, path.part) {
            return false;
        }
        match (self.store.get(pers, path), wanted) {
            (Err(IndexRange), None) => true,
            (Ok(value), Some(written)) => written.value() == Some(value),
            _ => false,
        }
    }

    /// Puts a value into the part, which it fits; returns false if there is no such element.
    pub(crate) fn puts(&mut self, pers: u32, path: &Path, value: Value) -> bool
        requires there { pers < 6 }
        requires fits { IsTrue (fits_part (row_sort pers) path.now.part value) }
    {
        match self.store.part_mut(pers, path) {
            Ok(part) => {
                part.put(value);
                true
            }
            Err(IndexRange) => false,
        }
    }

    /// Tests and sets an element of the bools.
    pub(crate) fn tests_and_sets(&mut self, index: u16) -> Result<bool, IndexRange> {
        let part = PartName::Whole;
        self.store.test_and_set(1, &Path { index, part })
    }
}

/// Whether there is such a persistent, and its type has the part.
fn has_part(pers: u32, part: PartName) -> bool
    ensures there { IsTrue result → pers < 6 }
    ensures part { IsTrue result → IsTrue (is_some (part_sort (row_sort pers) part)) }
{
    match (pers, part) {
        (0..=5, PartName::Whole) => true,
        (2, PartName::Robax | PartName::Extax) => true,
        (2, PartName::Axis(axis)) => axis < 12,
        (3, PartName::Taskname) => true,
        (4, PartName::SpeedPart(speed)) => speed < 4,
        (5, PartName::Axis(axis)) => (6..12).contains(&axis),
        _ => false,
    }
}
