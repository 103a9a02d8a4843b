ghost use Rattle.std.specs.Prelude.{◌≡◌, ◌<◌, true, not, length, map, is_ok, is_some, IfOk, OnOk, OnErr, IsTrue};
ghost use Rattle.std.specs.Borrow.{sem};
ghost use Rattle.rapid_model.specs.Paths.{fits_part, has_element, part_sort};
ghost use Rattle.rapid_model.specs.declared.sort.Sort.TheVariants as sorts;
ghost use Rattle.rapid_model.specs.declared.value.Value.TheVariants as values;
ghost use Rattle.rapid_values.specs.Values.{part_of};
ghost use Rattle.persist_store.specs.Stores.{IsStored, element_of, first_row, row_at};
ghost use Rattle.persist_store.specs.Lending.{rests_if_refused};

use crate::index_range::IndexRange;
use crate::laying::laid_out;
use crate::part::Part;
use crate::place::Place;
use crate::rows::Rows;
use crate::seen::Seen;
use rapid_model::{Cell, Path, Value};
use rapid_num::Memory;
use std::alloc::Global;
use std::marker::Model;

/// The values of a cell's persistents. All nums are in one row, all bools in another, all texts in a third, and a
/// persistent is a place in one of them. Contracts see the persistents by number, each with its type, its length if it
/// is an array, and a value for each element (RAPID Kernel, data declarations: persistents).
#[derive(Debug, Drop)]
pub struct Store {
    places: Vec<Place>,
    rows: Rows,
}

impl Model for Store {
    ghost use Rattle.std.specs.Prelude.{List, map};
    ghost use Rattle.persist_store.specs.Stores.{PersData};

    ghost Value = { List PersData };

    ghost use Rattle.persist_store.specs.Rows.{IsLaid, row_of};

    ghost view = { λ s. map (row_of s.rows) s.places.items };

    ghost invariant = { λ s. IsLaid s.rows s.places.items };
}

impl Store {
    /// Each persistent with its first values. Fails only if an allocation fails, or a row has 2^32 items.
    pub fn new(alloc: Global, cell: &Cell) -> Result<Store, Memory>
        ensures { IfOk result (λ s. s ≡ map first_row cell.now.pers) }
    {
        // Brings in the limits of cells.
        let _steps = cell.steps();
        match laid_out(alloc, cell) {
            Ok((places, rows)) => Ok(Store { places, rows }),
            Err(_) => Err(Memory),
        }
    }

    /// The part of a persistent that the path names. The persistent exists, and its type has the part. `IndexRange`
    /// exactly if it has no such element.
    pub fn get(&self, pers: u32, path: &Path) -> Result<Value, IndexRange>
        requires there { pers < length self.now }
        requires part { IsTrue (is_some (part_sort (row_at self.now pers).sort path.now.part)) }
        ensures range { is_ok result ≡ has_element (row_at self.now pers).len path.now.index }
        ensures part { IfOk result (λ value. part_of (element_of (row_at self.now pers) path.now.index) path.now.part ≡ Some value) }
        ensures fits { IfOk result (λ value. IsTrue (fits_part (row_at self.now pers).sort path.now.part value)) }
    {
        Ok(self.part(pers, path)?.value())
    }

    /// Lends the part of a persistent that the path names, as it is now. The persistent exists, and its type has the
    /// part. `IndexRange` exactly if it has no such element.
    pub fn part(&self, pers: u32, path: &Path) -> Result<Seen<'_>, IndexRange>
        requires there { pers < length self.now }
        requires part { IsTrue (is_some (part_sort (row_at self.now pers).sort path.now.part)) }
        ensures range { is_ok result ≡ has_element (row_at self.now pers).len path.now.index }
        ensures part { IfOk result (λ seen. part_of (element_of (row_at self.now pers) path.now.index) path.now.part ≡ Some seen) }
        ensures fits { IfOk result (λ seen. IsTrue (fits_part (row_at self.now pers).sort path.now.part seen)) }
    {
        let spot = self.places[pers as usize].spot(path)?;
        Ok(Seen {
            rows: &self.rows,
            spot,
        })
    }

    /// Lends the part of a persistent that the path names, for writing. The persistent exists. `IndexRange` exactly if
    /// it has no such element; then nothing changes.
    pub fn part_mut(&mut self, pers: u32, path: &Path) -> Result<Part<'_>, IndexRange>
        requires there { pers < length self.old }
        ensures range { is_ok result ≡ has_element (row_at self.old pers).len path.now.index }
        ensures lent { IfOk result (λ part. (part.store.now ≡ self.old) × (part.pers ≡ pers) × (part.path ≡ path.now)) }
        ensures same_reference { IfOk result (λ part. part.store.ghost_name ≡ self.entry.ghost_name) }
        ensures* stays { sem 𝓛 (rests_if_refused self.entry result) }
    {
        if !self.places[pers as usize].has_element(path.index) {
            return Err(IndexRange);
        }
        let path = *path;
        Ok(Part {
            store: self,
            pers,
            path,
        })
    }

    /// Sets the part of a persistent that the path names, a bool, to TRUE, and returns whether it was FALSE. The
    /// persistent exists. `IndexRange` exactly if it has no such element; then nothing changes (RAPID Instructions,
    /// Functions and Data types: TestAndSet, WaitTestAndSet).
    pub fn test_and_set(&mut self, pers: u32, path: &Path) -> Result<bool, IndexRange>
        requires there { pers < length self.old }
        requires bool { part_sort (row_at self.old pers).sort path.now.part ≡ Some sorts.Bool }
        ensures range { is_ok result ≡ has_element (row_at self.old pers).len path.now.index }
        ensures was { IfOk result (λ met. part_of (element_of (row_at self.old pers) path.now.index) path.now.part ≡ Some (values.Bool (not met))) }
        ensures set { OnOk result (IsStored self.old self.new pers path.now (values.Bool true)) }
        ensures stays { OnErr result (self.new ≡ self.old) }
    {
        let was = self.part(pers, path)?.same(&Value::Bool(true));
        self.put(pers, path, &Value::Bool(true));
        Ok(!was)
    }

    /// Puts a value in as the part of a persistent that the path names; everything else stays the same. The persistent
    /// and its element exist, and the value fits the part.
    pub(crate) fn put(&mut self, pers: u32, path: &Path, value: &Value)
        requires there { pers < length self.old }
        requires element { IsTrue (has_element (row_at self.old pers).len path.now.index) }
        requires fits { IsTrue (fits_part (row_at self.old pers).sort path.now.part value.now) }
        ensures { IsStored self.old self.new pers path.now value.now }
    {
        if let Ok(spot) = self.places[pers as usize].spot(path) {
            self.rows.put(spot.sort, spot.at, value);
        }
    }
}
