ghost use Rattle.std.specs.Prelude.{◌<◌, length, IsTrue};
ghost use Rattle.rapid_model.specs.Paths.{fits_part, has_element};
ghost use Rattle.persist_store.specs.Stores.{IsStored, row_at};

use crate::store::Store;
use rapid_model::{Path, Value};

/// A part of a persistent that a store lends for writing: nothing else can be changed through it (RAPID Kernel, data
/// references). It holds the store and copies nothing.
#[derive(Drop)]
pub struct Part<'a> {
    pub(crate) store: &'a mut Store,
    pub(crate) pers: u32,
    pub(crate) path: Path,
    ghost there: { pers < length store.now },
    ghost element: { IsTrue (has_element (row_at store.now pers).len path.index) },
}

impl Part<'_> {
    /// Puts a value in as the part, which it fits. All other parts, elements and persistents stay the same (RAPID
    /// Kernel, assignment).
    pub fn put(self, value: Value)
        requires fits { IsTrue (fits_part (row_at self.store.now self.pers).sort self.path.part value) }
        ensures { IsStored self.entry.store.now self.exit.0.now self.entry.pers self.entry.path value }
    {
        let Part { store, pers, path } = self;
        store.put(pers, &path, &value);
    }

    /// The same with a borrowed value.
    pub fn copy_from(self, value: &Value)
        requires fits { IsTrue (fits_part (row_at self.store.now self.pers).sort self.path.part value.now) }
        ensures { IsStored self.entry.store.now self.exit.0.now self.entry.pers self.entry.path value.now }
    {
        let Part { store, pers, path } = self;
        store.put(pers, &path, value);
    }
}
