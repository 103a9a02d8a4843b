ghost use Rattle.std.specs.Prelude.{◌≡◌, ◌≤◌, ◌<◌, ◌↔◌, [], length, take, OnOk, OnErr, IfErr};
ghost use Rattle.name_tables.specs.Names.{found_in, entered};
ghost use Rattle.name_tables.specs.declared.not_entered.NotEntered.TheVariants.{Long};

use crate::key::{Key, key_of};
use crate::name_key::NameKey;
use crate::not_entered::NotEntered;
use indexmap::IndexMap;
use rapid_limits::LONGEST_NAME;
use std::alloc::Global;
use std::marker::Model;

/// The value of each name in a scope. Of names that are equal but for case, the first wins. Contracts see it as the
/// list of the lowercase names with their values.
#[derive(Drop)]
pub struct NameTable<V> {
    entries: IndexMap<Key, V>,
}

impl<V> Model for NameTable<V> {
    ghost use Rattle.std.specs.Prelude.{map};
    ghost use Rattle.name_tables.specs.Names.{NameList, entry_of, AreShort};

    ghost Value = { NameList V };

    ghost view = { λ t. map entry_of t.entries.entries };

    // No name has more than 32 bytes.
    ghost invariant = { λ t. AreShort (map entry_of t.entries.entries) };
}

impl<V: Copy + Drop> NameTable<V> {
    /// An empty table.
    pub fn new(alloc: Global) -> NameTable<V>
        ensures { result ≡ [] }
    {
        NameTable {
            entries: IndexMap::new(alloc),
        }
    }

    /// The value of the name, case-insensitive. `None` exactly if the table does not have the name.
    pub fn find(&self, name: &[u8]) -> Option<V>
        ensures { result ≡ found_in name.now self.now }
    {
        if self.entries.is_empty() {
            return None;
        }
        self.find_key(&NameKey::new(name))
    }

    /// As `find`, with a key that can be looked up in other tables too.
    pub fn find_key(&self, name: &NameKey<'_>) -> Option<V>
        ensures { result ≡ found_in name.now self.now }
    {
        let entries = &self.entries;
        if entries.is_empty() {
            return None;
        }
        let key = name.key()?;
        entries.get(key).copied()
    }

    /// The value of the name, if it is among the `count` names that were entered first.
    pub fn find_among_first(&self, count: usize, name: &NameKey<'_>) -> Option<V>
        ensures { result ≡ found_in name.now (take count self.now) }
    {
        let (index, _, value) = self.entries.get_full(name.key()?)?;
        if index < count { Some(*value) } else { None }
    }

    /// How many names there are.
    pub fn len(&self) -> usize
        ensures { result ≡ length self.now }
    {
        self.entries.len()
    }

    /// Enters a name. If the table already has it, the old value stays.
    pub fn enter(&mut self, name: &[u8], value: V) -> Result<(), NotEntered>
        ensures ok { OnOk result (self.new ≡ entered name.now value self.old) }
        ensures short { OnOk result (length name.now ≤ LONGEST_NAME) }
        ensures err { IfErr result (λ e. (e ≡ Long) ↔ (LONGEST_NAME < length name.now)) }
        ensures unchanged { OnErr result (self.new ≡ self.old) }
    {
        let Some(key) = key_of(name) else {
            return Err(NotEntered::Long);
        };
        self.entries.entry(key)?.or_insert(value);
        Ok(())
    }
}
