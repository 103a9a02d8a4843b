ghost use Rattle.std.specs.Prelude.{◌≡◌, [], ◌∷◌, ◌++◌, Ok, length};
ghost use Rattle.raw_trees.specs.Views.{view_name};
ghost use Rattle.rule_checks.specs.TypeChecks.{Gives};
ghost use Rattle.stmt_types.specs.Labels;

use name_tables::NameTable;
use named_data::number_of;
use raw_trees::RawName;
use rule_checks::TypeFault;
use std::alloc::Global;
use std::marker::Model;

/// Labels in text order; the first one with a name is found by the name (RAPID Kernel, GOTO and labels). Contracts see
/// the list of the labels.
#[derive(Drop)]
pub struct LabelList<'a> {
    labels: Vec<RawName<'a>>,
    firsts: NameTable<u32>,
}

impl<'a> Model for LabelList<'a> {
    ghost use Rattle.std.specs.Prelude.{List, map};
    ghost use Rattle.name_tables.specs.Names.{Finds};
    ghost use Rattle.raw_trees.specs.Plain.{PlainName};
    ghost use Rattle.raw_trees.specs.Views.{view_name};
    ghost use Rattle.stmt_types.specs.Labels;

    ghost Value = { List PlainName };

    ghost view = { λ l. map view_name l.labels.items };

    // The table finds the first label of each name.
    ghost invariant = { λ l. Finds l.firsts (λ text. Labels.label_index text (map view_name l.labels.items)) };
}

impl<'a> LabelList<'a> {
    /// No labels.
    pub(crate) fn new(alloc: Global) -> LabelList<'a>
        ensures { result ≡ [] }
    {
        LabelList {
            labels: Vec::new(alloc),
            firsts: NameTable::new(alloc),
        }
    }

    /// Appends a label. Fails only as out of memory, also for a name of more than 32 characters.
    pub(crate) fn push(&mut self, label: RawName<'a>) -> Result<(), TypeFault>
        ensures { Gives (λ _. self.new) result (Ok (self.old ++ view_name label.entry ∷ [])) }
    {
        let number = number_of(self.labels.len())?;
        self.labels.reserve(1)?;
        self.firsts.enter(label.text, number)?;
        self.labels.push_reserved(label);
        Ok(())
    }

    /// How many there are.
    fn len(&self) -> usize
        ensures { result ≡ length self.now }
    {
        self.labels.len()
    }

    /// The number, from 0, of the first label with this name; how many labels there are if none has it. Fails only as
    /// out of memory, for a number past 32 bits.
    pub(crate) fn number(&self, text: &[u8]) -> Result<u32, TypeFault>
        ensures { Gives (λ n. n) result (Ok (Labels.label_number text.now self.now)) }
    {
        match self.firsts.find(text) {
            Some(number) => Ok(number),
            None => Ok(number_of(self.len())?),
        }
    }

    /// Whether the first label with this name is the one at this byte.
    pub(crate) fn is_first(&self, name: &RawName<'_>) -> bool
        ensures { result ≡ Labels.is_first (view_name name.now) self.now }
    {
        match self.firsts.find(name.text) {
            Some(number) => self.labels[number as usize].at == name.at,
            None => false,
        }
    }

    /// Whether some label has this name.
    pub(crate) fn has(&self, text: &[u8]) -> bool
        ensures { result ≡ Labels.is_visible text.now self.now }
    {
        self.firsts.find(text).is_some()
    }
}
