ghost use Rattle.std.specs.Prelude.{◌≡◌, [], ◌∷◌, ◌++◌, Ok, length};
ghost use Rattle.cell_assembly.specs.Cells;
ghost use Rattle.cell_assembly.specs.Views.{Gives};

use crate::cell_fault::CellFault;
use crate::number::number_of;
use name_tables::NameTable;
use rapid_model::NameText;
use std::alloc::Global;
use std::marker::Model;

/// The meetings of the cell so far, and a table of their numbers by name. Contracts see the list of the names.
#[derive(Drop)]
pub(crate) struct MeetingNames {
    names: Vec<NameText>,
    numbers: NameTable<u32>,
}

impl Model for MeetingNames {
    ghost use Rattle.std.specs.Prelude.{ℕ, List};
    ghost use Rattle.name_tables.specs.Names.{Finds};
    ghost use Rattle.cell_assembly.specs.Cells;

    ghost Value = { List (List ℕ) };

    ghost view = { λ m. m.names.items };

    // The table finds the first meeting with each name.
    ghost invariant = { λ m. Finds m.numbers (λ name. Cells.meeting_number name m.names.items) };
}

impl MeetingNames {
    /// No meetings.
    pub(crate) fn new(alloc: Global) -> MeetingNames
        ensures { result ≡ [] }
    {
        MeetingNames {
            names: Vec::new(alloc),
            numbers: NameTable::new(alloc),
        }
    }

    /// How many there are.
    pub(crate) fn len(&self) -> usize
        ensures { result ≡ length self.now }
    {
        self.names.len()
    }

    /// The number of the first meeting with this name, case-insensitively.
    pub(crate) fn meeting_number(&self, name: &NameText) -> Option<u32>
        ensures { result ≡ Cells.meeting_number name.now self.now }
    {
        self.numbers.find(name.bytes())
    }

    /// Adds a meeting. Fails only if an allocation fails.
    pub(crate) fn with_name(self, name: NameText) -> Result<MeetingNames, CellFault>
        ensures { Gives (λ meetings. meetings) result (Ok (self ++ name ∷ [])) }
    {
        let MeetingNames { names, numbers } = self;
        let mut names = names;
        let mut numbers = numbers;
        let number = number_of(names.len())?;
        numbers.enter(name.bytes(), number)?;
        names.push(name)?;
        Ok(MeetingNames { names, numbers })
    }

    /// The names, in order.
    pub(crate) fn into_names(self) -> Vec<NameText>
        ensures { result.items ≡ self }
    {
        self.names
    }
}
