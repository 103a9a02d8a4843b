ghost use Rattle.std.specs.Prelude.{◌≡◌, [], ◌∷◌, ◌++◌, Ok, length, map, OnOk, IfErr};
ghost use Rattle.name_tables.specs.Names.{Enters};
ghost use Rattle.cell_assembly.specs.declared.cell_fault.CellFault.TheVariants.{Memory};
ghost use Rattle.cell_assembly.specs.Cells;
ghost use Rattle.cell_assembly.specs.Views.{Gives, view_info};

use crate::cell_fault::CellFault;
use crate::number::number_of;
use crate::pers_info::PersInfo;
use name_tables::NameTable;
use rapid_model::NameText;
use std::alloc::Global;
use std::marker::Model;

/// The persistents of the cell so far, and a table of the global ones by name. Contracts see the list of the
/// persistents.
#[derive(Drop)]
pub(crate) struct Persistents {
    pub(crate) infos: Vec<PersInfo>,
    pub(crate) globals: NameTable<u32>,
}

impl Model for Persistents {
    ghost use Rattle.std.specs.Prelude.{List, map};
    ghost use Rattle.name_tables.specs.Names.{Finds};
    ghost use Rattle.cell_assembly.specs.Cells;
    ghost use Rattle.cell_assembly.specs.Views.{view_info};

    ghost Value = { List Cells.PersInfo };

    ghost view = { λ p. map view_info p.infos.items };

    // The table finds the first global persistent with each name.
    ghost invariant = { λ p. Finds p.globals (λ name. Cells.global_number name (map view_info p.infos.items)) };
}

/// Enters a persistent with this number if it is global and the first of its name. Fails only if an allocation fails.
fn enter_global(table: &mut NameTable<u32>, info: &PersInfo, number: u32) -> Result<(), CellFault>
    ensures ok { OnOk result (Enters table.old table.new (λ name. Cells.is_global name (view_info info.now)) number) }
    ensures err { IfErr result (λ fault. fault ≡ Memory) }
{
    if info.owner.is_some() {
        return Ok(());
    }
    table.enter(info.name.bytes(), number)?;
    Ok(())
}

impl Persistents {
    /// No persistents.
    pub(crate) fn new(alloc: Global) -> Persistents
        ensures { result ≡ [] }
    {
        Persistents {
            infos: Vec::new(alloc),
            globals: NameTable::new(alloc),
        }
    }

    /// How many there are.
    pub(crate) fn len(&self) -> usize
        ensures { result ≡ length self.now }
    {
        self.infos.len()
    }

    /// The number of the first global persistent with this name.
    pub(crate) fn global_number(&self, name: &NameText) -> Option<u32>
        ensures { result ≡ Cells.global_number name.now self.now }
    {
        self.globals.find(name.bytes())
    }

    /// Adds a persistent. Fails only if an allocation fails.
    pub(crate) fn with_info(self, info: PersInfo) -> Result<Persistents, CellFault>
        ensures { Gives (λ pers. pers) result (Ok (self ++ view_info info ∷ [])) }
    {
        let Persistents { infos, globals } = self;
        let mut infos = infos;
        let mut globals = globals;
        let number = number_of(infos.len())?;
        enter_global(&mut globals, &info, number)?;
        infos.push(info)?;
        Ok(Persistents { infos, globals })
    }

    /// The persistents, in order.
    pub(crate) fn into_infos(self) -> Vec<PersInfo>
        ensures { map view_info result.items ≡ self }
    {
        self.infos
    }
}
