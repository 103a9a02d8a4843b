ghost use Rattle.std.specs.Prelude.{◌≡◌};
ghost use Rattle.cell_assembly.specs.declared.cell_fault.CellFault.TheVariants.{Memory};

use name_tables::NotEntered;
use rapid_model::{ScriptRule, Text};
use std::alloc::{AllocError, AllocFailed};

/// Why no cell is made of a script and its tasks' trees.
#[derive(Debug, Drop)]
pub enum CellFault {
    /// Two declarations of one persistent differ in type or length. The later one is here: its task, the number of its
    /// module there, and the byte of its name.
    Clash { task: u32, module: u32, at: usize },
    /// A value of a persistent in the script: its key, and the broken rule.
    Script { key: Text, rule: ScriptRule },
    /// An allocation failed.
    Memory,
}

impl From<AllocError> for CellFault {
    ghost from_gives = { λ _ fault. fault ≡ Memory };

    fn from(_error: AllocError) -> CellFault {
        CellFault::Memory
    }
}

impl<T: Drop> From<AllocFailed<T>> for CellFault {
    ghost from_gives = { λ _ fault. fault ≡ Memory };

    fn from(_failed: AllocFailed<T>) -> CellFault {
        CellFault::Memory
    }
}

impl From<NotEntered> for CellFault {
    ghost from_gives = { λ _ fault. fault ≡ Memory };

    fn from(_not_entered: NotEntered) -> CellFault {
        CellFault::Memory
    }
}
