ghost use Rattle.std.specs.Prelude.{◌≡◌};
ghost use Rattle.cell_script.specs.declared.fault.ScriptFault.TheVariants.{Memory};

use rapid_model::{ScriptRule, Text};
use std::alloc::{AllocError, AllocFailed};

/// Why a script was refused.
#[derive(Debug, Drop)]
pub enum ScriptFault {
    /// The first broken rule, and the key where it is broken; the empty key means the script as a whole.
    Rule { key: Text, rule: ScriptRule },
    /// An allocation failed.
    Memory,
}

impl From<AllocError> for ScriptFault {
    ghost from_gives = { λ _ fault. fault ≡ Memory };

    fn from(_error: AllocError) -> ScriptFault {
        ScriptFault::Memory
    }
}

impl<T: Drop> From<AllocFailed<T>> for ScriptFault {
    ghost from_gives = { λ _ fault. fault ≡ Memory };

    fn from(_failed: AllocFailed<T>) -> ScriptFault {
        ScriptFault::Memory
    }
}
