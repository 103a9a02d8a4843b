ghost use Rattle.std.specs.Prelude.{◌≡◌};
ghost use Rattle.name_tables.specs.declared.not_entered.NotEntered.TheVariants.{Memory};

use std::alloc::AllocFailed;

/// Why a name was not entered: it has more than 32 bytes, or out of memory.
#[derive(Clone, Copy, Debug, PartialEq, Eq)]
pub enum NotEntered {
    Long,
    Memory,
}

impl<T: Drop> From<AllocFailed<T>> for NotEntered {
    ghost from_gives = { λ _ e. e ≡ Memory };

    fn from(_e: AllocFailed<T>) -> NotEntered {
        NotEntered::Memory
    }
}
