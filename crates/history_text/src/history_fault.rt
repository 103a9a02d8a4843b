//! Why a history could not be read.

ghost use Rattle.std.specs.Prelude.{◌≡◌};
ghost use Rattle.history_text.specs.declared.history_fault.HistoryFault.TheVariants.{Memory};

use std::alloc::{AllocError, AllocFailed};

/// Why a text gave no history.
#[derive(Debug, PartialEq, Eq, Drop)]
pub enum HistoryFault {
    /// The first line, by its number from 1, with which the lines so far no longer start any history.
    Line(u32),
    /// Out of memory.
    Memory,
}

impl From<AllocError> for HistoryFault {
    ghost from_gives = { λ _ e. e ≡ Memory };

    fn from(_e: AllocError) -> HistoryFault {
        HistoryFault::Memory
    }
}

impl<T: Drop> From<AllocFailed<T>> for HistoryFault {
    ghost from_gives = { λ _ e. e ≡ Memory };

    fn from(_e: AllocFailed<T>) -> HistoryFault {
        HistoryFault::Memory
    }
}
