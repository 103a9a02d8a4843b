//! Why the modules of a task are rejected.

ghost use Rattle.std.specs.Prelude.{◌≡◌};
ghost use Rattle.rule_checks.specs.declared.fault.TypeFault.TheVariants.{Memory};

use crate::rule::TypeRule;
use name_tables::NotEntered;
use std::alloc::{AllocError, AllocFailed};

/// Why the modules of a task are rejected: the rule, the number of the module from 0 and the byte in it; or out of
/// memory.
#[derive(Debug, Drop)]
pub enum TypeFault {
    Rule {
        module: u32,
        at: usize,
        rule: TypeRule,
    },
    Memory,
}

impl From<AllocError> for TypeFault {
    ghost from_gives = { λ _ e. e ≡ Memory };

    fn from(_e: AllocError) -> TypeFault {
        TypeFault::Memory
    }
}

impl<T: Drop> From<AllocFailed<T>> for TypeFault {
    ghost from_gives = { λ _ e. e ≡ Memory };

    fn from(_e: AllocFailed<T>) -> TypeFault {
        TypeFault::Memory
    }
}

impl From<NotEntered> for TypeFault {
    ghost from_gives = { λ _ e. e ≡ Memory };

    fn from(_e: NotEntered) -> TypeFault {
        TypeFault::Memory
    }
}
