ghost use Rattle.std.specs.Prelude.{◌≡◌, bytes_eq, IfOk, IfErr};
ghost use Rattle.std.specs.Str.{str_to_ascii_lowercase};
ghost use Rattle.rule_checks.specs.declared.fault.TypeFault.TheVariants.{Memory};

use arrayvec::ArrayVec;
use rapid_limits::LONGEST_NAME;
use rule_checks::TypeFault;
use std::marker::Model;

/// A FOR: its variable, and the number of the FOR around it, if any. Contracts see the name in lower case.
#[derive(Drop)]
pub(crate) struct LoopRow {
    name: ArrayVec<u8, LONGEST_NAME>,
    outer: Option<u32>,
}

impl Model for LoopRow {
    ghost use Rattle.std.specs.Str.{str_to_ascii_lowercase};
    ghost use Rattle.data_scopes.specs.Scopes.{Loop};

    ghost Value = { Loop };

    ghost view = { λ r. record { name = str_to_ascii_lowercase r.name.items; outer = r.outer } };
}

impl LoopRow {
    /// The FOR of a variable. Fails only as out of memory, for a name of more than 32 characters.
    pub(crate) fn new(name: &[u8], outer: Option<u32>) -> Result<LoopRow, TypeFault>
        ensures ok { IfOk result (λ row. row ≡ record { name = str_to_ascii_lowercase name.now; outer = outer }) }
        ensures err { IfErr result (λ e. e ≡ Memory) }
    {
        let mut own = ArrayVec::new();
        if own.try_extend_from_slice(name).is_err() {
            return Err(TypeFault::Memory);
        }
        Ok(LoopRow { name: own, outer })
    }

    /// Whether its variable has the name, case-insensitively.
    pub(crate) fn is_named(&self, name: &[u8]) -> bool
        ensures { result ≡ bytes_eq (str_to_ascii_lowercase name.now) self.now.name }
    {
        name.eq_ignore_ascii_case(self.name.as_slice())
    }

    /// The FOR around it.
    pub(crate) fn outer(&self) -> Option<u32>
        ensures { result ≡ self.now.outer }
    {
        self.outer
    }
}
