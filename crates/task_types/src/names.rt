//! Names of a typed tree.

ghost use Rattle.std.specs.Prelude.{Ok};
ghost use Rattle.rule_checks.specs.TypeChecks.{Gives};

use rapid_model::NameText;
use rule_checks::TypeFault;
use std::alloc::Global;

/// A copy of the names. Fails only if an allocation fails.
pub(crate) fn copied_names(alloc: Global, names: &[NameText]) -> Result<Vec<NameText>, TypeFault>
    ensures { Gives (λ v. v.items) result (Ok names.now) }
{
    let mut copies = Vec::new(alloc);
    for name in names {
        copies.push(name.copy())?;
    }
    Ok(copies)
}
