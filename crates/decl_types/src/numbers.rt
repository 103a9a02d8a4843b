//! How many values data have.

ghost use Rattle.std.specs.Prelude.{◌≡◌, ◌+◌, IfOk, IfErr};
ghost use Rattle.rule_checks.specs.declared.fault.TypeFault.TheVariants.{Memory};

use rule_checks::TypeFault;

/// The count with this many more values.
pub(crate) fn more_values(values: usize, more: usize) -> Result<usize, TypeFault>
    ensures ok { IfOk result (λ n. n ≡ values + more) }
    ensures err { IfErr result (λ e. e ≡ Memory) }
{
    match values.checked_add(more) {
        Some(n) => Ok(n),
        None => Err(TypeFault::Memory),
    }
}
