//! Numbers of what is declared, from 0.

ghost use Rattle.std.specs.Prelude.{◌≡◌, IfOk, IfErr};
ghost use Rattle.rule_checks.specs.declared.fault.TypeFault.TheVariants.{Memory};

use rule_checks::TypeFault;

/// The number of what comes after `count` others. Fails only as out of memory, also for a number past 32 bits.
pub fn number_of(count: usize) -> Result<u32, TypeFault>
    ensures ok { IfOk result (λ n. n ≡ count) }
    ensures err { IfErr result (λ e. e ≡ Memory) }
{
    match u32::try_from(count) {
        Ok(number) => Ok(number),
        Err(_) => Err(TypeFault::Memory),
    }
}
