//! Indices of the variables of FORs.

ghost use Rattle.std.specs.Prelude.{Ok};
ghost use Rattle.rule_checks.specs.TypeChecks.{Gives};
ghost use Rattle.stmt_types.specs.Bodies;
ghost use Rattle.stmt_types.specs.Views.{view_body};

use crate::body::Body;
use rule_checks::TypeFault;

/// The index of the variable of the FOR with this number, after the parameters and data of its routine. Fails only as
/// out of memory, also for a number past 32 bits.
pub(crate) fn counter_index(body: &Body<'_, '_>, number: u32) -> Result<u32, TypeFault>
    ensures { Gives (λ n. n) result (Ok (Bodies.counter_index (view_body body.now) number)) }
{
    let before = body.scopes.data_count(Some(body.routine));
    let Ok(first) = u32::try_from(before) else {
        return Err(TypeFault::Memory);
    };
    match first.checked_add(number) {
        Some(index) => Ok(index),
        None => Err(TypeFault::Memory),
    }
}
