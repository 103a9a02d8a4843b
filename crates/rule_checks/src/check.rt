//! Checking a rule of names and types.

ghost use Rattle.std.specs.Prelude.{◌≡◌};
ghost use Rattle.rule_checks.specs.Checks.{must};
ghost use Rattle.rule_checks.specs.TypeChecks.{Gives, at_spot};
ghost use Rattle.rule_checks.specs.declared.fault.TypeFault.TheVariants.{Rule};

use crate::fault::TypeFault;
use crate::rule::TypeRule;
use crate::spot::Spot;

/// Fails with the rule at the spot unless `holds`.
pub fn must(holds: bool, spot: Spot, rule: TypeRule) -> Result<(), TypeFault>
    ensures { Gives (λ u. u) result (must holds (at_spot spot rule)) }
{
    if holds {
        return Ok(());
    }
    Err(broken(spot, rule))
}

/// The fault for a rule broken at the spot.
pub fn broken(spot: Spot, rule: TypeRule) -> TypeFault
    ensures { result ≡ Rule spot.«module» spot.at rule }
{
    TypeFault::Rule {
        module: spot.module,
        at: spot.at,
        rule,
    }
}
