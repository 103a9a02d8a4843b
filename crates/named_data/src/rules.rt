//! Rules that are reported at a byte of the current module.

ghost use Rattle.std.specs.Prelude.{◌≡◌};
ghost use Rattle.rule_checks.specs.Checks.{must};
ghost use Rattle.rule_checks.specs.TypeChecks.{Gives};
ghost use Rattle.named_data.specs.Rules.{at_byte};
ghost use Rattle.named_data.specs.Views.{view_site};

use crate::site::Site;
use rule_checks::{Spot, TypeFault, TypeRule};

/// The error that a rule is broken at this byte.
pub fn fault(site: &Site<'_>, at: usize, rule: TypeRule) -> TypeFault
    ensures { result ≡ TypeFault.Rule site.now.spot.«module» at rule }
{
    TypeFault::Rule {
        module: site.spot.module,
        at,
        rule,
    }
}

/// Checks that the rule holds; else it is broken at this byte.
pub fn must(site: &Site<'_>, holds: bool, at: usize, rule: TypeRule) -> Result<(), TypeFault>
    ensures { Gives (λ u. u) result (must holds (at_byte (view_site site.now) at rule)) }
{
    let spot = Spot { at, ..site.spot };
    rule_checks::must(holds, spot, rule)
}
