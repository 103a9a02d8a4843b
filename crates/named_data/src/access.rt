//! Where a name may be used, and how its place may be written and passed by reference.

ghost use Rattle.std.specs.Prelude.{◌≡◌};
ghost use Rattle.named_data.specs.Data;

use crate::named::Access;
use data_scopes::Since;
use rapid_model::Mode;
use rule_checks::Spot;

/// Whether the declaration comes before the expression at the spot.
pub(crate) fn is_before(spot: Spot, since: Option<Since>) -> bool
    ensures { result ≡ Data.is_before spot since }
{
    match since {
        Some(since) => {
            since.module < spot.module || (since.module == spot.module && since.at < spot.at)
        }
        None => true,
    }
}

/// How a datum with a place of its own may be written and passed by reference: a VAR as one, a CONST array not at all.
pub(crate) fn access_of(since: Option<Since>) -> Access
    ensures { result ≡ Data.access_of since }
{
    match since {
        Some(_) => Access::Fixed,
        None => Access::Var,
    }
}

/// How what a parameter refers to may be passed on (RAPID Kernel, parameter declarations).
pub(crate) fn access_by(mode: Mode) -> Access
    ensures { result ≡ Data.access_by mode }
{
    match mode {
        Mode::Value | Mode::Var => Access::Var,
        Mode::Pers => Access::Pers,
        Mode::Inout => Access::Either,
    }
}
