//! Names that stand alone.

ghost use Rattle.std.specs.Prelude.{◌≡◌, option_map};
ghost use Rattle.raw_trees.specs.Views.{view_expr as view_raw, view_name, view_place};
ghost use Rattle.rule_checks.specs.TypeChecks.{Gives};
ghost use Rattle.named_data.specs.Data;
ghost use Rattle.named_data.specs.Views.{view_site};
ghost use Rattle.expr_types.specs.Arguments;
ghost use Rattle.expr_types.specs.Places;

use data_scopes::Meant;
use named_data::{Site, datum_at, part_at};
use raw_trees::{RawExpr, RawExprForm, RawName, RawPlace};
use rule_checks::TypeFault;

/// What the innermost visible declaration of the name means (RAPID Kernel, scope rules).
pub(crate) fn named(site: &Site<'_>, name: &RawName<'_>) -> Option<Meant>
    ensures { result ≡ Data.named (view_site site.now) (view_name name.now) }
{
    site.scopes.find(site.spot, name.text)
}

/// Checks that the components after a name are those of the datum that it means, if it means one here.
pub(crate) fn known_parts(site: &Site<'_>, raw: &RawPlace<'_>) -> Result<(), TypeFault>
    ensures { Gives (λ u. u) result (Places.known_parts (view_site site.now) (view_place raw.now)) }
{
    match datum_at(site, &raw.name) {
        Ok(datum) => {
            part_at(site, datum.sort, &raw.parts)?;
            Ok(())
        }
        Err(TypeFault::Rule { .. }) => Ok(()),
        Err(TypeFault::Memory) => Err(TypeFault::Memory),
    }
}

/// Whether an expression is a place with neither index nor components.
pub(crate) fn is_whole(raw: &RawExpr<'_>) -> bool
    ensures { result ≡ Arguments.is_whole (view_raw raw.now) }
{
    bare_name(raw).is_some()
}

/// Whether a place has neither index nor components.
pub(crate) fn is_datum(raw: &RawPlace<'_>) -> bool
    ensures { result ≡ Places.is_datum (view_place raw.now) }
{
    raw.index.is_none() && raw.parts.is_empty()
}

/// The name that an expression is, if it has neither index nor components.
pub(crate) fn bare_name<'a>(raw: &RawExpr<'a>) -> Option<RawName<'a>>
    ensures { option_map view_name result ≡ Arguments.bare (view_raw raw.now) }
{
    match &raw.form {
        RawExprForm::Place(place) => {
            if is_datum(place) {
                return Some(place.name);
            }
            None
        }
        _ => None,
    }
}

/// Whether an expression is just this name.
pub(crate) fn is_bare(text: &[u8], raw: &RawExpr<'_>) -> bool
    ensures { result ≡ Arguments.is_bare text.now (view_raw raw.now) }
{
    match bare_name(raw) {
        Some(name) => text.eq_ignore_ascii_case(name.text),
        None => false,
    }
}
