//! The rules for a declared name and for the name of its type.

ghost use Rattle.std.specs.Prelude.{◌≡◌};
ghost use Rattle.raw_trees.specs.Views.{view_datum, view_name};
ghost use Rattle.data_scopes.specs.Declarations;
ghost use Rattle.data_scopes.specs.Scopes.{meant_in};
ghost use Rattle.rule_checks.specs.TypeChecks.{Gives};

use crate::meant::Meant;
use crate::numbers::{is_const, is_pers};
use crate::own::is_own;
use crate::sorts::sort_of;
use crate::tables::NameTables;
use name_tables::NameKey;
use rapid_model::{Sort, has_values};
use raw_trees::{RawDatum, RawName};
use rule_checks::{Spot, TypeFault, TypeRule, broken, must};

/// The spot of a name in a module, or in one of its routines.
pub(crate) fn spot_of(number: u32, routine: Option<u32>, name: &RawName<'_>) -> Spot
    ensures { result ≡ Declarations.spot_of number routine (view_name name.now) }
{
    Spot {
        module: number,
        routine,
        within: None,
        at: name.at,
    }
}

/// The type that a name means, or the rule that it breaks.
pub(crate) fn sort_at(
    tables: &NameTables,
    spot: Spot,
    name: &RawName<'_>,
) -> Result<Sort, TypeFault>
    ensures { Gives (λ s. s) result (Declarations.sort_at tables.now spot (view_name name.now)) }
{
    sort_meant(spot, tables.meaning(spot, name.text))
}

fn sort_meant(spot: Spot, meant: Option<Meant>) -> Result<Sort, TypeFault>
    ensures { Gives (λ s. s) result (Declarations.sort_meant spot meant) }
{
    match meant {
        None => Err(broken(spot, TypeRule::NoName)),
        Some(meant) => match type_of(meant) {
            Some(sort) => Ok(sort),
            None => Err(broken(spot, TypeRule::NotThis)),
        },
    }
}

/// The type that a name means, by what it means.
fn type_of(meant: Meant) -> Option<Sort>
    ensures { result ≡ Declarations.type_of meant }
{
    match meant {
        Meant::Predefined(name) => sort_of(name),
        _ => None,
    }
}

/// The type of a datum, which must suit its kind.
pub(crate) fn datum_sort(
    tables: &NameTables,
    number: u32,
    routine: Option<u32>,
    datum: &RawDatum<'_>,
) -> Result<Sort, TypeFault>
    ensures { Gives (λ s. s) result (Declarations.datum_sort tables.now number routine (view_datum datum.now)) }
{
    let spot = spot_of(number, routine, &datum.sort);
    let sort = sort_at(tables, spot, &datum.sort)?;
    let holds = has_values(sort) || !is_const(datum.kind);
    must(holds, spot, TypeRule::TypeClash)?;
    let holds = has_values(sort) || !is_pers(datum.kind);
    must(holds, spot, TypeRule::PersKind)?;
    Ok(sort)
}

/// The rules for an item's name.
pub(crate) fn item_name_rules(
    tables: &NameTables,
    spot: Spot,
    local: bool,
    own: Meant,
    name: &RawName<'_>,
) -> Result<(), TypeFault>
    ensures { Gives (λ u. u) result (Declarations.item_name_rules tables.now spot local own (view_name name.now)) }
{
    let name = &NameKey::new(name.text);
    let meant = item_meant(tables, spot.module, local, name);
    must(is_own(own, meant), spot, TypeRule::NameTwice)?;
    let holds = tables.outside(name).is_none();
    must(holds, spot, TypeRule::NameTaken)
}

/// What the name means in the scope of a module's items.
fn item_meant(tables: &NameTables, number: u32, local: bool, name: &NameKey<'_>) -> Option<Meant>
    ensures { result ≡ meant_in name.now (Declarations.item_scope tables.now number local) }
{
    if local {
        return tables.own(number, name);
    }
    tables.task(name)
}
