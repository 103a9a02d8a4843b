//! The length and the initial value of a declared datum (RAPID Kernel, data declarations).

ghost use Rattle.std.specs.Prelude.{◌≡◌, option_map};
ghost use Rattle.raw_trees.specs.Views.{view_datum, view_expr as view_raw};
ghost use Rattle.constant_meaning.specs.Constants.{elements_of, items_of};
ghost use Rattle.rule_checks.specs.TypeChecks.{Gives};
ghost use Rattle.named_data.specs.Views.{view_site};
ghost use Rattle.decl_types.specs.Parts.{view_initial};
ghost use Rattle.decl_types.specs.Values;

use crate::arrays::array_values;
use crate::lengths::length_at;
use crate::single::single_value;
use crate::sites::value_site;
use constant_meaning::Arrays;
use data_scopes::{begin_of, is_const};
use expr_types::typed;
use named_data::{Site, Wanted, fault, must};
use rapid_model::{Sort, Value, has_values};
use raw_trees::{RawDatum, RawExpr};
use rule_checks::{TypeFault, TypeRule};

/// The length of a datum, if it is an array, and the values that its declaration gives, one for each element.
#[derive(Drop)]
pub(crate) struct Initial {
    pub(crate) len: Option<u16>,
    pub(crate) values: Option<Vec<Value>>,
}

/// Data of types without values have no initial value.
fn no_value(site: &Site<'_>, value: &RawExpr<'_>) -> Result<Vec<Value>, TypeFault>
    ensures { Gives (λ v. v.items) result (Values.no_value (view_site site.now) (view_raw value.now)) }
{
    typed(site, value, Wanted::Nothing)?;
    Err(fault(site, begin_of(value), TypeRule::TypeClash))
}

/// The initial value of a datum of this type and length, one value for each element.
fn initial_values(
    site: &Site<'_>,
    known: &Arrays<'_>,
    sort: Sort,
    len: Option<u16>,
    value: &RawExpr<'_>,
) -> Result<Vec<Value>, TypeFault>
    ensures { Gives (λ v. v.items) result (Values.initial_values (view_site site.now) (elements_of known.now) sort len (view_raw value.now)) }
{
    if !has_values(sort) {
        return no_value(site, value);
    }
    match len {
        None => single_value(site, known, sort, value),
        Some(len) => array_values(site, known, sort, len, value),
    }
}

/// The values that a declaration gives, if any.
fn values_at(
    declared: &Site<'_>,
    known: &Arrays<'_>,
    sort: Sort,
    len: Option<u16>,
    first: &Option<RawExpr<'_>>,
) -> Result<Option<Vec<Value>>, TypeFault>
    ensures { Gives items_of result (Values.values_at declared.now.scopes.now declared.now.spot.«module» declared.now.spot.routine (elements_of known.now) sort len (option_map view_raw first.now)) }
{
    match first {
        None => Ok(None),
        Some(value) => {
            let site = value_site(declared, value);
            let values = initial_values(&site, known, sort, len, value)?;
            Ok(Some(values))
        }
    }
}

/// The length of a datum, if it is an array.
fn len_of(
    declared: &Site<'_>,
    known: &Arrays<'_>,
    len: &Option<RawExpr<'_>>,
) -> Result<Option<u16>, TypeFault>
    ensures { Gives (λ n. n) result (Values.len_of declared.now.scopes.now declared.now.spot.«module» declared.now.spot.routine (elements_of known.now) (option_map view_raw len.now)) }
{
    match len {
        None => Ok(None),
        Some(value) => {
            let site = value_site(declared, value);
            let length = length_at(&site, known, value)?;
            Ok(Some(length))
        }
    }
}

/// A CONST without a value is reported at its name.
fn init_rule(declared: &Site<'_>, datum: &RawDatum<'_>) -> Result<(), TypeFault>
    ensures { Gives (λ u. u) result (Values.init_rule declared.now.scopes.now declared.now.spot.«module» declared.now.spot.routine (view_datum datum.now)) }
{
    let holds = datum.first.is_some() || !is_const(datum.kind);
    must(declared, holds, datum.name.at, TypeRule::NoInit)
}

/// The length and the values of a datum of this type, declared in the site's module and routine.
pub(crate) fn initial_of(
    declared: &Site<'_>,
    known: &Arrays<'_>,
    sort: Sort,
    datum: &RawDatum<'_>,
) -> Result<Initial, TypeFault>
    ensures { Gives view_initial result (Values.initial declared.now.scopes.now declared.now.spot.«module» declared.now.spot.routine (elements_of known.now) sort (view_datum datum.now)) }
{
    init_rule(declared, datum)?;
    let len = len_of(declared, known, &datum.len)?;
    let values = values_at(declared, known, sort, len, &datum.first)?;
    Ok(Initial { len, values })
}
