//! Initial values of data that are not arrays.

ghost use Rattle.std.specs.Prelude.{◌≡◌};
ghost use Rattle.raw_trees.specs.Views.{view_expr as view_raw};
ghost use Rattle.constant_meaning.specs.Constants.{elements_of};
ghost use Rattle.rule_checks.specs.TypeChecks.{Gives};
ghost use Rattle.named_data.specs.Views.{view_site};
ghost use Rattle.decl_types.specs.Values;

use constant_meaning::{Arrays, Outcome, constant_value, is_constant};
use data_scopes::begin_of;
use expr_types::typed;
use named_data::{Site, Wanted, fault, must};
use rapid_model::{Sort, Value, is_value_of};
use raw_trees::RawExpr;
use rule_checks::{TypeFault, TypeRule};

/// The value of an initial value, which must be of the type.
pub(crate) fn value_or_fault(
    site: &Site<'_>,
    at: usize,
    sort: Sort,
    outcome: Outcome,
) -> Result<Value, TypeFault>
    ensures { Gives (λ v. v) result (Values.value_or_fault (view_site site.now) at sort outcome) }
{
    match outcome {
        Outcome::Value(value) => {
            must(site, is_value_of(sort, &value), at, TypeRule::ConstFault)?;
            Ok(value)
        }
        _ => Err(fault(site, at, TypeRule::ConstFault)),
    }
}

/// The initial value of a datum that is not an array, as a list of one.
pub(crate) fn single_value(
    site: &Site<'_>,
    known: &Arrays<'_>,
    sort: Sort,
    value: &RawExpr<'_>,
) -> Result<Vec<Value>, TypeFault>
    ensures { Gives (λ v. v.items) result (Values.single_value (view_site site.now) (elements_of known.now) sort (view_raw value.now)) }
{
    let tree = typed(site, value, Wanted::Is(sort))?;
    let at = begin_of(value);
    must(site, is_constant(known, &tree), at, TypeRule::NotConst)?;
    let first = value_or_fault(site, at, sort, constant_value(known, &tree))?;
    let mut values = Vec::with_capacity(site.alloc, 1)?;
    values.push(first)?;
    Ok(values)
}
