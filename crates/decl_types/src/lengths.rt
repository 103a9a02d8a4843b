//! Lengths of arrays (RAPID Kernel, variable declarations).

ghost use Rattle.raw_trees.specs.Views.{view_expr as view_raw};
ghost use Rattle.constant_meaning.specs.Constants.{elements_of};
ghost use Rattle.constant_meaning.specs.declared.outcome.Outcome.TheVariants as outcomes;
ghost use Rattle.rule_checks.specs.TypeChecks.{Gives};
ghost use Rattle.named_data.specs.Views.{view_site};
ghost use Rattle.decl_types.specs.Values;

use constant_meaning::{Arrays, Outcome, constant_value, is_constant};
use data_scopes::begin_of;
use expr_types::typed;
use named_data::{Site, Wanted, fault, must};
use rapid_limits::LONGEST_ARRAY;
use rapid_model::{Sort, Value};
use rapid_values::whole_index;
use raw_trees::RawExpr;
use rule_checks::{TypeFault, TypeRule};

fn length_or_fault(site: &Site<'_>, at: usize, length: Option<u16>) -> Result<u16, TypeFault>
    ensures { Gives (λ n. n) result (Values.length_or_fault (view_site site.now) at length) }
{
    match length {
        Some(length) => Ok(length),
        None => Err(fault(site, at, TypeRule::DimRange)),
    }
}

/// The length that a value is: it must be an integer from 1 to the maximum length.
fn length_by(site: &Site<'_>, at: usize, value: &Value) -> Result<u16, TypeFault>
    ensures { Gives (λ n. n) result (Values.whole_length (view_site site.now) at (outcomes.Value value.now)) }
{
    match value {
        Value::Num(number) => length_or_fault(site, at, whole_index(*number, LONGEST_ARRAY)),
        _ => Err(fault(site, at, TypeRule::DimRange)),
    }
}

/// The length that an outcome is: it must be an integer from 1 to the maximum length.
fn whole_length(site: &Site<'_>, at: usize, outcome: Outcome) -> Result<u16, TypeFault>
    ensures { Gives (λ n. n) result (Values.whole_length (view_site site.now) at outcome) }
{
    match outcome {
        Outcome::Value(value) => length_by(site, at, &value),
        _ => Err(fault(site, at, TypeRule::DimRange)),
    }
}

/// The length of an array.
pub(crate) fn length_at(
    site: &Site<'_>,
    known: &Arrays<'_>,
    value: &RawExpr<'_>,
) -> Result<u16, TypeFault>
    ensures { Gives (λ n. n) result (Values.length_at (view_site site.now) (elements_of known.now) (view_raw value.now)) }
{
    let tree = typed(site, value, Wanted::Is(Sort::Num))?;
    let at = begin_of(value);
    must(site, is_constant(known, &tree), at, TypeRule::NotConst)?;
    whole_length(site, at, constant_value(known, &tree))
}
