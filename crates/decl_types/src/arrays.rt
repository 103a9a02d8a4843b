//! Initial values of arrays.

ghost use Rattle.std.specs.Prelude.{◌≡◌, ◌||◌, ◌==◌, map};
ghost use Rattle.raw_trees.specs.Views.{view_expr as view_raw};
ghost use Rattle.typed_trees.specs.Plain.{exprs_of};
ghost use Rattle.typed_trees.specs.Views.{view_expr};
ghost use Rattle.constant_meaning.specs.Constants.{constant_values, elements_of};
ghost use Rattle.rule_checks.specs.TypeChecks.{Gives};
ghost use Rattle.named_data.specs.Views.{view_site};
ghost use Rattle.decl_types.specs.Parts.{view_brackets};
ghost use Rattle.decl_types.specs.Values;

use crate::brackets::{Brackets, brackets_in};
use crate::single::value_or_fault;
use constant_meaning::{Arrays, are_constant, constant_value};
use data_scopes::begin_of;
use named_data::{Site, must};
use rapid_model::{Sort, Value};
use raw_trees::RawExpr;
use rule_checks::{TypeFault, TypeRule};
use typed_trees::Expr;

/// The values of an array's elements, which must be of its type.
fn values_or_fault(
    site: &Site<'_>,
    at: usize,
    known: &Arrays<'_>,
    sort: Sort,
    elements: &[Expr],
) -> Result<Vec<Value>, TypeFault>
    ensures { Gives (λ v. v.items) result (Values.values_or_fault (view_site site.now) at sort (constant_values (elements_of known.now) (exprs_of (map view_expr elements.now)))) }
{
    let mut values = Vec::with_capacity(site.alloc, elements.len())?;
    for element in elements {
        let value = value_or_fault(site, at, sort, constant_value(known, element))?;
        values.push(value)?;
    }
    Ok(values)
}

/// Whether brackets are the whole value, or have as many elements as the array.
#[tactic(auto, using(crate::proofs::Elements::all_counted))]
fn is_whole_or_full(found: &Brackets, at: usize, len: u16) -> bool
    ensures { result ≡ ((view_brackets found.now).at == at || Values.how_many (view_brackets found.now).elements == len) }
{
    found.at == at || found.elements.len() == usize::from(len)
}

/// The initial value of an array of this length.
pub(crate) fn array_values(
    site: &Site<'_>,
    known: &Arrays<'_>,
    sort: Sort,
    len: u16,
    value: &RawExpr<'_>,
) -> Result<Vec<Value>, TypeFault>
    ensures { Gives (λ v. v.items) result (Values.array_values (view_site site.now) (elements_of known.now) sort len (view_raw value.now)) }
{
    let found = brackets_in(site, sort, value)?;
    let at = begin_of(value);
    let fits = is_whole_or_full(&found, at, len);
    must(site, fits, found.at, TypeRule::DimRange)?;
    must(
        site,
        are_constant(known, &found.elements),
        at,
        TypeRule::NotConst,
    )?;
    let values = values_or_fault(site, at, known, sort, &found.elements)?;
    let holds = values.len() == usize::from(len);
    must(site, holds, found.at, TypeRule::DimRange)?;
    Ok(values)
}
