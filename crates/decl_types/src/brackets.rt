//! Brackets that are the initial value of an array (RAPID Kernel, aggregates).

ghost use Rattle.std.specs.Prelude.{◌≡◌, map};
ghost use Rattle.raw_trees.specs.Plain;
ghost use Rattle.raw_trees.specs.Plain.{exprs_of as raw_exprs_of};
ghost use Rattle.raw_trees.specs.Views.{view_expr as view_raw};
ghost use Rattle.typed_trees.specs.Plain.{exprs_of};
ghost use Rattle.typed_trees.specs.Views.{view_expr};
ghost use Rattle.rule_checks.specs.TypeChecks.{Gives};
ghost use Rattle.named_data.specs.Views.{view_site};
ghost use Rattle.decl_types.specs.Parts.{view_brackets};
ghost use Rattle.decl_types.specs.Values;

use data_scopes::begin_of;
use expr_types::typed;
use named_data::{Site, Wanted, fault};
use rapid_model::Sort;
use raw_trees::{RawExpr, RawExprForm};
use rule_checks::{TypeFault, TypeRule};
use typed_trees::Expr;

/// The brackets of an array: where they start, and the elements.
#[derive(Drop)]
pub(crate) struct Brackets {
    pub(crate) at: usize,
    pub(crate) elements: Vec<Expr>,
}

/// Elements of an array, each of the array's type.
fn array_elements(
    site: &Site<'_>,
    sort: Sort,
    elements: &[RawExpr<'_>],
) -> Result<Vec<Expr>, TypeFault>
    ensures { Gives (λ es. exprs_of (map view_expr es.items)) result (Values.array_elements (view_site site.now) sort (raw_exprs_of (map view_raw elements.now))) }
{
    let mut trees = Vec::with_capacity(site.alloc, elements.len())?;
    for element in elements {
        let tree = typed(site, element, Wanted::Is(sort))?;
        trees.push(tree)?;
    }
    Ok(trees)
}

/// Brackets and their elements.
fn brackets_at(
    site: &Site<'_>,
    sort: Sort,
    at: usize,
    elements: &[RawExpr<'_>],
) -> Result<Brackets, TypeFault>
    ensures { Gives view_brackets result (Values.brackets (view_site site.now) sort (Plain.Aggregate at (raw_exprs_of (map view_raw elements.now)))) }
{
    let elements = array_elements(site, sort, elements)?;
    Ok(Brackets { at, elements })
}

/// The initial value of an array must be brackets; parentheses pass this on.
pub(crate) fn brackets_in(
    site: &Site<'_>,
    sort: Sort,
    value: &RawExpr<'_>,
) -> Result<Brackets, TypeFault>
    ensures { Gives view_brackets result (Values.brackets (view_site site.now) sort (view_raw value.now)) }
{
    match &value.form {
        RawExprForm::Aggregate(elements) => brackets_at(site, sort, value.at, elements),
        RawExprForm::Group(inner) => brackets_in(site, sort, inner),
        _ => {
            typed(site, value, Wanted::Nothing)?;
            Err(fault(site, begin_of(value), TypeRule::TypeClash))
        }
    }
}
