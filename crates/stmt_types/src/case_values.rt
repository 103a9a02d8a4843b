//! The values of a CASE.

ghost use Rattle.std.specs.Prelude.{map};
ghost use Rattle.raw_trees.specs.Views.{view_expr as view_raw};
ghost use Rattle.typed_trees.specs.Plain.{exprs_of};
ghost use Rattle.typed_trees.specs.Views.{view_expr};
ghost use Rattle.rule_checks.specs.TypeChecks.{Gives};
ghost use Rattle.named_data.specs.Views.{view_site};
ghost use Rattle.stmt_types.specs.Bodies;

use expr_types::typed;
use named_data::{Site, Wanted};
use rapid_model::Sort;
use raw_trees::RawExpr;
use rule_checks::TypeFault;
use typed_trees::Expr;

/// The values of a CASE, which must have the type of the tested value (RAPID Kernel, TEST).
pub(crate) fn case_values(
    site: &Site<'_>,
    sort: Sort,
    values: &[RawExpr<'_>],
) -> Result<Vec<Expr>, TypeFault>
    ensures { Gives (λ v. exprs_of (map view_expr v.items)) result (Bodies.case_values (view_site site.now) sort (map view_raw values.now)) }
{
    let mut done = Vec::with_capacity(site.alloc, values.len())?;
    for value in values {
        done.push(typed(site, value, Wanted::Same(sort))?)?;
    }
    Ok(done)
}
