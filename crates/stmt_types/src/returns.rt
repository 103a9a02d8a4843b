//! Statements that leave a routine or its ERROR part.

ghost use Rattle.std.specs.Prelude.{◌≡◌, option_map};
ghost use Rattle.raw_trees.specs.Views.{view_expr as view_raw};
ghost use Rattle.typed_trees.specs.Views.{view_stmt};
ghost use Rattle.rule_checks.specs.TypeChecks.{Gives};
ghost use Rattle.named_data.specs.Views.{view_site};
ghost use Rattle.stmt_types.specs.Bodies;
ghost use Rattle.stmt_types.specs.Views.{view_around, view_body};

use crate::around::Around;
use crate::body::Body;
use expr_types::typed;
use named_data::{Site, Wanted, fault, must};
use rapid_model::{RoutineKind, Sort};
use raw_trees::RawExpr;
use rule_checks::{TypeFault, TypeRule};
use typed_trees::Stmt;

/// RETURN with a value, in a routine of this kind and result type: a function returns a value of its type; no other
/// routine returns one (RAPID Kernel, RETURN).
fn returned_value(
    site: &Site<'_>,
    at: usize,
    value: &RawExpr<'_>,
    kind: RoutineKind,
    sort: Option<Sort>,
) -> Result<Stmt, TypeFault>
    ensures { Gives view_stmt result (Bodies.returned_value (view_site site.now) at (view_raw value.now) kind sort) }
{
    match (kind, sort) {
        (RoutineKind::Func, Some(sort)) => {
            let value = typed(site, value, Wanted::Is(sort))?;
            Ok(Stmt::returns(at, Some(value)))
        }
        _ => {
            typed(site, value, Wanted::Any)?;
            Err(fault(site, at, TypeRule::ReturnKind))
        }
    }
}

fn is_function(kind: RoutineKind) -> bool
    ensures { result ≡ Bodies.is_function kind }
{
    matches!(kind, RoutineKind::Func)
}

/// RETURN (RAPID Kernel, RETURN).
pub(crate) fn returned(
    body: &Body<'_, '_>,
    site: &Site<'_>,
    at: usize,
    value: &Option<RawExpr<'_>>,
) -> Result<Stmt, TypeFault>
    ensures { Gives view_stmt result (Bodies.returned (view_body body.now) (view_site site.now) at (option_map view_raw value.now)) }
{
    match value {
        None => {
            must(site, !is_function(body.kind), at, TypeRule::ReturnKind)?;
            Ok(Stmt::returns(at, None))
        }
        Some(value) => {
            let sort = site.scopes.routine_result(body.routine);
            returned_value(site, at, value, body.kind, sort)
        }
    }
}

/// RAISE; outside an ERROR part it needs an error number (RAPID Kernel, error recovery).
pub(crate) fn raised(
    around: &Around<'_, '_>,
    site: &Site<'_>,
    at: usize,
    number: &Option<RawExpr<'_>>,
) -> Result<Stmt, TypeFault>
    ensures { Gives view_stmt result (Bodies.raised (view_around around.now) (view_site site.now) at (option_map view_raw number.now)) }
{
    match number {
        None => in_handler(around, site, at, Stmt::raise(at, None)),
        Some(number) => {
            let number = typed(site, number, Wanted::Is(Sort::Num))?;
            Ok(Stmt::raise(at, Some(number)))
        }
    }
}

/// A statement that is allowed only in an ERROR part.
pub(crate) fn in_handler(
    around: &Around<'_, '_>,
    site: &Site<'_>,
    at: usize,
    stmt: Stmt,
) -> Result<Stmt, TypeFault>
    ensures { Gives view_stmt result (Bodies.in_handler (view_around around.now) (view_site site.now) at (view_stmt stmt)) }
{
    must(site, around.handler, at, TypeRule::HandlerOnly)?;
    Ok(stmt)
}
