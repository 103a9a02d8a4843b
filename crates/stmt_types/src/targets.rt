//! Places that are written.

ghost use Rattle.std.specs.Prelude.{◌≡◌};
ghost use Rattle.raw_trees.specs.Views.{view_expr as view_raw, view_name, view_place as view_raw_place};
ghost use Rattle.typed_trees.specs.Views.{view_place, view_stmt};
ghost use Rattle.rule_checks.specs.TypeChecks.{Gives};
ghost use Rattle.named_data.specs.Data.{named};
ghost use Rattle.named_data.specs.Views.{view_site};
ghost use Rattle.expr_types.specs.Views.{view_part};
ghost use Rattle.stmt_types.specs.Bodies;

use data_scopes::Meant;
use expr_types::{PlacePart, is_fixed, place, typed};
use named_data::{Site, Source, Wanted, fault, must};
use rapid_model::has_values;
use raw_trees::{RawExpr, RawName, RawPlace};
use rule_checks::{TypeFault, TypeRule};
use typed_trees::{Stmt, TreePlace};

/// What the innermost visible declaration of the name means (RAPID Kernel, scope rules).
pub(crate) fn named(site: &Site<'_>, name: &RawName<'_>) -> Option<Meant>
    ensures { result ≡ named (view_site site.now) (view_name name.now) }
{
    site.scopes.find(site.spot, name.text)
}

fn is_signal(meant: Option<Meant>) -> bool
    ensures { result ≡ Bodies.is_signal meant }
{
    matches!(meant, Some(Meant::Signal(_)))
}

/// Checks that the name is not that of a signal, which cannot be assigned.
pub(crate) fn no_signal(site: &Site<'_>, name: &RawName<'_>) -> Result<(), TypeFault>
    ensures { Gives (λ u. u) result (Bodies.no_signal (view_site site.now) (view_name name.now)) }
{
    let holds = !is_signal(named(site, name));
    must(site, holds, name.at, TypeRule::NotThis)
}

/// The place of a part that is written, with its name at this byte.
fn target_from(site: &Site<'_>, at: usize, part: PlacePart) -> Result<TreePlace, TypeFault>
    ensures { Gives view_place result (Bodies.target_from (view_site site.now) at (view_part part) part.source) }
{
    match part.source {
        Source::Place { root, .. } => {
            Ok(TreePlace::new(site.alloc, root, part.index, part.part, part.sort)?)
        }
        _ => Err(fault(site, at, TypeRule::ReadOnly)),
    }
}

/// The place on the left of an assignment (RAPID Kernel, assignments).
fn target(site: &Site<'_>, written: &RawPlace<'_>) -> Result<TreePlace, TypeFault>
    ensures { Gives view_place result (Bodies.target (view_site site.now) (view_raw_place written.now)) }
{
    let at = written.name.at;
    no_signal(site, &written.name)?;
    let part = place(site, written, false)?;
    must(site, has_values(part.sort), at, TypeRule::TypeClash)?;
    let holds = !is_fixed(&part.source);
    must(site, holds, at, TypeRule::ReadOnly)?;
    target_from(site, at, part)
}

/// An assignment of a value to a place.
pub(crate) fn assigned(
    site: &Site<'_>,
    at: usize,
    written: &RawPlace<'_>,
    value: &RawExpr<'_>,
) -> Result<Stmt, TypeFault>
    ensures { Gives view_stmt result (Bodies.assigned (view_site site.now) at (view_raw_place written.now) (view_raw value.now)) }
{
    let place = target(site, written)?;
    let sort = place.sort;
    let value = typed(site, value, Wanted::Is(sort))?;
    Ok(Stmt::assign(at, place, value))
}
