//! Labels and jumps (RAPID Kernel, GOTO and labels).

ghost use Rattle.raw_trees.specs.Views.{view_name};
ghost use Rattle.typed_trees.specs.Views.{view_stmt};
ghost use Rattle.rule_checks.specs.TypeChecks.{Gives};
ghost use Rattle.named_data.specs.Views.{view_site};
ghost use Rattle.stmt_types.specs.Bodies;
ghost use Rattle.stmt_types.specs.Views.{view_around, view_body};

use crate::around::Around;
use crate::body::Body;
use crate::labels::is_visible;
use named_data::{Site, must};
use raw_trees::RawName;
use rule_checks::{TypeFault, TypeRule};
use typed_trees::Stmt;

/// A label, which must be the only one with its name in the routine.
pub(crate) fn labelled(
    body: &Body<'_, '_>,
    site: &Site<'_>,
    at: usize,
    name: &RawName<'_>,
) -> Result<Stmt, TypeFault>
    ensures { Gives view_stmt result (Bodies.labelled (view_body body.now) (view_site site.now) at (view_name name.now)) }
{
    let holds = body.labels.is_first(name);
    must(site, holds, at, TypeRule::LabelTwice)?;
    let number = body.labels.number(name.text)?;
    Ok(Stmt::label(at, number))
}

/// GOTO, to a label in its own list or in an enclosing one.
pub(crate) fn jumped(
    body: &Body<'_, '_>,
    around: &Around<'_, '_>,
    site: &Site<'_>,
    at: usize,
    name: &RawName<'_>,
) -> Result<Stmt, TypeFault>
    ensures { Gives view_stmt result (Bodies.jumped (view_body body.now) (view_around around.now) (view_site site.now) at (view_name name.now)) }
{
    let holds = is_visible(name.text, around.levels);
    must(site, holds, at, TypeRule::NoLabel)?;
    let number = body.labels.number(name.text)?;
    Ok(Stmt::goto(at, number))
}
