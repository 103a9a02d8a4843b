//! Statements without lists.

ghost use Rattle.std.specs.Prelude.{ℕ, IsTrue};
ghost use Rattle.raw_trees.specs.Views.{view_stmt as view_raw_stmt};
ghost use Rattle.typed_trees.specs.Views.{view_stmt};
ghost use Rattle.rule_checks.specs.TypeChecks.{Gives};
ghost use Rattle.stmt_types.specs.Bodies;
ghost use Rattle.stmt_types.specs.Bodies.{with_next};
ghost use Rattle.stmt_types.specs.Parts.{is_simple};
ghost use Rattle.stmt_types.specs.Views.{view_around, view_body};

use crate::around::{Around, site_at};
use crate::body::Body;
use crate::calls::{called, connected};
use crate::jumps::{jumped, labelled};
use crate::returns::{in_handler, raised, returned};
use crate::targets::assigned;
use raw_trees::{RawForm, RawStmt};
use rule_checks::TypeFault;
use typed_trees::Stmt;

/// The typed form of a statement without lists, whatever the number of the next FOR.
pub(crate) fn simple<'b>(
    raw: &RawStmt<'b>,
    body: &Body<'_, '_>,
    around: &Around<'_, 'b>,
) -> Result<Stmt, TypeFault>
    requires { IsTrue (is_simple (view_raw_stmt raw.now)) }
    ensures { (next : ℕ) → Gives (λ tree. with_next next (view_stmt tree)) result (Bodies.stmt (view_body body.now) (view_raw_stmt raw.now) (view_around around.now) next) }
{
    let at = raw.at;
    let site = site_at(body, around, at);
    match &raw.form {
        RawForm::Assign { place, value } => assigned(&site, at, place, value),
        RawForm::Call { name, args } => called(&site, at, name, args),
        RawForm::Label(name) => labelled(body, &site, at, name),
        RawForm::Goto(name) => jumped(body, around, &site, at, name),
        RawForm::Return(value) => returned(body, &site, at, value),
        RawForm::Exit => Ok(Stmt::exit(at)),
        RawForm::Raise(number) => raised(around, &site, at, number),
        RawForm::Retry => in_handler(around, &site, at, Stmt::retry(at)),
        RawForm::TryNext => in_handler(around, &site, at, Stmt::try_next(at)),
        RawForm::Connect { place, trap } => connected(&site, at, place, trap),
        _ => unreachable!(),
    }
}
