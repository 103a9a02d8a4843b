//! The labels of a list, and those around it (RAPID Kernel, GOTO and labels).

ghost use Rattle.std.specs.Prelude.{◌≡◌, ◌++◌, not, Ok};
ghost use Rattle.raw_trees.specs.Plain.{stmts_of, MoreStmts, NoStmts};
ghost use Rattle.raw_trees.specs.Views.{view_list, view_stmt};
ghost use Rattle.rule_checks.specs.TypeChecks.{Gives};
ghost use Rattle.named_data.specs.Data.{is_empty};
ghost use Rattle.stmt_types.specs.Labels;
ghost use Rattle.stmt_types.specs.Labels.{labels_around};

use crate::label_list::LabelList;
use raw_trees::{RawForm, RawStmt};
use rule_checks::TypeFault;
use std::alloc::Global;

/// Whether some label of these lists has this name.
pub(crate) fn is_visible(text: &[u8], levels: &[&LabelList<'_>]) -> bool
    ensures { result ≡ Labels.is_visible text.now (labels_around levels.now) }
{
    for level in levels {
        if level.has(text) {
            return true;
        }
    }
    false
}

fn is_label(stmt: &RawStmt<'_>) -> bool
    ensures { result ≡ not (is_empty (Labels.own_labels (MoreStmts (view_stmt stmt.now) NoStmts))) }
{
    matches!(stmt.form, RawForm::Label(_))
}

/// Whether a list has labels of its own.
pub(crate) fn has_labels(list: &Vec<RawStmt<'_>>) -> bool
    ensures { result ≡ not (is_empty (Labels.own_labels (stmts_of (view_list list.now)))) }
{
    for stmt in list {
        if is_label(stmt) {
            return true;
        }
    }
    false
}

/// Appends the label that a statement is, if it is one.
fn push_own<'a>(labels: &mut LabelList<'a>, stmt: &RawStmt<'a>) -> Result<(), TypeFault>
    ensures { Gives (λ _. labels.new) result (Ok (labels.old ++ Labels.own_labels (MoreStmts (view_stmt stmt.now) NoStmts))) }
{
    match &stmt.form {
        RawForm::Label(name) => labels.push(*name),
        _ => Ok(()),
    }
}

/// A list's own labels.
pub(crate) fn own_labels<'a>(
    alloc: Global,
    list: &Vec<RawStmt<'a>>,
) -> Result<LabelList<'a>, TypeFault>
    ensures { Gives (λ labels. labels) result (Ok (Labels.own_labels (stmts_of (view_list list.now)))) }
{
    let mut labels = LabelList::new(alloc);
    for stmt in list {
        push_own(&mut labels, stmt)?;
    }
    Ok(labels)
}

/// The labels of a list, then those of the enclosing lists.
pub(crate) fn levels_within<'a, 'b>(
    alloc: Global,
    own: &'a LabelList<'b>,
    around: &[&'a LabelList<'b>],
) -> Result<Vec<&'a LabelList<'b>>, TypeFault>
    ensures { Gives (λ v. labels_around v.items) result (Ok (own.now ++ labels_around around.now)) }
{
    let mut levels = Vec::new(alloc);
    levels.push(own)?;
    for level in around {
        levels.push(*level)?;
    }
    Ok(levels)
}
