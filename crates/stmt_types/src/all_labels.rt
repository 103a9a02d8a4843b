//! All labels of a routine, in text order.

ghost use Rattle.std.specs.Prelude.{◌++◌, Ok};
ghost use Rattle.raw_trees.specs.Plain.{stmts_of};
ghost use Rattle.raw_trees.specs.Views.{view_list, view_routine, view_stmt};
ghost use Rattle.rule_checks.specs.TypeChecks.{Gives};
ghost use Rattle.stmt_types.specs.Labels;

use crate::label_list::LabelList;
use raw_trees::{RawForm, RawRoutine, RawStmt};
use rule_checks::TypeFault;
use std::alloc::Global;

/// Appends the labels of a statement.
#[cycle(labels)]
fn push_stmt<'a>(raw: &RawStmt<'a>, labels: &mut LabelList<'a>) -> Result<(), TypeFault>
    ensures { Gives (λ _. labels.new) result (Ok (labels.old ++ Labels.labels_of (view_stmt raw.now))) }
{
    match &raw.form {
        RawForm::Label(name) => labels.push(*name),
        RawForm::If { arms, other } => {
            for arm in arms {
                push_list(&arm.1, labels)?;
            }
            match other {
                Some(list) => push_list(list, labels),
                None => Ok(()),
            }
        }
        RawForm::IfOne { then, .. } => push_stmt(then, labels),
        RawForm::For { list, .. } => push_list(list, labels),
        RawForm::While { list, .. } => push_list(list, labels),
        RawForm::Test { cases, other, .. } => {
            for case in cases {
                push_list(&case.1, labels)?;
            }
            match other {
                Some(list) => push_list(list, labels),
                None => Ok(()),
            }
        }
        _ => Ok(()),
    }
}

/// Appends the labels of a list.
#[cycle(labels)]
fn push_list<'a>(list: &Vec<RawStmt<'a>>, labels: &mut LabelList<'a>) -> Result<(), TypeFault>
    ensures { Gives (λ _. labels.new) result (Ok (labels.old ++ Labels.labels_in (stmts_of (view_list list.now)))) }
{
    for stmt in list {
        push_stmt(stmt, labels)?;
    }
    Ok(())
}

/// All labels of a routine, in text order: those of its statements, then those of its ERROR part. Fails only if an
/// allocation fails.
pub fn labels_of<'a>(alloc: Global, routine: &RawRoutine<'a>) -> Result<LabelList<'a>, TypeFault>
    ensures { Gives (λ labels. labels) result (Ok (Labels.labels_in_routine (view_routine routine.now))) }
{
    let mut labels = LabelList::new(alloc);
    push_list(&routine.list, &mut labels)?;
    if let Some(list) = &routine.handler {
        push_list(list, &mut labels)?;
    }
    Ok(labels)
}
