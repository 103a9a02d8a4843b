//! The FORs of a routine in text order.

ghost use Rattle.std.specs.Prelude.{◌≡◌, ◌++◌, length, OnOk, IfErr, IfOk};
ghost use Rattle.std.specs.Str.{str_to_ascii_lowercase};
ghost use Rattle.raw_trees.specs.Plain.{stmts_of};
ghost use Rattle.raw_trees.specs.Views.{view_stmt, view_list, view_routine};
ghost use Rattle.data_scopes.specs.Loops.{loops_of, loops_in, loops_in_routine};
ghost use Rattle.data_scopes.specs.Scopes.{loop_named};
ghost use Rattle.rule_checks.specs.declared.fault.TypeFault.TheVariants.{Memory};

use crate::loop_row::LoopRow;
use raw_trees::{RawForm, RawRoutine, RawStmt};
use rule_checks::TypeFault;
use std::alloc::Global;

/// The FOR with this variable, searched outward from the FOR with this number.
pub(crate) fn loop_named(loops: &[LoopRow], name: &[u8], within: Option<u32>) -> Option<u32>
    ensures { result ≡ loop_named (length loops.now) (str_to_ascii_lowercase name.now) loops.now within }
{
    let mut at = within;
    for _step in 0..loops.len() {
        let number = at?;
        let row = loops.get(number as usize)?;
        if row.is_named(name) {
            return Some(number);
        }
        at = row.outer();
    }
    None
}

/// Appends the FORs of a statement that is in the list of the FOR with this number, if any.
#[cycle(loops)]
fn push_loops(
    stmt: &RawStmt<'_>,
    outer: Option<u32>,
    rows: &mut Vec<LoopRow>,
) -> Result<(), TypeFault>
    ensures ok { OnOk result (rows.new.items ≡ rows.old.items ++ loops_of outer (length rows.old.items) (view_stmt stmt.now)) }
    ensures err { IfErr result (λ e. e ≡ Memory) }
{
    match &stmt.form {
        RawForm::For { name, list, .. } => {
            let Ok(number) = u32::try_from(rows.len()) else {
                return Err(TypeFault::Memory);
            };
            rows.push(LoopRow::new(name.text, outer)?)?;
            push_list(list, Some(number), rows)
        }
        RawForm::If { arms, other } => {
            for arm in arms {
                push_list(&arm.1, outer, rows)?;
            }
            match other {
                Some(list) => push_list(list, outer, rows),
                None => Ok(()),
            }
        }
        RawForm::IfOne { then, .. } => push_loops(then, outer, rows),
        RawForm::While { list, .. } => push_list(list, outer, rows),
        RawForm::Test { cases, other, .. } => {
            for case in cases {
                push_list(&case.1, outer, rows)?;
            }
            match other {
                Some(list) => push_list(list, outer, rows),
                None => Ok(()),
            }
        }
        _ => Ok(()),
    }
}

/// Appends the FORs of a list.
#[cycle(loops)]
fn push_list(
    list: &Vec<RawStmt<'_>>,
    outer: Option<u32>,
    rows: &mut Vec<LoopRow>,
) -> Result<(), TypeFault>
    ensures ok { OnOk result (rows.new.items ≡ rows.old.items ++ loops_in outer (length rows.old.items) (stmts_of (view_list list.now))) }
    ensures err { IfErr result (λ e. e ≡ Memory) }
{
    for stmt in list {
        push_loops(stmt, outer, rows)?;
    }
    Ok(())
}

/// The FORs of a routine: those of its statements, then those of its ERROR part.
pub(crate) fn loops_in_routine(
    alloc: Global,
    routine: &RawRoutine<'_>,
) -> Result<Vec<LoopRow>, TypeFault>
    ensures ok { IfOk result (λ rows. rows.items ≡ loops_in_routine (view_routine routine.now)) }
    ensures err { IfErr result (λ e. e ≡ Memory) }
{
    let mut rows = Vec::new(alloc);
    push_list(&routine.list, None, &mut rows)?;
    if let Some(list) = &routine.handler {
        push_list(list, None, &mut rows)?;
    }
    Ok(rows)
}
