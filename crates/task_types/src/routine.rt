//! A routine with its statements.

ghost use Rattle.std.specs.Prelude.{◌≡◌, List, map, option_map};
ghost use Rattle.raw_trees.specs.Views.{view_list as view_raw_list, view_routine as view_raw};
ghost use Rattle.typed_trees.specs.Plain.{TypedLocal};
ghost use Rattle.typed_trees.specs.Views.{view_local, view_routine};
ghost use Rattle.rule_checks.specs.TypeChecks.{Gives};
ghost use Rattle.data_scopes.specs.Scopes.{list_at};
ghost use Rattle.stmt_types.specs.Views.{view_body};
ghost use Rattle.task_types.specs.Task;
ghost use Rattle.task_types.specs.Views.{view_handler};

use crate::params::typed_params;
use crate::typed_handler::TypedHandler;
use data_scopes::Scopes;
use named_data::name_text;
use raw_trees::{RawRoutine, RawStmt};
use rule_checks::TypeFault;
use std::alloc::Global;
use stmt_types::{Body, labels_of, typed_list};
use typed_trees::{LocalRow, Routine};

/// The ERROR part of a routine, given the number of the next FOR.
fn handler_of(
    body: &Body<'_, '_>,
    handler: &Option<Vec<RawStmt<'_>>>,
    next: u32,
) -> Result<TypedHandler, TypeFault>
    ensures { Gives view_handler result (Task.handler_of (view_body body.now) (option_map view_raw_list handler.now) next) }
{
    match handler {
        None => Ok(TypedHandler { list: None, next }),
        Some(list) => {
            let typed = typed_list(body, list, true, next)?;
            Ok(TypedHandler {
                list: Some(typed.list),
                next: typed.next,
            })
        }
    }
}

/// The routine with this number, in the module with this number, with the rows of its data.
pub(crate) fn typed_routine(
    alloc: Global,
    scopes: &Scopes,
    module: u32,
    number: u32,
    routine: &RawRoutine<'_>,
    rows: Vec<LocalRow>,
) -> Result<Routine, TypeFault>
    ghost locals: { List (List TypedLocal) }
    requires { map view_local rows.items ≡ list_at locals number }
    ensures { Gives view_routine result (Task.typed_routine scopes.now locals «module» number (view_raw routine.now)) }
{
    let labels = labels_of(alloc, routine)?;
    let body = Body {
        alloc,
        scopes,
        module,
        routine: number,
        kind: routine.kind,
        labels: &labels,
    };
    let typed = typed_list(&body, &routine.list, false, 0)?;
    let handler = handler_of(&body, &routine.handler, typed.next)?;
    let name = name_text(routine.name.text)?;
    let params = typed_params(alloc, &routine.params, scopes.routine_params(number))?;
    Ok(Routine {
        name,
        module,
        kind: routine.kind,
        result: scopes.routine_result(number),
        params,
        locals: rows,
        list: typed.list,
        handler: handler.list,
        loops: handler.next,
        at: routine.at,
    })
}
