//! The routines of a task's modules, in order.

ghost use Rattle.std.specs.Prelude.{[], List, map, IfOk};
ghost use Rattle.raw_trees.specs.Views.{view_item, view_module};
ghost use Rattle.typed_trees.specs.Plain.{TypedLocal};
ghost use Rattle.typed_trees.specs.Views.{view_local, view_routine};
ghost use Rattle.rule_checks.specs.TypeChecks.{Gives};
ghost use Rattle.task_types.specs.Task;
ghost use Rattle.task_types.specs.Views.{view_routines, HasLeft};

use crate::routine::typed_routine;
use crate::routine_data::RoutineData;
use crate::routine_list::RoutineList;
use data_scopes::{Scopes, number_after};
use named_data::number_of;
use raw_trees::{RawItem, RawModule};
use rule_checks::TypeFault;
use std::alloc::Global;
use typed_trees::{LocalRow, Routine};

/// Adds an item of the module with this number to these routines; a routine takes the rows of its data.
fn item_bodies(
    alloc: Global,
    scopes: &Scopes,
    number: u32,
    item: &RawItem<'_>,
    routines: RoutineList,
) -> Result<RoutineList, TypeFault>
    ghost locals: { List (List TypedLocal) }
    requires { HasLeft locals routines }
    ensures gives { Gives view_routines result (Task.item_bodies scopes.now locals number (view_item item.now) (view_routines routines)) }
    ensures left { IfOk result (HasLeft locals) }
{
    match item {
        RawItem::Datum { .. } => Ok(routines),
        RawItem::Routine(routine) => {
            let mut routines = routines;
            let own = number_of(routines.typed.len())?;
            let rows = routines.left.next(alloc);
            let typed = typed_routine(alloc, scopes, number, own, routine, rows)?;
            routines.typed.push(typed)?;
            Ok(routines)
        }
    }
}

/// Adds the items of the module with this number to these routines.
fn items_bodies(
    alloc: Global,
    scopes: &Scopes,
    number: u32,
    items: &[RawItem<'_>],
    routines: RoutineList,
) -> Result<RoutineList, TypeFault>
    ghost locals: { List (List TypedLocal) }
    requires { HasLeft locals routines }
    ensures gives { Gives view_routines result (Task.items_bodies scopes.now locals number (map view_item items.now) (view_routines routines)) }
    ensures left { IfOk result (HasLeft locals) }
{
    let mut more = routines;
    for item in items {
        more = item_bodies(alloc, scopes, number, item, more)?;
    }
    Ok(more)
}

/// Adds the routines of the modules to these.
fn modules_bodies(
    alloc: Global,
    scopes: &Scopes,
    modules: &[RawModule<'_>],
    routines: RoutineList,
) -> Result<RoutineList, TypeFault>
    ghost locals: { List (List TypedLocal) }
    requires { HasLeft locals routines }
    ensures { Gives view_routines result (Task.bodies scopes.now locals 0 (map view_module modules.now) (view_routines routines)) }
{
    let mut number = 0;
    let mut more = routines;
    for unit in modules {
        more = items_bodies(alloc, scopes, number, &unit.items, more)?;
        number = number_after(number)?;
    }
    Ok(more)
}

/// The routines of the modules, with the rows of their data, a list for each.
pub(crate) fn bodies(
    alloc: Global,
    scopes: &Scopes,
    modules: &[RawModule<'_>],
    locals: Vec<Vec<LocalRow>>,
) -> Result<Vec<Routine>, TypeFault>
    ensures { Gives (λ v. map view_routine v.items) result (Task.bodies scopes.now (map (λ rows. map view_local rows.items) locals.items) 0 (map view_module modules.now) []) }
{
    let routines = RoutineList {
        typed: Vec::new(alloc),
        left: RoutineData::new(locals),
    };
    let routines = modules_bodies(alloc, scopes, modules, routines)?;
    Ok(routines.typed)
}
