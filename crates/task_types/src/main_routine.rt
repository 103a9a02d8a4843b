//! The procedure main (RAPID Overview, modules).

ghost use Rattle.std.specs.Prelude.{◌≡◌, ◌+◌, Ok, length, map, option_map};
ghost use Rattle.raw_trees.specs.Views.{view_item, view_module, view_routine};
ghost use Rattle.named_data.specs.Views.{view_site};
ghost use Rattle.rule_checks.specs.TypeChecks.{Gives};
ghost use Rattle.task_types.specs.Task;

use data_scopes::number_after;
use named_data::{Site, fault};
use rapid_model::RoutineKind;
use raw_trees::{RawItem, RawModule, RawRoutine};
use rule_checks::{TypeFault, TypeRule};

/// Whether a routine of the kind is a procedure.
fn is_procedure(kind: RoutineKind) -> bool
    ensures { result ≡ Task.is_procedure kind }
{
    match kind {
        RoutineKind::Proc => true,
        RoutineKind::Func => false,
        RoutineKind::Trap => false,
    }
}

/// Whether a routine is the procedure main: it is not LOCAL and has no parameters.
fn is_main(routine: &RawRoutine<'_>) -> bool
    ensures { result ≡ Task.is_main (view_routine routine.now) }
{
    !routine.local
        && is_procedure(routine.kind)
        && routine.params.is_empty()
        && b"main".eq_ignore_ascii_case(routine.name.text)
}

/// The number of the first main among the routines of items, given the number of the first routine.
fn main_in(items: &[RawItem<'_>], first: u32) -> Result<Option<u32>, TypeFault>
    ensures { Gives (λ n. n) result (Ok (option_map (λ n. first + n) (Task.main_among (Task.routines_in (map view_item items.now))))) }
{
    let mut number = first;
    for item in items {
        if let RawItem::Routine(routine) = item {
            if is_main(routine) {
                return Ok(Some(number));
            }
            number = number_after(number)?;
        }
    }
    Ok(None)
}

/// The number after the routines of items, given the number of the first routine.
fn behind(items: &[RawItem<'_>], first: u32) -> Result<u32, TypeFault>
    ensures { Gives (λ n. n) result (Ok (first + length (Task.routines_in (map view_item items.now)))) }
{
    let mut number = first;
    for item in items {
        if let RawItem::Routine(_) = item {
            number = number_after(number)?;
        }
    }
    Ok(number)
}

/// The number of the first main among the routines of the modules.
pub(crate) fn main_among(modules: &[RawModule<'_>]) -> Result<Option<u32>, TypeFault>
    ensures { Gives (λ n. n) result (Ok (Task.main_among (Task.routines_of (map view_module modules.now)))) }
{
    let mut number = 0;
    for unit in modules {
        let found = main_in(&unit.items, number)?;
        if found.is_some() {
            return Ok(found);
        }
        number = behind(&unit.items, number)?;
    }
    Ok(None)
}

/// The number of main, or the error that there is none.
pub(crate) fn main_or(site: &Site<'_>, main: Option<u32>) -> Result<u32, TypeFault>
    ensures { Gives (λ n. n) result (Task.main_or (view_site site.now) main) }
{
    match main {
        Some(routine) => Ok(routine),
        None => Err(fault(site, 0, TypeRule::NoMain)),
    }
}
