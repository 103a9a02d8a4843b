//! Who may ask what.

ghost use Rattle.std.specs.Prelude.{◌≡◌, ◌&&◌, ◌^◌, nat_lt, length, List};
ghost use Rattle.rapid_model.specs.Own.{is_rise, is_trapped};
ghost use Rattle.rapid_model.specs.Requests.{can_watch, goes_with, has_signal, may_tell, of_pers, suits_inputs, suits_task, is_bool};
ghost use Rattle.rapid_model.specs.Paths.{fits_part as fits_the_part, has_path as has_the_path, part_sort};
ghost use Rattle.rapid_model.specs.declared.event.Event.{Event};

use crate::paths::{fits_part, has_path, is_bool_part};
use rapid_model::{Cell, Fate, Path, PersCell, Request, TaskRow, Value, Watched};

/// Whether the request suits a task of this row. `trapped`: whether the task is in a trap.
pub(crate) fn allows(cell: &Cell, row: &TaskRow, trapped: bool, request: &Request) -> bool
    ensures { (mine : List Event) → trapped ≡ is_trapped mine → result ≡ suits_task cell.now row.now mine request.now }
{
    match request {
        Request::ReadP { pers, path } => may_read(cell, *pers, path),
        Request::WriteP { pers, path, value } => may_write(cell, *pers, path, value),
        Request::TestSet { pers, path } => may_test(cell, *pers, path),
        Request::ReadS { signal } => has_signal(cell, *signal),
        Request::WriteS { signal, .. } => has_signal(cell, *signal),
        Request::Position => row.arm.is_some(),
        Request::Setpoint { to } => row.arm.is_some() && to.is_position(usize::from(row.axes)),
        Request::Order { on, .. } => can_watch(cell, *on),
        Request::Leave => trapped,
        Request::ZoneSet { .. } => row.arm.is_some(),
        Request::ZoneTie { signal, .. } => row.arm.is_some() && has_signal(cell, *signal),
        Request::ZoneOn { .. } => row.arm.is_some(),
        Request::ZoneOff { .. } => row.arm.is_some(),
        Request::ZoneFree { .. } => row.arm.is_some(),
        Request::Arrive { meeting, tasks } => may_meet(cell, *meeting, *tasks),
        Request::Input { .. } => false,
        Request::End { fate } => may_be_fate(*fate),
        _ => true,
    }
}

/// Whether a task, held or not, may go on with the request.
pub(crate) fn goes_with(held: bool, request: &Request) -> bool
    ensures { result ≡ goes_with held (is_rise request.now) }
{
    match request {
        Request::Rise => held,
        _ => !held,
    }
}

/// Whether the input script asks this after this many of its steps.
pub(crate) fn feeds(cell: &Cell, done: u32, request: &Request) -> bool
    ensures { (mine : List Event) → done ≡ length mine → result ≡ suits_inputs cell.now mine request.now }
{
    match request {
        Request::Input { index } => *index == done && (*index as usize) < cell.inputs().len(),
        _ => false,
    }
}

fn may_read(cell: &Cell, pers: u32, path: &Path) -> bool
    ensures { result ≡ of_pers cell.now pers (λ row. has_the_path row path.now) }
{
    match cell.pers().as_slice().get(pers as usize) {
        Some(row) => has_path(row, path),
        None => false,
    }
}

fn may_write(cell: &Cell, pers: u32, path: &Path, value: &Value) -> bool
    ensures { result ≡ of_pers cell.now pers (λ row. has_the_path row path.now && fits_the_part row.sort path.now.part value.now) }
{
    match cell.pers().as_slice().get(pers as usize) {
        Some(row) => has_path(row, path) && fits_part(row.sort, path.part, value),
        None => false,
    }
}

fn may_test(cell: &Cell, pers: u32, path: &Path) -> bool
    ensures { result ≡ of_pers cell.now pers (λ row. has_the_path row path.now && is_bool (part_sort row.sort path.now.part)) }
{
    match cell.pers().as_slice().get(pers as usize) {
        Some(row) => has_path(row, path) && is_bool_part(row.sort, path.part),
        None => false,
    }
}

fn has_signal(cell: &Cell, signal: u32) -> bool
    ensures { result ≡ has_signal cell.now signal }
{
    (signal as usize) < cell.signals().len()
}

fn can_watch(cell: &Cell, on: Watched) -> bool
    ensures { result ≡ can_watch cell.now on }
{
    match on {
        Watched::Signal { signal, .. } => has_signal(cell, signal),
        Watched::Pers { pers } => (pers as usize) < cell.pers().len(),
    }
}

/// Whether the meeting and each listed task exist.
fn may_meet(cell: &Cell, meeting: u32, tasks: u16) -> bool
    ensures { result ≡ (nat_lt meeting (length cell.now.meetings) && nat_lt tasks (2 ^ length cell.now.tasks)) }
{
    // Its contract states the limits of cells.
    let _steps = cell.steps();
    let count = cell.tasks().len() as u32;
    (meeting as usize) < cell.meetings().len() && u32::from(tasks) < 2_u32.pow(count)
}

fn may_be_fate(fate: Fate) -> bool
    ensures { result ≡ may_tell fate }
{
    match fate {
        Fate::Done | Fate::Exit | Fate::Fault(_) => true,
        Fate::Held | Fate::Cut => false,
    }
}
