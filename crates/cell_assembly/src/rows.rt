//! Copies of a script's rows for its cell. They fail only if an allocation fails.

ghost use Rattle.std.specs.Prelude.{◌≡◌, Ok, map};
ghost use Rattle.rapid_model.specs.ScriptData.{row_of};
ghost use Rattle.cell_assembly.specs.Views.{Gives};

use crate::cell_fault::CellFault;
use rapid_model::{ScriptTask, SignalRow, TaskRow, ZoneRow};
use std::alloc::Global;

fn task_row(task: &ScriptTask) -> TaskRow
    ensures { result ≡ row_of task.now }
{
    TaskRow {
        name: task.name.copy(),
        arm: task.arm,
        axes: task.axes,
    }
}

pub(crate) fn task_rows(alloc: Global, tasks: &[ScriptTask]) -> Result<Vec<TaskRow>, CellFault>
    ensures { Gives (λ rows. rows.items) result (Ok (map row_of tasks.now)) }
{
    let mut rows = Vec::with_capacity(alloc, tasks.len())?;
    for task in tasks {
        rows.push(task_row(task))?;
    }
    Ok(rows)
}

/// A copy of a signal.
fn copy_signal(signal: &SignalRow) -> SignalRow
    ensures { result ≡ signal.now }
{
    SignalRow {
        name: signal.name.copy(),
        output: signal.output,
        start: signal.start,
    }
}

/// A copy of the signals.
pub(crate) fn copy_signals(
    alloc: Global,
    signals: &[SignalRow],
) -> Result<Vec<SignalRow>, CellFault>
    ensures { Gives (λ copy. copy.items) result (Ok signals.now) }
{
    let mut copy = Vec::with_capacity(alloc, signals.len())?;
    for signal in signals {
        copy.push(copy_signal(signal))?;
    }
    Ok(copy)
}

/// A copy of a zone.
fn copy_zone(zone: &ZoneRow) -> ZoneRow
    ensures { result ≡ zone.now }
{
    ZoneRow {
        name: zone.name.copy(),
        task: zone.task,
        shape: zone.shape,
        signal: zone.signal,
        value: zone.value,
    }
}

/// A copy of the zones.
pub(crate) fn copy_zones(alloc: Global, zones: &[ZoneRow]) -> Result<Vec<ZoneRow>, CellFault>
    ensures { Gives (λ copy. copy.items) result (Ok zones.now) }
{
    let mut copy = Vec::with_capacity(alloc, zones.len())?;
    for zone in zones {
        copy.push(copy_zone(zone))?;
    }
    Ok(copy)
}
