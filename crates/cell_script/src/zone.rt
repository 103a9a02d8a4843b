//! The zones of the cell.

ghost use Rattle.std.specs.Prelude.{◌≡◌, ◌≤◌, [], codes, map, length};
ghost use Rattle.toml.specs.View.{view};
ghost use Rattle.rapid_model.specs.Limits.{axes_at, has_arm};
ghost use Rattle.cell_script.specs.Keys.{at, optional, value_of, each_row};
ghost use Rattle.cell_script.specs.Rows.{armed_task_at, is_axis, are_axes, zone_axes_at, zone_of};
ghost use Rattle.cell_script.specs.Parts.{rows_in};
ghost use Rattle.cell_script.specs.Gives.{Gives, view_keys};

use crate::bounds::{bounds_at, high_bounds_at};
use crate::fault::ScriptFault;
use crate::keys::{TableKeys, table_at};
use crate::list::{integers_at, rows_at};
use crate::name::name_at;
use crate::plain::{bit_at, word_at};
use crate::shape::shape_of;
use crate::signal::signal_at;
use crate::task::task_at;
use rapid_limits::{MOST_CELL_ZONES, MOST_SIGNALS, MOST_TASKS};
use rapid_model::{ScriptRule, ScriptTask, SignalRow, ZoneRow};
use std::alloc::Global;
use toml::Value;

/// The zones, in script order: none if the key is missing.
pub(crate) fn zones_in(
    alloc: Global,
    keys: &TableKeys<'_>,
    signals: &[SignalRow],
    tasks: &[ScriptTask],
) -> Result<Vec<ZoneRow>, ScriptFault>
    requires few_signals { length signals.now ≤ MOST_SIGNALS }
    requires few_tasks { length tasks.now ≤ MOST_TASKS }
    ensures { Gives (λ zones. zones.items) result (optional [] (rows_in (at (view_keys keys.now) (codes "zone")) 0 MOST_CELL_ZONES (zone_of signals.now tasks.now)) (value_of (view_keys keys.now) (codes "zone"))) }
{
    match keys.value("zone") {
        Some(rows) => zones_of(
            alloc,
            signals,
            tasks,
            rows_at(keys, "zone", 0, MOST_CELL_ZONES, rows)?,
        ),
        None => Ok(Vec::new(alloc)),
    }
}

fn zones_of(
    alloc: Global,
    signals: &[SignalRow],
    tasks: &[ScriptTask],
    rows: &[Value],
) -> Result<Vec<ZoneRow>, ScriptFault>
    requires few_signals { length signals.now ≤ MOST_SIGNALS }
    requires few_tasks { length tasks.now ≤ MOST_TASKS }
    ensures { Gives (λ zones. zones.items) result (each_row (zone_of signals.now tasks.now) [] (map view rows.now)) }
{
    let mut zones = Vec::new(alloc);
    for row in rows {
        let zone = zone_of(alloc, signals, tasks, &zones, row)?;
        zones.push(zone)?;
    }
    Ok(zones)
}

#[tactic(auto, unfolding(crate::specs::Rows::zone_of))]
fn zone_of(
    alloc: Global,
    signals: &[SignalRow],
    tasks: &[ScriptTask],
    before: &[ZoneRow],
    value: &Value,
) -> Result<ZoneRow, ScriptFault>
    requires few_signals { length signals.now ≤ MOST_SIGNALS }
    requires few_tasks { length tasks.now ≤ MOST_TASKS }
    ensures { Gives (λ zone. zone) result (zone_of signals.now tasks.now before.now (view value.now)) }
{
    let keys = table_at("zone", before.len(), value)?;
    let name = name_at(&keys, "name", keys.needed("name")?)?;
    let task = armed_task_at(&keys, "task", tasks, keys.needed("task")?)?;
    let inside = word_at(&keys, "kind", "outside", "inside", keys.needed("kind")?)?;
    let count = axes_of(tasks, task);
    let axes = zone_axes_at(alloc, &keys, "axes", count, keys.needed("axes")?)?;
    let lows = bounds_at(alloc, &keys, "low", &axes, keys.needed("low")?)?;
    let highs = high_bounds_at(alloc, &keys, "high", &axes, &lows, keys.needed("high")?)?;
    let signal = signal_at(&keys, "signal", signals, keys.needed("signal")?)?;
    let value = bit_at(&keys, "value", keys.needed("value")?)?;
    keys.only(
        &[
            "name", "task", "kind", "axes", "low", "high", "signal", "value",
        ],
        ZoneRow {
            name,
            task,
            shape: shape_of(inside, &axes, &lows, &highs),
            signal,
            value,
        },
    )
}

/// The number of a task with an arm.
fn armed_task_at(
    keys: &TableKeys<'_>,
    key: &str,
    tasks: &[ScriptTask],
    value: &Value,
) -> Result<u32, ScriptFault>
    requires { length tasks.now ≤ MOST_TASKS }
    ensures { Gives (λ number. number) result (armed_task_at (at (view_keys keys.now) key.now) tasks.now (view value.now)) }
{
    let number = task_at(keys, key, tasks, value)?;
    if has_arm(tasks, number) {
        Ok(number)
    } else {
        Err(keys.broken(key, ScriptRule::NoSuch))
    }
}

fn has_arm(tasks: &[ScriptTask], number: u32) -> bool
    ensures { result ≡ has_arm (map (λ task. task.axes) tasks.now) number }
{
    axes_of(tasks, number) > 0
}

/// The number of axes of a task's arm: 0 if the task has no arm.
fn axes_of(tasks: &[ScriptTask], number: u32) -> u8
    ensures { result ≡ axes_at (map (λ task. task.axes) tasks.now) number }
{
    match tasks.get(number as usize) {
        Some(task) => task.axes,
        None => 0,
    }
}

/// One or more of an arm's axes, ascending from 1.
fn zone_axes_at(
    alloc: Global,
    keys: &TableKeys<'_>,
    key: &str,
    count: u8,
    value: &Value,
) -> Result<Vec<i64>, ScriptFault>
    ensures { Gives (λ axes. axes.items) result (zone_axes_at (at (view_keys keys.now) key.now) count (view value.now)) }
{
    let axes = integers_at(alloc, keys, key, value)?;
    if !axes.is_empty() && are_axes(count, &axes) {
        Ok(axes)
    } else {
        Err(keys.broken(key, ScriptRule::Range))
    }
}

fn are_axes(count: u8, axes: &[i64]) -> bool
    ensures { result ≡ are_axes count axes.now }
{
    match axes {
        [] => true,
        [last] => is_axis(count, *last),
        [first, second, ..] => {
            is_axis(count, *first) && *first < *second && are_axes(count, &axes[1..])
        }
    }
}

fn is_axis(count: u8, axis: i64) -> bool
    ensures { result ≡ is_axis count axis }
{
    1 <= axis && axis <= i64::from(count)
}
