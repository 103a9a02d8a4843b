//! The input script.

ghost use Rattle.std.specs.Prelude.{◌≡◌, ◌≤◌, [], codes, map, length};
ghost use Rattle.toml.specs.View.{view};
ghost use Rattle.rapid_model.specs.Limits.{is_input_signal};
ghost use Rattle.cell_script.specs.Keys.{at, optional, value_of, number_at, bit_at, whole_at, pair_at, each_row};
ghost use Rattle.cell_script.specs.Rows.{input_signal_at, input_of};
ghost use Rattle.cell_script.specs.Parts.{rows_in, where_there};
ghost use Rattle.cell_script.specs.Gives.{Gives, view_keys};

use crate::fault::ScriptFault;
use crate::keys::{TableKeys, table_at};
use crate::list::rows_at;
use crate::plain::{bit_at, whole_at};
use crate::signal::signal_at;
use crate::task::task_at;
use rapid_limits::{MOST_INPUTS, MOST_SIGNALS, MOST_STEPS, MOST_TASKS};
use rapid_model::{InputRow, ScriptRule, ScriptTask, SignalRow};
use std::alloc::Global;
use toml::Value;

/// The steps of the input script: none if the key is missing.
pub(crate) fn inputs_in(
    alloc: Global,
    keys: &TableKeys<'_>,
    signals: &[SignalRow],
    tasks: &[ScriptTask],
) -> Result<Vec<InputRow>, ScriptFault>
    requires few_signals { length signals.now ≤ MOST_SIGNALS }
    requires few_tasks { length tasks.now ≤ MOST_TASKS }
    ensures { Gives (λ inputs. inputs.items) result (optional [] (rows_in (at (view_keys keys.now) (codes "input")) 0 MOST_INPUTS (input_of signals.now tasks.now)) (value_of (view_keys keys.now) (codes "input"))) }
{
    match keys.value("input") {
        Some(rows) => inputs_of(
            alloc,
            signals,
            tasks,
            rows_at(keys, "input", 0, MOST_INPUTS, rows)?,
        ),
        None => Ok(Vec::new(alloc)),
    }
}

fn inputs_of(
    alloc: Global,
    signals: &[SignalRow],
    tasks: &[ScriptTask],
    rows: &[Value],
) -> Result<Vec<InputRow>, ScriptFault>
    requires few_signals { length signals.now ≤ MOST_SIGNALS }
    requires few_tasks { length tasks.now ≤ MOST_TASKS }
    ensures { Gives (λ inputs. inputs.items) result (each_row (input_of signals.now tasks.now) [] (map view rows.now)) }
{
    let mut inputs = Vec::new(alloc);
    for row in rows {
        let input = input_of(signals, tasks, &inputs, row)?;
        inputs.push(input)?;
    }
    Ok(inputs)
}

#[tactic(auto, unfolding(crate::specs::Rows::input_of))]
fn input_of(
    signals: &[SignalRow],
    tasks: &[ScriptTask],
    before: &[InputRow],
    value: &Value,
) -> Result<InputRow, ScriptFault>
    requires few_signals { length signals.now ≤ MOST_SIGNALS }
    requires few_tasks { length tasks.now ≤ MOST_TASKS }
    ensures { Gives (λ input. input) result (input_of signals.now tasks.now before.now (view value.now)) }
{
    let keys = table_at("input", before.len(), value)?;
    let signal = input_signal_at(&keys, "signal", signals, keys.needed("signal")?)?;
    let value = bit_at(&keys, "value", keys.needed("value")?)?;
    let when = when_of(&keys, signals)?;
    let given = given_of(&keys, tasks)?;
    let after = after_of(&keys)?;
    keys.only(
        &[
            "signal",
            "value",
            "when",
            "is",
            "task",
            "setpoints",
            "after",
        ],
        InputRow {
            signal,
            value,
            when,
            given,
            after,
        },
    )
}

/// The number of an input signal.
fn input_signal_at(
    keys: &TableKeys<'_>,
    key: &str,
    signals: &[SignalRow],
    value: &Value,
) -> Result<u32, ScriptFault>
    requires { length signals.now ≤ MOST_SIGNALS }
    ensures { Gives (λ number. number) result (input_signal_at (at (view_keys keys.now) key.now) signals.now (view value.now)) }
{
    let number = signal_at(keys, key, signals, value)?;
    if is_input_signal(signals, number) {
        Ok(number)
    } else {
        Err(keys.broken(key, ScriptRule::NoSuch))
    }
}

fn is_input_signal(signals: &[SignalRow], number: u32) -> bool
    ensures { result ≡ is_input_signal signals.now number }
{
    match signals.get(number as usize) {
        Some(signal) => !signal.output,
        None => false,
    }
}

/// The signal and its value that the step waits for, if any.
fn when_of(keys: &TableKeys<'_>, signals: &[SignalRow]) -> Result<Option<(u32, bool)>, ScriptFault>
    requires { length signals.now ≤ MOST_SIGNALS }
    ensures { Gives (λ pair. pair) result (pair_at (view_keys keys.now) (codes "when") (codes "is") (number_at (at (view_keys keys.now) (codes "when")) (map (λ row. row.name) signals.now)) (bit_at (at (view_keys keys.now) (codes "is")))) }
{
    match (keys.value("when"), keys.value("is")) {
        (None, None) => Ok(None),
        (None, Some(_)) => Err(keys.broken("when", ScriptRule::Pair)),
        (Some(when), None) => {
            signal_at(keys, "when", signals, when)?;
            Err(keys.broken("is", ScriptRule::Pair))
        }
        (Some(when), Some(is)) => {
            let signal = signal_at(keys, "when", signals, when)?;
            Ok(Some((signal, bit_at(keys, "is", is)?)))
        }
    }
}

/// The task and the number of its setpoints that the step waits for, if any.
fn given_of(keys: &TableKeys<'_>, tasks: &[ScriptTask]) -> Result<Option<(u32, u32)>, ScriptFault>
    requires { length tasks.now ≤ MOST_TASKS }
    ensures { Gives (λ pair. pair) result (pair_at (view_keys keys.now) (codes "task") (codes "setpoints") (number_at (at (view_keys keys.now) (codes "task")) (map (λ task. task.name) tasks.now)) (whole_at (at (view_keys keys.now) (codes "setpoints")) 0 MOST_STEPS)) }
{
    match (keys.value("task"), keys.value("setpoints")) {
        (None, None) => Ok(None),
        (None, Some(_)) => Err(keys.broken("task", ScriptRule::Pair)),
        (Some(task), None) => {
            task_at(keys, "task", tasks, task)?;
            Err(keys.broken("setpoints", ScriptRule::Pair))
        }
        (Some(task), Some(count)) => {
            let task = task_at(keys, "task", tasks, task)?;
            Ok(Some((task, whole_at(keys, "setpoints", 0, MOST_STEPS, count)?)))
        }
    }
}

/// How many counted events the step waits for, if any.
fn after_of(keys: &TableKeys<'_>) -> Result<Option<u32>, ScriptFault>
    ensures { Gives (λ after. after) result (where_there (whole_at (at (view_keys keys.now) (codes "after")) 0 MOST_STEPS) (value_of (view_keys keys.now) (codes "after"))) }
{
    match keys.value("after") {
        Some(after) => Ok(Some(whole_at(keys, "after", 0, MOST_STEPS, after)?)),
        None => Ok(None),
    }
}
