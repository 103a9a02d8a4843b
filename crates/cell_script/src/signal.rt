//! The signals of the cell.

ghost use Rattle.std.specs.Prelude.{◌≡◌, [], false, codes, map, position, length, IfSome, ◌<◌, ◌≤◌};
ghost use Rattle.std.specs.List.{list_any};
ghost use Rattle.std.specs.Str.{str_eq_ignore_ascii_case};
ghost use Rattle.toml.specs.View.{view};
ghost use Rattle.rapid_model.specs.Names.{is_among};
ghost use Rattle.cell_script.specs.Keys.{at, optional, bit_at, value_of, number_at, each_row};
ghost use Rattle.cell_script.specs.Rows.{signal_name_at, signal_of};
ghost use Rattle.cell_script.specs.Parts.{rows_in};
ghost use Rattle.cell_script.specs.Gives.{Gives, view_keys};

use crate::fault::ScriptFault;
use crate::keys::{TableKeys, table_at};
use crate::list::rows_at;
use crate::name::{is_same_name, name_at};
use crate::plain::{bit_at, text_at, word_at};
use rapid_builtins::is_predefined;
use rapid_limits::MOST_SIGNALS;
use rapid_model::{NameText, ScriptRule, SignalRow};
use std::alloc::Global;
use toml::Value;

/// The signals, in script order: none if the key is missing.
pub(crate) fn signals_in(alloc: Global, keys: &TableKeys<'_>) -> Result<Vec<SignalRow>, ScriptFault>
    ensures { Gives (λ signals. signals.items) result (optional [] (rows_in (at (view_keys keys.now) (codes "signal")) 0 MOST_SIGNALS signal_of) (value_of (view_keys keys.now) (codes "signal"))) }
{
    match keys.value("signal") {
        Some(rows) => signals_of(alloc, rows_at(keys, "signal", 0, MOST_SIGNALS, rows)?),
        None => Ok(Vec::new(alloc)),
    }
}

fn signals_of(alloc: Global, rows: &[Value]) -> Result<Vec<SignalRow>, ScriptFault>
    ensures { Gives (λ signals. signals.items) result (each_row signal_of [] (map view rows.now)) }
{
    let mut signals = Vec::new(alloc);
    for row in rows {
        let signal = signal_of(&signals, row)?;
        signals.push(signal)?;
    }
    Ok(signals)
}

#[tactic(auto, unfolding(crate::specs::Rows::signal_of))]
fn signal_of(before: &[SignalRow], value: &Value) -> Result<SignalRow, ScriptFault>
    ensures { Gives (λ signal. signal) result (signal_of before.now (view value.now)) }
{
    let keys = table_at("signal", before.len(), value)?;
    let name = signal_name_at(&keys, "name", before, keys.needed("name")?)?;
    let output = word_at(&keys, "kind", "di", "do", keys.needed("kind")?)?;
    let start = start_of(&keys)?;
    keys.only(
        &["name", "kind", "start"],
        SignalRow {
            name,
            output,
            start,
        },
    )
}

/// The name of a signal: not predefined, and not another signal's.
fn signal_name_at(
    keys: &TableKeys<'_>,
    key: &str,
    others: &[SignalRow],
    value: &Value,
) -> Result<NameText, ScriptFault>
    ensures { Gives (λ name. name) result (signal_name_at (at (view_keys keys.now) key.now) (map (λ row. row.name) others.now) (view value.now)) }
{
    let name = name_at(keys, key, value)?;
    if is_predefined(name.bytes()) {
        return Err(keys.broken(key, ScriptRule::Name));
    }
    if is_signal(name.bytes(), others) {
        return Err(keys.broken(key, ScriptRule::Twice));
    }
    Ok(name)
}

/// Whether a signal has this name.
fn is_signal(name: &[u8], signals: &[SignalRow]) -> bool
    ensures { result ≡ list_any (λ row. str_eq_ignore_ascii_case name.now row.name) signals.now }
{
    signals
        .iter()
        .any(|signal| is_same_name(name, &signal.name))
}

/// The initial value: 0 by default.
fn start_of(keys: &TableKeys<'_>) -> Result<bool, ScriptFault>
    ensures { Gives (λ start. start) result (optional false (bit_at (at (view_keys keys.now) (codes "start"))) (value_of (view_keys keys.now) (codes "start"))) }
{
    match keys.value("start") {
        Some(start) => bit_at(keys, "start", start),
        None => Ok(false),
    }
}

/// The number of the signal that a text refers to.
pub(crate) fn signal_at(
    keys: &TableKeys<'_>,
    key: &str,
    signals: &[SignalRow],
    value: &Value,
) -> Result<u32, ScriptFault>
    requires { length signals.now ≤ MOST_SIGNALS }
    ensures { Gives (λ number. number) result (number_at (at (view_keys keys.now) key.now) (map (λ row. row.name) signals.now) (view value.now)) }
{
    let text = text_at(keys, key, value)?;
    match find_signal(text.as_bytes(), signals) {
        Some(number) => Ok(number as u32),
        None => Err(keys.broken(key, ScriptRule::NoSuch)),
    }
}

fn find_signal(name: &[u8], signals: &[SignalRow]) -> Option<usize>
    ensures bound { IfSome result (λ number. number < length signals.now) }
    ensures found { result ≡ position (λ row. str_eq_ignore_ascii_case name.now row.name) signals.now }
{
    signals
        .iter()
        .position(|signal| is_same_name(name, &signal.name))
}
