//! The whole script.

ghost use Rattle.std.specs.Prelude.{◌≡◌, IfOk, IfErr, Ok, [], codes};
ghost use Rattle.toml.specs.View.{table_view};
ghost use Rattle.cell_script.specs.declared.fault.ScriptFault.TheVariants.{Rule};
ghost use Rattle.rapid_model.specs.declared.script_rule.ScriptRule.TheVariants.{NotToml};
ghost use Rattle.cell_script.specs.Keys.{at, optional, value_of, whole_at};
ghost use Rattle.cell_script.specs.Parts.{needed_whole};
ghost use Rattle.cell_script.specs.ScriptOf.{script_of, script_of_keys, ScriptOf, FaultOf};
ghost use Rattle.cell_script.specs.Gives.{Gives, view_keys};

use crate::fault::ScriptFault;
use crate::input::inputs_in;
use crate::keys::TableKeys;
use crate::path::Path;
use crate::pers::values_in;
use crate::plain::whole_at;
use crate::signal::signals_in;
use crate::task::tasks_in;
use crate::zone::zones_in;
use rapid_limits::{DEFAULT_STEPS, MOST_STEPS, NEWEST_VERSION};
use rapid_model::{Script, ScriptRule, Sequence, Text};
use std::alloc::Global;
use toml::Table;

/// The script that a text spells, or the first rule that it breaks, with its key. Keys are checked in the order of
/// their row; the script's own are `version` (1 to 3), `steps` (1 to 1000000, by default 100000), `signal`, `task`,
/// `pers`, `zone` and `input`. Each element is checked with all its keys before the next; an unknown key is reported
/// last.
pub fn read_script(alloc: Global, text: &[u8]) -> Result<Script, ScriptFault>
    ensures spelled { IfOk result (λ script. ScriptOf text.now (Ok script)) }
    // The key and the rule, exactly if the text breaks it.
    ensures refused { IfErr result (FaultOf text.now) }
{
    let Ok(text) = std::str::from_utf8(text) else {
        return Err(no_toml());
    };
    match toml::table_from_str(alloc, text) {
        Ok(table) => read_table(alloc, &table),
        Err(error) if error.is_memory() => Err(ScriptFault::Memory),
        Err(_) => Err(no_toml()),
    }
}

/// The text as a whole is not TOML.
fn no_toml() -> ScriptFault
    ensures { result ≡ Rule [] NotToml }
{
    ScriptFault::Rule {
        key: Text::new(),
        rule: ScriptRule::NotToml,
    }
}

#[tactic(auto, unfolding(crate::specs::ScriptOf::script_of_keys))]
fn read_table(alloc: Global, table: &Table) -> Result<Script, ScriptFault>
    ensures { Gives (λ script. script) result (script_of (table_view table.now)) }
{
    let keys = TableKeys {
        path: Path::Script,
        table,
    };
    let version = version_of(&keys)?;
    let steps = steps_of(&keys)?;
    let signals = signals_in(alloc, &keys)?;
    let tasks = tasks_in(alloc, &keys, version)?;
    let pers = values_in(alloc, &keys)?;
    let zones = zones_in(alloc, &keys, &signals, &tasks)?;
    let inputs = inputs_in(alloc, &keys, &signals, &tasks)?;
    let script = Script {
        version,
        steps,
        signals: Sequence::from_vec(signals),
        tasks: Sequence::from_vec(tasks),
        pers: Sequence::from_vec(pers),
        zones: Sequence::from_vec(zones),
        inputs: Sequence::from_vec(inputs),
    };
    keys.only(
        &[
            "version", "steps", "signal", "task", "pers", "zone", "input",
        ],
        script,
    )
}

/// The version of the format: 1; 2, which has external axes and more tasks; or 3, which so far allows what 2 allows.
fn version_of(keys: &TableKeys<'_>) -> Result<u32, ScriptFault>
    ensures { Gives (λ version. version) result (needed_whole (view_keys keys.now) (codes "version") 1 NEWEST_VERSION) }
{
    let value = keys.needed("version")?;
    whole_at(keys, "version", 1, NEWEST_VERSION, value)
}

/// The greatest number of counted events.
fn steps_of(keys: &TableKeys<'_>) -> Result<u32, ScriptFault>
    ensures { Gives (λ steps. steps) result (optional DEFAULT_STEPS (whole_at (at (view_keys keys.now) (codes "steps")) 1 MOST_STEPS) (value_of (view_keys keys.now) (codes "steps"))) }
{
    match keys.value("steps") {
        Some(steps) => whole_at(keys, "steps", 1, MOST_STEPS, steps),
        None => Ok(DEFAULT_STEPS),
    }
}
