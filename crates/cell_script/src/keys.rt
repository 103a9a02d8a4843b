//! A table of the script, and the values at its keys.

ghost use Rattle.std.specs.Prelude.{◌≡◌, map, option_map, Ok, bytes_eq};
ghost use Rattle.std.specs.List.{list_any};
ghost use Rattle.toml.specs.View.{view};
ghost use Rattle.cell_script.specs.declared.fault.ScriptFault.TheVariants.{Rule};
ghost use Rattle.cell_script.specs.Break.{shown, key_in};
ghost use Rattle.cell_script.specs.Keys.{at, value_of, needed, only_keys, table_at};
ghost use Rattle.cell_script.specs.Gives.{Gives, view_keys, path_of};

use crate::fault::ScriptFault;
use crate::path::{Path, shown_element};
use rapid_model::ScriptRule;
use toml::{Table, Value};

/// A table of the script, and where it is.
#[derive(Clone, Copy)]
pub(crate) struct TableKeys<'a> {
    pub(crate) path: Path,
    pub(crate) table: &'a Table,
}

impl<'a> TableKeys<'a> {
    /// The value of a key.
    pub(crate) fn value(&self, key: &str) -> Option<&'a Value>
        ensures { option_map (λ v. view v.now) result ≡ value_of (view_keys self.now) key.now }
    {
        self.table.get(key)
    }

    /// A rule broken at a key.
    pub(crate) fn broken(&self, key: &str, rule: ScriptRule) -> ScriptFault
        ensures { result ≡ Rule (shown (at (view_keys self.now) key.now)) rule }
    {
        ScriptFault::Rule {
            key: self.path.shown_key(key),
            rule,
        }
    }

    /// A rule that the table as a whole breaks.
    pub(crate) fn broken_here(&self, rule: ScriptRule) -> ScriptFault
        ensures { result ≡ Rule (shown (path_of self.now.path)) rule }
    {
        ScriptFault::Rule {
            key: self.path.shown(),
            rule,
        }
    }

    /// The value of a required key.
    pub(crate) fn needed(&self, key: &str) -> Result<&'a Value, ScriptFault>
        ensures { Gives (λ v. view v.now) result (needed (view_keys self.now) key.now) }
    {
        match self.value(key) {
            Some(value) => Ok(value),
            None => Err(self.broken(key, ScriptRule::NoKey)),
        }
    }
    /// Passes the value on if the table has no other keys.
    pub(crate) fn only<T: Drop>(&self, known: &[&str], next: T) -> Result<T, ScriptFault>
        ensures { Gives (λ next. next) result (only_keys (view_keys self.now) (map (λ key. key.now) known.now) (Ok next)) }
    {
        for key in self.table.keys() {
            if !is_known(known, key.as_str()) {
                return Err(self.broken(key.as_str(), ScriptRule::UnknownKey));
            }
        }
        Ok(next)
    }
}

fn is_known(known: &[&str], key: &str) -> bool
    ensures { result ≡ list_any (λ word. bytes_eq key.now word.now) known.now }
{
    known.iter().any(|word| key == *word)
}

/// The table of the element at this index of an array of the script.
pub(crate) fn table_at<'a>(
    array: &'static str,
    index: usize,
    value: &'a Value,
) -> Result<TableKeys<'a>, ScriptFault>
    ensures { Gives view_keys result (table_at array.now index (view value.now)) }
{
    match value.as_table() {
        Some(table) => Ok(TableKeys {
            path: Path::Element { array, index },
            table,
        }),
        None => Err(ScriptFault::Rule {
            key: shown_element(array, index),
            rule: ScriptRule::Kind,
        }),
    }
}
