//! Arrays of plain values, and of tables.

ghost use Rattle.std.specs.Prelude.{◌≡◌, map, option_map};
ghost use Rattle.toml.specs.Data.{as_array, as_str, as_integer};
ghost use Rattle.toml.specs.View.{view};
ghost use Rattle.cell_script.specs.Keys.{at, items_list, list_at, rows_at};
ghost use Rattle.cell_script.specs.Gives.{Gives, view_keys};

use crate::fault::ScriptFault;
use crate::keys::TableKeys;
use rapid_model::{FileName, ScriptRule};
use std::alloc::Global;
use toml::Value;

/// The items of an array.
fn items_of(value: &Value) -> Option<&[Value]>
    ensures { option_map (λ items. map view items.now) result ≡ option_map items_list (as_array (view value.now)) }
{
    let array = value.as_array()?;
    Some(array.as_slice())
}

/// An array that holds only texts, such as file names.
pub(crate) fn texts_at(
    alloc: Global,
    keys: &TableKeys<'_>,
    key: &str,
    value: &Value,
) -> Result<Vec<FileName>, ScriptFault>
    ensures { Gives (λ texts. texts.items) result (list_at (at (view_keys keys.now) key.now) as_str (view value.now)) }
{
    let Some(items) = items_of(value) else {
        return Err(keys.broken(key, ScriptRule::Kind));
    };
    let mut texts = Vec::new(alloc);
    for item in items {
        let Some(text) = item.as_str() else {
            return Err(keys.broken(key, ScriptRule::Kind));
        };
        texts.push(FileName::from_string(String::from_str(alloc, text)?))?;
    }
    Ok(texts)
}

/// An array that holds only integers.
pub(crate) fn integers_at(
    alloc: Global,
    keys: &TableKeys<'_>,
    key: &str,
    value: &Value,
) -> Result<Vec<i64>, ScriptFault>
    ensures { Gives (λ integers. integers.items) result (list_at (at (view_keys keys.now) key.now) as_integer (view value.now)) }
{
    let Some(items) = items_of(value) else {
        return Err(keys.broken(key, ScriptRule::Kind));
    };
    let mut integers = Vec::new(alloc);
    for item in items {
        let Some(integer) = item.as_integer() else {
            return Err(keys.broken(key, ScriptRule::Kind));
        };
        integers.push(integer)?;
    }
    Ok(integers)
}

/// An array of `low` to `high` tables.
pub(crate) fn rows_at<'a>(
    keys: &TableKeys<'_>,
    key: &str,
    low: usize,
    high: usize,
    value: &'a Value,
) -> Result<&'a [Value], ScriptFault>
    ensures { Gives (λ rows. map view rows.now) result (rows_at (at (view_keys keys.now) key.now) low high (view value.now)) }
{
    let Some(rows) = items_of(value) else {
        return Err(keys.broken(key, ScriptRule::Kind));
    };
    if low <= rows.len() && rows.len() <= high {
        Ok(rows)
    } else {
        Err(keys.broken(key, ScriptRule::Range))
    }
}
