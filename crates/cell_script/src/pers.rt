//! First values of persistents.

ghost use Rattle.std.specs.Prelude.{◌≡◌, ◌≤◌, [], IsTrue, codes, map, length, Some, None, Ok};
ghost use Rattle.std.specs.List.{list_all};
ghost use Rattle.toml.specs.View.{view};
ghost use Rattle.rapid_num.specs.Characters.{is_printable};
ghost use Rattle.cell_script.specs.Keys.{at, optional, value_of, whole_at, each_row};
ghost use Rattle.cell_script.specs.Rows.{signed_literal, number_value_at, truth_value_at, text_value_at, given_value, pers_of};
ghost use Rattle.cell_script.specs.Parts.{rows_in, where_there};
ghost use Rattle.cell_script.specs.Gives.{Gives, view_keys};

use crate::fault::ScriptFault;
use crate::keys::{TableKeys, table_at};
use crate::list::rows_at;
use crate::name::name_at;
use crate::plain::{text_at, whole_at};
use rapid_limits::{LONGEST_ARRAY, LONGEST_STRING, MOST_PERS_VALUES};
use rapid_model::{PersValue, ScriptRule, Text, Value as Given};
use rapid_num::{Num, is_printable, read_literal};
use std::alloc::Global;
use toml::Value;

/// The first values, in script order: none if the key is missing.
pub(crate) fn values_in(alloc: Global, keys: &TableKeys<'_>) -> Result<Vec<PersValue>, ScriptFault>
    ensures { Gives (λ values. values.items) result (optional [] (rows_in (at (view_keys keys.now) (codes "pers")) 0 MOST_PERS_VALUES pers_of) (value_of (view_keys keys.now) (codes "pers"))) }
{
    match keys.value("pers") {
        Some(rows) => values_of(alloc, rows_at(keys, "pers", 0, MOST_PERS_VALUES, rows)?),
        None => Ok(Vec::new(alloc)),
    }
}

fn values_of(alloc: Global, rows: &[Value]) -> Result<Vec<PersValue>, ScriptFault>
    ensures { Gives (λ values. values.items) result (each_row pers_of [] (map view rows.now)) }
{
    let mut values = Vec::new(alloc);
    for row in rows {
        let value = pers_of(&values, row)?;
        values.push(value)?;
    }
    Ok(values)
}

#[tactic(auto, unfolding(crate::specs::Rows::pers_of))]
fn pers_of(before: &[PersValue], value: &Value) -> Result<PersValue, ScriptFault>
    ensures { Gives (λ value. value) result (pers_of before.now (view value.now)) }
{
    let keys = table_at("pers", before.len(), value)?;
    let name = name_at(&keys, "name", keys.needed("name")?)?;
    let index = index_of(&keys)?;
    let value = given_value(&keys)?;
    keys.only(
        &["name", "index", "num", "bool", "text"],
        PersValue { name, index, value },
    )
}

/// The index of an array's element, from 1, if the value is for one.
fn index_of(keys: &TableKeys<'_>) -> Result<Option<u16>, ScriptFault>
    ensures { Gives (λ index. index) result (where_there (whole_at (at (view_keys keys.now) (codes "index")) 1 LONGEST_ARRAY) (value_of (view_keys keys.now) (codes "index"))) }
{
    match keys.value("index") {
        Some(index) => Ok(Some(whole_at(keys, "index", 1, LONGEST_ARRAY as u32, index)? as u16)),
        None => Ok(None),
    }
}

/// The value of whichever of the keys `num`, `bool` and `text` is given.
fn given_value(keys: &TableKeys<'_>) -> Result<Given, ScriptFault>
    ensures { Gives (λ value. value) result (given_value (view_keys keys.now) (value_of (view_keys keys.now) (codes "num")) (value_of (view_keys keys.now) (codes "bool")) (value_of (view_keys keys.now) (codes "text"))) }
{
    match (keys.value("num"), keys.value("bool"), keys.value("text")) {
        (Some(number), None, None) => number_value_at(keys, "num", number),
        (None, Some(truth), None) => truth_value_at(keys, "bool", truth),
        (None, None, Some(text)) => text_value_at(keys, "text", text),
        _ => Err(keys.broken_here(ScriptRule::Pair)),
    }
}

/// A num from its literal, optionally after a minus sign.
fn number_value_at(keys: &TableKeys<'_>, key: &str, value: &Value) -> Result<Given, ScriptFault>
    ensures { Gives (λ value. value) result (number_value_at (at (view_keys keys.now) key.now) (view value.now)) }
{
    let text = text_at(keys, key, value)?;
    match signed_literal(text.as_bytes()) {
        Some(number) => Ok(Given::Num(number)),
        None => Err(keys.broken(key, ScriptRule::Range)),
    }
}

fn signed_literal(text: &[u8]) -> Option<Num>
    ensures { result ≡ signed_literal text.now }
{
    match text {
        [] => None,
        [b'-', size @ ..] => {
            let number = read_literal(size).ok()?;
            Some(number.negated())
        }
        [_, ..] => read_literal(text).ok(),
    }
}

fn truth_value_at(keys: &TableKeys<'_>, key: &str, value: &Value) -> Result<Given, ScriptFault>
    ensures { Gives (λ value. value) result (truth_value_at (at (view_keys keys.now) key.now) (view value.now)) }
{
    match value.as_bool() {
        Some(truth) => Ok(Given::Bool(truth)),
        None => Err(keys.broken(key, ScriptRule::Kind)),
    }
}

/// A text of at most 80 bytes, each 20 to 7E hexadecimal.
fn text_value_at(keys: &TableKeys<'_>, key: &str, value: &Value) -> Result<Given, ScriptFault>
    ensures { Gives (λ value. value) result (text_value_at (at (view_keys keys.now) key.now) (view value.now)) }
{
    let text = text_at(keys, key, value)?;
    let bytes = text.as_bytes();
    if bytes.len() <= LONGEST_STRING && are_printable(bytes) {
        Ok(Given::Text(copy_text(bytes)))
    } else {
        Err(keys.broken(key, ScriptRule::Range))
    }
}

fn are_printable(bytes: &[u8]) -> bool
    ensures { result ≡ list_all is_printable bytes.now }
{
    bytes.iter().all(|byte| is_printable(*byte))
}

fn copy_text(bytes: &[u8]) -> Text
    requires short { length bytes.now ≤ LONGEST_STRING }
    requires printable { IsTrue (list_all is_printable bytes.now) }
    ensures { result ≡ bytes.now }
{
    let mut text = Text::new();
    for byte in bytes {
        text.push(*byte);
    }
    text
}
