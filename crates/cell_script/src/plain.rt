//! Plain values: texts, whole numbers, bits and words.

ghost use Rattle.std.specs.Prelude.{◌≡◌, ◌≤◌, IfOk};
ghost use Rattle.toml.specs.View.{view};
ghost use Rattle.cell_script.specs.Keys.{at, text_at, whole_at, bit_at, word_at};
ghost use Rattle.cell_script.specs.Gives.{Gives, view_keys};

use crate::fault::ScriptFault;
use crate::keys::TableKeys;
use rapid_model::ScriptRule;
use toml::Value;

pub(crate) fn text_at<'a>(
    keys: &TableKeys<'_>,
    key: &str,
    value: &'a Value,
) -> Result<&'a str, ScriptFault>
    ensures { Gives (λ text. text.now) result (text_at (at (view_keys keys.now) key.now) (view value.now)) }
{
    match value.as_str() {
        Some(text) => Ok(text),
        None => Err(keys.broken(key, ScriptRule::Kind)),
    }
}

/// A whole number from `low` to `high`.
pub(crate) fn whole_at(
    keys: &TableKeys<'_>,
    key: &str,
    low: u32,
    high: u32,
    value: &Value,
) -> Result<u32, ScriptFault>
    ensures within { IfOk result (λ number. (low ≤ number) × (number ≤ high)) }
    ensures read { Gives (λ number. number) result (whole_at (at (view_keys keys.now) key.now) low high (view value.now)) }
{
    let Some(number) = value.as_integer() else {
        return Err(keys.broken(key, ScriptRule::Kind));
    };
    if number < i64::from(low) || number > i64::from(high) {
        return Err(keys.broken(key, ScriptRule::Range));
    }
    Ok(number as u32)
}

/// 0 or 1.
pub(crate) fn bit_at(keys: &TableKeys<'_>, key: &str, value: &Value) -> Result<bool, ScriptFault>
    ensures { Gives (λ bit. bit) result (bit_at (at (view_keys keys.now) key.now) (view value.now)) }
{
    let number = whole_at(keys, key, 0, 1, value)?;
    Ok(number == 1)
}

/// One of two words; the second one means true.
pub(crate) fn word_at(
    keys: &TableKeys<'_>,
    key: &str,
    first: &str,
    second: &str,
    value: &Value,
) -> Result<bool, ScriptFault>
    ensures { Gives (λ word. word) result (word_at (at (view_keys keys.now) key.now) first.now second.now (view value.now)) }
{
    let text = text_at(keys, key, value)?;
    let is_second = text == second;
    if text == first || is_second {
        Ok(is_second)
    } else {
        Err(keys.broken(key, ScriptRule::Range))
    }
}
