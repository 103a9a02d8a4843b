//! Names in the script: their form, and the rows that they refer to.

ghost use Rattle.std.specs.Prelude.{◌≡◌, IsTrue, map, position};
ghost use Rattle.std.specs.List.{list_all, list_any};
ghost use Rattle.std.specs.Str.{str_eq_ignore_ascii_case};
ghost use Rattle.toml.specs.View.{view};
ghost use Rattle.rapid_num.specs.Characters.{is_name_byte};
ghost use Rattle.rapid_model.specs.Names.{is_short_name};
ghost use Rattle.cell_script.specs.Keys.{at, name_at};
ghost use Rattle.cell_script.specs.Gives.{Gives, view_keys};

use crate::fault::ScriptFault;
use crate::keys::TableKeys;
use crate::plain::text_at;
use rapid_lexer::{is_letter, is_name_byte, is_reserved};
use rapid_limits::LONGEST_NAME;
use rapid_model::{NameText, ScriptRule};
use toml::Value;

/// A name that is not a reserved word.
pub(crate) fn name_at(
    keys: &TableKeys<'_>,
    key: &str,
    value: &Value,
) -> Result<NameText, ScriptFault>
    ensures { Gives (λ name. name) result (name_at (at (view_keys keys.now) key.now) (view value.now)) }
{
    let text = text_at(keys, key, value)?;
    let bytes = text.as_bytes();
    if !is_short_name(bytes) {
        return Err(keys.broken(key, ScriptRule::Name));
    }
    if is_reserved(bytes) {
        return Err(keys.broken(key, ScriptRule::Name));
    }
    Ok(copy_name(bytes))
}

fn copy_name(bytes: &[u8]) -> NameText
    requires { IsTrue (is_short_name bytes.now) }
    ensures { result ≡ bytes.now }
{
    let mut name = NameText::new();
    for byte in bytes {
        name.push(*byte);
    }
    name
}

/// Whether bytes are a name (RAPID Kernel, identifiers): a letter, then letters, digits and underscores, at most 32 in
/// all.
fn is_short_name(bytes: &[u8]) -> bool
    ensures { result ≡ is_short_name bytes.now }
{
    match bytes {
        [] => false,
        [first, rest @ ..] => {
            is_letter(*first) && are_name_bytes(rest) && bytes.len() <= LONGEST_NAME
        }
    }
}

fn are_name_bytes(bytes: &[u8]) -> bool
    ensures { result ≡ list_all is_name_byte bytes.now }
{
    bytes.iter().all(|byte| is_name_byte(*byte))
}

/// Whether a text is this name, case-insensitively.
pub(crate) fn is_same_name(text: &[u8], name: &NameText) -> bool
    ensures { result ≡ str_eq_ignore_ascii_case text.now name.now }
{
    text.eq_ignore_ascii_case(name.bytes())
}
