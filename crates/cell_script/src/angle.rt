//! Angles in thousandths of a degree.

ghost use Rattle.std.specs.Prelude.{◌≡◌, option_map, Some, None, IfOk, if◌then◌else◌};
ghost use Rattle.std.specs.List.{list_all};
ghost use Rattle.toml.specs.View.{view};
ghost use Rattle.cell_script.specs.Keys.{at};
ghost use Rattle.cell_script.specs.Parts.{angles_in, is_angle};
ghost use Rattle.cell_script.specs.Gives.{Gives, view_keys};

use crate::fault::ScriptFault;
use crate::keys::TableKeys;
use crate::list::integers_at;
use rapid_limits::EXTERNAL_REACH;
use rapid_num::Num;
use std::alloc::{AllocError, Global};
use toml::Value;

/// An array of integers, as angles: `None` if one is past the reach of every axis.
pub(crate) fn angles_at(
    alloc: Global,
    keys: &TableKeys<'_>,
    key: &str,
    value: &Value,
) -> Result<Option<Vec<Num>>, ScriptFault>
    ensures { Gives (λ angles. option_map (λ list. list.items) angles) result (angles_in (at (view_keys keys.now) key.now) (view value.now)) }
{
    let integers = integers_at(alloc, keys, key, value)?;
    Ok(angles_from(alloc, &integers)?)
}

fn angles_from(alloc: Global, integers: &[i64]) -> Result<Option<Vec<Num>>, AllocError>
    ensures { IfOk result (λ angles. option_map (λ list. list.items) angles ≡ (if list_all is_angle integers.now then Some integers.now else None)) }
{
    let mut angles = Vec::new(alloc);
    for integer in integers {
        let Some(angle) = angle_from(*integer) else {
            return Ok(None);
        };
        angles.push(angle)?;
    }
    Ok(Some(angles))
}

/// An angle that some axis reaches; external axes reach the farthest.
fn angle_from(integer: i64) -> Option<Num>
    ensures { result ≡ (if is_angle integer then Some integer else None) }
{
    if integer.unsigned_abs() <= EXTERNAL_REACH {
        Num::new(integer)
    } else {
        None
    }
}
