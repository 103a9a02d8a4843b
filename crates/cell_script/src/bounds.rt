//! The bounds of a zone's axes.

ghost use Rattle.std.specs.Prelude.{◌≡◌};
ghost use Rattle.toml.specs.View.{view};
ghost use Rattle.cell_script.specs.Keys.{at};
ghost use Rattle.cell_script.specs.Rows.{is_in_reach_of, are_bounds, bounds_at, each_below, high_bounds_at};
ghost use Rattle.cell_script.specs.Gives.{Gives, view_keys};

use crate::angle::angles_at;
use crate::fault::ScriptFault;
use crate::keys::TableKeys;
use rapid_limits::{EXTERNAL_REACH, ROBOT_AXES, ROBOT_REACH};
use rapid_model::ScriptRule;
use rapid_num::Num;
use std::alloc::Global;
use toml::Value;

/// As many bounds as axes, each in reach of its axis.
pub(crate) fn bounds_at(
    alloc: Global,
    keys: &TableKeys<'_>,
    key: &str,
    axes: &[i64],
    value: &Value,
) -> Result<Vec<Num>, ScriptFault>
    ensures { Gives (λ bounds. bounds.items) result (bounds_at (at (view_keys keys.now) key.now) axes.now (view value.now)) }
{
    let Some(bounds) = angles_at(alloc, keys, key, value)? else {
        return Err(keys.broken(key, ScriptRule::Range));
    };
    if are_bounds(axes, &bounds) {
        Ok(bounds)
    } else {
        Err(keys.broken(key, ScriptRule::Range))
    }
}

fn are_bounds(axes: &[i64], bounds: &[Num]) -> bool
    ensures { result ≡ are_bounds axes.now bounds.now }
{
    let [axis, axes @ ..] = axes else {
        return bounds.is_empty();
    };
    let [bound, bounds @ ..] = bounds else {
        return false;
    };
    is_in_reach_of(*axis, *bound) && are_bounds(axes, bounds)
}

/// Whether an angle is in reach of an axis, counted from 1.
fn is_in_reach_of(axis: i64, angle: Num) -> bool
    ensures { result ≡ is_in_reach_of axis angle }
{
    let reach = if axis <= ROBOT_AXES as i64 {
        ROBOT_REACH
    } else {
        EXTERNAL_REACH
    };
    angle.thousandths().unsigned_abs() <= reach
}

/// High bounds: like the low ones, and each above its low one.
pub(crate) fn high_bounds_at(
    alloc: Global,
    keys: &TableKeys<'_>,
    key: &str,
    axes: &[i64],
    lows: &[Num],
    value: &Value,
) -> Result<Vec<Num>, ScriptFault>
    ensures { Gives (λ highs. highs.items) result (high_bounds_at (at (view_keys keys.now) key.now) axes.now lows.now (view value.now)) }
{
    let highs = bounds_at(alloc, keys, key, axes, value)?;
    if each_below(lows, &highs) {
        Ok(highs)
    } else {
        Err(keys.broken(key, ScriptRule::Range))
    }
}

fn each_below(lows: &[Num], highs: &[Num]) -> bool
    ensures { result ≡ each_below lows.now highs.now }
{
    let [low, lows @ ..] = lows else {
        return true;
    };
    let [high, highs @ ..] = highs else {
        return true;
    };
    low.thousandths() < high.thousandths() && each_below(lows, highs)
}
