//! Reading shapes.

ghost use Rattle.std.specs.Prelude.{◌≡◌};
ghost use Rattle.std.specs.Option.{option_map};
ghost use Rattle.history_text.specs.ValueReading.{bound_at, limits_at, shape_at, side_at};

use crate::numbers::num_at;
use crate::words::after_word;
use rapid_limits::MOST_AXES;
use rapid_num::{Bound, Shape};

/// The side, and twelve axes.
#[tactic(auto, unfolding(crate::specs::ValueReading::shape_at))]
pub(crate) fn shape_at(text: &[u8]) -> Option<(Shape, &[u8])>
    ensures { option_map (λ x. (x.0, x.1.now)) result ≡ shape_at text.now }
{
    let Some((inside, after_side)) = side_at(text) else {
        return None;
    };
    let mut bounds = [None; MOST_AXES];
    let mut rest = after_side;
    for axis in 0..MOST_AXES {
        let Some((bound, more)) = bound_at(rest) else {
            return None;
        };
        bounds[axis] = bound;
        rest = more;
    }
    Some((Shape { inside, bounds }, rest))
}

#[tactic(auto, unfolding(crate::specs::ValueReading::side_at))]
fn side_at(text: &[u8]) -> Option<(bool, &[u8])>
    ensures { option_map (λ x. (x.0, x.1.now)) result ≡ side_at text.now }
{
    if let Some(rest) = after_word(text, b"Inside") {
        return Some((true, rest));
    }
    let rest = after_word(text, b"Outside")?;
    Some((false, rest))
}

/// The bounds of an axis after a space.
#[tactic(auto, unfolding(crate::specs::ValueReading::bound_at))]
fn bound_at(text: &[u8]) -> Option<(Option<Bound>, &[u8])>
    ensures { option_map (λ x. (x.0, x.1.now)) result ≡ bound_at text.now }
{
    let first = after_word(text, b" ")?;
    if let Some((bound, rest)) = limits_at(first) {
        return Some((Some(bound), rest));
    }
    let rest = after_word(first, b"-")?;
    Some((None, rest))
}

#[tactic(auto, unfolding(crate::specs::ValueReading::limits_at))]
fn limits_at(text: &[u8]) -> Option<(Bound, &[u8])>
    ensures { option_map (λ x. (x.0, x.1.now)) result ≡ limits_at text.now }
{
    let Some((low, rest)) = num_at(text) else {
        return None;
    };
    let rest = after_word(rest, b":")?;
    let Some((high, rest)) = num_at(rest) else {
        return None;
    };
    Some((Bound { low, high }, rest))
}
