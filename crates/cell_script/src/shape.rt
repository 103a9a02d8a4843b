//! The shape of a zone.

ghost use Rattle.std.specs.Prelude.{◌≡◌};
ghost use Rattle.cell_script.specs.Rows.{is_axis_number, bound_of, shape_of};

use rapid_num::{Bound, Num, Shape};

/// The shape with these bounds on these axes, counted from 1.
pub(crate) fn shape_of(inside: bool, axes: &[i64], lows: &[Num], highs: &[Num]) -> Shape
    ensures { result ≡ shape_of inside axes.now lows.now highs.now }
{
    let bounds = [
        bound_of(1, axes, lows, highs),
        bound_of(2, axes, lows, highs),
        bound_of(3, axes, lows, highs),
        bound_of(4, axes, lows, highs),
        bound_of(5, axes, lows, highs),
        bound_of(6, axes, lows, highs),
        bound_of(7, axes, lows, highs),
        bound_of(8, axes, lows, highs),
        bound_of(9, axes, lows, highs),
        bound_of(10, axes, lows, highs),
        bound_of(11, axes, lows, highs),
        bound_of(12, axes, lows, highs),
    ];
    Shape { inside, bounds }
}

/// The bound of an axis, if it is one of these axes.
fn bound_of(axis: u8, axes: &[i64], lows: &[Num], highs: &[Num]) -> Option<Bound>
    ensures { result ≡ bound_of axis axes.now lows.now highs.now }
{
    let [first, axes @ ..] = axes else {
        return None;
    };
    let [low, lows @ ..] = lows else {
        return None;
    };
    let [high, highs @ ..] = highs else {
        return None;
    };
    if is_axis_number(*first, axis) {
        return Some(Bound {
            low: *low,
            high: *high,
        });
    }
    bound_of(axis, axes, lows, highs)
}

fn is_axis_number(integer: i64, axis: u8) -> bool
    ensures { result ≡ is_axis_number integer axis }
{
    integer == i64::from(axis)
}
