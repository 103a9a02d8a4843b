ghost use Rattle.std.specs.Prelude.{◌≡◌, ◌≤◌, ◌≤ℤ◌, ℤ, IsTrue, is_some};
ghost use Rattle.std.specs.List.{list_any};
ghost use Rattle.rapid_num.specs.Range.{IsNum};
ghost use Rattle.rapid_num.specs.Absent.{is_absent};
ghost use Rattle.joint_clip.specs.Shapes.{kept_low, kept_high, bound_of, bounds_of, has_no_room, made_shape};

use crate::shape_fault::ShapeFault;
use rapid_limits::MOST_AXES;
use rapid_num::{Bound, Joints, Num, Shape};

/// The zone inside or outside two bound positions, for an arm with that many axes, at most twelve. 9E9 means no limit.
/// `ExtAxis` exactly if an axis that the arm does not have has a bound; otherwise `ZoneShape` exactly if no axis has a
/// bound, or some axis has a low bound that is not below its high one (RAPID Instructions: WZLimJointDef).
pub fn make_shape(
    inside: bool,
    low: &Joints,
    high: &Joints,
    axes: usize,
) -> Result<Shape, ShapeFault>
    requires axes { axes ≤ MOST_AXES }
    ensures { result ≡ made_shape inside low.now high.now axes }
{
    let bounds = bounds_of(&low.axis, &high.axis);
    let each = &bounds[..];
    if is_any_named(&each[axes..]) {
        return Err(ShapeFault::ExtAxis);
    }
    if !is_any_named(each) || is_any_without_room(each) {
        return Err(ShapeFault::ZoneShape);
    }
    Ok(Shape { inside, bounds })
}

/// The bounds of each axis.
fn bounds_of(lows: &[Num; MOST_AXES], highs: &[Num; MOST_AXES]) -> [Option<Bound>; MOST_AXES]
    ensures { result ≡ bounds_of lows.now highs.now }
{
    let mut bounds = [None; MOST_AXES];
    for axis in 0..MOST_AXES {
        bounds[axis] = bound_of(lows[axis], highs[axis]);
    }
    bounds
}

/// The bounds of an axis: `None` if neither is a limit.
fn bound_of(low: Num, high: Num) -> Option<Bound>
    ensures { result ≡ bound_of low high }
{
    if low.is_absent() && high.is_absent() {
        return None;
    }
    Some(Bound {
        low: kept_low(low),
        high: kept_high(high),
    })
}

/// A low bound as stored: the least num for 9E9.
fn kept_low(low: Num) -> Num
    ensures kept { result ≡ kept_low low }
    ensures passed_by_none { IsTrue (is_absent low) → (angle : ℤ) → IsNum angle → result ≤ℤ angle }
{
    if low.is_absent() {
        Num::new(-9_999_999_999_999).unwrap()
    } else {
        low
    }
}

/// A high bound as stored: the greatest num for 9E9.
fn kept_high(high: Num) -> Num
    ensures kept { result ≡ kept_high high }
    ensures passed_by_none { IsTrue (is_absent high) → (angle : ℤ) → IsNum angle → angle ≤ℤ result }
{
    if high.is_absent() {
        Num::new(9_999_999_999_999).unwrap()
    } else {
        high
    }
}

fn is_any_named(bounds: &[Option<Bound>]) -> bool
    ensures { result ≡ list_any is_some bounds.now }
{
    bounds.iter().any(|bound| bound.is_some())
}

fn is_any_without_room(bounds: &[Option<Bound>]) -> bool
    ensures { result ≡ list_any has_no_room bounds.now }
{
    bounds.iter().any(|bound| has_no_room(bound))
}

/// Whether the low bound is not below the high one.
fn has_no_room(bound: &Option<Bound>) -> bool
    ensures { result ≡ has_no_room bound.now }
{
    match bound {
        Some(bound) => bound.low.thousandths() >= bound.high.thousandths(),
        None => false,
    }
}
