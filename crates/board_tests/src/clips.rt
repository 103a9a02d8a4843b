//! Segments against zones in joint space, and the shapes of bound positions.

use joint_clip::{ShapeFault, make_shape, touches};
use rapid_num::{Bound, Joints, Num, Shape};
use std::test::Fail;

/// 9E9: no limit.
const NONE: i64 = 9_000_000_000_000;

/// The least and the greatest num.
const LEAST: i64 = -9_999_999_999_999;

const GREATEST: i64 = 9_999_999_999_999;

/// Inside or Outside these bounds of axis 1, the ends of a segment of that axis, and whether it touches the zone.
static ONE_AXIS: [(bool, i64, i64, i64, i64, bool); 15] = [
    (true, 10_500, 11_500, 6_000, 12_000, true),
    (true, 10_500, 11_500, 12_000, 18_000, false),
    (true, 10_500, 11_500, 12_000, 6_000, true),
    (true, 10_000, 20_000, 0, 10_000, true),
    (true, 10_000, 20_000, 0, 9_999, false),
    (true, 10_000, 20_000, 20_000, 30_000, true),
    (true, 10_000, 20_000, 20_001, 30_000, false),
    (true, -1_000, 1_000, 0, 0, true),
    (true, -1_000, 1_000, 1_001, 1_001, false),
    (true, LEAST, GREATEST, LEAST, GREATEST, true),
    (true, -1, 0, LEAST, 9_999_999_999_998, true),
    (false, 10_000, 20_000, 10_000, 20_000, false),
    (false, 10_000, 20_000, 10_000, 20_001, true),
    (false, 10_000, 20_000, 9_999, 10_000, true),
    (false, 10_000, 20_000, 15_000, 15_000, false),
];

/// The same for axes 1 and 2 with these bounds; each end gives both angles.
static TWO_AXES: [(bool, i64, i64, (i64, i64), (i64, i64), bool); 6] = [
    (true, 10_000, 20_000, (9_000, 11_000), (11_000, 9_000), true),
    (
        true,
        10_000,
        20_000,
        (9_000, 10_999),
        (11_000, 8_999),
        false,
    ),
    (true, 10_000, 20_000, (0, 15_000), (15_000, 0), false),
    (true, 10_000, 20_000, (0, 30_000), (30_000, 0), true),
    (true, 0, 1, (-1, 2), (2, -2), true),
    (
        false,
        10_000,
        20_000,
        (15_000, 15_000),
        (15_000, 20_001),
        true,
    ),
];

/// Rows like those for one axis, for the shape that two bound positions make for an arm with six axes.
static MADE: [(bool, i64, i64, i64, i64, bool); 6] = [
    (true, NONE, 1_000, -720_000, -720_000, true),
    (true, NONE, 1_000, 1_001, 2_000, false),
    (true, 1_000, NONE, 0, 999, false),
    (true, 1_000, NONE, 0, 1_000, true),
    (false, NONE, 1_000, -720_000, 1_000, false),
    (false, NONE, 1_000, 0, 1_001, true),
];

/// Axes 1 and 2 at these angles, the others at a third one.
fn joints(first: i64, second: i64, others: i64) -> Option<Joints> {
    let mut axis = [Num::new(others)?; 12];
    axis[0] = Num::new(first)?;
    axis[1] = Num::new(second)?;
    Some(Joints { axis })
}

fn bound(low: i64, high: i64) -> Option<Bound> {
    Some(Bound {
        low: Num::new(low)?,
        high: Num::new(high)?,
    })
}

/// Whether a segment of axis 1 touches a zone of that axis.
fn touches_one(inside: bool, low: i64, high: i64, from: i64, to: i64) -> Option<bool> {
    let mut bounds = [None; 12];
    bounds[0] = Some(bound(low, high)?);
    let shape = Shape { inside, bounds };
    Some(touches(&joints(from, 0, 0)?, &joints(to, 0, 0)?, &shape))
}

/// Whether a segment of axes 1 and 2 touches a zone of both, which have the same bounds.
fn touches_two(
    inside: bool,
    low: i64,
    high: i64,
    from: (i64, i64),
    to: (i64, i64),
) -> Option<bool> {
    let mut bounds = [None; 12];
    bounds[0] = Some(bound(low, high)?);
    bounds[1] = bounds[0];
    let shape = Shape { inside, bounds };
    Some(touches(&joints(from.0, from.1, 0)?, &joints(to.0, to.1, 0)?, &shape))
}

/// Whether a segment of axis 1 touches the zone that two bound positions, with limits for axis 1 only, make for an arm
/// with six axes.
fn touches_made(inside: bool, low: i64, high: i64, from: i64, to: i64) -> Option<bool> {
    let limits = bound(low, high)?;
    let mut low = joints(NONE, NONE, NONE)?;
    let mut high = low;
    low.axis[0] = limits.low;
    high.axis[0] = limits.high;
    let shape = make_shape(inside, &low, &high, 6).ok()?;
    Some(touches(&joints(from, 0, 0)?, &joints(to, 0, 0)?, &shape))
}

#[test]
fn segments(rt: HostRuntime) {
    for (inside, low, high, from, to, wanted) in ONE_AXIS {
        assert_eq!(rt;
            touches_one(inside, low, high, from, to),
            Some(wanted),
            "{from} to {to}"
        );
    }
    for (inside, low, high, from, to, wanted) in TWO_AXES {
        assert_eq!(rt;
            touches_two(inside, low, high, from, to),
            Some(wanted),
            "{from:?} to {to:?}"
        );
    }
    for (inside, low, high, from, to, wanted) in MADE {
        assert_eq!(rt;
            touches_made(inside, low, high, from, to),
            Some(wanted),
            "{from} to {to}"
        );
    }
}

/// No axis has a bound; an axis has two equal ones; the second of two axes has its low bound above the high one.
#[test]
fn no_shapes(rt: HostRuntime) -> Result<(), Fail> {
    let none = joints(NONE, NONE, NONE).ok_or("9E9 is a num")?;
    let low = joints(-1_000, 1_000, NONE).ok_or("the low bounds are nums")?;
    let high = joints(1_000, 999, NONE).ok_or("the high bounds are nums")?;
    assert_eq!(rt;
        make_shape(true, &none, &none, 6),
        Err(ShapeFault::ZoneShape)
    );
    assert_eq!(rt; make_shape(true, &low, &low, 6), Err(ShapeFault::ZoneShape));
    assert_eq!(rt;
        make_shape(true, &low, &high, 6),
        Err(ShapeFault::ZoneShape)
    );
    Ok(())
}

/// Axis 7 has a bound: an arm with six axes has no such axis, one with seven has.
#[test]
fn a_seventh_axis(rt: HostRuntime) -> Result<(), Fail> {
    let none = joints(NONE, NONE, NONE).ok_or("9E9 is a num")?;
    let mut low = none;
    low.axis[6] = Num::new(0).ok_or("0 is a num")?;
    assert_eq!(rt; make_shape(true, &low, &none, 6), Err(ShapeFault::ExtAxis));
    assert!(rt; make_shape(true, &low, &none, 7).is_ok());
    Ok(())
}
