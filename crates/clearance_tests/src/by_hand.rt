//! Gaps worked by hand.

use crate::case::Case;
use crate::checked::holds;
use zone_clearance::Side::{High, Low, Zero};
use zone_clearance::{Gap, Side};

fn inside(distance: (i128, i128), place: (i128, i128), first: Side, second: Side) -> Gap {
    gap(distance, place, first, Some(second))
}

fn outside(distance: (i128, i128), place: (i128, i128), first: Side) -> Gap {
    gap(distance, place, first, None)
}

fn gap(distance: (i128, i128), place: (i128, i128), first: Side, second: Option<Side>) -> Gap {
    Gap {
        top: distance.0,
        bottom: distance.1,
        at_top: place.0,
        at_bottom: place.1,
        first,
        second,
    }
}

/// A gap and its check, for a zone of the first axes.
fn is_gap(is_inside: bool, p: &[i64], q: &[i64], zone: &[(i64, i64)], wanted: &Gap) -> bool {
    match Case::of_axes(is_inside, p, q, zone) {
        Some(case) => case.gap() == *wanted && holds(&case, wanted),
        None => false,
    }
}

/// Two lines that cross at 6/11; a zone that the segment enters at 1/3; an Outside zone whose low bound is nearest at
/// the end.
#[test]
fn crossing_lines(rt: HostRuntime) {
    let (p, q) = ([6_000], [0, 5_000]);
    let both = [(10_000, 20_000), (10_000, 20_000)];
    let crossing = inside((80_000, 11), (6, 11), Low(1), Low(2));
    assert!(rt;
        is_gap(true, &p, &q, &both, &crossing),
        "two lines that cross"
    );
    let entered = inside((0, 1), (1, 3), Zero, Zero);
    assert!(rt;
        is_gap(true, &p, &q, &[(3_000, 4_000)], &entered),
        "a zone that is entered"
    );
    let low = outside((1_000, 1), (1, 1), Low(1));
    assert!(rt;
        is_gap(false, &p, &q, &[(-1_000, 10_000)], &low),
        "an Outside zone"
    );
}

/// Segments without motion: before the zone, in it, and within an Outside zone's bounds and past one.
#[test]
fn standing_still(rt: HostRuntime) {
    let before = inside((5_000, 1), (0, 1), Zero, Low(1));
    assert!(rt; is_gap(true, &[5_000], &[5_000], &[(10_000, 20_000)], &before));
    let within = inside((0, 1), (0, 1), Zero, Zero);
    assert!(rt; is_gap(true, &[15_000], &[15_000], &[(10_000, 20_000)], &within));
    let near_low = outside((4_000, 1), (0, 1), Low(1));
    assert!(rt; is_gap(false, &[14_000], &[14_000], &[(10_000, 20_000)], &near_low));
    let past_high = outside((0, 1), (0, 1), High(1));
    assert!(rt; is_gap(false, &[25_000], &[25_000], &[(10_000, 20_000)], &past_high));
}

/// Segments that touch a zone in one point: at an end, in a zone whose bounds meet, and at a corner.
#[test]
fn touching_once(rt: HostRuntime) {
    let at_end = inside((0, 1), (1, 1), Zero, Zero);
    assert!(rt;
        is_gap(true, &[0], &[10_000], &[(10_000, 20_000)], &at_end),
        "at the end"
    );
    let at_start = inside((0, 1), (0, 1), Zero, Zero);
    assert!(rt;
        is_gap(true, &[10_000], &[0], &[(10_000, 20_000)], &at_start),
        "at the start"
    );
    let half = inside((0, 1), (1, 2), Zero, Zero);
    assert!(rt;
        is_gap(true, &[0], &[20_000], &[(10_000, 10_000)], &half),
        "bounds that meet"
    );
    let both = [(10_000, 20_000), (10_000, 20_000)];
    assert!(rt;
        is_gap(true, &[0, 20_000], &[20_000, 0], &both, &half),
        "at a corner"
    );
    let leaves = outside((0, 1), (5, 6), High(1));
    assert!(rt;
        is_gap(false, &[0], &[12_000], &[(-1_000, 10_000)], &leaves),
        "out of an Outside zone"
    );
}

/// Segments past a high bound, and with all twelve axes before theirs, the last of them farthest.
#[test]
fn one_side(rt: HostRuntime) {
    let past_high = inside((5_000, 1), (1, 1), Zero, High(1));
    assert!(rt;
        is_gap(true, &[30_000], &[25_000], &[(10_000, 20_000)], &past_high),
        "past a high bound"
    );
    let zone = [
        (1_000, 20_000),
        (2_000, 20_000),
        (3_000, 20_000),
        (4_000, 20_000),
        (5_000, 20_000),
        (6_000, 20_000),
        (7_000, 20_000),
        (8_000, 20_000),
        (9_000, 20_000),
        (10_000, 20_000),
        (11_000, 20_000),
        (12_000, 20_000),
    ];
    let last = inside((12_000, 1), (0, 1), Zero, Low(12));
    assert!(rt;
        is_gap(true, &[0; 12], &[0; 12], &zone, &last),
        "all twelve axes"
    );
}

/// Angles and bounds at the limits: two lines of the greatest length cross in the middle.
#[test]
fn at_the_limits(rt: HostRuntime) {
    let most = 100_000_000;
    let across = inside((100_000_000, 1), (1, 2), Low(1), Low(2));
    let zone = [(most, most), (most, most)];
    assert!(rt;
        is_gap(true, &[-most, most], &[most, -most], &zone, &across),
        "across the whole reach"
    );
}
