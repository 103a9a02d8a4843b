//! A gap against the second computation, against points of its segment, and against its check.

use crate::case::Case;
use crate::exact::{Nearest, are_all_far, distance_at, first_near, first_pair, pair_proves};
use crate::fraction::Fraction;
use crate::limits::is_small;
use crate::lines::{Line, SIDES, lines_of};
use zone_clearance::{Gap, Side, gap_holds};

fn distance_of(gap: &Gap) -> Fraction {
    Fraction {
        top: gap.top,
        bottom: gap.bottom,
    }
}

fn place_of(gap: &Gap) -> Fraction {
    Fraction {
        top: gap.at_top,
        bottom: gap.at_bottom,
    }
}

/// The number of a side in the order of all sides. Axes are counted from 1, so there is no axis 0.
fn number_of(side: Side) -> usize {
    match side {
        Side::Zero => 0,
        Side::Low(0) | Side::High(0) => SIDES,
        Side::Low(axis) => (2 * usize::from(axis)).wrapping_sub(1),
        Side::High(axis) => 2 * usize::from(axis),
    }
}

/// Whether a gap is the one of the second computation, in lowest terms.
pub(crate) fn is_least(case: &Case, gap: &Gap) -> bool {
    let nearest = Nearest::of(case.shape.inside, &lines_of(case));
    let (distance, place) = (distance_of(gap), place_of(gap));
    distance.bottom > 0
        && place.bottom > 0
        && distance.equals(nearest.distance)
        && place.equals(nearest.place)
        && distance.is_in_lowest_terms()
        && place.is_in_lowest_terms()
}

/// Whether the sides of a gap are the first ones.
pub(crate) fn has_first_sides(case: &Case, gap: &Gap) -> bool {
    let lines = lines_of(case);
    let distance = distance_of(gap);
    let first = number_of(gap.first);
    match gap.second {
        Some(second) if case.shape.inside => {
            first_pair(&lines, distance) == Some((first, number_of(second)))
        }
        None if !case.shape.inside => first_near(&lines, distance, place_of(gap)) == Some(first),
        _ => false,
    }
}

/// Whether no one of many points of the segment is nearer than a gap, or as near and before its place.
pub(crate) fn is_below_points(case: &Case, gap: &Gap) -> bool {
    let lines = lines_of(case);
    let (distance, place) = (distance_of(gap), place_of(gap));
    for number in 0..=64 {
        let point = Fraction {
            top: i128::from(number),
            bottom: 64,
        };
        let here = distance_at(case.shape.inside, &lines, point);
        if here.is_below(distance) || (here.equals(distance) && point.is_below(place)) {
            return false;
        }
    }
    true
}

/// Whether the check accepts a gap. Its numbers are to be small.
pub(crate) fn holds(case: &Case, gap: &Gap) -> bool {
    is_small(gap) && gap_holds(&case.p, &case.q, &case.shape, gap)
}

/// Whether these sides prove a gap, which is the right one.
pub(crate) fn sides_prove(case: &Case, gap: &Gap) -> bool {
    let lines = lines_of(case);
    let distance = distance_of(gap);
    let Some(one) = line_of(&lines, gap.first) else {
        return false;
    };
    match gap.second {
        Some(second) if case.shape.inside => match line_of(&lines, second) {
            Some(two) => pair_proves(one, two, distance),
            None => false,
        },
        None if !case.shape.inside => {
            let place = place_of(gap);
            let value = Fraction {
                top: one.at(place),
                bottom: place.bottom,
            };
            !distance.is_below(value) && (gap.top == 0 || are_all_far(&lines, distance))
        }
        _ => false,
    }
}

fn line_of(lines: &[Option<Line>; SIDES], side: Side) -> Option<Line> {
    let number = number_of(side);
    if number < SIDES { lines[number] } else { None }
}

/// Whether the check refuses a gap that is not the right one: a greater distance, the place of the other end, a
/// fraction that is not in lowest terms, and numbers that are no fraction.
pub(crate) fn refuses_others(case: &Case, gap: &Gap) -> bool {
    let (at_top, at_bottom) = if gap.at_top == 0 { (1, 1) } else { (0, 1) };
    let others = [
        Gap {
            top: gap.top.wrapping_add(gap.bottom),
            ..*gap
        },
        Gap {
            top: gap.top.wrapping_sub(gap.bottom),
            ..*gap
        },
        Gap {
            at_top,
            at_bottom,
            ..*gap
        },
        Gap {
            top: gap.top.wrapping_mul(2),
            bottom: gap.bottom.wrapping_mul(2),
            ..*gap
        },
        Gap {
            at_top: gap.at_top.wrapping_mul(2),
            at_bottom: gap.at_bottom.wrapping_mul(2),
            ..*gap
        },
        Gap { bottom: 0, ..*gap },
        Gap {
            at_top: gap.at_top.wrapping_neg(),
            at_bottom: gap.at_bottom.wrapping_neg(),
            ..*gap
        },
    ];
    others.iter().all(|other| !holds(case, other))
}
