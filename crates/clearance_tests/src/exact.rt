//! A second computation of a gap, from its definition. The lines are straight, so the least distance, and the first
//! point that has it, are at an end of the segment or where two of the lines, or a line and 0, cross.

use crate::fraction::Fraction;
use crate::lines::{Line, SIDES, ZERO};

pub(crate) const START: Fraction = Fraction { top: 0, bottom: 1 };

pub(crate) const END: Fraction = Fraction { top: 1, bottom: 1 };

/// The least distance, and the first place that has it.
#[derive(Clone, Copy)]
pub(crate) struct Nearest {
    pub(crate) distance: Fraction,
    pub(crate) place: Fraction,
}

impl Nearest {
    pub(crate) fn of(inside: bool, lines: &[Option<Line>; SIDES]) -> Nearest {
        let distance = distance_at(inside, lines, START);
        let mut nearest = Nearest {
            distance,
            place: START,
        };
        nearest.try_place(inside, lines, END);
        for first in 0..SIDES {
            if let Some(one) = lines[first] {
                nearest.try_crossing(inside, lines, one, ZERO);
                for second in first..SIDES {
                    if let Some(two) = lines[second] {
                        nearest.try_crossing(inside, lines, one, two);
                    }
                }
            }
        }
        nearest
    }

    fn try_crossing(&mut self, inside: bool, lines: &[Option<Line>; SIDES], one: Line, two: Line) {
        if let Some(place) = one.crossing(two) {
            self.try_place(inside, lines, place);
        }
    }

    /// Takes a place that is nearer, or as near and earlier.
    fn try_place(&mut self, inside: bool, lines: &[Option<Line>; SIDES], place: Fraction) {
        let distance = distance_at(inside, lines, place);
        let earlier = distance.equals(self.distance) && place.is_below(self.place);
        if distance.is_below(self.distance) || earlier {
            *self = Nearest { distance, place };
        }
    }
}

/// The distance at a place: the greatest line and 0 for an Inside zone, the least line but at least 0 for an Outside one.
pub(crate) fn distance_at(
    inside: bool,
    lines: &[Option<Line>; SIDES],
    place: Fraction,
) -> Fraction {
    let mut best = None;
    for line in lines {
        if let Some(line) = line {
            best = Some(better(inside, best, line.at(place)));
        }
    }
    let top = match best {
        Some(value) if value > 0 => value,
        _ => 0,
    };
    Fraction {
        top,
        bottom: place.bottom,
    }
}

/// The greater value for an Inside zone, the lesser one for an Outside zone.
fn better(inside: bool, best: Option<i128>, value: i128) -> i128 {
    match best {
        Some(best) if inside => best.max(value),
        Some(best) => best.min(value),
        None => value,
    }
}

/// Whether the greater of two lines is at least a distance at both ends and where the lines cross.
pub(crate) fn pair_proves(one: Line, two: Line, distance: Fraction) -> bool {
    let crossed = match one.crossing(two) {
        Some(place) => is_one_over(one, two, distance, place),
        None => true,
    };
    crossed && is_one_over(one, two, distance, START) && is_one_over(one, two, distance, END)
}

fn is_one_over(one: Line, two: Line, distance: Fraction, place: Fraction) -> bool {
    let top = one.at(place).max(two.at(place));
    !Fraction {
        top,
        bottom: place.bottom,
    }
    .is_below(distance)
}

/// The first pair of lines that proves a distance.
pub(crate) fn first_pair(
    lines: &[Option<Line>; SIDES],
    distance: Fraction,
) -> Option<(usize, usize)> {
    for first in 0..SIDES {
        if let Some(one) = lines[first] {
            for second in first..SIDES {
                if let Some(two) = lines[second] {
                    if pair_proves(one, two, distance) {
                        return Some((first, second));
                    }
                }
            }
        }
    }
    None
}

/// The first line that is at most a distance at a place.
pub(crate) fn first_near(
    lines: &[Option<Line>; SIDES],
    distance: Fraction,
    place: Fraction,
) -> Option<usize> {
    for number in 0..SIDES {
        if let Some(line) = lines[number] {
            let value = Fraction {
                top: line.at(place),
                bottom: place.bottom,
            };
            if !distance.is_below(value) {
                return Some(number);
            }
        }
    }
    None
}

/// Whether each line is at least a distance at both ends.
pub(crate) fn are_all_far(lines: &[Option<Line>; SIDES], distance: Fraction) -> bool {
    for line in lines {
        if let Some(line) = line {
            if !is_one_over(*line, *line, distance, START)
                || !is_one_over(*line, *line, distance, END)
            {
                return false;
            }
        }
    }
    true
}
