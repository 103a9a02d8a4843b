//! The lines of a zone's sides along a segment.

use crate::case::Case;
use crate::fraction::Fraction;
use rapid_num::Num;

pub(crate) const SIDES: usize = 25;

/// The values of a line at both ends of a segment.
#[derive(Clone, Copy)]
pub(crate) struct Line {
    pub(crate) start: i128,
    pub(crate) end: i128,
}

pub(crate) const ZERO: Line = Line { start: 0, end: 0 };

impl Line {
    /// The value at a place, times the place's bottom.
    pub(crate) fn at(self, place: Fraction) -> i128 {
        let rest = place.bottom.wrapping_sub(place.top);
        let first = self.start.wrapping_mul(rest);
        first.wrapping_add(self.end.wrapping_mul(place.top))
    }

    /// Where this line meets another one between the ends.
    pub(crate) fn crossing(self, other: Line) -> Option<Fraction> {
        let start = self.start.wrapping_sub(other.start);
        let end = self.end.wrapping_sub(other.end);
        if start > 0 && end < 0 {
            return Some(Fraction {
                top: start,
                bottom: start.wrapping_sub(end),
            });
        }
        if start < 0 && end > 0 {
            return Some(Fraction {
                top: start.wrapping_neg(),
                bottom: end.wrapping_sub(start),
            });
        }
        None
    }
}

/// The lines of all sides in order: `Zero`, then the low and the high side of each axis.
pub(crate) fn lines_of(case: &Case) -> [Option<Line>; SIDES] {
    let inside = case.shape.inside;
    let mut lines = [None; SIDES];
    if inside {
        lines[0] = Some(ZERO);
    }
    for axis in 0..12 {
        if let Some(bound) = case.shape.bounds[axis] {
            let (p, q) = (case.p.axis[axis], case.q.axis[axis]);
            let above_low = Line {
                start: difference(p, bound.low),
                end: difference(q, bound.low),
            };
            let below_high = Line {
                start: difference(bound.high, p),
                end: difference(bound.high, q),
            };
            lines[2 * axis + 1] = Some(turned(inside, above_low));
            lines[2 * axis + 2] = Some(turned(inside, below_high));
        }
    }
    lines
}

fn difference(a: Num, b: Num) -> i128 {
    i128::from(a.thousandths()).wrapping_sub(i128::from(b.thousandths()))
}

/// The line itself for an Outside zone, its negative for an Inside one.
fn turned(inside: bool, line: Line) -> Line {
    if inside {
        Line {
            start: line.start.wrapping_neg(),
            end: line.end.wrapping_neg(),
        }
    } else {
        line
    }
}
