//! Positions and zones of six axes.

use rapid_num::{Bound, Joints, Num, Shape};

/// The axes at these angles, in thousandths of a degree, and no external axes.
pub(crate) fn position(angles: [i32; 6]) -> Joints {
    let absent = Num::new(9_000_000_000_000).unwrap();
    let mut axis = [absent; 12];
    for index in 0..6 {
        axis[index] = number(angles[index]);
    }
    Joints { axis }
}

/// Inside these bounds of the axes, in thousandths of a degree.
pub(crate) fn zone(bounds: [(i32, i32); 6]) -> Shape {
    let mut of_axes = [None; 12];
    for index in 0..6 {
        of_axes[index] = Some(bound(bounds[index]));
    }
    Shape {
        inside: true,
        bounds: of_axes,
    }
}

/// Inside these bounds of axis 6 only, in thousandths of a degree.
pub(crate) fn zone_of_last(last: (i32, i32)) -> Shape {
    let mut of_axes = [None; 12];
    of_axes[5] = Some(bound(last));
    Shape {
        inside: true,
        bounds: of_axes,
    }
}

fn bound(bound: (i32, i32)) -> Bound {
    Bound {
        low: number(bound.0),
        high: number(bound.1),
    }
}

fn number(thousandths: i32) -> Num {
    Num::new(i64::from(thousandths)).unwrap()
}
