use crate::num::Num;
use rapid_limits::MOST_AXES;

/// The low and the high bound of an axis, in thousandths of a degree.
#[derive(Clone, Copy, Debug, PartialEq, Eq)]
pub struct Bound {
    pub low: Num,
    pub high: Num,
}

/// A zone in joint space: inside or outside the bounds of the axes that have bounds (RAPID Instructions:
/// WZLimJointDef).
#[derive(Clone, Copy, Debug, PartialEq, Eq)]
pub struct Shape {
    pub inside: bool,
    pub bounds: [Option<Bound>; MOST_AXES],
}
