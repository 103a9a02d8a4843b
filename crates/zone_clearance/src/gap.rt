use crate::side::Side;

/// How near a segment comes to a zone. `top / bottom` is the least distance of its points, in thousandths of a degree,
/// and `at_top / at_bottom` the first fraction of the way at which a point has it. Both are in lowest terms. The sides
/// prove it: two for an Inside zone, one for an Outside zone.
#[derive(Clone, Copy, Debug, PartialEq, Eq)]
pub struct Gap {
    pub top: i128,
    pub bottom: i128,
    pub at_top: i128,
    pub at_bottom: i128,
    pub first: Side,
    pub second: Option<Side>,
}
