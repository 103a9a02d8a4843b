ghost use Rattle.zone_clearance.specs.Premises.{AreInReach, NamesAnAxis};

use crate::limits::{are_in_reach, names_an_axis};
use rapid_num::{Bound, Joints, Num, Shape};
use zone_clearance::{Gap, gap_of};

/// A segment and a zone that it may come near to.
#[derive(Clone, Copy)]
pub(crate) struct Case {
    pub(crate) p: Joints,
    pub(crate) q: Joints,
    pub(crate) shape: Shape,
    ghost named: { NamesAnAxis shape.bounds },
    ghost in_reach: { AreInReach p q shape.bounds },
}

impl Case {
    /// `None` if the zone names no axis, or a bound or an angle of a named axis is out of reach.
    pub(crate) fn new(p: Joints, q: Joints, shape: Shape) -> Option<Case> {
        if names_an_axis(&shape.bounds) && are_in_reach(&p, &q, &shape.bounds) {
            Some(Case { p, q, shape })
        } else {
            None
        }
    }

    /// A segment and a zone of the first axes, by their angles at both ends and their bounds. The other angles are 0.
    pub(crate) fn of_axes(inside: bool, p: &[i64], q: &[i64], zone: &[(i64, i64)]) -> Option<Case> {
        let mut bounds = [None; 12];
        for (place, (low, high)) in bounds.iter_mut().zip(zone) {
            *place = Some(Bound {
                low: Num::new(*low)?,
                high: Num::new(*high)?,
            });
        }
        Case::new(joints(p)?, joints(q)?, Shape { inside, bounds })
    }

    pub(crate) fn gap(&self) -> Gap {
        gap_of(&self.p, &self.q, &self.shape)
    }
}

/// The first axes at these angles, the others at 0.
fn joints(angles: &[i64]) -> Option<Joints> {
    let mut axis = [Num::new(0)?; 12];
    for (place, angle) in axis.iter_mut().zip(angles) {
        *place = Num::new(*angle)?;
    }
    Some(Joints { axis })
}
