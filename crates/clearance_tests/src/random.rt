//! Random segments and zones. The numbers are those of one seed, so that each run has the same ones.

ghost use Rattle.std.specs.Prelude.{◌<◌, ◌≤◌};

use crate::case::Case;
use rapid_num::{Bound, Joints, Num, Shape};
use zone_clearance::Side;

#[derive(Drop)]
pub(crate) struct Random {
    state: u64,
}

impl Random {
    pub(crate) fn new(seed: u64) -> Random {
        Random { state: seed }
    }

    /// A number below a limit.
    pub(crate) fn below(&mut self, limit: u64) -> u64
        requires { 1 ≤ limit }
        ensures { result < limit }
    {
        self.state = self
            .state
            .wrapping_mul(6_364_136_223_846_793_005)
            .wrapping_add(1_442_695_040_888_963_407);
        (self.state >> 33) % limit
    }

    /// A segment and a zone of some axes.
    pub(crate) fn case(&mut self) -> Option<Case> {
        let spread = self.spread();
        let zero = Num::new(0)?;
        let p = self.joints(zero, spread)?;
        let q = self.joints(zero, spread)?;
        let bound = self.bound(spread)?;
        let shape = self.shape(bound, spread)?;
        Case::new(p, q, shape)
    }

    /// How great the angles are. Small ones give many equal lines, and great ones those at the limits.
    fn spread(&mut self) -> u32 {
        match self.below(4) {
            0 => 3,
            1 => 40,
            2 => 20_000,
            _ => 100_000_000,
        }
    }

    /// A side of one of the first thirteen axes; no arm has the last of them.
    pub(crate) fn side(&mut self) -> Side {
        let axis = self.below(14) as u8;
        match self.below(5) {
            0 => Side::Zero,
            1 | 2 => Side::Low(axis),
            _ => Side::High(axis),
        }
    }

    fn angle(&mut self, spread: u32) -> Option<Num> {
        let above = self.below(2 * u64::from(spread) + 1) as i64;
        Num::new(above - i64::from(spread))
    }

    fn joints(&mut self, start: Num, spread: u32) -> Option<Joints> {
        let mut axis = [start; 12];
        for number in 0..12 {
            axis[number] = self.angle(spread)?;
        }
        Some(Joints { axis })
    }

    /// A zone that names some axis, by this bound, and perhaps others.
    fn shape(&mut self, bound: Bound, spread: u32) -> Option<Shape> {
        let inside = self.below(2) == 0;
        let most = self.below(12) as usize;
        let mut bounds = [None; 12];
        for number in 0..12 {
            if number == most {
                bounds[number] = Some(bound);
            } else if self.below(12) as usize <= most {
                bounds[number] = Some(self.bound(spread)?);
            }
        }
        Some(Shape { inside, bounds })
    }

    fn bound(&mut self, spread: u32) -> Option<Bound> {
        let one = self.angle(spread)?;
        let two = self.angle(spread)?;
        if one.thousandths() <= two.thousandths() {
            Some(Bound {
                low: one,
                high: two,
            })
        } else {
            Some(Bound {
                low: two,
                high: one,
            })
        }
    }
}
