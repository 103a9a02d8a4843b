//! What each line of a named axis must be for a claim to hold.

ghost use Rattle.std.specs.Prelude.{◌≡◌, ◌≤◌, ◌⊎◌, ◌↔◌, IsTrue, IfSome, IsSomeAnd, length};
ghost use Rattle.rapid_limits.specs.declared.TheConstants.{MOST_AXES};
ghost use Rattle.zone_clearance.specs.Claims.{AllPass, Arrives, IsFar, Passes, SomeArrives};
ghost use Rattle.zone_clearance.specs.Premises.{AreInReach};

use crate::check::claim::Claim;
use crate::check::side_line::side_line;
use crate::line::Line;
use crate::place::Place;
use crate::side::Side;
use rapid_limits::MOST_AXES;
use rapid_num::{Bound, Joints, Shape};

impl Claim {
    /// Whether the line of no side contradicts the claim.
    pub(crate) fn is_passed_by_all(self, p: &Joints, q: &Joints, shape: &Shape) -> bool
        requires { AreInReach p.now q.now shape.now.bounds }
        ensures { IsTrue result ↔ AllPass p.now q.now shape.now self }
    {
        for axis in 0..axes_of(&shape.bounds) {
            let low = side_line(p, q, shape, Side::Low(axis + 1));
            let high = side_line(p, q, shape, Side::High(axis + 1));
            if !self.passes(shape.inside, low) || !self.passes(shape.inside, high) {
                return false;
            }
        }
        true
    }

    /// Whether the line of some side comes down to the claim at its place.
    pub(crate) fn is_reached_by_some(self, p: &Joints, q: &Joints, shape: &Shape) -> bool
        requires { AreInReach p.now q.now shape.now.bounds }
        ensures { IsTrue result ↔ SomeArrives p.now q.now shape.now self }
    {
        for axis in 0..axes_of(&shape.bounds) {
            let low = side_line(p, q, shape, Side::Low(axis + 1));
            let high = side_line(p, q, shape, Side::High(axis + 1));
            if self.is_reached_by(low) || self.is_reached_by(high) {
                return true;
            }
        }
        false
    }

    fn passes(self, inside: bool, line: Option<Line>) -> bool
        ensures { IsTrue result ↔ IfSome line (λ some. Passes inside self some.start some.end) }
    {
        match line {
            Some(line) if inside => self.is_under(line, self.place),
            Some(line) => self.is_far(line) && self.is_first_for(line),
            None => true,
        }
    }

    fn is_far(self, line: Line) -> bool
        ensures { IsTrue result ↔ ((self.top ≡ 0) ⊎ IsFar self line.start line.end) }
    {
        self.top == 0 || self.is_over(line, Place::start()) && self.is_over(line, Place::end())
    }

    fn is_first_for(self, line: Line) -> bool
        ensures { IsTrue result ↔ ((self.place.top ≡ 0) ⊎ Arrives self line.start line.end) }
    {
        self.place.top == 0 || self.arrives(line)
    }

    fn is_reached_by(self, line: Option<Line>) -> bool
        ensures { IsTrue result ↔ IsSomeAnd line (λ some. Arrives self some.start some.end) }
    {
        match line {
            Some(line) => self.arrives(line),
            None => false,
        }
    }

    fn arrives(self, line: Line) -> bool
        ensures { IsTrue result ↔ Arrives self line.start line.end }
    {
        !self.is_under(line, Place::start()) && self.is_over(line, self.place)
    }
}

/// The number of axes that a zone may name.
fn axes_of(_bounds: &[Option<Bound>; MOST_AXES]) -> u8
    ensures count { result ≡ length _bounds.now }
    ensures few { result ≤ MOST_AXES }
{
    MOST_AXES as u8
}
