//! The cuts of a part of a segment.

ghost use Rattle.std.specs.Prelude.{◌≤◌, ℕ};
ghost use Rattle.joint_clip.specs.Parts.{IsAtMost, IsIn, IsPartWhere};
ghost use Rattle.joint_clip.specs.Sides.{IsInner};
ghost use Rattle.joint_clip.specs.Touches.{IsWithin, way_at};

use crate::fraction::Fraction;
use crate::part::Part;
use crate::side::Side;
use rapid_num::{Bound, Num};

impl Part {
    /// The whole segment.
    pub(crate) fn whole() -> Part
        ensures { (k m : ℕ) → k ≤ m → IsIn result k m }
    {
        Part {
            first: Fraction::new(0, 1),
            last: Fraction::new(1, 1),
        }
    }

    /// The part where an axis that goes from `p` to `q` is within the bound, or `None` if it nowhere is.
    pub(crate) fn within(self, bound: Bound, p: Num, q: Num) -> Option<Part>
        ensures { IsPartWhere result (λ k m. IsIn self k m × IsWithin bound (way_at p q k m) m) }
    {
        self.cut(Side::above(bound.low, p, q))?
            .cut(Side::below(bound.high, p, q))
    }

    /// The part on the inner side of a bound.
    fn cut(self, side: Side) -> Option<Part>
        ensures { IsPartWhere result (λ k m. IsIn self k m × IsInner side k m) }
    {
        if side.start < 0 {
            if side.end < 0 {
                return None;
            }
            return self.starting_at(side.crossing());
        }
        if side.end < 0 {
            return self.ending_at(side.crossing());
        }
        Some(self)
    }

    /// The part from a fraction on.
    fn starting_at(self, first: Fraction) -> Option<Part>
        ensures { IsPartWhere result (λ k m. IsIn self k m × IsAtMost first.top first.bottom k m) }
    {
        if first.is_at_most(self.first) {
            return Some(self);
        }
        between(first, self.last)
    }

    /// The part up to a fraction.
    fn ending_at(self, last: Fraction) -> Option<Part>
        ensures { IsPartWhere result (λ k m. IsIn self k m × IsAtMost k m last.top last.bottom) }
    {
        if self.last.is_at_most(last) {
            return Some(self);
        }
        between(self.first, last)
    }
}

/// The part from one fraction to another.
fn between(first: Fraction, last: Fraction) -> Option<Part>
    ensures { IsPartWhere result (λ k m. IsAtMost first.top first.bottom k m × IsAtMost k m last.top last.bottom) }
{
    if !first.is_at_most(last) {
        return None;
    }
    Some(Part { first, last })
}
