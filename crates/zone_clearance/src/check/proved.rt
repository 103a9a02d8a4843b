//! Whether the greater of two lines is nowhere below a claim.

ghost use Rattle.std.specs.Prelude.{◌↔◌, IsTrue, MatchOption};
ghost use Rattle.zone_clearance.specs.Claims.{LinesProve, OneOver};
ghost use Rattle.zone_clearance.specs.Crossings.{IsCrossingPlace, NeverCross};

use crate::check::claim::Claim;
use crate::line::Line;
use crate::place::Place;

impl Claim {
    /// Whether the greater of two lines is at least the claim at both ends, and where the lines cross between them.
    pub(crate) fn is_proved_by(self, one: Line, two: Line) -> bool
        ensures { IsTrue result ↔ LinesProve one two self.top self.bottom }
    {
        if !self.is_one_over(one, two, Place::start())
            || !self.is_one_over(one, two, Place::end())
        {
            return false;
        }
        match crossing(one, two) {
            Some(place) => self.is_over(one, place),
            None => true,
        }
    }

    fn is_one_over(self, one: Line, two: Line, place: Place) -> bool
        ensures { IsTrue result ↔ OneOver one two self.top self.bottom place.top place.bottom }
    {
        self.is_over(one, place) || self.is_over(two, place)
    }
}

/// Where two lines cross between the ends, if they do.
fn crossing(one: Line, two: Line) -> Option<Place>
    ensures { MatchOption result (NeverCross one two) (λ place. IsCrossingPlace one two place) }
{
    if (one.start > two.start && one.end < two.end)
        || (one.start < two.start && one.end > two.end)
    {
        let start = one.start.abs_diff(two.start);
        let end = one.end.abs_diff(two.end);
        Some(Place::new(start, start + end))
    } else {
        None
    }
}
