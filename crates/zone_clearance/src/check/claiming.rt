//! The numbers of a gap, and where a line is at most or at least its distance.

ghost use Rattle.std.specs.Prelude.{◌≡◌, ◌*◌, ◌↔◌, IsTrue, MatchOption};
ghost use Rattle.joint_clip.specs.Touches.{way_at};
ghost use Rattle.zone_clearance.specs.Claims.{IsClaimOf};
ghost use Rattle.zone_clearance.specs.Gaps.{IsWritten};
ghost use Rattle.zone_clearance.specs.Levels.{IsUnder, IsOver};
ghost use Rattle.zone_clearance.specs.Premises.{IsSmall};

use crate::check::claim::Claim;
use crate::check::coprime::are_coprime;
use crate::gap::Gap;
use crate::line::Line;
use crate::place::Place;

/// The numbers of a gap, or `None` if it is not well written.
pub(crate) fn claim_of(gap: &Gap) -> Option<Claim>
    requires { IsSmall gap.now }
    ensures { MatchOption result (¬ IsWritten gap.now) (λ claim. IsClaimOf gap.now claim) }
{
    if gap.top < 0
        || gap.bottom < 1
        || gap.at_top < 0
        || gap.at_bottom < 1
        || gap.at_bottom < gap.at_top
    {
        return None;
    }
    let (top, bottom) = (gap.top as u64, gap.bottom as u64);
    let (at_top, at_bottom) = (gap.at_top as u64, gap.at_bottom as u64);
    if !are_coprime(top, bottom) || !are_coprime(at_top, at_bottom) {
        return None;
    }
    Some(Claim {
        top,
        bottom,
        place: Place::new(at_top, at_bottom),
    })
}

impl Claim {
    /// Whether a line is at most `top / bottom` at a place.
    pub(crate) fn is_under(self, line: Line, place: Place) -> bool
        ensures { IsTrue result ↔ IsUnder line.start line.end self.top self.bottom place.top place.bottom }
    {
        let way = way(line, place);
        way < 0 || way.unsigned_abs() <= self.reach(place) / u128::from(self.bottom)
    }

    /// Whether a line is at least `top / bottom` at a place.
    pub(crate) fn is_over(self, line: Line, place: Place) -> bool
        ensures { IsTrue result ↔ IsOver line.start line.end self.top self.bottom place.top place.bottom }
    {
        let way = way(line, place);
        way >= 0 && self.reach(place).div_ceil(u128::from(self.bottom)) <= way.unsigned_abs()
    }

    /// The numerator over `bottom` and the place's bottom.
    fn reach(self, place: Place) -> u128
        ensures { result ≡ self.top * place.bottom }
    {
        u128::from(self.top) * u128::from(place.bottom)
    }
}

/// A line at a place, times the place's bottom.
fn way(line: Line, place: Place) -> i128
    ensures { result ≡ way_at line.start line.end place.top place.bottom }
{
    let rest = place.bottom - place.top;
    i128::from(line.start) * i128::from(rest) + i128::from(line.end) * i128::from(place.top)
}
