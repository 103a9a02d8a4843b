ghost use Rattle.std.specs.Prelude.{◌≡◌, ◌↔◌, IsTrue, IsFalse};
ghost use Rattle.zone_clearance.specs.Certificates.{SidesProve};
ghost use Rattle.zone_clearance.specs.Claims.{IsClaimOf};
ghost use Rattle.zone_clearance.specs.Gaps.{IsGap};
ghost use Rattle.zone_clearance.specs.Premises.{AreInReach, IsSmall, NamesAnAxis};

use crate::check::claim::Claim;
use crate::check::claiming::claim_of;
use crate::check::side_line::side_line;
use crate::gap::Gap;
use rapid_num::{Joints, Shape};

/// Whether a gap is the one of the segment from `p` to `q`, but for the choice of sides, and its sides prove it.
/// Allocates nothing.
pub fn gap_holds(p: &Joints, q: &Joints, shape: &Shape, gap: &Gap) -> bool
    requires named { NamesAnAxis shape.now.bounds }
    requires in_reach { AreInReach p.now q.now shape.now.bounds }
    requires small { IsSmall gap.now }
    ensures { IsTrue result ↔ (IsGap p.now q.now shape.now gap.now × SidesProve p.now q.now shape.now gap.now) }
{
    match claim_of(gap) {
        Some(claim) if shape.inside => holds_inside(p, q, shape, gap, claim),
        Some(claim) => holds_outside(p, q, shape, gap, claim),
        None => false,
    }
}

fn holds_inside(p: &Joints, q: &Joints, shape: &Shape, gap: &Gap, claim: Claim) -> bool
    requires inside { IsTrue shape.now.inside }
    requires in_reach { AreInReach p.now q.now shape.now.bounds }
    requires claim { IsClaimOf gap.now claim }
    ensures { IsTrue result ↔ (IsGap p.now q.now shape.now gap.now × SidesProve p.now q.now shape.now gap.now) }
{
    let Some(second) = gap.second else {
        return false;
    };
    let Some(one) = side_line(p, q, shape, gap.first) else {
        return false;
    };
    let Some(two) = side_line(p, q, shape, second) else {
        return false;
    };
    claim.is_proved_by(one, two)
        && claim.is_passed_by_all(p, q, shape)
        && (claim.place.top == 0 || claim.is_reached_by_some(p, q, shape))
}

fn holds_outside(p: &Joints, q: &Joints, shape: &Shape, gap: &Gap, claim: Claim) -> bool
    requires outside { IsFalse shape.now.inside }
    requires named { NamesAnAxis shape.now.bounds }
    requires in_reach { AreInReach p.now q.now shape.now.bounds }
    requires claim { IsClaimOf gap.now claim }
    ensures { IsTrue result ↔ (IsGap p.now q.now shape.now gap.now × SidesProve p.now q.now shape.now gap.now) }
{
    if gap.second.is_some() {
        return false;
    }
    let Some(line) = side_line(p, q, shape, gap.first) else {
        return false;
    };
    claim.is_under(line, claim.place) && claim.is_passed_by_all(p, q, shape)
}
