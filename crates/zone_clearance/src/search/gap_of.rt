ghost use Rattle.std.specs.Prelude.{◌≡◌, ◌*◌, nat_abs, None, IsSomeAnd, IsTrue, IsFalse};
ghost use Rattle.zone_clearance.specs.Certificates.{AreFirstSides, IsFirstNear, IsFirstPair};
ghost use Rattle.zone_clearance.specs.Gaps.{IsGap, IsWritten};
ghost use Rattle.zone_clearance.specs.Premises.{AreInReach, IsSmall, NamesAnAxis};

use crate::gap::Gap;
use crate::place::Place;
use crate::search::best_pair::best_pair;
use crate::search::earliest::earliest_entry;
use crate::search::latest::latest_entry;
use crate::search::least_end::least_end;
use crate::search::level::Level;
use crate::search::lines::{lines_of, numbered_side};
use crate::search::lowest_terms::in_lowest_terms;
use crate::side::Side;
use rapid_num::{Joints, Shape};

/// How near the segment from `p` to `q` in joint space comes to a zone, by the greatest change of a named axis. The
/// sides are the first ones that prove it. Allocates nothing.
pub fn gap_of(p: &Joints, q: &Joints, shape: &Shape) -> Gap
    requires named { NamesAnAxis shape.now.bounds }
    requires in_reach { AreInReach p.now q.now shape.now.bounds }
    ensures gap { IsGap p.now q.now shape.now result }
    ensures sides { AreFirstSides p.now q.now shape.now result }
    ensures small { IsSmall result }
{
    if shape.inside {
        inside_gap(p, q, shape)
    } else {
        outside_gap(p, q, shape)
    }
}

/// The gap of a segment and an Inside zone.
fn inside_gap(p: &Joints, q: &Joints, shape: &Shape) -> Gap
    requires inside { IsTrue shape.now.inside }
    requires in_reach { AreInReach p.now q.now shape.now.bounds }
    ensures gap { IsGap p.now q.now shape.now result }
    ensures sides { IsSomeAnd result.second (λ second. IsFirstPair p.now q.now shape.now result.first second (nat_abs result.top) (nat_abs result.bottom)) }
    ensures small { IsSmall result }
{
    let lines = lines_of(true, p, q, &shape.bounds);
    let best = best_pair(&lines);
    let place = latest_entry(&lines, best.level);
    gap_at(
        best.level,
        place,
        numbered_side(best.first),
        Some(numbered_side(best.second)),
    )
}

/// The gap of a segment and an Outside zone.
fn outside_gap(p: &Joints, q: &Joints, shape: &Shape) -> Gap
    requires outside { IsFalse shape.now.inside }
    requires named { NamesAnAxis shape.now.bounds }
    requires in_reach { AreInReach p.now q.now shape.now.bounds }
    ensures gap { IsGap p.now q.now shape.now result }
    ensures alone { result.second ≡ None }
    ensures side { IsFirstNear p.now q.now shape.now result.first (nat_abs result.top) (nat_abs result.bottom) (nat_abs result.at_top) (nat_abs result.at_bottom) }
    ensures small { IsSmall result }
{
    let lines = lines_of(false, p, q, &shape.bounds);
    let level = least_end(&lines);
    let arrival = earliest_entry(&lines, level).unwrap();
    gap_at(level, arrival.place, numbered_side(arrival.number), None)
}

/// The gap of this level, which is first reached at the place, in lowest terms.
fn gap_at(level: Level, place: Place, first: Side, second: Option<Side>) -> Gap
    ensures written { IsWritten result }
    ensures distance { nat_abs result.top * level.bottom ≡ level.top * nat_abs result.bottom }
    ensures place { nat_abs result.at_top * place.bottom ≡ place.top * nat_abs result.at_bottom }
    ensures first { result.first ≡ first }
    ensures second { result.second ≡ second }
    ensures small { IsSmall result }
{
    let distance = in_lowest_terms(level.top, level.bottom);
    let at = in_lowest_terms(place.top, place.bottom);
    Gap {
        top: i128::from(distance.top),
        bottom: i128::from(distance.bottom),
        at_top: i128::from(at.top),
        at_bottom: i128::from(at.bottom),
        first,
        second,
    }
}
