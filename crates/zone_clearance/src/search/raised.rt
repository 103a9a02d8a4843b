//! The least level on the way of the greater of two lines.

ghost use Rattle.std.specs.Prelude.{◌≡◌, ◌≤◌, ◌*◌, MatchOption, nat_abs, pos, ◌*ℤ◌, ◌≤ℤ◌, ◌<ℤ◌};
ghost use Rattle.std.specs.Int.{int_max, int_min};
ghost use Rattle.rapid_limits.specs.declared.TheConstants.{EXTERNAL_REACH};
ghost use Rattle.zone_clearance.specs.Levels.{IsCrossing, IsRaised, Under, crossing_bottom, crossing_top};

use crate::line::Line;
use crate::product::product;
use crate::search::level::Level;

/// The least level on the way of the greater of two lines, if it is above `best`.
pub(crate) fn raised(one: Line, two: Line, best: Level) -> Option<Level>
    ensures { IsRaised one two best result }
{
    let ends = lower_end(one, two);
    if best.is_at_least(ends) {
        return None;
    }
    if one.start >= two.start {
        raised_between(one, two, ends, best)
    } else {
        raised_between(two, one, ends, best)
    }
}

/// The lower end of the greater of two lines.
fn lower_end(one: Line, two: Line) -> i64
    ensures lower { result ≡ int_min (int_max one.start two.start) (int_max one.end two.end) }
    ensures small { nat_abs result ≤ 2 * EXTERNAL_REACH }
{
    one.start.max(two.start).min(one.end.max(two.end))
}

/// The same for two lines of which `upper` does not start below `lower`. At the ends the greater one is at least
/// `ends`, which is above `best`.
fn raised_between(upper: Line, lower: Line, ends: i64, best: Level) -> Option<Level>
    requires upper { lower.start ≤ℤ upper.start }
    requires ends { ends ≡ int_min (int_max upper.start lower.start) (int_max upper.end lower.end) }
    requires above { pos best.top <ℤ (ends *ℤ pos best.bottom) }
    requires small { nat_abs ends ≤ 2 * EXTERNAL_REACH }
    ensures { IsRaised upper lower best result }
{
    if lower.end <= upper.end {
        return Some(Level::whole(ends));
    }
    let level = crossing_above(upper, lower, best)?;
    if level.is_at_least(ends) {
        Some(Level::whole(ends))
    } else {
        Some(level)
    }
}

/// The level at which two lines cross, if it is above `best`.
fn crossing_above(upper: Line, lower: Line, best: Level) -> Option<Level>
    requires start { lower.start ≤ℤ upper.start }
    requires end { upper.end <ℤ lower.end }
    ensures { MatchOption result
        (Under upper best (crossing_top upper lower) (crossing_bottom upper lower))
        (λ level. IsCrossing upper lower best level) }
{
    let start = upper.start.abs_diff(lower.start);
    let end = lower.end.abs_diff(upper.end);
    let top = scaled(upper.start, end) + scaled(upper.end, start);
    let bottom = start + end;
    if top < 0 || product(top.unsigned_abs(), best.bottom) <= product(best.top, bottom) {
        return None;
    }
    Some(Level {
        top: top.unsigned_abs(),
        bottom,
    })
}

fn scaled(thousandths: i64, by: u64) -> i64
    requires thousandths { nat_abs thousandths ≤ 2 * EXTERNAL_REACH }
    requires by { by ≤ 4 * EXTERNAL_REACH }
    ensures scaled { result ≡ thousandths *ℤ pos by }
    ensures small { nat_abs result ≤ 80_000_000_000_000_000 }
{
    thousandths * by as i64
}
